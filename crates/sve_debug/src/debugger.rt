//! The debugger.

ghost use Rattle.std.specs.Prelude.{◌≡◌, [], ◌-◌, ◌+◌, ◌^◌, ◌<◌, ◌≤◌, ◌||◌, None, IfOk, IsTrue, length, not, nat_lt};
ghost use Rattle.io_edges.specs.Sink.{PutsText, HasCause};
ghost use Rattle.machine_model.specs.Machine.{State};
ghost use Rattle.sve_debug.specs.DebuggerState.{Stands, held_stand, answer_text, with_breaks};
ghost use Rattle.sve_debug.specs.Replies.{Session, started, counted_steps, is_too_far, after_back, is_break, with_break, break_text, part_text, after_command, command_text, after_line, line_text, quits};
ghost use Rattle.sve_debug.specs.View.{IsPart, IsWithin};
ghost use Rattle.debug_history.specs.Kept.{counts_of};

use crate::command::{Command, Part};
use crate::kept_run::run_kept;
use crate::line::command_of;
use crate::put::{put_dump, put_end, put_line, put_named, put_place, put_places, put_stop};
use crate::run::{Free, Places, Stopping, run};
use crate::show::{put_first_fault, put_flags, put_general, put_predicate, put_vector};
use arrayvec::ArrayVec;
use debug_history::history;
use debug_history::keepable::Keepable;
use io_edges::sink::{Failed, Sink};
use machine_model::outcome::Ending;
use std::alloc::{AllocError, Global};
use std::marker::Model;

/// The places of so many steps are held, the last ones.
const LAST_PLACES: usize = 64;

/// So many breakpoints are held at most.
const MOST_BREAKS: usize = 16;

/// A machine that is run step by step by the lines of a session, and looked at between them. From `new` on it takes no
/// memory.
#[derive(Drop)]
pub struct Debugger<D: Keepable> {
    machine: D,
    places: Places,
    breaks: ArrayVec<u64, MOST_BREAKS>,
}

impl<D: Keepable> Model for Debugger<D> {
    ghost use Rattle.std.specs.Prelude.{◌≡◌, ◌≤◌, All, IsTrue, length};
    ghost use Rattle.sve_debug.specs.DebuggerState.{DebuggerState, IsTwin, held_by};

    ghost Value = { DebuggerState };

    ghost view = { λ d. held_by (D.view_of d.machine) d.breaks.items d.places.items };

    ghost invariant = { λ d. (d.places.capacity ≡ 64)
        × IsTrue (D.view_of d.machine).quiet × (1 ≤ length (D.view_of d.machine).past)
        × All (IsTwin (D.view_of d.machine)) (D.view_of d.machine).past };
}

impl<D: Keepable> Debugger<D> {
    /// A session that begins with this machine, which has done no step. A refusal drops the machine.
    pub fn new(alloc: Global, machine: D) -> Result<Debugger<D>, AllocError>
        requires steps { (D.view_of machine).steps ≡ 0 }
        requires over { (D.view_of machine).over ≡ None }
        requires quiet { IsTrue (D.view_of machine).quiet }
        ensures { let start = (D.view_of machine).state in IfOk result (λ d. Stands d start (started start)) }
    {
        let places = Places::with_capacity(alloc, LAST_PLACES)?;
        let mut machine = machine;
        machine.begin(alloc)?;
        Ok(Debugger {
            machine,
            places,
            breaks: ArrayVec::new(),
        })
    }

    // Up to so many steps.
    fn take_steps(&mut self, most: u64)
        requires { self.old.machine.steps + most < 2 ^ 64 }
        ensures session { (start : State) (d : Session) → Stands self.old start d →
            Stands self.new start (counted_steps [] most d) }
        ensures steps { self.new.machine.steps ≤ self.old.machine.steps + most }
    {
        run_kept::<D, Free, false>(&mut self.machine, &mut self.places, &[], most);
    }

    // Up to so many steps, and none after one that comes to a breakpoint.
    fn go(&mut self, most: u64)
        requires { self.old.machine.steps + most < 2 ^ 64 }
        ensures session { (start : State) (d : Session) → Stands self.old start d →
            Stands self.new start (counted_steps d.breaks most d) }
        ensures steps { self.new.machine.steps ≤ self.old.machine.steps + most }
    {
        let stops = self.breaks.as_slice();
        if stops.is_empty() {
            return run_kept::<D, Free, false>(&mut self.machine, &mut self.places, stops, most);
        }
        run_kept::<D, Stopping, true>(&mut self.machine, &mut self.places, stops, most);
    }

    // So many steps back, and answers whether they were done.
    fn back(&mut self, count: u64) -> bool
        requires { 1 ≤ count }
        ensures gone { result ≡ not (is_too_far count self.old.machine.steps (counts_of self.old.machine.past)) }
        ensures session { (start : State) (d : Session) → Stands self.old start d →
            Stands self.new start (after_back count d) }
        ensures steps { self.new.machine.steps ≤ self.old.machine.steps }
    {
        let steps = self.machine.steps_done();
        if steps < count {
            return false;
        }
        let target = steps - count;
        if !history::back(&mut self.machine, target) {
            return false;
        }
        self.places.clear();
        let left = target - self.machine.steps_done();
        run(&mut self.machine, &mut self.places, left);
        true
    }

    // Holds a breakpoint, and answers whether it does.
    fn hold(&mut self, address: u64) -> bool
        ensures held { result ≡ (is_break self.old.breaks address || nat_lt (length self.old.breaks) 16) }
        ensures breaks { self.new ≡ with_breaks (with_break address self.old.breaks) self.old }
    {
        if self.breaks.as_slice().contains(&address) {
            return true;
        }
        let room = self.breaks.len() < MOST_BREAKS;
        if room {
            self.breaks.push(address);
        }
        room
    }

    // Puts where the machine stands, or how it ended or stopped.
    fn put_stand<S: Sink>(&self, out: &mut S) -> Result<(), Failed>
        ensures { let text = held_stand self.now in
            PutsText (S.taken out.old) (S.taken out.new) (S.faults out.old) (S.faults out.new) text result }
    {
        let steps = self.machine.steps_done();
        match self.machine.over() {
            None => put_place(out, self.machine.pc(), steps),
            Some(Ending::Ended) => put_end(out, self.machine.x(0), steps),
            Some(Ending::Stopped(stop)) => put_stop(out, stop, steps),
        }
    }

    // Puts a part of the machine.
    fn put_part<S: Sink>(&self, part: Part, out: &mut S) -> Result<(), Failed>
        requires { IsPart part }
        ensures { let text = part_text part self.now.machine.state self.now.last in
            PutsText (S.taken out.old) (S.taken out.new) (S.faults out.old) (S.faults out.new) text result }
    {
        match part {
            Part::General(n) => put_general(&self.machine, n, out),
            Part::Vector(n) => put_vector(&self.machine, n, out),
            Part::Predicate(n) => put_predicate(&self.machine, n, out),
            Part::Memory { address, len } => put_dump(out, &self.machine, address, len),
            Part::Place => put_named(out, b"pc", self.machine.pc()),
            Part::Stack => put_named(out, b"sp", self.machine.sp()),
            Part::Flags => put_flags(&self.machine, out),
            Part::FirstFault => put_first_fault(&self.machine, out),
            Part::Past => put_places(out, &self.places),
        }
    }

    // Puts whether a breakpoint is held.
    fn put_break<S: Sink>(&mut self, address: u64, out: &mut S) -> Result<(), Failed>
        ensures breaks { self.new ≡ with_breaks (with_break address self.old.breaks) self.old }
        ensures text { let text = break_text address self.old.breaks in
            PutsText (S.taken out.old) (S.taken out.new) (S.faults out.old) (S.faults out.new) text result }
    {
        let held = self.hold(address);
        if held {
            put_named(out, b"break", address)
        } else {
            put_line(out, b"no room", b"", b"", b"")
        }
    }

    // Goes so many steps back, and puts where the machine stands then, or that this is too far.
    fn put_back<S: Sink>(&mut self, count: u64, out: &mut S) -> Result<(), Failed>
        requires { 1 ≤ count }
        ensures session { (start : State) (d : Session) → Stands self.old start d →
            Stands self.new start (after_back count d) }
        ensures steps { self.new.machine.steps ≤ self.old.machine.steps }
        ensures text { let text = answer_text (Command.Back count) self.old self.new in
            PutsText (S.taken out.old) (S.taken out.new) (S.faults out.old) (S.faults out.new) text result }
    {
        if self.back(count) {
            self.put_stand(out)
        } else {
            put_line(out, b"too far", b"", b"", b"")
        }
    }

    // Does what a command asks for, and puts what it answers.
    fn answer<S: Sink>(&mut self, command: Command, out: &mut S) -> Result<(), Failed>
        requires few { self.old.machine.steps ≤ 2 ^ 64 - 100000001 }
        requires within { IsWithin command }
        ensures session { (start : State) (d : Session) → Stands self.old start d →
            Stands self.new start (after_command command d) }
        ensures steps { self.new.machine.steps ≤ self.old.machine.steps + 100000000 }
        ensures text { let text = answer_text command self.old self.new in
            PutsText (S.taken out.old) (S.taken out.new) (S.faults out.old) (S.faults out.new) text result }
    {
        match command {
            Command::Step(most) => {
                self.take_steps(most);
                self.put_stand(out)
            }
            Command::Go(most) => {
                self.go(most);
                self.put_stand(out)
            }
            Command::Back(count) => self.put_back(count, out),
            Command::Break(address) => self.put_break(address, out),
            Command::Show(part) => self.put_part(part, out),
            Command::Quit => Ok(()),
        }
    }

    /// Answers a line, which has no line feed, and says whether the session goes on. Where the output fails, the machine
    /// stands as the line leaves it.
    pub fn command<S: Sink>(&mut self, line: &[u8], out: &mut S) -> Result<bool, Failed>
        requires { self.old.machine.steps ≤ 2 ^ 64 - 100000001 }
        ensures session { (start : State) (d : Session) → Stands self.old start d →
            Stands self.new start (after_line line.now d) }
        ensures steps { self.new.machine.steps ≤ self.old.machine.steps + 100000000 }
        ensures told { (start : State) (d : Session) → Stands self.old start d →
            PutsText (S.taken out.old) (S.taken out.new) (S.faults out.old) (S.faults out.new)
            (line_text line.now d) result }
        ensures cause { HasCause (S.faults out.old) (S.faults out.new) result }
        ensures goes_on { IfOk result (λ on. on ≡ not (quits line.now)) }
    {
        if line.is_empty() {
            return Ok(true);
        }
        let Some(command) = command_of(line) else {
            put_line(out, b"bad line", b"", b"", b"")?;
            return Ok(true);
        };
        self.answer(command, out)?;
        Ok(!matches!(command, Command::Quit))
    }
}
