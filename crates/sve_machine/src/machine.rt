//! The machine.

ghost use Rattle.std.specs.Prelude.{◌≡◌, ◌+◌, ◌-◌, ◌^◌, ◌<◌, ◌≤◌, None, IfSome, IsTrue, is_none, OnOk, OnErr, true, [], ◌∷◌, length, take, slice_index_or};

use crate::advance::{ByItself, advance, go};
use crate::decoded::CacheEntry;
use crate::history::History;
use crate::look_up::no_words;
use crate::snapshot::Snapshot;
use crate::vectors::Vectors;
use a64_machine::{Core, FlagState};
use guest_types::length::Vl;
use lane_memory::suppress::Suppress;
use machine_model::outcome::{Ending, Outcome, Step};
use paged_memory::pages::Pages;
use std::alloc::{AllocError, Global};
use std::marker::Model;

/// A machine with its memory. From `new` on it takes no memory from the system, but for `begin`.
#[derive(Drop)]
pub struct Machine {
    // The first, so that an entry is reached from the machine's own address.
    decoded: [CacheEntry; 1024],
    core: Core,
    pages: Pages,
    vectors: Vectors,
    steps: u64,
    over: Option<Ending>,
    // What it was beside the past of the pages, where a past was begun.
    history: Option<History>,
    // Where a step leaves its answer; one made anew would be filled at each step.
    answer: Step,
}

impl Model for Machine {
    ghost use Rattle.machine_model.specs.Debugged.{View};
    ghost use Rattle.sve_machine.specs.Pasts.{past_by, rests_of, IsWhole};
    ghost use Rattle.sve_machine.specs.View.{view_of};

    ghost Value = { View };

    ghost view = { λ m. view_of m.core m.pages.memory m.vectors m.steps m.over
        (past_by m.pages.past (rests_of m.history)) };

    ghost invariant = { λ m. IsWhole m.pages.memory m.pages.past m.decoded m.history };
}

impl Machine {
    ghost use Rattle.guest_types.specs.EarlyLoads.{never};
    ghost use Rattle.machine_model.specs.Run.{run, start_of};
    ghost use Rattle.machine_model.specs.OneStep.{step};
    ghost use Rattle.machine_model.specs.Answers.{IsAnswer, outcome_of};
    ghost use Rattle.guest_types.specs.Kept.{kept_more};
    ghost use Rattle.sve_machine.specs.Pasts.{past_at};
    ghost use Rattle.machine_model.specs.Debugged.{Past, now, RunLeaves, is_never, answer_by, ending_by, outcome_by};
    ghost use Rattle.a64_machine.specs.Cores.{state_of};
    ghost use Rattle.sve_machine.specs.View.{Leaves, vector_part};

    /// A machine that is about to do its first step: the arguments stand in X0 on, PC is the entry, and all other registers
    /// are zero.
    pub fn new(pages: Pages, entry: u64, args: &[u64], vl: Vl) -> Machine
        requires { length args.now ≤ 8 }
        ensures state { result.state ≡ start_of pages.memory entry args.now vl never }
        ensures steps { result.steps ≡ 0 }
        ensures over { result.over ≡ None }
        ensures quiet { result.quiet ≡ true }
        ensures past { result.past ≡ [] }
    {
        Machine::suppressing(pages, entry, args, vl, Suppress::none())
    }

    /// The same with a stop list: its first-fault and non-fault loads stop early where the list says so.
    #[tactic(auto, unfolding(machine_model::specs::Run::start_of), using(crate::proofs::StartRegisters::arguments_fill_registers))]
    pub fn suppressing(pages: Pages, entry: u64, args: &[u64], vl: Vl, stops: Suppress) -> Machine
        requires { length args.now ≤ 8 }
        ensures state { result.state ≡ start_of pages.memory entry args.now vl stops }
        ensures steps { result.steps ≡ 0 }
        ensures over { result.over ≡ None }
        ensures quiet { result.quiet ≡ is_never stops }
        ensures past { result.past ≡ [] }
    {
        let mut x = [0; 31];
        x[..args.len()].copy_from_slice(args);
        let core = Core {
            x,
            sp: 0,
            pc: entry,
            nzcv: FlagState::Bits(0),
            vzero: 0,
        };
        Machine {
            decoded: no_words(),
            core,
            pages,
            vectors: Vectors::new(vl, stops),
            steps: 0,
            over: None,
            history: None,
            answer: Step::Went,
        }
    }

    // At most so many steps of a machine that has not come to its last one: the last answer.
    fn advance(&mut self, steps: u64) -> Step
        requires running { self.old.over ≡ None }
        requires few { self.old.steps + steps ≤ 2 ^ 64 - 1 }
        ensures leaves { Leaves result steps (self.new.steps - self.old.steps) self.old.state self.new.state }
        ensures counted { self.old.steps ≤ self.new.steps }
        ensures over { self.new.over ≡ ending_by result }
        ensures quiet { IsTrue self.old.quiet → IsTrue self.new.quiet }
        ensures past { self.new.past ≡ self.old.past }
    {
        let (answer, left) = go(
            &mut self.core,
            &mut self.pages,
            &mut self.vectors,
            &mut self.decoded,
            steps,
        );
        self.steps += steps - left;
        self.over = ending_by(answer);
        answer
    }

    /// One step. After an end or a stop it answers the same again and changes nothing.
    #[inline(always)]
    pub fn step(&mut self) -> Step
        requires { self.old.steps < 2 ^ 64 - 1 }
        ensures again { IfSome self.old.over (λ ending. result ≡ answer_by ending) }
        ensures unchanged { IfSome self.old.over (λ ending. self.new ≡ self.old) }
        ensures answer { self.old.over ≡ None → IsAnswer (step self.old.state) result self.old.state self.new.state }
        ensures steps { self.old.over ≡ None → self.new.steps ≡ self.old.steps + 1 }
        ensures over { self.old.over ≡ None → self.new.over ≡ ending_by result }
        ensures quiet { IsTrue self.old.quiet → IsTrue self.new.quiet }
        ensures past { self.new.past ≡ self.old.past }
    {
        if let Some(ending) = self.over {
            return answer_by(ending);
        }
        self.step_on()
    }

    /// One step of a machine that has not come to an end or a stop.
    #[inline(always)]
    pub fn step_on(&mut self) -> Step
        requires running { self.old.over ≡ None }
        requires few { self.old.steps < 2 ^ 64 - 1 }
        ensures answer { IsAnswer (step self.old.state) result self.old.state self.new.state }
        ensures steps { self.new.steps ≡ self.old.steps + 1 }
        ensures over { self.new.over ≡ ending_by result }
        ensures quiet { IsTrue self.old.quiet → IsTrue self.new.quiet }
        ensures past { self.new.past ≡ self.old.past }
    {
        let mut place = 0;
        let _ = self.goes_on::<ByItself>(&mut place);
        self.steps += 1;
        answer_of(self.over)
    }

    /// The same, and only whether it goes on, with the place of the instruction: how the machine came to its end is in `over`,
    /// and the step is counted by `count`. It has no loop of its own and no test that a loop of steps can do without, so that
    /// a caller's loop is as fast as `run`. `L` names that loop (`prepared_goes`).
    #[inline(always)]
    pub fn goes_on<L>(&mut self, place: &mut u64) -> bool
        requires running { self.old.over ≡ None }
        ensures answer { IsAnswer (step self.old.state) (answer_of self.new.over) self.old.state self.new.state }
        ensures steps { self.new.steps ≡ self.old.steps }
        ensures place { place.new ≡ self.old.state.pc }
        ensures goes_on { result ≡ is_none self.new.over }
        ensures quiet { IsTrue self.old.quiet → IsTrue self.new.quiet }
        ensures past { self.new.past ≡ self.old.past }
    {
        let went = advance::<L>(
            &mut self.core,
            &mut self.pages,
            &mut self.vectors,
            &mut self.decoded,
            place,
            &mut self.answer,
        );
        if went {
            return true;
        }
        come_to_end(&self.answer, &mut self.over)
    }

    /// Counts steps that were done.
    pub fn count(&mut self, steps: u64)
        requires { self.old.steps + steps < 2 ^ 64 }
        ensures state { self.new.state ≡ self.old.state }
        ensures steps { self.new.steps ≡ self.old.steps + steps }
        ensures over { self.new.over ≡ self.old.over }
        ensures quiet { self.new.quiet ≡ self.old.quiet }
        ensures past { self.new.past ≡ self.old.past }
    {
        self.steps += steps;
    }

    /// How the machine came to an end or a stop, where it did.
    pub fn over(&self) -> Option<Ending>
        ensures { result ≡ self.now.over }
    {
        self.over
    }

    /// Runs for at most so many steps. `Spent` comes exactly where all of them went without an end or a stop.
    pub fn run(&mut self, steps: u64) -> Outcome
        requires { self.old.steps + steps ≤ 2 ^ 64 - 1 }
        ensures outcome { self.old.over ≡ None → run steps self.old.steps self.old.state
            ≡ outcome_of result self.new.state.memory self.new.state.pc self.new.steps }
        ensures leaves { self.old.over ≡ None → RunLeaves result steps self.old self.new }
        ensures again { IfSome self.old.over (λ ending. result ≡ outcome_by ending steps self.old.state) }
        ensures unchanged { IfSome self.old.over (λ ending. self.new ≡ self.old) }
        ensures quiet { IsTrue self.old.quiet → IsTrue self.new.quiet }
        ensures past { self.new.past ≡ self.old.past }
    {
        if let Some(ending) = self.over {
            return outcome_by(ending, steps, self.core.x[0]);
        }
        let answer = self.advance(steps);
        outcome_at(answer, self.core.x[0])
    }

    // All but the memory.
    fn snapshot(&self) -> Snapshot
        ensures { past_at self.now.state.memory result ≡ now self.now }
    {
        Snapshot {
            core: self.core,
            vectors: self.vectors.copy(),
            steps: self.steps,
            over: self.over,
        }
    }

    /// Takes the memory of a past of eight, and begins it: the machine is kept as it is now.
    ///
    /// # Errors
    /// `AllocError` where there is not that much memory. The machine is then as it was.
    pub fn begin(&mut self, alloc: Global) -> Result<(), AllocError>
        ensures now { now self.new ≡ now self.old }
        ensures begun { OnOk result (self.new.past ≡ now self.old ∷ []) }
        ensures unchanged { OnErr result (self.new.past ≡ self.old.past) }
    {
        let history = History::begun(alloc, self.snapshot())?;
        self.pages.begin(alloc)?;
        self.history = Some(history);
        Ok(())
    }

    /// Keeps the machine as it is now, in place of the oldest one where eight are kept. It takes no memory.
    pub fn keep(&mut self)
        requires { 1 ≤ length self.old.past }
        ensures now { now self.new ≡ now self.old }
        ensures past { self.new.past ≡ kept_more (now self.old) self.old.past }
    {
        let snapshot = self.snapshot();
        if let Some(history) = &mut self.history {
            history.keep(snapshot);
            self.pages.note();
        }
    }

    /// Goes back to one of those that were kept, oldest first. Those after it are kept no longer. It takes no memory.
    pub fn go_back(&mut self, n: usize)
        requires { n < length self.old.past }
        ensures now { (d : Past) → slice_index_or self.old.past n d ≡ now self.new }
        ensures past { self.new.past ≡ take (n + 1) self.old.past }
    {
        if let Some(history) = &mut self.history {
            let rest = history.at(n);
            self.core = rest.core;
            self.vectors = rest.vectors.copy();
            self.steps = rest.steps;
            self.over = rest.over;
            history.cut(n);
            self.pages.back(n);
            self.decoded = no_words();
        }
    }

    /// How many are kept.
    pub fn kept(&self) -> usize
        ensures { result ≡ length self.now.past }
    {
        match &self.history {
            Some(history) => history.len(),
            None => 0,
        }
    }

    /// How many steps one of those that are kept had done, oldest first.
    pub fn kept_steps(&self, n: usize) -> u64
        requires { n < length self.now.past }
        ensures { (d : Past) → (slice_index_or self.now.past n d).steps ≡ result }
    {
        match &self.history {
            Some(history) => history.at(n).steps,
            None => 0,
        }
    }

    /// How many steps were done; one that ended or stopped is counted.
    pub fn steps_done(&self) -> u64
        ensures { result ≡ self.now.steps }
    {
        self.steps
    }

    // The registers of A64 instructions.
    pub(crate) fn core(&self) -> &Core
        ensures { state_of result.now self.now.state.memory (vector_part self.now.state) ≡ self.now.state }
    {
        &self.core
    }

    // The vector registers.
    pub(crate) fn vectors(&self) -> &Vectors
        ensures { result.now ≡ vector_part self.now.state }
    {
        &self.vectors
    }

    /// The memory.
    pub fn pages(&self) -> &Pages
        ensures { result.now.memory ≡ self.now.state.memory }
    {
        &self.pages
    }

    /// The memory of a machine that is done with.
    pub fn into_pages(self) -> Pages
        ensures { result.memory ≡ self.state.memory }
    {
        self.pages
    }
}

// What an answer leaves of a machine that was running, and whether it runs on.
#[cold]
#[inline(never)]
fn come_to_end(answer: &Step, over: &mut Option<Ending>) -> bool
    ensures over { over.new ≡ ending_by answer.now }
    ensures goes_on { result ≡ is_none over.new }
{
    *over = ending_by(*answer);
    over.is_none()
}

// A step that went leaves the machine running.
fn ending_by(answer: Step) -> Option<Ending>
    ensures { result ≡ ending_by answer }
{
    match answer {
        Step::Went => None,
        Step::Ended => Some(Ending::Ended),
        Step::Stopped(stop) => Some(Ending::Stopped(stop)),
    }
}

// What a run answers whose last step came to this answer, where X0 is the result.
fn outcome_at(answer: Step, x0: u64) -> Outcome
    ensures { result ≡ outcome_at answer x0 }
{
    match answer {
        Step::Went => Outcome::Spent,
        Step::Ended => Outcome::End { result: x0 },
        Step::Stopped(stop) => Outcome::Stop(stop),
    }
}

// What a run of so many steps answers after an end or a stop, where X0 is the result.
fn outcome_by(ending: Ending, steps: u64, x0: u64) -> Outcome
    ensures { (s : State) → x_at s 0 ≡ x0 → result ≡ outcome_by ending steps s }
{
    if steps == 0 {
        return Outcome::Spent;
    }
    match ending {
        Ending::Ended => Outcome::End { result: x0 },
        Ending::Stopped(stop) => Outcome::Stop(stop),
    }
}

// What a step answered after which the machine is over so.
fn answer_of(over: Option<Ending>) -> Step
    ensures { result ≡ answer_of over }
{
    match over {
        None => Step::Went,
        Some(ending) => answer_by(ending),
    }
}

// What is answered after an end or a stop.
fn answer_by(ending: Ending) -> Step
    ensures { result ≡ answer_by ending }
{
    match ending {
        Ending::Ended => Step::Ended,
        Ending::Stopped(stop) => Step::Stopped(stop),
    }
}

ghost use Rattle.machine_model.specs.Machine.{State, x_at};
ghost use Rattle.machine_model.specs.Debugged.{ending_by, answer_by, outcome_by};
ghost use Rattle.debug_history.specs.Answered.{answer_of};
ghost use Rattle.sve_machine.specs.View.{outcome_at};
