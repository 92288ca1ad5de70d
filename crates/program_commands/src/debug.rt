//! The command `debug`.

ghost use Rattle.command_answers.specs.Requests.{Asks, IsNotOfFiles, task_wants};
ghost use Rattle.std.specs.Prelude.{◌≡◌, ◌≢◌, ◌⊎◌, Err, IfSome, IfOk, IfErr, IsTrue, List, ℕ};
ghost use Rattle.io_edges.specs.Files.{Rose};
ghost use Rattle.command_line.specs.View.{task_view};
ghost use Rattle.command_answers.specs.Answer.{answer_of, expected_text, IsAnswer, IsQuiet};
ghost use Rattle.program_commands.specs.Commands.{expected_of_debug, debug_program, IsOfDebug};
ghost use Rattle.command_answers.specs.Reads.{IsTaskHeld};
ghost use Rattle.command_answers.specs.Works.{RefusesProgram};
ghost use Rattle.command_answers.specs.Outputs.{Prints};
ghost use Rattle.program_commands.specs.Ready.{BeginsSession, DebugsAsItCame, DebugsInTime};

use crate::program::load_machine;
use command_answers::files::read_task;
use command_line::command::Task;
use guest_types::length::Vl;
use io_edges::files::Files;
use io_edges::sink::Sink;
use io_edges::source::Source;
use lane_memory::suppress::Suppress;
use refusals::refusal::{Done, Refusal};
use std::alloc::Global;
use sve_debug::debugger::Debugger;
use sve_debug::session::session;
use sve_machine::Machine;

// A debugger of the program in a file, beside the pages of a map.
fn debugger_of(
    alloc: Global,
    vl: Vl,
    task: &Task,
    bytes: &[u8],
    map: &[u8],
) -> Result<Debugger<Machine>, Refusal>
    ensures begins { IfOk result (λ d. BeginsSession vl (task_view task.now) bytes.now map.now d) }
    ensures refusal { IfErr result (λ refusal. (input : List ℕ) →
        RefusesProgram (debug_program vl (task_view task.now) bytes.now map.now input) refusal) }
{
    let machine = load_machine(alloc, vl, Suppress::none(), task, bytes, map)?;
    let debugger = Debugger::new(alloc, machine)?;
    Ok(debugger)
}

/// Answers the lines of the input on the program in a file, beside the pages of a map. The replies go to the output as they come.
pub fn debug<F: Files, I: Source, S: Sink>(
    alloc: Global,
    vl: Vl,
    task: &Task,
    files: &mut F,
    input: &mut I,
    out: &mut S,
) -> Result<Done, Refusal>
    requires { (i : I) (s : S) → DebugsInTime (F.held files.old) vl (task_view task.now)
        (I.left input.old) (I.left i) (S.taken out.old) (S.taken s) → I.may_take i }
    ensures answer { IfSome (I.left input.old) (λ bytes. IfSome (F.held files.old)
        (λ held. IsAnswer (F.faults files.old) (F.faults files.new)
        (Rose (S.faults out.old) (S.faults out.new) ⊎ Rose (I.faults input.old) (I.faults input.new))
        (answer_of (expected_of_debug held bytes vl (task_view task.now))) result)) }
    ensures held { F.held files.new ≡ F.held files.old }
    ensures printed { IfSome (I.left input.old) (λ bytes. IfSome (F.held files.old)
        (λ held. Prints (S.taken out.old) (S.taken out.new)
        (expected_text (expected_of_debug held bytes vl (task_view task.now))) result)) }
    ensures quiet { IsQuiet result → out.new ≡ out.old }
    ensures failed { result ≡ Err Refusal.File → Rose (F.faults files.old) (F.faults files.new) }
    ensures output { result ≡ Err Refusal.Output
        → Rose (S.faults out.old) (S.faults out.new) ⊎ Rose (I.faults input.old) (I.faults input.new) }
    ensures as_it_comes { result ≡ Err Refusal.Output → (Rose (S.faults out.old) (S.faults out.new) → ⊥)
        → IfSome (I.left input.old) (λ bytes. IfSome (F.held files.old)
        (λ held. DebugsAsItCame held vl (task_view task.now) bytes (I.left input.new)
        (S.taken out.old) (S.taken out.new))) }
    ensures steady { IsTrue (F.steady files.old)
        → IfSome (F.held files.old) (λ held. IsTaskHeld held (task_view task.now)
        → result ≢ Err Refusal.File) }
    ensures of_debug { IsOfDebug result }
    ensures asked { Asks IsNotOfFiles (F.requests files.old) (F.requests files.new) (task_wants (task_view task.now)) result }
{
    let read = read_task(alloc, task, files)?;
    let mut debugger = debugger_of(alloc, vl, task, &read.file, &read.map)?;
    session(alloc, &mut debugger, input, out)?;
    Ok(Done::Ended)
}
