//! The command `run`.

ghost use Rattle.command_answers.specs.Requests.{Asks, IsNotOfFiles, task_wants};
ghost use Rattle.std.specs.Prelude.{◌≡◌, ◌≢◌, Err, IfSome, IfOk, IfErr, IsTrue};
ghost use Rattle.io_edges.specs.Files.{Rose};
ghost use Rattle.command_line.specs.View.{task_view};
ghost use Rattle.command_answers.specs.Answer.{answer_of, expected_text, IsAnswer, IsQuiet};
ghost use Rattle.program_commands.specs.Commands.{expected_of_run, run_program, stops_of, IsOfRun};
ghost use Rattle.command_answers.specs.Reads.{IsTaskHeld};
ghost use Rattle.command_answers.specs.Works.{done_of, run_report, RefusesProgram};
ghost use Rattle.command_answers.specs.Outputs.{Prints};

use crate::program::load_machine;
use command_answers::files::read_task;
use command_answers::run_report::{RunReport, done_of, push_dump};
use command_line::command::Task;
use guest_types::length::Vl;
use io_edges::files::Files;
use io_edges::sink::{Sink, put_all};
use lane_memory::suppress::Suppress;
use machine_model::debuggee::Debuggee;
use outcome_text::outcome_text;
use refusals::refusal::{Done, Refusal};
use std::alloc::Global;

// The stop list of a run.
fn stop_list(suppress: Option<u64>) -> Suppress
    ensures { result ≡ stops_of suppress }
{
    let Some(every) = suppress else {
        return Suppress::none();
    };
    match Suppress::each(every) {
        Some(stops) => stops,
        None => Suppress::none(),
    }
}

// Runs the program of a file beside the pages of a map.
fn run_program(
    alloc: Global,
    vl: Vl,
    suppress: Option<u64>,
    task: &Task,
    bytes: &[u8],
    map: &[u8],
) -> Result<RunReport, Refusal>
    ensures work { IfOk result (λ p.
        run_program vl (stops_of suppress) (task_view task.now) bytes.now map.now ≡ run_report p) }
    ensures refusal { IfErr result (λ refusal. RefusesProgram
        (run_program vl (stops_of suppress) (task_view task.now) bytes.now map.now) refusal) }
{
    let stops = stop_list(suppress);
    let mut machine = load_machine(alloc, vl, stops, task, bytes, map)?;
    let outcome = machine.run(task.steps);
    let mut text = outcome_text(alloc, &outcome, machine.pc(), machine.steps_done())?;
    push_dump(&mut text, alloc, machine.pages(), task.dump)?;
    Ok(RunReport {
        done: done_of(&outcome),
        text,
    })
}

/// Runs the program in a file and puts the text of the outcome on the output, with the dump that is asked for after it.
pub fn run<F: Files, S: Sink>(
    alloc: Global,
    vl: Vl,
    suppress: Option<u64>,
    task: &Task,
    files: &mut F,
    out: &mut S,
) -> Result<Done, Refusal>
    ensures answer { IfSome (F.held files.old)
        (λ held. IsAnswer (F.faults files.old) (F.faults files.new) (Rose (S.faults out.old) (S.faults out.new))
        (answer_of (expected_of_run held vl (stops_of suppress) (task_view task.now))) result) }
    ensures held { F.held files.new ≡ F.held files.old }
    ensures printed { IfSome (F.held files.old)
        (λ held. Prints (S.taken out.old) (S.taken out.new)
        (expected_text (expected_of_run held vl (stops_of suppress) (task_view task.now))) result) }
    ensures quiet { IsQuiet result → out.new ≡ out.old }
    ensures failed { result ≡ Err Refusal.File → Rose (F.faults files.old) (F.faults files.new) }
    ensures output { result ≡ Err Refusal.Output → Rose (S.faults out.old) (S.faults out.new) }
    ensures steady { IsTrue (F.steady files.old)
        → IfSome (F.held files.old) (λ held. IsTaskHeld held (task_view task.now)
        → result ≢ Err Refusal.File) }
    ensures of_run { IsOfRun result }
    ensures asked { Asks IsNotOfFiles (F.requests files.old) (F.requests files.new) (task_wants (task_view task.now)) result }
{
    let read = read_task(alloc, task, files)?;
    let run_report = run_program(alloc, vl, suppress, task, &read.file, &read.map)?;
    put_all(out, &run_report.text)?;
    Ok(run_report.done)
}
