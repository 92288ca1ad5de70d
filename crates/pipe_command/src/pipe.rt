//! The command `pipe`.

ghost use Rattle.std.specs.Prelude.{◌≡◌, ◌≢◌, ◌≤◌, Err, IfSome, IfErr, IsTrue, IfOk};
ghost use Rattle.io_edges.specs.Files.{Rose};
ghost use Rattle.command_line.specs.View.{task_view};
ghost use Rattle.pipe_script.specs.Script.{script_of};
ghost use Rattle.command_answers.specs.Answer.{answer_of, expected_text, IsAnswer, IsFileAnswer, IsQuiet};
ghost use Rattle.command_answers.specs.Outputs.{Prints};
ghost use Rattle.command_answers.specs.Requests.{Asks, IsNotOfFiles};
ghost use Rattle.pipe_command.specs.Pipes.{entries_wants, pipe_wants, pipe_files, expected_of_pipe, AreHeld, IsPipeHeld, IsOfPipe};
ghost use Rattle.pipe_command.specs.View.{report_in, IsOfFiles};

use crate::runs::run_script;
use crate::script::load_script;
use command_answers::files::read_task;
use command_answers::run_report::RunReport;
use command_line::command::Task;
use guest_types::length::Vl;
use io_edges::files::Files;
use io_edges::sink::{Sink, put_all};
use refusals::refusal::{Done, Refusal};
use std::alloc::Global;

// Runs a script over the pages of a map.
fn pipe_files<F: Files>(
    alloc: Global,
    vl: Vl,
    task: &Task,
    script: &[u8],
    map: &[u8],
    files: &mut F,
) -> Result<RunReport, Refusal>
    ensures answer { IfSome (F.held files.old) (λ held. IsFileAnswer (F.faults files.old) (F.faults files.new)
        (pipe_files held vl (task_view task.now) script.now map.now) (report_in result)) }
    ensures held { F.held files.new ≡ F.held files.old }
    ensures later { F.faults files.old ≤ F.faults files.new }
    ensures failed { result ≡ Err Refusal.File → Rose (F.faults files.old) (F.faults files.new) }
    ensures reads { IsTrue (F.steady files.old)
        → IfSome (F.held files.old) (λ held. IfOk (script_of script.now) (AreHeld held)
        → result ≢ Err Refusal.File) }
    ensures of_files { IfErr result IsOfFiles }
    ensures asked { Asks IsNotOfFiles (F.requests files.old) (F.requests files.new) (entries_wants (script_of script.now)) result }
{
    let loaded = load_script(alloc, script, map, files)?;
    let report = run_script(alloc, vl, task, &loaded)?;
    Ok(report)
}

/// Runs the lines of a script, each over the pages of a map as those before left them, and puts how they came out on the output,
/// with the dump that is asked for after them. No line runs before all files are read.
pub fn pipe<F: Files, S: Sink>(
    alloc: Global,
    vl: Vl,
    task: &Task,
    files: &mut F,
    out: &mut S,
) -> Result<Done, Refusal>
    ensures answer { IfSome (F.held files.old)
        (λ held. IsAnswer (F.faults files.old) (F.faults files.new) (Rose (S.faults out.old) (S.faults out.new))
        (answer_of (expected_of_pipe held vl (task_view task.now))) result) }
    ensures held { F.held files.new ≡ F.held files.old }
    ensures printed { IfSome (F.held files.old)
        (λ held. Prints (S.taken out.old) (S.taken out.new)
        (expected_text (expected_of_pipe held vl (task_view task.now))) result) }
    ensures quiet { IsQuiet result → out.new ≡ out.old }
    ensures failed { result ≡ Err Refusal.File → Rose (F.faults files.old) (F.faults files.new) }
    ensures output { result ≡ Err Refusal.Output → Rose (S.faults out.old) (S.faults out.new) }
    ensures steady { IsTrue (F.steady files.old)
        → IfSome (F.held files.old) (λ held. IsPipeHeld held (task_view task.now) → result ≢ Err Refusal.File) }
    ensures of_pipe { IsOfPipe result }
    ensures asked { IfSome (F.held files.old)
        (λ held. Asks IsNotOfFiles (F.requests files.old) (F.requests files.new) (pipe_wants held (task_view task.now)) result) }
{
    let read = read_task(alloc, task, files)?;
    let report = pipe_files(alloc, vl, task, &read.file, &read.map, files)?;
    put_all(out, &report.text)?;
    Ok(report.done)
}
