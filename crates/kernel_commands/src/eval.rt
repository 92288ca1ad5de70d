//! The command `eval`.

ghost use Rattle.command_answers.specs.Requests.{Asks, IsNotOfFiles, task_wants};
ghost use Rattle.std.specs.Prelude.{◌≡◌, ◌≢◌, Some, Err, IfSome, IfOk, IfErr, IsTrue, option_map, string_bytes, []};
ghost use Rattle.io_edges.specs.Files.{Rose};
ghost use Rattle.kernel_tree.specs.Plain.{program_of};
ghost use Rattle.kernel_tree.specs.Checked.{kernel_of};
ghost use Rattle.command_line.specs.View.{task_view};
ghost use Rattle.command_answers.specs.Answer.{answer_of, expected_text, IsAnswer, IsQuiet};
ghost use Rattle.kernel_commands.specs.Commands.{EvalExpects, ExpectsEval, eval_kernel, scalar_done, RefusesEval, IsOfEval};
ghost use Rattle.command_answers.specs.Reads.{IsTaskHeld};
ghost use Rattle.command_answers.specs.Works.{WhereExpected, run_report, RefusesProgram};
ghost use Rattle.command_answers.specs.Outputs.{Prints};

use command_answers::files::read_task;
use command_answers::run_report::{RunReport, push_dump};
use command_line::command::Task;
use guest_types::image::Image;
use io_edges::files::Files;
use io_edges::sink::{Sink, put_all};
use kernel_eval::scalar_run;
use kernel_front::accept;
use kernel_meaning::ScalarOutcome;
use kernel_tree::Checked;
use map_text::read_map;
use paged_memory::pages::Pages;
use refusals::refusal::{Done, Refusal};
use scalar_text::scalar_text;
use std::alloc::Global;

fn scalar_done(outcome: ScalarOutcome) -> Done
    ensures { result ≡ scalar_done outcome }
{
    match outcome {
        ScalarOutcome::End { .. } => Done::Ended,
        ScalarOutcome::Fault { .. } => Done::Stopped,
        ScalarOutcome::Spent => Done::Spent,
    }
}

// Evaluates a kernel over the pages of a map.
fn evaluate(alloc: Global, task: &Task, kernel: &Checked, map: &[u8]) -> Result<RunReport, Refusal>
    ensures work { IfOk result (λ p. eval_kernel (task_view task.now) map.now (program_of (kernel_of kernel.now))
        ≡ run_report p) }
    ensures refusal { IfErr result (λ refusal. RefusesProgram
        (eval_kernel (task_view task.now) map.now (program_of (kernel_of kernel.now))) refusal) }
    ensures of_eval { IfErr result (λ refusal. IsOfEval (Err refusal)) }
{
    let image = Image::empty(alloc);
    let map = read_map(alloc, map, &image)?;
    let mut pages = Pages::build(alloc, &image, &map)?;
    let outcome = scalar_run(alloc, kernel, &task.args, &mut pages, task.steps)?;
    let mut text = scalar_text(alloc, outcome)?;
    push_dump(&mut text, alloc, &pages, task.dump)?;
    Ok(RunReport {
        done: scalar_done(outcome),
        text,
    })
}

// Evaluates the kernel of a text over the pages of a map.
fn evaluate_text(alloc: Global, task: &Task, text: &[u8], map: &[u8]) -> Result<RunReport, Refusal>
    ensures work { IfOk result (λ p. EvalExpects (task_view task.now) text.now map.now (run_report p)) }
    ensures refusal { IfErr result
        (λ refusal. RefusesEval (EvalExpects (task_view task.now) text.now map.now) refusal) }
    ensures of_eval { IfErr result (λ refusal. IsOfEval (Err refusal)) }
{
    let kernel = accept(alloc, text)?;
    evaluate(alloc, task, &kernel, map)
}

/// Evaluates the kernel in a file over the pages of a map alone, and puts how that came out on the output, with the dump that is
/// asked for after it. At most `task.steps` iterations are begun.
pub fn eval<F: Files, S: Sink>(
    alloc: Global,
    task: &Task,
    files: &mut F,
    out: &mut S,
) -> Result<Done, Refusal>
    ensures answer { IfSome (F.held files.old)
        (λ held. WhereExpected (ExpectsEval held (task_view task.now))
        (λ work. IsAnswer (F.faults files.old) (F.faults files.new) (Rose (S.faults out.old) (S.faults out.new))
        (answer_of work) result)) }
    ensures held { F.held files.new ≡ F.held files.old }
    ensures printed { IfSome (F.held files.old)
        (λ held. WhereExpected (ExpectsEval held (task_view task.now))
        (λ work. Prints (S.taken out.old) (S.taken out.new) (expected_text work) result)) }
    ensures quiet { IsQuiet result → out.new ≡ out.old }
    ensures failed { result ≡ Err Refusal.File → Rose (F.faults files.old) (F.faults files.new) }
    ensures output { result ≡ Err Refusal.Output → Rose (S.faults out.old) (S.faults out.new) }
    ensures steady { IsTrue (F.steady files.old)
        → IfSome (F.held files.old) (λ held. IsTaskHeld held (task_view task.now) → result ≢ Err Refusal.File) }
    ensures of_eval { IsOfEval result }
    ensures asked { Asks IsNotOfFiles (F.requests files.old) (F.requests files.new) (task_wants (task_view task.now)) result }
{
    let read = read_task(alloc, task, files)?;
    let run_report = evaluate_text(alloc, task, &read.file, &read.map)?;
    put_all(out, &run_report.text)?;
    Ok(run_report.done)
}
