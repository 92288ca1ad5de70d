//! The runs of the lines of a script.

ghost use Rattle.std.specs.Prelude.{◌≡◌, ◌≢◌, ◌≤◌, ◌++◌, true, false, IfOk, OnOk, length};
ghost use Rattle.std.specs.List.{AllByRecursion};
ghost use Rattle.guest_types.specs.declared.memory.TheConstants.{MOST_PAGES};
ghost use Rattle.machine_model.specs.Run.{Outcome, memory_left};
ghost use Rattle.command_line.specs.View.{task_view};
ghost use Rattle.pipe_run.specs.PipeRun.{Fits, map_left, runs_of};
ghost use Rattle.pipe_run.specs.View.{IsOutcomeOf};
ghost use Rattle.command_answers.specs.Works.{done_by, run_report};
ghost use Rattle.pipe_command.specs.Pipes.{line_run, run_text, runs_text, last_done, piped};
ghost use Rattle.pipe_command.specs.View.{line_view, lines_view, IsFitting};

use crate::loaded::{LoadedLine, LoadedScript};
use command_answers::run_report::{RunReport, done_of, push_dump};
use command_line::command::Task;
use guest_types::image::Image;
use guest_types::length::Vl;
use itoa::Buffer;
use outcome_text::outcome_text;
use paged_memory::pages::Pages;
use pipe_run::{LineOutcome, run_line};
use refusals::refusal::Done;
use std::alloc::{AllocError, Global};

// Adds the number of a line to a text, and what came of it.
fn push_run(
    text: &mut Vec<u8>,
    alloc: Global,
    number: u64,
    ran: &LineOutcome,
) -> Result<(), AllocError>
    ensures { OnOk result ((outcome : Outcome) → IsOutcomeOf ran.now outcome
        → text.new.items ≡ text.old.items ++ run_text number outcome) }
{
    let mut buffer = Buffer::new();
    let shown = outcome_text(alloc, &ran.outcome, ran.pc, ran.steps)?;
    text.extend_from_slice(b"run ")?;
    text.extend_from_slice(buffer.format(number).as_bytes())?;
    text.push(b'\n')?;
    text.extend_from_slice(&shown)?;
    Ok(())
}

// Runs a line over the pages of the map, and adds what came of it to a text.
fn run_one(
    alloc: Global,
    vl: Vl,
    steps: u64,
    number: u64,
    line: &LoadedLine,
    pages: &mut Pages,
    text: &mut Vec<u8>,
) -> Result<Done, AllocError>
    requires { Fits line.now.image.pages.items pages.old.memory }
    ensures done { IfOk result (λ done. done ≡ done_by (line_run (line_view line.now) pages.old.memory vl steps)) }
    ensures text { OnOk result (text.new.items ≡ text.old.items
        ++ run_text number (line_run (line_view line.now) pages.old.memory vl steps)) }
    ensures left { OnOk result (pages.new.memory
        ≡ map_left (memory_left (line_run (line_view line.now) pages.old.memory vl steps)) pages.old.memory) }
{
    let ran = run_line(alloc, &line.image, pages, &line.args, vl, steps)?;
    push_run(text, alloc, number, &ran)?;
    Ok(done_of(&ran.outcome))
}

// Whether no line runs after one that came out so.
fn is_last(done: Done) -> bool
    ensures last { result ≡ true → done ≢ Done.Ended }
    ensures goes_on { result ≡ false → done ≡ Done.Ended }
{
    match done {
        Done::Ended => false,
        Done::Stopped | Done::Spent => true,
    }
}

// Runs the lines, up to the first that does not end, each over the pages of the map as those before left them.
fn run_lines(
    alloc: Global,
    vl: Vl,
    steps: u64,
    lines: &[LoadedLine],
    pages: &mut Pages,
) -> Result<RunReport, AllocError>
    requires { AllByRecursion (IsFitting pages.old.memory) (lines_view lines.now) }
    ensures done { IfOk result (λ report.
        report.done ≡ last_done (runs_of (lines_view lines.now) pages.old.memory vl steps).outcomes) }
    ensures text { IfOk result (λ report.
        report.text.items ≡ runs_text 1 (runs_of (lines_view lines.now) pages.old.memory vl steps).outcomes) }
    ensures left { OnOk result (pages.new.memory
        ≡ (runs_of (lines_view lines.now) pages.old.memory vl steps).pages) }
{
    let mut text = Vec::new(alloc);
    for (index, line) in lines.iter().enumerate() {
        let number = index as u64 + 1;
        let done = run_one(alloc, vl, steps, number, line, pages, &mut text)?;
        if is_last(done) {
            return Ok(RunReport { done, text });
        }
    }
    Ok(RunReport {
        done: Done::Ended,
        text,
    })
}

/// Runs the lines of a script over the pages of its map, which are laid out once, and tells how they came out, with the dump
/// that is asked for.
pub fn run_script(
    alloc: Global,
    vl: Vl,
    task: &Task,
    script: &LoadedScript,
) -> Result<RunReport, AllocError>
    requires few { length script.now.map.pages.items ≤ MOST_PAGES }
    requires fits { AllByRecursion (IsFitting script.now.map.pages.items) (lines_view script.now.lines.items) }
    ensures { IfOk result (λ report. run_report report ≡ piped (task_view task.now).dump
        (runs_of (lines_view script.now.lines.items) script.now.map.pages.items vl task.now.steps)) }
{
    let none = Image::empty(alloc);
    let mut pages = Pages::build(alloc, &none, &script.map)?;
    let mut report = run_lines(alloc, vl, task.steps, &script.lines, &mut pages)?;
    push_dump(&mut report.text, alloc, &pages, task.dump)?;
    Ok(report)
}
