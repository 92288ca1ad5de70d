//! The text of a run's outcome.
#![tactic(auto)]

ghost use Rattle.std.specs.Prelude.{◌≡◌, ◌++◌, codes, decimal, OnOk, IfOk};
ghost use Rattle.machine_model.specs.OutcomeText.{kind_text, line_feed, steps_text};
ghost use Rattle.number_text.specs.Hexadecimal.{hex_text};
ghost use Rattle.outcome_text.specs.View.{text_of};

use dump_text::address_digits;
use itoa::Buffer;
use machine_model::outcome::{Outcome, StopKind};
use std::alloc::{AllocError, Global};

/// The text of an outcome: two lines, each with a line feed. `pc` is the place of the next instruction, which is told where the
/// steps were spent, and `steps` the number of steps done.
pub fn outcome_text(
    alloc: Global,
    outcome: &Outcome,
    pc: u64,
    steps: u64,
) -> Result<Vec<u8>, AllocError>
    ensures { IfOk result (λ text. text.items ≡ text_of outcome.now pc steps) }
{
    let mut text = Vec::new(alloc);
    match outcome {
        Outcome::End { result } => {
            text.extend_from_slice(b"result ")?;
            push_address(&mut text, *result)?;
        }
        Outcome::Stop(stop) => {
            text.extend_from_slice(b"stop ")?;
            text.extend_from_slice(kind_name(stop.kind))?;
            text.extend_from_slice(b" pc ")?;
            push_address(&mut text, stop.pc)?;
            text.extend_from_slice(b" at ")?;
            push_address(&mut text, stop.at)?;
        }
        Outcome::Spent => {
            text.extend_from_slice(b"spent pc ")?;
            push_address(&mut text, pc)?;
        }
    }
    text.extend_from_slice(b"\n")?;
    push_steps(&mut text, steps)?;
    Ok(text)
}

// The line that counts the steps.
fn push_steps(text: &mut Vec<u8>, steps: u64) -> Result<(), AllocError>
    ensures { OnOk result (text.new.items ≡ text.old.items ++ steps_text steps) }
{
    let mut buffer = Buffer::new();
    text.extend_from_slice(b"steps ")?;
    text.extend_from_slice(buffer.format(steps).as_bytes())?;
    text.extend_from_slice(b"\n")
}

// A number of 64 bits in hexadecimal.
fn push_address(text: &mut Vec<u8>, value: u64) -> Result<(), AllocError>
    ensures { OnOk result (text.new.items ≡ text.old.items ++ hex_text value) }
{
    text.extend_from_slice(b"0x")?;
    text.extend_from_slice(&address_digits(value))
}

/// The name of what stopped a run.
pub fn kind_name(kind: StopKind) -> &'static [u8]
    ensures { result.now ≡ kind_text kind }
{
    match kind {
        StopKind::Read => b"read",
        StopKind::Write => b"write",
        StopKind::Fetch => b"fetch",
        StopKind::Undefined => b"undefined",
        StopKind::Call => b"call",
        StopKind::Break => b"break",
    }
}
