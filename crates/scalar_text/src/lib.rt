//! The text of how the run of a kernel ended.
#![tactic(auto)]

ghost use Rattle.std.specs.Prelude.{◌≡◌, ◌++◌, codes, OnOk, IfOk};
ghost use Rattle.machine_model.specs.OutcomeText.{line_feed};
ghost use Rattle.number_text.specs.Hexadecimal.{hex_text};
ghost use Rattle.scalar_text.specs.ScalarText.{iterations_text, scalar_text};

use dump_text::push_address;
use itoa::Buffer;
use kernel_meaning::ScalarOutcome;
use std::alloc::{AllocError, Global};

/// The text of an outcome: the result and the number of iterations begun, or the word `fault` and that number, a line each; or
/// the line `spent`.
pub fn scalar_text(alloc: Global, outcome: ScalarOutcome) -> Result<Vec<u8>, AllocError>
    ensures { IfOk result (λ text. text.items ≡ scalar_text outcome) }
{
    let mut text = Vec::new(alloc);
    match outcome {
        ScalarOutcome::End { result, begun } => push_end(&mut text, result, begun)?,
        ScalarOutcome::Fault { begun } => push_fault(&mut text, begun)?,
        ScalarOutcome::Spent => push_spent(&mut text)?,
    }
    Ok(text)
}

// The lines of an end with a result.
fn push_end(text: &mut Vec<u8>, value: u64, begun: u64) -> Result<(), AllocError>
    ensures { OnOk result (text.new.items ≡ text.old.items
        ++ (codes "result " ++ (hex_text value ++ (line_feed ++ iterations_text begun)))) }
{
    text.extend_from_slice(b"result ")?;
    text.extend_from_slice(b"0x")?;
    push_address(text, value)?;
    text.extend_from_slice(b"\n")?;
    push_iterations(text, begun)
}

// The lines of an access that faulted.
fn push_fault(text: &mut Vec<u8>, begun: u64) -> Result<(), AllocError>
    ensures { OnOk result (text.new.items ≡ text.old.items ++ (codes "fault" ++ (line_feed ++ iterations_text begun))) }
{
    text.extend_from_slice(b"fault")?;
    text.extend_from_slice(b"\n")?;
    push_iterations(text, begun)
}

// The line of a run whose iterations were not enough.
fn push_spent(text: &mut Vec<u8>) -> Result<(), AllocError>
    ensures { OnOk result (text.new.items ≡ text.old.items ++ (codes "spent" ++ line_feed)) }
{
    text.extend_from_slice(b"spent")?;
    text.extend_from_slice(b"\n")
}

// The line that counts the iterations.
fn push_iterations(text: &mut Vec<u8>, begun: u64) -> Result<(), AllocError>
    ensures { OnOk result (text.new.items ≡ text.old.items ++ iterations_text begun) }
{
    let mut buffer = Buffer::new();
    text.extend_from_slice(b"iterations ")?;
    text.extend_from_slice(buffer.format(begun).as_bytes())?;
    text.extend_from_slice(b"\n")
}
