//! An instruction is made ready for its place.

ghost use Rattle.std.specs.Prelude.{◌≡◌, ℕ};
ghost use Rattle.machine_model.specs.Machine.{State};
ghost use Rattle.machine_model.specs.OneStep.{does};
ghost use Rattle.machine_model.specs.InstructionTable.{Scalar};
ghost use Rattle.a64_code.specs.View.{instruction_view};
ghost use Rattle.a64_machine.specs.Prepared.{IsReady};
ghost use Rattle.sve_machine.specs.Listing.{view_of};
ghost use Rattle.sve_machine.specs.DecodedWords.{decoded_does, IsAlone};

use crate::decoded::Decoded;
use crate::instruction::Instruction;
use a64_code::A64;
use a64_machine::{Prepared, prepare};

// A prepared instruction, unless a branch may be done with it.
fn alone_or(prepared: Prepared, word: A64) -> Decoded
    ensures same { (pc : ℕ) → IsReady word pc prepared → (s : State) → s.pc ≡ pc
        → does (Scalar (instruction_view word)) s ≡ decoded_does result s }
    ensures alone { IsAlone result }
{
    if prepared.is_alone() {
        return Decoded::Ready(prepared);
    }
    Decoded::Scalar(word)
}

/// What is kept of the instruction of a word at a place.
pub fn ready(instruction: Instruction, pc: u64) -> Decoded
    ensures same { (s : State) → s.pc ≡ pc → does (view_of instruction) s ≡ decoded_does result s }
    ensures alone { IsAlone result }
{
    match instruction {
        Instruction::Scalar(word) => match prepare(word, pc) {
            Some(prepared) => alone_or(prepared, word),
            None => Decoded::Scalar(word),
        },
        Instruction::Vector(word) => Decoded::Vector(word),
    }
}
