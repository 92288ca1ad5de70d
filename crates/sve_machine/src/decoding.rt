//! The instruction of a word, in either table.

ghost use Rattle.std.specs.Prelude.{◌≡◌};
ghost use Rattle.std.specs.Option.{option_map};
ghost use Rattle.machine_model.specs.OneStep.{reads_word};
ghost use Rattle.sve_machine.specs.Listing.{view_of};

use crate::instruction::Instruction;

/// The instruction of a word, where a table has it.
#[tactic(auto, unfolding(machine_model::specs::OneStep::reads_word))]
pub fn decode(word: u32) -> Option<Instruction>
    ensures { option_map view_of result ≡ reads_word word }
{
    if let Some(scalar) = a64_code::decode(word) {
        return Some(Instruction::Scalar(scalar));
    }
    match sve_decode::decode(word) {
        Some(vector) => Some(Instruction::Vector(vector)),
        None => None,
    }
}
