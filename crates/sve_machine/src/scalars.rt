//! A64 instructions of the machine.

ghost use Rattle.std.specs.Prelude.{◌≡◌};
ghost use Rattle.a64_code.specs.View.{instruction_view};
ghost use Rattle.a64_machine.specs.Cores.{state_of, HasVector, said};
ghost use Rattle.machine_model.specs.InstructionTable.{Scalar};
ghost use Rattle.machine_model.specs.OneStep.{does};
ghost use Rattle.machine_model.specs.Answers.{IsAnswer};

use crate::vectors::Vectors;
use a64_code::A64;
use a64_machine::{Core, a64_goes};
use machine_model::outcome::Step;
use paged_memory::pages::Pages;

// Gives UMOV the doubleword that it reads.
#[inline(always)]
fn hand_doubleword(core: &mut Core, vectors: &Vectors, word: A64)
    ensures handed { HasVector word core.new vectors.now }
    ensures kept { core.new ≡ record core.old { vzero = core.new.vzero } }
{
    if let A64::Umov { rd: _, vn } = word {
        core.vzero = vectors.doubleword(vn.number);
    }
}

/// One A64 instruction: whether it goes on, or else its answer. It leaves the vector registers alone. It is called, so that
/// vector instructions, which are done beside it, save no registers for it.
#[inline(never)]
pub fn scalar_goes(
    core: &mut Core,
    pages: &mut Pages,
    vectors: &Vectors,
    word: A64,
    answer: &mut Step,
) -> bool
    ensures answer { let before = state_of core.old pages.old.memory vectors.now in
        IsAnswer (does (Scalar (instruction_view word)) before) (said result answer.new) before
        (state_of core.new pages.new.memory vectors.now) }
    ensures past { pages.new.past ≡ pages.old.past }
{
    hand_doubleword(core, vectors, word);
    a64_goes(core, pages, word, answer)
}
