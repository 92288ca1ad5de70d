//! Steps of the machine, one after another.

ghost use Rattle.std.specs.Prelude.{◌≡◌, ◌≢◌, ◌+◌, ◌-◌, ◌≤◌, All, true};
ghost use Rattle.machine_model.specs.OneStep.{step};
ghost use Rattle.machine_model.specs.Answers.{IsAnswer};
ghost use Rattle.a64_machine.specs.Cores.{state_of, said};
ghost use Rattle.sve_machine.specs.DecodedWords.{IsDecodedFrom, decoded_does, DecodedBothGo, IsOther};
ghost use Rattle.sve_machine.specs.View.{Leaves, TwoGo};

use crate::decoded::{CacheEntry, Decoded};
use crate::look_up::{look_up, stop};
use crate::scalars::scalar_goes;
use crate::vector_step::vector_goes;
use crate::vectors::Vectors;
use a64_machine::{Core, prepared_goes};
use machine_model::outcome::{Step, StopKind};
use paged_memory::pages::Pages;

// What other than a prepared instruction does: whether the step goes on, or else its answer. It stands by itself, so that
// no register of vectors has room where prepared instructions are done.
#[inline(never)]
fn execute_other(
    core: &mut Core,
    pages: &mut Pages,
    vectors: &mut Vectors,
    decoded: &Decoded,
    answer: &mut Step,
) -> bool
    requires { IsOther decoded.now }
    ensures answer { let before = state_of core.old pages.old.memory vectors.old in
        IsAnswer (decoded_does decoded.now before) (said result answer.new) before
        (state_of core.new pages.new.memory vectors.new) }
    ensures past { pages.new.past ≡ pages.old.past }
{
    match *decoded {
        Decoded::Vector(word) => vector_goes(core, pages, vectors, word, answer),
        Decoded::Scalar(word) => scalar_goes(core, pages, vectors, word, answer),
        Decoded::Nowhere => stop(StopKind::Fetch, core.pc, core.pc, answer),
        Decoded::Ready(_) => true,
    }
}

// What is done by what was decoded: whether the step goes on, or else its answer. A comparison goes on by the branch after
// it, if one step `more` may be done.
#[inline(always)]
fn execute<L>(
    core: &mut Core,
    pages: &mut Pages,
    vectors: &mut Vectors,
    decoded: &Decoded,
    more: &mut u64,
    answer: &mut Step,
) -> bool
    ensures answer { more.new ≡ more.old → let before = state_of core.old pages.old.memory vectors.old in
        IsAnswer (decoded_does decoded.now before) (said result answer.new) before
        (state_of core.new pages.new.memory vectors.new) }
    ensures both { more.new ≢ more.old → (result ≡ true) × DecodedBothGo decoded.now
        (state_of core.old pages.old.memory vectors.old) (state_of core.new pages.new.memory vectors.new) }
    ensures fewer { more.new ≢ more.old → more.new + 1 ≡ more.old }
    ensures past { pages.new.past ≡ pages.old.past }
{
    match decoded {
        Decoded::Ready(prepared) => prepared_goes::<L>(core, pages, prepared, more, answer),
        _ => execute_other(core, pages, vectors, decoded, answer),
    }
}

/// One step: whether it goes on, or else its answer, with the place of its instruction. Where it is a comparison before a
/// branch, the branch is done with it if one step `more` may be done. An answer of many bytes that is handed back would be
/// copied at each step. `L` names the loop that takes the step (`prepared_goes`).
#[inline(always)]
fn advance_more<L>(
    core: &mut Core,
    pages: &mut Pages,
    vectors: &mut Vectors,
    decoded: &mut [CacheEntry; 1024],
    place: &mut u64,
    more: &mut u64,
    answer: &mut Step,
) -> bool
    requires decoded { All (IsDecodedFrom pages.old.memory) decoded.old }
    ensures answer { more.new ≡ more.old → let before = state_of core.old pages.old.memory vectors.old in
        IsAnswer (step before) (said result answer.new) before (state_of core.new pages.new.memory vectors.new) }
    ensures both { more.new ≢ more.old → (result ≡ true) × TwoGo
        (state_of core.old pages.old.memory vectors.old) (state_of core.new pages.new.memory vectors.new) }
    ensures fewer { more.new ≢ more.old → more.new + 1 ≡ more.old }
    ensures few { more.new ≤ more.old }
    ensures decoded { All (IsDecodedFrom pages.new.memory) decoded.new }
    ensures place { place.new ≡ core.old.pc }
    ensures past { pages.new.past ≡ pages.old.past }
{
    let pc = core.pc;
    *place = pc;
    if !look_up(pages, decoded, pc, answer) {
        return false;
    }
    let entry = &decoded[(pc / 4 % 1024) as usize];
    execute::<L>(core, pages, vectors, &entry.decoded, more, answer)
}

/// One step, alone.
#[inline(always)]
pub fn advance<L>(
    core: &mut Core,
    pages: &mut Pages,
    vectors: &mut Vectors,
    decoded: &mut [CacheEntry; 1024],
    place: &mut u64,
    answer: &mut Step,
) -> bool
    requires decoded { All (IsDecodedFrom pages.old.memory) decoded.old }
    ensures answer { let before = state_of core.old pages.old.memory vectors.old in
        IsAnswer (step before) (said result answer.new) before (state_of core.new pages.new.memory vectors.new) }
    ensures decoded { All (IsDecodedFrom pages.new.memory) decoded.new }
    ensures place { place.new ≡ core.old.pc }
    ensures past { pages.new.past ≡ pages.old.past }
{
    let mut more = 0;
    advance_more::<L>(core, pages, vectors, decoded, place, &mut more, answer)
}

/// The loop of `go`.
struct Within;

/// A step that no loop takes.
pub struct ByItself;

/// At most so many steps: the last answer, and how many were left.
#[inline(never)]
pub fn go(
    core: &mut Core,
    pages: &mut Pages,
    vectors: &mut Vectors,
    decoded: &mut [CacheEntry; 1024],
    steps: u64,
) -> (Step, u64)
    requires decoded { All (IsDecodedFrom pages.old.memory) decoded.old }
    ensures leaves { Leaves result.0 steps (steps - result.1) (state_of core.old pages.old.memory vectors.old)
        (state_of core.new pages.new.memory vectors.new) }
    ensures few { result.1 ≤ steps }
    ensures decoded { All (IsDecodedFrom pages.new.memory) decoded.new }
    ensures past { pages.new.past ≡ pages.old.past }
{
    let mut answer = Step::Went;
    let mut place = 0;
    let mut left = steps;
    while left > 0 {
        left -= 1;
        let went = advance_more::<Within>(
            core,
            pages,
            vectors,
            decoded,
            &mut place,
            &mut left,
            &mut answer,
        );
        if went {
            continue;
        }
        match answer {
            Step::Went => {}
            Step::Ended => return (Step::Ended, left),
            Step::Stopped(stop) => return (Step::Stopped(stop), left),
        }
    }
    (Step::Went, left)
}
