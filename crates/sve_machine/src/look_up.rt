//! The instruction at a place, by the words that were decoded.

ghost use Rattle.std.specs.Prelude.{◌≡◌, ℕ, ◌+◌, ◌/◌, ◌%◌, ◌^◌, All, IsTrue, IfSome, Some, None, false, slice_index_or};
ghost use Rattle.guest_types.specs.Memory.{Memory, fetched};
ghost use Rattle.machine_model.specs.OneStep.{step, do_word};
ghost use Rattle.machine_model.specs.Answers.{IsAnswer};
ghost use Rattle.machine_model.specs.Machine.{State};
ghost use Rattle.a64_machine.specs.Prepared.{prepared_does, branch_after};
ghost use Rattle.sve_machine.specs.DecodedWords.{IsDecodedFrom, Holds, HoldsAfter, IsAlone, decoded_does};

use crate::decoded::{CacheEntry, Decoded};
use crate::decoding::decode;
use crate::ready::ready;
use a64_machine::{Prepared, with_branch};
use machine_model::outcome::{Step, Stop, StopKind};
use paged_memory::pages::Pages;

/// Entries of a place where no word can stand.
pub fn no_words() -> [CacheEntry; 1024]
    ensures { (memory : Memory) → All (IsDecodedFrom memory) result }
{
    let nothing = CacheEntry {
        place: 1,
        decoded: Decoded::Nowhere,
    };
    [nothing; 1024]
}

/// Leaves a stop as the answer. The step did not go.
#[inline(always)]
pub fn stop(kind: StopKind, pc: u64, at: u64, answer: &mut Step) -> bool
    ensures found { result ≡ false }
    ensures answer { answer.new ≡ Step.Stopped (record { kind = kind; pc = pc; at = at }) }
{
    *answer = Step::Stopped(Stop { kind, pc, at });
    false
}

// The prepared instruction of the word at a place, where there is one.
fn prepared_at(pages: &Pages, pc: u64) -> Option<Prepared>
    ensures { IfSome result (λ prepared. (s : State) → s.pc ≡ pc
        → do_word (fetched pages.now.memory pc) s ≡ prepared_does prepared s) }
{
    let Some(word) = pages.fetch(pc) else {
        return None;
    };
    let Some(instruction) = decode(word) else {
        return None;
    };
    match ready(instruction, pc) {
        Decoded::Ready(prepared) => Some(prepared),
        _ => None,
    }
}

// A prepared instruction with the branch of the word after it, where both may be done at once.
fn joined(first: Prepared, next: Option<Prepared>) -> Prepared
    requires { branch_after first ≡ None }
    ensures same { (s : State) → prepared_does result s ≡ prepared_does first s }
    ensures branch { (branch : Prepared) → branch_after result ≡ Some branch → next ≡ Some branch }
{
    let Some(branch) = next else {
        return first;
    };
    match with_branch(first, branch) {
        Some(both) => both,
        None => first,
    }
}

// The place of the word after one.
fn next_place(pc: u64) -> u64
    ensures { result ≡ (pc + 4) % 2 ^ 64 }
{
    pc.wrapping_add(4)
}

// What was made ready of a word, with the branch of the word after it, where both may be done at once.
fn with_next(pages: &Pages, first: Decoded, pc: u64) -> Decoded
    requires { IsAlone first }
    ensures same { (s : State) → decoded_does result s ≡ decoded_does first s }
    ensures after { HoldsAfter pages.now.memory pc result }
{
    let Decoded::Ready(prepared) = first else {
        return first;
    };
    let next = prepared_at(pages, next_place(pc));
    Decoded::Ready(joined(prepared, next))
}

/// Decodes the word at a place and keeps it: whether there is one, or else the answer there.
#[cold]
#[inline(never)]
fn fill(pages: &Pages, decoded: &mut [CacheEntry; 1024], pc: u64, answer: &mut Step) -> bool
    requires decoded { All (IsDecodedFrom pages.now.memory) decoded.old }
    ensures decoded { All (IsDecodedFrom pages.now.memory) decoded.new }
    ensures found { (d : CacheEntry) → IsTrue result
        → Holds pages.now.memory pc (slice_index_or decoded.new (pc / 4 % 1024) d) }
    ensures stopped { (s : State) → result ≡ false → s.memory ≡ pages.now.memory → s.pc ≡ pc
        → IsAnswer (step s) answer.new s s }
{
    let Some(word) = pages.fetch(pc) else {
        return stop(StopKind::Fetch, pc, pc, answer);
    };
    match decode(word) {
        Some(instruction) => {
            decoded[(pc / 4 % 1024) as usize] = CacheEntry {
                place: pc,
                decoded: with_next(pages, ready(instruction, pc), pc),
            };
            true
        }
        None => stop(StopKind::Undefined, pc, u64::from(word), answer),
    }
}

/// Sees to it that the entry of a place holds the instruction there: whether there is one, or else
/// the answer there.
#[inline(always)]
pub fn look_up(pages: &Pages, decoded: &mut [CacheEntry; 1024], pc: u64, answer: &mut Step) -> bool
    requires decoded { All (IsDecodedFrom pages.now.memory) decoded.old }
    ensures decoded { All (IsDecodedFrom pages.now.memory) decoded.new }
    ensures found { (d : CacheEntry) → IsTrue result
        → Holds pages.now.memory pc (slice_index_or decoded.new (pc / 4 % 1024) d) }
    ensures stopped { (s : State) → result ≡ false → s.memory ≡ pages.now.memory → s.pc ≡ pc
        → IsAnswer (step s) answer.new s s }
{
    if decoded[(pc / 4 % 1024) as usize].place == pc {
        return true;
    }
    fill(pages, decoded, pc, answer)
}
