//! From entries to words.

ghost use Rattle.std.specs.Prelude.{◌≡◌, ℕ, suc, ◌+◌, ◌<◌, ◌≤◌, List, ◌∷◌, [], ◌++◌, IfOk, OnOk, true, length, map, min, replicate, slice_index, slice_set};
ghost use Rattle.word_rows.specs.Row.{spells};
ghost use Rattle.a64_code.specs.Table as a64;
ghost use Rattle.label_fix.specs.Draft.{entry_view, kind_view, word_view};
ghost use Rattle.label_fix.specs.DraftRun.{place_of};
ghost use Rattle.label_fix.specs.DraftRun as plain;
ghost use Rattle.label_fix.specs.Finished.{AreFit, IsBranch, branch_of, offset, size, words_from, words_of, has_register};
ghost use Rattle.label_fix.specs.Places.{placed_from};

use crate::entry::{BranchKind, DraftEntry, Word};
use a64_code::{A64, CompareBranchOp};
use std::alloc::{AllocError, Global};
use word_rows::Bits;

/// How many words some entries come to.
pub fn count_words(entries: &[DraftEntry]) -> u32
    requires few { size (map entry_view entries.now) ≤ 65536 }
    ensures { result ≡ size (map entry_view entries.now) }
{
    let mut count = 0;
    for entry in entries {
        match entry {
            DraftEntry::Put(_) | DraftEntry::Branch(..) => count += 1,
            DraftEntry::Place(_) => {}
        }
    }
    count
}

/// How many words stand before each label, by its number; before a label without a place, all of them.
pub fn label_places(mut places: Vec<u32>, entries: &[DraftEntry]) -> Vec<u32>
    requires few { size (map entry_view entries.now) ≤ 65536 }
    requires fit { AreFit (length places.items) (map entry_view entries.now) }
    ensures { result.items
        ≡ placed_from (replicate (length places.items) (size (map entry_view entries.now))) 0 (map entry_view entries.now) }
{
    places.fill(count_words(entries));
    let mut words = 0;
    for entry in entries {
        match entry {
            DraftEntry::Place(label) => note(&mut places, label.number(), words),
            _ => words += 1,
        }
    }
    places
}

// A place of a label.
fn note(places: &mut [u32], label: usize, words: u32)
    requires { label < length places.old }
    ensures { places.new ≡ slice_set places.old label (min (slice_index places.old label) words) }
{
    places[label] = places[label].min(words);
}

/// The words of some entries, by the places of their labels.
#[tactic(auto, unfolding(crate::specs::Finished::words_of), using(crate::proofs::Collected::place_within))]
pub fn placed_words(
    alloc: Global,
    entries: &[DraftEntry],
    places: &[u32],
) -> Result<Vec<u32>, AllocError>
    requires few { size (map entry_view entries.now) ≤ 65536 }
    requires fit { AreFit (length places.now) (map entry_view entries.now) }
    requires places { (l : ℕ) → l < length places.now
        → slice_index places.now l ≡ place_of (map entry_view entries.now) l }
    ensures { IfOk result (λ words. words.items ≡ words_of (map entry_view entries.now)) }
{
    let mut words = Vec::new(alloc);
    let mut count = 0;
    for entry in entries {
        match entry {
            DraftEntry::Put(word) => {
                words.push(encode(*word))?;
                count += 1;
            }
            DraftEntry::Branch(kind, to) => {
                words.push(encode_branch(*kind, count, places[to.number()]))?;
                count += 1;
            }
            DraftEntry::Place(_) => {}
        }
    }
    Ok(words)
}

// The word of an instruction.
fn encode(word: Word) -> u32
    ensures { (whole rest : List plain.DraftEntry) (n : ℕ)
        → words_from whole n (plain.Put (word_view word) ∷ rest) ≡ result ∷ words_from whole (suc n) rest }
{
    match word {
        Word::A(instruction) => a64_code::encode(instruction),
        Word::V(instruction) => sve_code::encode(instruction),
    }
}

// The word of a branch from one word to another, both given by how many words stand before them.
fn encode_branch(kind: BranchKind, from: u32, to: u32) -> u32
    requires from { from ≤ 65536 }
    requires to { to ≤ 65536 }
    requires register { has_register (kind_view kind) ≡ true }
    ensures { result ≡ spells a64.row (branch_of (kind_view kind) from to) }
{
    let near = Bits::<19>::new((to + (1 << 19) - from) % (1 << 19));
    a64_code::encode(match kind {
        BranchKind::Always => A64::Branch {
            imm26: Bits::new((to + (1 << 26) - from) % (1 << 26)),
        },
        BranchKind::If(cond) => A64::BranchConditional { cond, imm19: near },
        BranchKind::Zero(register) => A64::CompareBranch {
            op: CompareBranchOp::Cbz,
            rt: Bits::new(register),
            imm19: near,
        },
        BranchKind::NotZero(register) => A64::CompareBranch {
            op: CompareBranchOp::Cbnz,
            rt: Bits::new(register),
            imm19: near,
        },
    })
}
