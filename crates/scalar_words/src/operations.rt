//! Emits the code of constants and of operators with two operands, which are in registers.

ghost use Rattle.std.specs.Prelude.{◌≡◌, ◌<◌, true, OnOk, List, ◌∷◌, [], if◌then◌else◌};
ghost use Rattle.label_fix.specs.Draft.{word_view};
ghost use Rattle.label_fix.specs.Finished.{is_plain};
ghost use Rattle.label_fix.specs.DraftRun.{DraftEntry, Put, ins};
ghost use Rattle.label_fix.specs.Emits.{Emits};
ghost use Rattle.a64_code.specs.Table.{movk};
ghost use Rattle.scalar_words.specs.Words as words;
ghost use Rattle.scalar_words.specs.Operands as operands;
ghost use Rattle.kernel_meaning.specs.Operators as operators;

use crate::instructions::{
    add_sub, copy, extending, filler, has_ones, is_narrow, operation_word, wide,
};
use a64_code::{AddSubOp, MoveWideOp, Reg, zero};
use kernel_meaning::binary_leaves;
use kernel_tree::{BinaryOp, Ty, UpdateOp};
use label_fix::{Draft, Word};
use std::alloc::AllocError;

/// A register into another one, where they differ.
pub fn emit_copy(draft: &mut Draft, d: Reg, a: Reg) -> Result<(), AllocError>
    ensures { OnOk result (Emits draft.old draft.new draft.old.labels
        (words.word_code (words.copy_word d.number a.number))) }
{
    if d.number == a.number {
        Ok(())
    } else {
        draft.put(copy(d, a))
    }
}

/// What an operation gave in a register, extended in place where it may have left the extended form.
pub fn emit_settle(draft: &mut Draft, leaves: bool, ty: Ty, d: Reg) -> Result<(), AllocError>
    ensures { OnOk result (Emits draft.old draft.new draft.old.labels
        (words.word_code (words.settle_word leaves ty d.number))) }
{
    if leaves && is_narrow(ty) {
        draft.put(extending(ty, d, d))
    } else {
        Ok(())
    }
}

// The word of a half; the one that begins makes the other halves the filler.
fn half_word(ones: bool, begun: bool, d: Reg, half: u32, place: u32) -> Word
    requires half { half < 65536 }
    requires place { place < 4 }
    ensures plain { is_plain (word_view result) ≡ true }
    ensures code { (rest : List DraftEntry) → Put (word_view result) ∷ rest
        ≡ (if begun then ins movk (d.number ∷ half ∷ place ∷ []) ∷ rest else words.start_code ones d.number half place rest) }
{
    if begun {
        wide(MoveWideOp::Movk, d, half, place)
    } else if ones {
        wide(MoveWideOp::Movn, d, 65535 - half, place)
    } else {
        wide(MoveWideOp::Movz, d, half, place)
    }
}

// A constant by its halves.
fn emit_halves(
    draft: &mut Draft,
    ones: bool,
    d: Reg,
    h0: u32,
    h1: u32,
    h2: u32,
    h3: u32,
) -> Result<(), AllocError>
    requires h0 { h0 < 65536 }
    requires h1 { h1 < 65536 }
    requires h2 { h2 < 65536 }
    requires h3 { h3 < 65536 }
    ensures { OnOk result (Emits draft.old draft.new draft.old.labels (words.halves_code ones d.number h0 h1 h2 h3)) }
{
    let filler = filler(ones);
    let mut begun = false;
    let mut place = 0;
    for half in &[h0, h1, h2, h3] {
        if *half != filler {
            draft.put(half_word(ones, begun, d, *half, place))?;
            begun = true;
        }
        place += 1;
    }
    if begun {
        Ok(())
    } else {
        draft.put(half_word(ones, false, d, h0, 0))
    }
}

/// A constant into a register, by the fewest words.
pub fn emit_const(draft: &mut Draft, d: Reg, value: u64) -> Result<(), AllocError>
    ensures { OnOk result (Emits draft.old draft.new draft.old.labels (words.const_code d.number value)) }
{
    let h0 = (value % 65536) as u32;
    let h1 = (value / 65536 % 65536) as u32;
    let h2 = (value / 4294967296 % 65536) as u32;
    let h3 = (value / 281474976710656 % 65536) as u32;
    emit_halves(draft, has_ones(h0, h1, h2, h3), d, h0, h1, h2, h3)
}

/// The words of an operator with two operands, before its result is settled.
pub fn emit_operation(
    draft: &mut Draft,
    op: BinaryOp,
    signed: bool,
    d: Reg,
    a: Reg,
    b: Reg,
) -> Result<(), AllocError>
    ensures { OnOk result (Emits draft.old draft.new draft.old.labels
        (words.operation_code op signed d.number a.number b.number)) }
{
    let word = operation_word(op, signed, d, a, b);
    match op {
        BinaryOp::Min | BinaryOp::Max => {
            draft.put(add_sub(AddSubOp::Subs, zero(), a, b))?;
            draft.put(word)
        }
        _ => draft.put(word),
    }
}

/// The code of an operator with two operands.
pub fn emit_binary(
    draft: &mut Draft,
    op: BinaryOp,
    ty: Ty,
    d: Reg,
    a: Reg,
    b: Reg,
) -> Result<(), AllocError>
    ensures { OnOk result (Emits draft.old draft.new draft.old.labels
        (words.binary_code op ty d.number a.number b.number)) }
{
    emit_operation(draft, op, ty.is_signed(), d, a, b)?;
    emit_settle(draft, binary_leaves(op), ty, d)
}

/// The operator that an update applies.
pub fn update_operator(op: UpdateOp) -> BinaryOp
    ensures { result ≡ operators.operator_of op }
{
    match op {
        UpdateOp::Add => BinaryOp::Add,
        UpdateOp::And => BinaryOp::And,
        UpdateOp::Or => BinaryOp::Or,
        UpdateOp::Xor => BinaryOp::Xor,
        UpdateOp::Min => BinaryOp::Min,
        UpdateOp::Max => BinaryOp::Max,
    }
}
