//! The code of each operation in the lanes.

ghost use Rattle.std.specs.Prelude.{◌≡◌, ◌<◌, [], ◌∷◌, ◌++◌, false, OnOk};
ghost use Rattle.guest_types.specs.Length.{width_bits};
ghost use Rattle.kernel_tree.specs.declared.ops.UnaryOp.TheVariants as operator;
ghost use Rattle.kernel_tree.specs.Wrap as wraps;
ghost use Rattle.sve_code.specs.View as sve;
ghost use Rattle.lane_emit.specs.LaneCode as code;
ghost use Rattle.lane_emit.specs.Stretch as stretch;
ghost use Rattle.lane_emit.specs.View.{Adds, Appends};

use crate::words::{
    add_sub, bitwise, extend_byte, extend_halfword, extend_word, merging, shift_left, shift_right,
    unary,
};
use guest_types::length::Width;
use kernel_meaning::{binary_leaves, fits, shift_count, unary_leaves};
use kernel_tree::{BinaryOp, Ty, UnaryOp};
use std::alloc::AllocError;
use sve_code::{
    AddSubOp, BinaryPredicatedOp, BitwiseOp, ExtendOp, Sve, UnaryPredicatedOp, VectorReg,
};

/// A copy, left out where the two registers are one.
pub fn z_copy(words: &mut Vec<Sve>, d: VectorReg, a: VectorReg) -> Result<(), AllocError>
    ensures { OnOk result (Appends (code.z_copy d.number a.number) words.old.items words.new.items) }
{
    if d.number == a.number {
        return Ok(());
    }
    words.push(bitwise(BitwiseOp::Orr, d, a, a))?;
    Ok(())
}

// The low bits of each lane, extended by a type that is narrower than the lane.
fn extension(
    words: &mut Vec<Sve>,
    width: Width,
    ty: Ty,
    d: VectorReg,
    a: VectorReg,
) -> Result<(), AllocError>
    requires { wraps.bits_of ty < width_bits width }
    ensures { OnOk result (Adds (code.extension ty width d.number a.number) words.old.items words.new.items) }
{
    match ty {
        Ty::I8 => words.push(extend_byte(ExtendOp::Signed, width, d, a))?,
        Ty::U8 => words.push(extend_byte(ExtendOp::Unsigned, width, d, a))?,
        Ty::I16 => words.push(extend_halfword(ExtendOp::Signed, width, d, a))?,
        Ty::U16 => words.push(extend_halfword(ExtendOp::Unsigned, width, d, a))?,
        Ty::I32 => words.push(extend_word(ExtendOp::Signed, d, a))?,
        Ty::U32 => words.push(extend_word(ExtendOp::Unsigned, d, a))?,
        Ty::I64 | Ty::U64 => z_copy(words, d, a)?,
    }
    Ok(())
}

/// A value wrapped to a type.
pub fn z_extend(
    words: &mut Vec<Sve>,
    width: Width,
    ty: Ty,
    d: VectorReg,
    a: VectorReg,
) -> Result<(), AllocError>
    ensures { OnOk result (Adds (code.z_extend width ty d.number a.number) words.old.items words.new.items) }
{
    if width.bits() <= ty.bits() {
        z_copy(words, d, a)
    } else {
        extension(words, width, ty, d, a)
    }
}

// The same in place, where an operator may leave what is not extended.
fn z_settle(
    words: &mut Vec<Sve>,
    leaves: bool,
    width: Width,
    ty: Ty,
    d: VectorReg,
) -> Result<(), AllocError>
    ensures { OnOk result (Adds (code.z_settle leaves width ty d.number) words.old.items words.new.items) }
{
    if leaves {
        z_extend(words, width, ty, d, d)
    } else {
        Ok(())
    }
}

// One word, and what settles it.
fn settled(
    words: &mut Vec<Sve>,
    word: Sve,
    leaves: bool,
    width: Width,
    ty: Ty,
    d: VectorReg,
) -> Result<(), AllocError>
    ensures { OnOk result (Adds (sve.instruction_view word ∷ code.z_settle leaves width ty d.number)
        words.old.items words.new.items) }
{
    words.push(word)?;
    z_settle(words, leaves, width, ty, d)
}

// The absolute value: that of an unsigned type is a copy.
fn absolute(
    words: &mut Vec<Sve>,
    width: Width,
    ty: Ty,
    d: VectorReg,
    a: VectorReg,
) -> Result<(), AllocError>
    ensures { OnOk result (Adds (code.unary_code width operator.Abs ty d.number a.number)
        words.old.items words.new.items) }
{
    if ty.is_signed() {
        let leaves = unary_leaves(UnaryOp::Abs, ty);
        let word = unary(UnaryPredicatedOp::Abs, width, d, a);
        settled(words, word, leaves, width, ty, d)
    } else {
        z_copy(words, d, a)
    }
}

/// An operator with one operand.
pub fn apply(
    words: &mut Vec<Sve>,
    width: Width,
    op: UnaryOp,
    ty: Ty,
    d: VectorReg,
    a: VectorReg,
) -> Result<(), AllocError>
    ensures { OnOk result (Adds (code.unary_code width op ty d.number a.number) words.old.items words.new.items) }
{
    let leaves = unary_leaves(op, ty);
    match op {
        UnaryOp::Neg => settled(
            words,
            unary(UnaryPredicatedOp::Neg, width, d, a),
            leaves,
            width,
            ty,
            d,
        )?,
        UnaryOp::Flip => settled(
            words,
            unary(UnaryPredicatedOp::Not, width, d, a),
            leaves,
            width,
            ty,
            d,
        )?,
        UnaryOp::Abs => absolute(words, width, ty, d, a)?,
    }
    Ok(())
}

// An operation that changes its first operand, and whose operands may be exchanged.
fn merged(
    words: &mut Vec<Sve>,
    op: BinaryPredicatedOp,
    leaves: bool,
    width: Width,
    ty: Ty,
    d: VectorReg,
    a: VectorReg,
    b: VectorReg,
) -> Result<(), AllocError>
    ensures { let settle = code.z_settle leaves width ty d.number in
        OnOk result (Adds (code.merged width (sve.merging_name op) d.number a.number b.number settle)
        words.old.items words.new.items) }
{
    if d.number == b.number {
        settled(words, merging(op, width, d, a), leaves, width, ty, d)
    } else {
        z_copy(words, d, a)?;
        settled(words, merging(op, width, d, b), leaves, width, ty, d)
    }
}

fn minimum(ty: Ty) -> BinaryPredicatedOp
    ensures { sve.merging_name result ≡ code.least_name ty }
{
    if ty.is_signed() {
        BinaryPredicatedOp::Smin
    } else {
        BinaryPredicatedOp::Umin
    }
}

fn maximum(ty: Ty) -> BinaryPredicatedOp
    ensures { sve.merging_name result ≡ code.greatest_name ty }
{
    if ty.is_signed() {
        BinaryPredicatedOp::Smax
    } else {
        BinaryPredicatedOp::Umax
    }
}

// ADD or SUB, and what settles it.
fn settled_sum(
    words: &mut Vec<Sve>,
    op: AddSubOp,
    leaves: bool,
    width: Width,
    ty: Ty,
    d: VectorReg,
    a: VectorReg,
    b: VectorReg,
) -> Result<(), AllocError>
    ensures { let sum = stretch.word (sve.add_sub_name op) (d.number ∷ a.number ∷ b.number ∷ code.size_of width ∷ []) in
        OnOk result (Adds (sum ∷ code.z_settle leaves width ty d.number) words.old.items words.new.items) }
{
    settled(words, add_sub(op, width, d, a, b), leaves, width, ty, d)
}

// AND, ORR or EOR, and what settles it.
fn settled_bits(
    words: &mut Vec<Sve>,
    op: BitwiseOp,
    leaves: bool,
    width: Width,
    ty: Ty,
    d: VectorReg,
    a: VectorReg,
    b: VectorReg,
) -> Result<(), AllocError>
    ensures { let bits = stretch.word (sve.logic_name op) (d.number ∷ a.number ∷ b.number ∷ []) in
        OnOk result (Adds (bits ∷ code.z_settle leaves width ty d.number) words.old.items words.new.items) }
{
    settled(words, bitwise(op, d, a, b), leaves, width, ty, d)
}

/// An operator with two operands.
pub fn combine(
    words: &mut Vec<Sve>,
    width: Width,
    op: BinaryOp,
    ty: Ty,
    d: VectorReg,
    a: VectorReg,
    b: VectorReg,
) -> Result<(), AllocError>
    ensures { OnOk result (Adds (code.binary_code width op ty d.number a.number b.number)
        words.old.items words.new.items) }
{
    let leaves = binary_leaves(op);
    match op {
        BinaryOp::Add => settled_sum(words, AddSubOp::Add, leaves, width, ty, d, a, b)?,
        BinaryOp::Sub => settled_sum(words, AddSubOp::Sub, leaves, width, ty, d, a, b)?,
        BinaryOp::Mul => merged(words, BinaryPredicatedOp::Mul, leaves, width, ty, d, a, b)?,
        BinaryOp::And => settled_bits(words, BitwiseOp::And, leaves, width, ty, d, a, b)?,
        BinaryOp::Or => settled_bits(words, BitwiseOp::Orr, leaves, width, ty, d, a, b)?,
        BinaryOp::Xor => settled_bits(words, BitwiseOp::Eor, leaves, width, ty, d, a, b)?,
        BinaryOp::Min => merged(words, minimum(ty), leaves, width, ty, d, a, b)?,
        BinaryOp::Max => merged(words, maximum(ty), leaves, width, ty, d, a, b)?,
    }
    Ok(())
}

// A count that a lane can be shifted by.
fn lane_count(width: Width, count: u32) -> u32
    ensures value { result ≡ code.lane_count width count }
    ensures short { result < width_bits width }
{
    let most = width.bits() - 1;
    count.min(most)
}

// A shift to the right, by fewer bits than a lane has.
fn shifted_right(
    words: &mut Vec<Sve>,
    width: Width,
    count: u32,
    ty: Ty,
    d: VectorReg,
    a: VectorReg,
) -> Result<(), AllocError>
    requires { count < width_bits width }
    ensures { OnOk result (Adds (code.shift_by width false count ty d.number a.number)
        words.old.items words.new.items) }
{
    if count == 0 {
        z_copy(words, d, a)
    } else {
        words.push(shift_right(ty.is_signed(), width, d, a, count))?;
        Ok(())
    }
}

/// A shift by a constant.
pub fn shift(
    words: &mut Vec<Sve>,
    width: Width,
    left: bool,
    count: i128,
    ty: Ty,
    d: VectorReg,
    a: VectorReg,
) -> Result<(), AllocError>
    ensures { OnOk result (Adds (code.shift_code width left count ty d.number a.number)
        words.old.items words.new.items) }
{
    let by = lane_count(width, shift_count(count));
    if left {
        settled(words, shift_left(width, d, a, by), true, width, ty, d)
    } else {
        shifted_right(words, width, by, ty, d, a)
    }
}

/// A value of one type as one of another.
pub fn cast(
    words: &mut Vec<Sve>,
    width: Width,
    from: Ty,
    to: Ty,
    d: VectorReg,
    a: VectorReg,
) -> Result<(), AllocError>
    ensures { OnOk result (Adds (code.cast_code width from to d.number a.number) words.old.items words.new.items) }
{
    if fits(from, to) {
        z_copy(words, d, a)
    } else {
        z_extend(words, width, to, d, a)
    }
}
