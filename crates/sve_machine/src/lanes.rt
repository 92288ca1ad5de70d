//! Instructions that compute a vector register from vector registers.

ghost use Rattle.std.specs.Prelude.{◌≡◌, ◌^◌};
ghost use Rattle.std.specs.Int.{w64, cast_unsigned};
ghost use Rattle.guest_types.specs.LaneMemory.{width_of_size};
ghost use Rattle.guest_types.specs.Lanes.{sign_extended, ShiftFits};
ghost use Rattle.sve_code.specs.Numbers.{shift_size};
ghost use Rattle.sve_code.specs.declared.Sve.{Sve};
ghost use Rattle.a64_machine.specs.declared.core_state.Core.{Core as CoreOf};
ghost use Rattle.sve_machine.specs.Rows.{RowLeaves, shift_op, shift_count};

use crate::operations::{
    add_sub_op, bitwise_op, byte_extension, half_extension, merging_op, reduction_op,
    reduction_width, shift_op, unary_op, width_of, word_extension,
};
use crate::vectors::Vectors;
use a64_machine::Core;
use guest_types::length::Width;
use guest_types::register::ZReg;
use lane_arith::reduce::reduce;
use sve_code::{
    AddSubOp, BinaryPredicatedOp, BitwiseOp, ExtendOp, GoverningReg, PredicateReg, ReductionOp,
    Reg, ShiftAmount, ShiftImmediateOp, Size, SizeFromH, SizeFromS, UnaryPredicatedOp, VectorReg,
};
use word_rows::Bits;

/// "ADD (vectors, unpredicated)", "SUB (vectors, unpredicated)".
pub fn add_sub(
    vectors: &mut Vectors,
    op: AddSubOp,
    zd: VectorReg,
    zn: VectorReg,
    zm: VectorReg,
    size: Size,
)
    ensures { (core : CoreOf) → RowLeaves (Sve.AddSub op zd zn zm size) core vectors.old core vectors.new }
{
    vectors.binary(
        add_sub_op(op),
        width_of(size),
        zd.number,
        zn.number,
        zm.number,
    );
}

/// "AND (vectors, unpredicated)", "ORR (vectors, unpredicated)", "EOR (vectors, unpredicated)",
/// "BIC (vectors, unpredicated)".
pub fn bitwise(vectors: &mut Vectors, op: BitwiseOp, zd: VectorReg, zn: VectorReg, zm: VectorReg)
    ensures { (core : CoreOf) → RowLeaves (Sve.Bitwise op zd zn zm) core vectors.old core vectors.new }
{
    vectors.binary(bitwise_op(op), Width::D, zd.number, zn.number, zm.number);
}

/// "SEL (vectors)".
#[inline(never)]
pub fn select(
    vectors: &mut Vectors,
    zd: VectorReg,
    zn: VectorReg,
    pg: PredicateReg,
    zm: VectorReg,
    size: Size,
)
    ensures { (core : CoreOf) → RowLeaves (Sve.Sel zd zn pg zm size) core vectors.old core vectors.new }
{
    vectors.select(width_of(size), pg.number, zd.number, zn.number, zm.number);
}

/// "LSL (immediate, unpredicated)", "LSR (immediate, unpredicated)", "ASR (immediate,
/// unpredicated)".
#[inline(never)]
pub fn shift(
    vectors: &mut Vectors,
    op: ShiftImmediateOp,
    zd: VectorReg,
    zn: VectorReg,
    amount: ShiftAmount,
)
    ensures { (core : CoreOf) → RowLeaves (Sve.ShiftImmediate op zd zn amount) core vectors.old core vectors.new }
{
    let width = width_of(amount.size());
    let count = shift_count(op, amount);
    vectors.shift(shift_op(op), width, zd.number, zn.number, count);
}

// By how many bits a shift goes.
#[inline(always)]
fn shift_count(op: ShiftImmediateOp, amount: ShiftAmount) -> u32
    ensures count { result ≡ shift_count op amount.value }
    ensures fits { ShiftFits (shift_op op) (width_of_size (shift_size amount.value)) result }
{
    match op {
        ShiftImmediateOp::Lsl => amount.left_amount(),
        ShiftImmediateOp::Lsr => amount.right_amount(),
        ShiftImmediateOp::Asr => amount.right_amount(),
    }
}

/// "ADD (vectors, predicated)", "SUB (vectors, predicated)", "SMAX (vectors)", "UMAX (vectors)",
/// "SMIN (vectors)", "UMIN (vectors)", "MUL (vectors, predicated)", "ORR (vectors, predicated)",
/// "EOR (vectors, predicated)", "AND (vectors, predicated)".
#[inline(never)]
pub fn merging(
    vectors: &mut Vectors,
    op: BinaryPredicatedOp,
    zdn: VectorReg,
    zm: VectorReg,
    pg: GoverningReg,
    size: Size,
)
    ensures { (core : CoreOf) → RowLeaves (Sve.BinaryPredicated op zdn zm pg size) core vectors.old core vectors.new }
{
    let operation = merging_op(op);
    let width = width_of(size);
    vectors.merge(operation, width, pg.number, zdn.number, zm.number);
}

/// "ABS", "NEG", "NOT (vector)".
pub fn unary(
    vectors: &mut Vectors,
    op: UnaryPredicatedOp,
    zd: VectorReg,
    zn: VectorReg,
    pg: GoverningReg,
    size: Size,
)
    ensures { (core : CoreOf) → RowLeaves (Sve.UnaryPredicated op zd zn pg size) core vectors.old core vectors.new }
{
    let operation = unary_op(op);
    let width = width_of(size);
    vectors.merge_one(operation, width, pg.number, zd.number, zn.number);
}

/// "SXTB, SXTH, SXTW", "UXTB, UXTH, UXTW": of bytes.
pub fn extend_byte(
    vectors: &mut Vectors,
    op: ExtendOp,
    zd: VectorReg,
    zn: VectorReg,
    pg: GoverningReg,
    size: SizeFromH,
)
    ensures { (core : CoreOf) → RowLeaves (Sve.ExtendByte op zd zn pg size) core vectors.old core vectors.new }
{
    let operation = byte_extension(op);
    let width = width_of(size.size());
    vectors.merge_one(operation, width, pg.number, zd.number, zn.number);
}

/// "SXTB, SXTH, SXTW", "UXTB, UXTH, UXTW": of halfwords.
pub fn extend_halfword(
    vectors: &mut Vectors,
    op: ExtendOp,
    zd: VectorReg,
    zn: VectorReg,
    pg: GoverningReg,
    size: SizeFromS,
)
    ensures { (core : CoreOf) → RowLeaves (Sve.ExtendHalfword op zd zn pg size) core vectors.old core vectors.new }
{
    let operation = half_extension(op);
    let width = width_of(size.size());
    vectors.merge_one(operation, width, pg.number, zd.number, zn.number);
}

/// "SXTB, SXTH, SXTW", "UXTB, UXTH, UXTW": of words, to doublewords.
pub fn extend_word(
    vectors: &mut Vectors,
    op: ExtendOp,
    zd: VectorReg,
    zn: VectorReg,
    pg: GoverningReg,
)
    ensures { (core : CoreOf) → RowLeaves (Sve.ExtendWord op zd zn pg) core vectors.old core vectors.new }
{
    let operation = word_extension(op);
    vectors.merge_one(operation, Width::D, pg.number, zd.number, zn.number);
}

/// "DUP (scalar)".
#[inline(never)]
pub fn duplicate(core: &Core, vectors: &mut Vectors, zd: VectorReg, rn: Reg, size: Size)
    ensures { RowLeaves (Sve.DupScalar zd rn size) core.now vectors.old core.now vectors.new }
{
    let width = width_of(size);
    let value = core.register_or_sp(rn);
    vectors.duplicate(width, zd.number, value);
}

// A number of five bits, as a signed one.
#[inline(always)]
fn signed(imm5: Bits<5>) -> i32
    ensures { cast_unsigned w64 result ≡ sign_extended (2 ^ 5) (2 ^ 64) imm5.number }
{
    let number = imm5.number as i32;
    if number < 16 { number } else { number - 32 }
}

/// "INDEX (scalar, immediate)".
#[inline(never)]
pub fn index(core: &Core, vectors: &mut Vectors, zd: VectorReg, rn: Reg, imm5: Bits<5>, size: Size)
    ensures { RowLeaves (Sve.IndexScalarImmediate zd rn imm5 size) core.now vectors.old core.now vectors.new }
{
    let width = width_of(size);
    let from = core.register(rn);
    let by = signed(imm5);
    vectors.index(width, zd.number, from, by);
}

/// "UADDV", "SMAXV", "UMAXV", "SMINV", "UMINV", "ORV", "EORV", "ANDV".
#[inline(never)]
pub fn reduction(
    vectors: &mut Vectors,
    op: ReductionOp,
    zd: VectorReg,
    zn: VectorReg,
    pg: GoverningReg,
    size: Size,
)
    ensures { (core : CoreOf) → RowLeaves (Sve.Reduction op zd zn pg size) core vectors.old core vectors.new }
{
    let operation = reduction_op(op);
    let width = width_of(size);
    let vl = vectors.vl();
    let mask = vectors.p(pg.number);
    let z = vectors.z(zn.number);
    let value = reduce(operation, width, vl, mask, z);
    let wide = reduction_width(op, width);
    let mut out = ZReg::zero();
    out.put(wide, 0, value);
    vectors.set_z(zd.number, &out);
}
