//! The lane operation of each SVE instruction.

ghost use Rattle.std.specs.Prelude.{◌≡◌};
ghost use Rattle.guest_types.specs.LaneMemory.{width_of_size};
ghost use Rattle.sve_code.specs.Numbers.{size_number};
ghost use Rattle.sve_machine.specs.Rows.{add_sub_op, bitwise_op, shift_op, merging_op, unary_op, byte_extension, half_extension, word_extension, reduction_op, reduction_width, comparison, logic_op};

use guest_types::length::Width;
use guest_types::operation::{LaneCompare, LaneOp, LaneUnary, PredOp, ReduceOp, ShiftOp};
use sve_code::{
    AddSubOp, BinaryPredicatedOp, BitwiseOp, ExtendOp, PredicateLogicalOp, ReductionOp,
    ShiftImmediateOp, Size, UnaryPredicatedOp, VectorCompareOp,
};

/// The width of elements of a size.
#[inline(always)]
pub fn width_of(size: Size) -> Width
    ensures { result ≡ width_of_size (size_number size) }
{
    match size {
        Size::B => Width::B,
        Size::H => Width::H,
        Size::S => Width::S,
        Size::D => Width::D,
    }
}

/// The operation of ADD and SUB.
#[inline(always)]
pub fn add_sub_op(op: AddSubOp) -> LaneOp
    ensures { result ≡ add_sub_op op }
{
    match op {
        AddSubOp::Add => LaneOp::Add,
        AddSubOp::Sub => LaneOp::Sub,
    }
}

/// The operation of AND, ORR, EOR and BIC.
#[inline(always)]
pub fn bitwise_op(op: BitwiseOp) -> LaneOp
    ensures { result ≡ bitwise_op op }
{
    match op {
        BitwiseOp::And => LaneOp::And,
        BitwiseOp::Orr => LaneOp::Or,
        BitwiseOp::Eor => LaneOp::Xor,
        BitwiseOp::Bic => LaneOp::Bic,
    }
}

/// The operation of a shift.
#[inline(always)]
pub fn shift_op(op: ShiftImmediateOp) -> ShiftOp
    ensures { result ≡ shift_op op }
{
    match op {
        ShiftImmediateOp::Lsl => ShiftOp::Lsl,
        ShiftImmediateOp::Lsr => ShiftOp::Lsr,
        ShiftImmediateOp::Asr => ShiftOp::Asr,
    }
}

/// The operation of two vectors under a predicate.
#[inline(always)]
pub fn merging_op(op: BinaryPredicatedOp) -> LaneOp
    ensures { result ≡ merging_op op }
{
    match op {
        BinaryPredicatedOp::Add => LaneOp::Add,
        BinaryPredicatedOp::Sub => LaneOp::Sub,
        BinaryPredicatedOp::Smax => LaneOp::SMax,
        BinaryPredicatedOp::Umax => LaneOp::UMax,
        BinaryPredicatedOp::Smin => LaneOp::SMin,
        BinaryPredicatedOp::Umin => LaneOp::UMin,
        BinaryPredicatedOp::Mul => LaneOp::Mul,
        BinaryPredicatedOp::Orr => LaneOp::Or,
        BinaryPredicatedOp::Eor => LaneOp::Xor,
        BinaryPredicatedOp::And => LaneOp::And,
    }
}

/// The operation of ABS, NEG and NOT.
#[inline(always)]
pub fn unary_op(op: UnaryPredicatedOp) -> LaneUnary
    ensures { result ≡ unary_op op }
{
    match op {
        UnaryPredicatedOp::Abs => LaneUnary::Abs,
        UnaryPredicatedOp::Neg => LaneUnary::Neg,
        UnaryPredicatedOp::Not => LaneUnary::Not,
    }
}

/// The operation of SXTB and UXTB.
#[inline(always)]
pub fn byte_extension(op: ExtendOp) -> LaneUnary
    ensures { result ≡ byte_extension op }
{
    match op {
        ExtendOp::Signed => LaneUnary::SxtB,
        ExtendOp::Unsigned => LaneUnary::UxtB,
    }
}

/// The operation of SXTH and UXTH.
#[inline(always)]
pub fn half_extension(op: ExtendOp) -> LaneUnary
    ensures { result ≡ half_extension op }
{
    match op {
        ExtendOp::Signed => LaneUnary::SxtH,
        ExtendOp::Unsigned => LaneUnary::UxtH,
    }
}

/// The operation of SXTW and UXTW.
#[inline(always)]
pub fn word_extension(op: ExtendOp) -> LaneUnary
    ensures { result ≡ word_extension op }
{
    match op {
        ExtendOp::Signed => LaneUnary::SxtW,
        ExtendOp::Unsigned => LaneUnary::UxtW,
    }
}

/// The operation of a reduction.
#[inline(always)]
pub fn reduction_op(op: ReductionOp) -> ReduceOp
    ensures { result ≡ reduction_op op }
{
    match op {
        ReductionOp::Uaddv => ReduceOp::UAdd,
        ReductionOp::Smaxv => ReduceOp::SMax,
        ReductionOp::Umaxv => ReduceOp::UMax,
        ReductionOp::Sminv => ReduceOp::SMin,
        ReductionOp::Uminv => ReduceOp::UMin,
        ReductionOp::Orv => ReduceOp::Or,
        ReductionOp::Eorv => ReduceOp::Xor,
        ReductionOp::Andv => ReduceOp::And,
    }
}

/// The width of what a reduction of elements of a width leaves.
#[inline(always)]
pub fn reduction_width(op: ReductionOp, width: Width) -> Width
    ensures { result ≡ reduction_width op width }
{
    match op {
        ReductionOp::Uaddv => Width::D,
        _ => width,
    }
}

/// The comparison of an instruction.
#[inline(always)]
pub fn comparison(op: VectorCompareOp) -> LaneCompare
    ensures { result ≡ comparison op }
{
    match op {
        VectorCompareOp::Hs => LaneCompare::Hs,
        VectorCompareOp::Hi => LaneCompare::Hi,
        VectorCompareOp::Ge => LaneCompare::Ge,
        VectorCompareOp::Gt => LaneCompare::Gt,
        VectorCompareOp::Eq => LaneCompare::Eq,
        VectorCompareOp::Ne => LaneCompare::Ne,
    }
}

/// The operation of two predicates.
#[inline(always)]
pub fn logic_op(op: PredicateLogicalOp) -> PredOp
    ensures { result ≡ logic_op op }
{
    match op {
        PredicateLogicalOp::And => PredOp::And,
        PredicateLogicalOp::Bic => PredOp::Bic,
        PredicateLogicalOp::Eor => PredOp::Eor,
        PredicateLogicalOp::Orr => PredOp::Orr,
        PredicateLogicalOp::Ands => PredOp::And,
    }
}
