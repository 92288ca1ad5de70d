//! Single instructions of lane code, and what types say of them.

ghost use Rattle.std.specs.Prelude.{◌≡◌, ◌+◌, ◌-◌, ◌*◌, ◌<◌, ◌≤◌, [], ◌∷◌};
ghost use Rattle.guest_types.specs.Length.{width_bits};
ghost use Rattle.sve_code.specs.View.{instruction_view};
ghost use Rattle.sve_code.specs.View as sve;
ghost use Rattle.sve_code.specs.Numbers.{size_number, size_from_h_number, size_from_s_number};
ghost use Rattle.sve_code.specs.Table as table;
ghost use Rattle.lane_emit.specs.Stretch.{word};
ghost use Rattle.lane_emit.specs.LaneCode as code;

use guest_types::length::Width;
use kernel_tree::{CompareOp, Ty};
use label_fix::registers::ALL_TRUE;
use sve_code::{
    AddSubOp, BinaryPredicatedOp, BitwiseOp, ExtendOp, GoverningReg, PredicateLogicalOp,
    PredicateReg, ShiftAmount, ShiftImmediateOp, Size, SizeFromH, SizeFromS, Sve,
    UnaryPredicatedOp, VectorCompareOp, VectorReg,
};
use word_rows::Bits;

// ---- sizes

/// The size of elements of a width.
pub fn size(width: Width) -> Size
    ensures { size_number result ≡ code.size_of width }
{
    match width {
        Width::B => Size::B,
        Width::H => Size::H,
        Width::S => Size::S,
        Width::D => Size::D,
    }
}

fn size_from_h(width: Width) -> SizeFromH
    requires { 8 < width_bits width }
    ensures { size_from_h_number result ≡ code.size_of width }
{
    match width {
        Width::B | Width::H => SizeFromH::H,
        Width::S => SizeFromH::S,
        Width::D => SizeFromH::D,
    }
}

fn size_from_s(width: Width) -> SizeFromS
    requires { 16 < width_bits width }
    ensures { size_from_s_number result ≡ code.size_of width }
{
    match width {
        Width::B | Width::H | Width::S => SizeFromS::S,
        Width::D => SizeFromS::D,
    }
}

/// A governing register as any predicate register.
pub fn wide(p: GoverningReg) -> PredicateReg
    ensures { result.number ≡ p.number }
{
    Bits { number: p.number }
}

// ---- vectors

/// ADD and SUB.
pub fn add_sub(op: AddSubOp, width: Width, d: VectorReg, a: VectorReg, b: VectorReg) -> Sve
    ensures { instruction_view result ≡ word (sve.add_sub_name op)
        (d.number ∷ a.number ∷ b.number ∷ code.size_of width ∷ []) }
{
    Sve::AddSub {
        op,
        zd: d,
        zn: a,
        zm: b,
        size: size(width),
    }
}

/// AND, ORR and EOR.
pub fn bitwise(op: BitwiseOp, d: VectorReg, a: VectorReg, b: VectorReg) -> Sve
    ensures { instruction_view result ≡ word (sve.logic_name op) (d.number ∷ a.number ∷ b.number ∷ []) }
{
    Sve::Bitwise {
        op,
        zd: d,
        zn: a,
        zm: b,
    }
}

/// An operation that changes its first operand, in all lanes.
pub fn merging(op: BinaryPredicatedOp, width: Width, d: VectorReg, b: VectorReg) -> Sve
    ensures { instruction_view result ≡ word (sve.merging_name op) (d.number ∷ b.number ∷ 1 ∷ code.size_of width ∷ []) }
{
    Sve::BinaryPredicated {
        op,
        zdn: d,
        zm: b,
        pg: ALL_TRUE,
        size: size(width),
    }
}

/// ABS, NEG and NOT, in all lanes.
pub fn unary(op: UnaryPredicatedOp, width: Width, d: VectorReg, a: VectorReg) -> Sve
    ensures { instruction_view result ≡ word (sve.unary_name op) (d.number ∷ a.number ∷ 1 ∷ code.size_of width ∷ []) }
{
    Sve::UnaryPredicated {
        op,
        zd: d,
        zn: a,
        pg: ALL_TRUE,
        size: size(width),
    }
}

/// The extension of bytes.
pub fn extend_byte(op: ExtendOp, width: Width, d: VectorReg, a: VectorReg) -> Sve
    requires { 8 < width_bits width }
    ensures { instruction_view result ≡ word (sve.extend_byte_name op)
        (d.number ∷ a.number ∷ 1 ∷ code.size_of width ∷ []) }
{
    Sve::ExtendByte {
        op,
        zd: d,
        zn: a,
        pg: ALL_TRUE,
        size: size_from_h(width),
    }
}

/// The extension of halfwords.
pub fn extend_halfword(op: ExtendOp, width: Width, d: VectorReg, a: VectorReg) -> Sve
    requires { 16 < width_bits width }
    ensures { instruction_view result ≡ word (sve.extend_half_name op)
        (d.number ∷ a.number ∷ 1 ∷ code.size_of width ∷ []) }
{
    Sve::ExtendHalfword {
        op,
        zd: d,
        zn: a,
        pg: ALL_TRUE,
        size: size_from_s(width),
    }
}

/// The extension of words to doublewords.
pub fn extend_word(op: ExtendOp, d: VectorReg, a: VectorReg) -> Sve
    ensures { instruction_view result ≡ word (sve.extend_word_name op) (d.number ∷ a.number ∷ 1 ∷ []) }
{
    Sve::ExtendWord {
        op,
        zd: d,
        zn: a,
        pg: ALL_TRUE,
    }
}

/// A shift to the left, by fewer bits than a lane has.
pub fn shift_left(width: Width, d: VectorReg, a: VectorReg, count: u32) -> Sve
    requires { count < width_bits width }
    ensures { instruction_view result ≡ code.shift_word table.lsl_imm d.number a.number (width_bits width + count) }
{
    let value = width.bits() + count;
    Sve::ShiftImmediate {
        op: ShiftImmediateOp::Lsl,
        zd: d,
        zn: a,
        amount: ShiftAmount { value },
    }
}

/// A shift to the right, by at least one bit and by less than a lane has.
pub fn shift_right(signed: bool, width: Width, d: VectorReg, a: VectorReg, count: u32) -> Sve
    requires some { 1 ≤ count }
    requires short { count < width_bits width }
    ensures { instruction_view result ≡ code.shift_word (code.right_by signed)
        d.number a.number (2 * width_bits width - count) }
{
    let value = 2 * width.bits() - count;
    let op = if signed {
        ShiftImmediateOp::Asr
    } else {
        ShiftImmediateOp::Lsr
    };
    Sve::ShiftImmediate {
        op,
        zd: d,
        zn: a,
        amount: ShiftAmount { value },
    }
}

/// SEL.
pub fn select(width: Width, d: VectorReg, p: PredicateReg, a: VectorReg, b: VectorReg) -> Sve
    ensures { instruction_view result ≡ word table.sel
        (d.number ∷ a.number ∷ p.number ∷ b.number ∷ code.size_of width ∷ []) }
{
    Sve::Sel {
        zd: d,
        zn: a,
        pg: p,
        zm: b,
        size: size(width),
    }
}

// ---- predicates

/// A comparison under a mask.
pub fn compare(
    op: VectorCompareOp,
    width: Width,
    d: PredicateReg,
    m: GoverningReg,
    a: VectorReg,
    b: VectorReg,
) -> Sve
    ensures { instruction_view result ≡ code.compare_word width (sve.compare_name op)
        d.number m.number a.number b.number }
{
    Sve::CompareVectors {
        op,
        pd: d,
        zn: a,
        pg: m,
        zm: b,
        size: size(width),
    }
}

/// An operation of predicates under a mask.
pub fn logical(
    op: PredicateLogicalOp,
    d: PredicateReg,
    m: PredicateReg,
    a: PredicateReg,
    b: PredicateReg,
) -> Sve
    ensures { instruction_view result ≡ word (sve.pred_logic_name op) (d.number ∷ a.number ∷ m.number ∷ b.number ∷ []) }
{
    Sve::PredicateLogical {
        op,
        pd: d,
        pn: a,
        pg: m,
        pm: b,
    }
}

/// The comparison of values of a type; for < and <= the operands are exchanged.
pub fn test(
    op: CompareOp,
    ty: Ty,
    width: Width,
    d: PredicateReg,
    m: GoverningReg,
    a: VectorReg,
    b: VectorReg,
) -> Sve
    ensures { code.test_code width op ty d.number m.number a.number b.number ≡ instruction_view result ∷ [] }
{
    match op {
        CompareOp::Eq => compare(VectorCompareOp::Eq, width, d, m, a, b),
        CompareOp::Ne => compare(VectorCompareOp::Ne, width, d, m, a, b),
        CompareOp::Lt => compare(greater(ty), width, d, m, b, a),
        CompareOp::Le => compare(greater_or_same(ty), width, d, m, b, a),
        CompareOp::Gt => compare(greater(ty), width, d, m, a, b),
        CompareOp::Ge => compare(greater_or_same(ty), width, d, m, a, b),
    }
}

fn greater(ty: Ty) -> VectorCompareOp
    ensures { sve.compare_name result ≡ code.greater_name ty }
{
    if ty.is_signed() {
        VectorCompareOp::Gt
    } else {
        VectorCompareOp::Hi
    }
}

fn greater_or_same(ty: Ty) -> VectorCompareOp
    ensures { sve.compare_name result ≡ code.greater_or_same_name ty }
{
    if ty.is_signed() {
        VectorCompareOp::Ge
    } else {
        VectorCompareOp::Hs
    }
}
