//! The text of SVE instructions.
ghost use Rattle.std.specs.Prelude.{◌≡◌, ◌≤◌, ◌==◌, if◌then◌else◌, ◌+◌, [], ◌∷◌, ◌++◌, length, codes};
ghost use Rattle.arrayvec.specs.ArrayString.{array_string_len};
ghost use Rattle.sve_code.specs.declared.Sve.{Sve};
ghost use Rattle.sve_code.specs.View.{instruction_view};
ghost use Rattle.sve_code.specs.Numbers.{size_number, dtype_number, left_amount, right_amount};
ghost use Rattle.list_text.specs.Parts.{x_register, w_register, x_or_sp, w_or_sp};
ghost use Rattle.list_text.specs.SveText as text;

use crate::LineBuf;
use crate::parts::{
    access_letter_of, begin, begin_p, begin_x, begin_z, comma_constant, comma_p, comma_x, comma_z,
    dotted_of, letter_of, push_decimal, push_offset_address, push_p, push_register_address,
    push_signed_5, push_vector_address, push_w, push_w_or_sp, push_x, push_x_or_sp, push_z,
};
use sve_code::{
    AddSubOp, BinaryPredicatedOp, BitwiseOp, BreakOp, Dtype, ElementCountOp, ExtendOp, GatherOp,
    GoverningReg, OffsetReg, PredicateLogicalOp, PredicateReg, ReductionOp, Reg, ShiftAmount,
    ShiftImmediateOp, Size, SizeFromH, SizeFromS, StoreSizes, Sve, UnaryPredicatedOp,
    VectorCompareOp, VectorReg,
};
use word_rows::Bits;

/// Replaces what `into` holds by the text of an instruction.
pub fn instruction_text(instruction: Sve, into: &mut LineBuf)
    ensures { into.new.bytes ≡ text.sve_text (instruction_view instruction) }
{
    match instruction {
        Sve::Ptrue { pd, size } => ptrue(into, pd, size),
        Sve::Pfalse { pd } => pfalse(into, pd),
        Sve::Whilelo { pd, rn, rm, size } => whilelo(into, pd, rn, rm, size),
        Sve::Ptest { pn, pg } => ptest(into, pn, pg),
        Sve::PredicateLogical { op, pd, pn, pg, pm } => predicate_logical(into, op, pd, pn, pg, pm),
        Sve::Break { op, pd, pn, pg } => break_at(into, op, pd, pn, pg),
        Sve::Rdffr { pd } => rdffr(into, pd),
        Sve::RdffrPredicated { pd, pg } => rdffr_predicated(into, pd, pg),
        Sve::Setffr => begin(into, "setffr"),
        Sve::Wrffr { pn } => wrffr(into, pn),
        Sve::ElementCount { op, rd } => element_count(into, op, rd),
        Sve::Incp { rd, pm, size } => incp(into, rd, pm, size),
        Sve::Cntp { rd, pn, pg, size } => cntp(into, rd, pn, pg, size),
        Sve::DupScalar { zd, rn, size } => dup_scalar(into, zd, rn, size),
        Sve::IndexScalarImmediate { zd, rn, imm5, size } => index(into, zd, rn, imm5, size),
        Sve::Sel {
            zd,
            zn,
            pg,
            zm,
            size,
        } => sel(into, zd, zn, pg, zm, size),
        Sve::AddSub {
            op,
            zd,
            zn,
            zm,
            size,
        } => add_sub(into, op, zd, zn, zm, size),
        Sve::Bitwise { op, zd, zn, zm } => bitwise(into, op, zd, zn, zm),
        Sve::ShiftImmediate { op, zd, zn, amount } => shift_immediate(into, op, zd, zn, amount),
        Sve::BinaryPredicated {
            op,
            zdn,
            zm,
            pg,
            size,
        } => binary_predicated(into, op, zdn, zm, pg, size),
        Sve::UnaryPredicated {
            op,
            zd,
            zn,
            pg,
            size,
        } => unary_predicated(into, op, zd, zn, pg, size),
        Sve::ExtendByte {
            op,
            zd,
            zn,
            pg,
            size,
        } => extend_byte(into, op, zd, zn, pg, size),
        Sve::ExtendHalfword {
            op,
            zd,
            zn,
            pg,
            size,
        } => extend_halfword(into, op, zd, zn, pg, size),
        Sve::ExtendWord { op, zd, zn, pg } => extend_word(into, op, zd, zn, pg),
        Sve::Reduction {
            op,
            zd,
            zn,
            pg,
            size,
        } => reduction(into, op, zd, zn, pg, size),
        Sve::CompareVectors {
            op,
            pd,
            zn,
            pg,
            zm,
            size,
        } => compare_vectors(into, op, pd, zn, pg, zm, size),
        Sve::ContiguousLoad {
            zt,
            rn,
            pg,
            offset,
            dtype,
        } => contiguous_load(into, zt, rn, pg, offset, dtype),
        Sve::FirstFaultLoad {
            zt,
            rn,
            pg,
            rm,
            dtype,
        } => first_fault_load(into, zt, rn, pg, rm, dtype),
        Sve::NonFaultLoad { zt, rn, pg, dtype } => non_fault_load(into, zt, rn, pg, dtype),
        Sve::GatherLoad { op, zt, rn, pg, zm } => gather_load(into, op, zt, rn, pg, zm),
        Sve::ContiguousStore {
            zt,
            rn,
            pg,
            offset,
            sizes,
        } => contiguous_store(into, zt, rn, pg, offset, sizes),
    }
}

/// Writes `ptrue p1.b` and its like.
fn ptrue(into: &mut LineBuf, pd: PredicateReg, size: Size)
    ensures { into.new.bytes ≡ text.sve_text (instruction_view (Sve.Ptrue pd size)) }
{
    begin_p(into, "ptrue ", pd.number);
    into.push_str(dotted_of(size));
}

/// Writes `pfalse p0.b`.
fn pfalse(into: &mut LineBuf, pd: PredicateReg)
    ensures { into.new.bytes ≡ text.sve_text (instruction_view (Sve.Pfalse pd)) }
{
    begin_p(into, "pfalse ", pd.number);
    into.push_str(".b");
}

/// Writes `whilelo p0.h, x9, x1` and its like.
fn whilelo(into: &mut LineBuf, pd: PredicateReg, rn: Reg, rm: Reg, size: Size)
    ensures { into.new.bytes ≡ text.sve_text (instruction_view (Sve.Whilelo pd rn rm size)) }
{
    begin_p(into, "whilelo ", pd.number);
    into.push_str(dotted_of(size));
    comma_x(into, rn);
    comma_x(into, rm);
}

/// Writes `ptest p1, p2.b`.
fn ptest(into: &mut LineBuf, pn: PredicateReg, pg: PredicateReg)
    ensures { into.new.bytes ≡ text.sve_text (instruction_view (Sve.Ptest pn pg)) }
{
    begin_p(into, "ptest ", pg.number);
    comma_p(into, pn.number);
    into.push_str(".b");
}

/// Writes `and p2.b, p0/z, p1.b, p3.b` and its like.
fn predicate_logical(
    into: &mut LineBuf,
    op: PredicateLogicalOp,
    pd: PredicateReg,
    pn: PredicateReg,
    pg: PredicateReg,
    pm: PredicateReg,
)
    ensures { into.new.bytes ≡ text.sve_text (instruction_view (Sve.PredicateLogical op pd pn pg pm)) }
{
    match op {
        PredicateLogicalOp::And => four_predicates(into, "and ", pd, pn, pg, pm),
        PredicateLogicalOp::Bic => four_predicates(into, "bic ", pd, pn, pg, pm),
        PredicateLogicalOp::Eor => four_predicates(into, "eor ", pd, pn, pg, pm),
        PredicateLogicalOp::Orr => four_predicates(into, "orr ", pd, pn, pg, pm),
        PredicateLogicalOp::Ands => four_predicates(into, "ands ", pd, pn, pg, pm),
    }
}

fn four_predicates(
    into: &mut LineBuf,
    mnemonic: &str,
    pd: PredicateReg,
    pn: PredicateReg,
    pg: PredicateReg,
    pm: PredicateReg,
)
    requires { length mnemonic.now ≤ 8 }
    ensures { into.new.bytes ≡ text.predicate_logical mnemonic.now
        (pd.number ∷ pn.number ∷ pg.number ∷ pm.number ∷ []) }
{
    begin_p(into, mnemonic, pd.number);
    into.push_str(".b, ");
    push_p(into, pg.number);
    into.push_str("/z, ");
    push_p(into, pn.number);
    into.push_str(".b, ");
    push_p(into, pm.number);
    into.push_str(".b");
}

/// Writes `brkb p2.b, p0/z, p1.b` and its like.
fn break_at(into: &mut LineBuf, op: BreakOp, pd: PredicateReg, pn: PredicateReg, pg: PredicateReg)
    ensures { into.new.bytes ≡ text.sve_text (instruction_view (Sve.Break op pd pn pg)) }
{
    match op {
        BreakOp::Brka => three_predicates(into, "brka ", pd, pn, pg),
        BreakOp::Brkb => three_predicates(into, "brkb ", pd, pn, pg),
    }
}

fn three_predicates(
    into: &mut LineBuf,
    mnemonic: &str,
    pd: PredicateReg,
    pn: PredicateReg,
    pg: PredicateReg,
)
    requires { length mnemonic.now ≤ 8 }
    ensures { into.new.bytes ≡ text.break_at mnemonic.now (pd.number ∷ pn.number ∷ pg.number ∷ []) }
{
    begin_p(into, mnemonic, pd.number);
    into.push_str(".b, ");
    push_p(into, pg.number);
    into.push_str("/z, ");
    push_p(into, pn.number);
    into.push_str(".b");
}

/// Writes `rdffr p0.b`.
fn rdffr(into: &mut LineBuf, pd: PredicateReg)
    ensures { into.new.bytes ≡ text.sve_text (instruction_view (Sve.Rdffr pd)) }
{
    begin_p(into, "rdffr ", pd.number);
    into.push_str(".b");
}

/// Writes `rdffr p0.b, p1/z`.
fn rdffr_predicated(into: &mut LineBuf, pd: PredicateReg, pg: PredicateReg)
    ensures { into.new.bytes ≡ text.sve_text (instruction_view (Sve.RdffrPredicated pd pg)) }
{
    begin_p(into, "rdffr ", pd.number);
    into.push_str(".b, ");
    push_p(into, pg.number);
    into.push_str("/z");
}

/// Writes `wrffr p0.b`.
fn wrffr(into: &mut LineBuf, pn: PredicateReg)
    ensures { into.new.bytes ≡ text.sve_text (instruction_view (Sve.Wrffr pn)) }
{
    begin_p(into, "wrffr ", pn.number);
    into.push_str(".b");
}

/// Writes `cntb x0` and its like.
fn element_count(into: &mut LineBuf, op: ElementCountOp, rd: Reg)
    ensures { into.new.bytes ≡ text.sve_text (instruction_view (Sve.ElementCount op rd)) }
{
    match op {
        ElementCountOp::Cntb => begin_x(into, "cntb ", rd),
        ElementCountOp::Cnth => begin_x(into, "cnth ", rd),
        ElementCountOp::Cntw => begin_x(into, "cntw ", rd),
        ElementCountOp::Cntd => begin_x(into, "cntd ", rd),
    }
}

/// Writes `incp x9, p0.s` and its like.
fn incp(into: &mut LineBuf, rd: Reg, pm: PredicateReg, size: Size)
    ensures { into.new.bytes ≡ text.sve_text (instruction_view (Sve.Incp rd pm size)) }
{
    begin_x(into, "incp ", rd);
    comma_p(into, pm.number);
    into.push_str(dotted_of(size));
}

/// Writes `cntp x0, p1, p2.d` and its like.
fn cntp(into: &mut LineBuf, rd: Reg, pn: PredicateReg, pg: PredicateReg, size: Size)
    ensures { into.new.bytes ≡ text.sve_text (instruction_view (Sve.Cntp rd pn pg size)) }
{
    begin_x(into, "cntp ", rd);
    comma_p(into, pg.number);
    comma_p(into, pn.number);
    into.push_str(dotted_of(size));
}

/// Writes `dup z0.b, w1` and its like.
fn dup_scalar(into: &mut LineBuf, zd: VectorReg, rn: Reg, size: Size)
    ensures { into.new.bytes ≡ text.sve_text (instruction_view (Sve.DupScalar zd rn size)) }
{
    begin_z(into, "dup ", zd, size);
    into.push_str(", ");
    push_scalar_or_sp(into, rn, size);
}

/// Writes `index z0.s, w1, #1` and its like.
fn index(into: &mut LineBuf, zd: VectorReg, rn: Reg, imm5: Bits<5>, size: Size)
    ensures { into.new.bytes ≡ text.sve_text (instruction_view (Sve.IndexScalarImmediate zd rn imm5 size)) }
{
    begin_z(into, "index ", zd, size);
    into.push_str(", ");
    push_scalar(into, rn, size);
    into.push_str(", ");
    push_signed_5(into, imm5);
}

/// Appends the register that holds a scalar of this size.
fn push_scalar(into: &mut LineBuf, register: Reg, size: Size)
    requires { array_string_len into.old ≤ 50 }
    ensures bytes { into.new.bytes ≡ into.old.bytes
        ++ (if size_number size == 3 then x_register register.number else w_register register.number) }
    ensures len { array_string_len into.new ≤ array_string_len into.old + 3 }
{
    match size {
        Size::D => push_x(into, register),
        Size::B | Size::H | Size::S => push_w(into, register),
    }
}

/// The same, where 31 is SP.
fn push_scalar_or_sp(into: &mut LineBuf, register: Reg, size: Size)
    requires { array_string_len into.old ≤ 50 }
    ensures { into.new.bytes ≡ into.old.bytes
        ++ (if size_number size == 3 then x_or_sp register.number else w_or_sp register.number) }
{
    match size {
        Size::D => push_x_or_sp(into, register),
        Size::B | Size::H | Size::S => push_w_or_sp(into, register),
    }
}

/// Writes `sel z0.b, p2, z1.b, z2.b` and its like.
fn sel(
    into: &mut LineBuf,
    zd: VectorReg,
    zn: VectorReg,
    pg: PredicateReg,
    zm: VectorReg,
    size: Size,
)
    ensures { into.new.bytes ≡ text.sve_text (instruction_view (Sve.Sel zd zn pg zm size)) }
{
    begin_z(into, "sel ", zd, size);
    comma_p(into, pg.number);
    comma_z(into, zn, size);
    comma_z(into, zm, size);
}

/// Writes `add z0.b, z1.b, z2.b` and its like.
fn add_sub(
    into: &mut LineBuf,
    op: AddSubOp,
    zd: VectorReg,
    zn: VectorReg,
    zm: VectorReg,
    size: Size,
)
    ensures { into.new.bytes ≡ text.sve_text (instruction_view (Sve.AddSub op zd zn zm size)) }
{
    match op {
        AddSubOp::Add => three_vectors(into, "add ", zd, zn, zm, size),
        AddSubOp::Sub => three_vectors(into, "sub ", zd, zn, zm, size),
    }
}

fn three_vectors(
    into: &mut LineBuf,
    mnemonic: &str,
    zd: VectorReg,
    zn: VectorReg,
    zm: VectorReg,
    size: Size,
)
    requires { length mnemonic.now ≤ 8 }
    ensures { into.new.bytes ≡ text.vectors mnemonic.now (zd.number ∷ zn.number ∷ zm.number ∷ size_number size ∷ []) }
{
    begin_z(into, mnemonic, zd, size);
    comma_z(into, zn, size);
    comma_z(into, zm, size);
}

/// Writes `and z0.d, z1.d, z2.d` and its like.
fn bitwise(into: &mut LineBuf, op: BitwiseOp, zd: VectorReg, zn: VectorReg, zm: VectorReg)
    ensures { into.new.bytes ≡ text.sve_text (instruction_view (Sve.Bitwise op zd zn zm)) }
{
    match op {
        BitwiseOp::And => three_registers(into, "and ", zd, zn, zm),
        BitwiseOp::Orr => three_registers(into, "orr ", zd, zn, zm),
        BitwiseOp::Eor => three_registers(into, "eor ", zd, zn, zm),
        BitwiseOp::Bic => three_registers(into, "bic ", zd, zn, zm),
    }
}

fn three_registers(into: &mut LineBuf, mnemonic: &str, zd: VectorReg, zn: VectorReg, zm: VectorReg)
    requires { length mnemonic.now ≤ 8 }
    ensures { into.new.bytes ≡ text.bitwise mnemonic.now (zd.number ∷ zn.number ∷ zm.number ∷ []) }
{
    begin_z(into, mnemonic, zd, Size::D);
    comma_z(into, zn, Size::D);
    comma_z(into, zm, Size::D);
}

/// Writes `lsl z0.s, z1.s, #3` and its like.
fn shift_immediate(
    into: &mut LineBuf,
    op: ShiftImmediateOp,
    zd: VectorReg,
    zn: VectorReg,
    amount: ShiftAmount,
)
    ensures { into.new.bytes ≡ text.sve_text (instruction_view (Sve.ShiftImmediate op zd zn amount)) }
{
    match op {
        ShiftImmediateOp::Lsl => shift_left(into, zd, zn, amount),
        ShiftImmediateOp::Lsr => shift_right(into, "lsr ", zd, zn, amount),
        ShiftImmediateOp::Asr => shift_right(into, "asr ", zd, zn, amount),
    }
}

fn shift_left(into: &mut LineBuf, zd: VectorReg, zn: VectorReg, amount: ShiftAmount)
    ensures { into.new.bytes ≡ text.shift_text (codes "lsl ") left_amount zd.number zn.number amount.value }
{
    let size = amount.size();
    begin_z(into, "lsl ", zd, size);
    comma_z(into, zn, size);
    comma_constant(into, amount.left_amount());
}

fn shift_right(
    into: &mut LineBuf,
    mnemonic: &str,
    zd: VectorReg,
    zn: VectorReg,
    amount: ShiftAmount,
)
    requires { length mnemonic.now ≤ 8 }
    ensures { into.new.bytes ≡ text.shift_text mnemonic.now right_amount zd.number zn.number amount.value }
{
    let size = amount.size();
    begin_z(into, mnemonic, zd, size);
    comma_z(into, zn, size);
    comma_constant(into, amount.right_amount());
}

/// Writes `add z0.b, p0/m, z0.b, z1.b` and its like.
fn binary_predicated(
    into: &mut LineBuf,
    op: BinaryPredicatedOp,
    zdn: VectorReg,
    zm: VectorReg,
    pg: GoverningReg,
    size: Size,
)
    ensures { into.new.bytes ≡ text.sve_text (instruction_view (Sve.BinaryPredicated op zdn zm pg size)) }
{
    match op {
        BinaryPredicatedOp::Add => merging_binary(into, "add ", zdn, zm, pg, size),
        BinaryPredicatedOp::Sub => merging_binary(into, "sub ", zdn, zm, pg, size),
        BinaryPredicatedOp::Smax => merging_binary(into, "smax ", zdn, zm, pg, size),
        BinaryPredicatedOp::Umax => merging_binary(into, "umax ", zdn, zm, pg, size),
        BinaryPredicatedOp::Smin => merging_binary(into, "smin ", zdn, zm, pg, size),
        BinaryPredicatedOp::Umin => merging_binary(into, "umin ", zdn, zm, pg, size),
        BinaryPredicatedOp::Mul => merging_binary(into, "mul ", zdn, zm, pg, size),
        BinaryPredicatedOp::Orr => merging_binary(into, "orr ", zdn, zm, pg, size),
        BinaryPredicatedOp::Eor => merging_binary(into, "eor ", zdn, zm, pg, size),
        BinaryPredicatedOp::And => merging_binary(into, "and ", zdn, zm, pg, size),
    }
}

fn merging_binary(
    into: &mut LineBuf,
    mnemonic: &str,
    zdn: VectorReg,
    zm: VectorReg,
    pg: GoverningReg,
    size: Size,
)
    requires { length mnemonic.now ≤ 8 }
    ensures { into.new.bytes ≡ text.binary_predicated mnemonic.now
        (zdn.number ∷ zm.number ∷ pg.number ∷ size_number size ∷ []) }
{
    begin_z(into, mnemonic, zdn, size);
    comma_p(into, pg.number);
    into.push_str("/m, ");
    push_z(into, zdn, size);
    comma_z(into, zm, size);
}

/// Writes `abs z0.b, p0/m, z1.b` and its like.
fn unary_predicated(
    into: &mut LineBuf,
    op: UnaryPredicatedOp,
    zd: VectorReg,
    zn: VectorReg,
    pg: GoverningReg,
    size: Size,
)
    ensures { into.new.bytes ≡ text.sve_text (instruction_view (Sve.UnaryPredicated op zd zn pg size)) }
{
    match op {
        UnaryPredicatedOp::Abs => merging_unary(into, "abs ", zd, zn, pg, size),
        UnaryPredicatedOp::Neg => merging_unary(into, "neg ", zd, zn, pg, size),
        UnaryPredicatedOp::Not => merging_unary(into, "not ", zd, zn, pg, size),
    }
}

/// Writes `sxtb z0.h, p0/m, z1.h` and its like.
fn extend_byte(
    into: &mut LineBuf,
    op: ExtendOp,
    zd: VectorReg,
    zn: VectorReg,
    pg: GoverningReg,
    size: SizeFromH,
)
    ensures { into.new.bytes ≡ text.sve_text (instruction_view (Sve.ExtendByte op zd zn pg size)) }
{
    match op {
        ExtendOp::Signed => merging_unary(into, "sxtb ", zd, zn, pg, size.size()),
        ExtendOp::Unsigned => merging_unary(into, "uxtb ", zd, zn, pg, size.size()),
    }
}

/// Writes `sxth z0.s, p0/m, z1.s` and its like.
fn extend_halfword(
    into: &mut LineBuf,
    op: ExtendOp,
    zd: VectorReg,
    zn: VectorReg,
    pg: GoverningReg,
    size: SizeFromS,
)
    ensures { into.new.bytes ≡ text.sve_text (instruction_view (Sve.ExtendHalfword op zd zn pg size)) }
{
    match op {
        ExtendOp::Signed => merging_unary(into, "sxth ", zd, zn, pg, size.size()),
        ExtendOp::Unsigned => merging_unary(into, "uxth ", zd, zn, pg, size.size()),
    }
}

fn merging_unary(
    into: &mut LineBuf,
    mnemonic: &str,
    zd: VectorReg,
    zn: VectorReg,
    pg: GoverningReg,
    size: Size,
)
    requires { length mnemonic.now ≤ 8 }
    ensures { into.new.bytes ≡ text.unary_predicated mnemonic.now
        (zd.number ∷ zn.number ∷ pg.number ∷ size_number size ∷ []) }
{
    begin_z(into, mnemonic, zd, size);
    comma_p(into, pg.number);
    into.push_str("/m, ");
    push_z(into, zn, size);
}

/// Writes `sxtw z0.d, p0/m, z1.d` and its like.
fn extend_word(into: &mut LineBuf, op: ExtendOp, zd: VectorReg, zn: VectorReg, pg: GoverningReg)
    ensures { into.new.bytes ≡ text.sve_text (instruction_view (Sve.ExtendWord op zd zn pg)) }
{
    match op {
        ExtendOp::Signed => merging_unary(into, "sxtw ", zd, zn, pg, Size::D),
        ExtendOp::Unsigned => merging_unary(into, "uxtw ", zd, zn, pg, Size::D),
    }
}

/// Writes `smaxv b0, p0, z1.b` and its like.
fn reduction(
    into: &mut LineBuf,
    op: ReductionOp,
    zd: VectorReg,
    zn: VectorReg,
    pg: GoverningReg,
    size: Size,
)
    ensures { into.new.bytes ≡ text.sve_text (instruction_view (Sve.Reduction op zd zn pg size)) }
{
    match op {
        ReductionOp::Uaddv => reduction_to(into, "uaddv ", "d", zd, zn, pg, size),
        ReductionOp::Smaxv => reduction_to(into, "smaxv ", letter_of(size), zd, zn, pg, size),
        ReductionOp::Umaxv => reduction_to(into, "umaxv ", letter_of(size), zd, zn, pg, size),
        ReductionOp::Sminv => reduction_to(into, "sminv ", letter_of(size), zd, zn, pg, size),
        ReductionOp::Uminv => reduction_to(into, "uminv ", letter_of(size), zd, zn, pg, size),
        ReductionOp::Orv => reduction_to(into, "orv ", letter_of(size), zd, zn, pg, size),
        ReductionOp::Eorv => reduction_to(into, "eorv ", letter_of(size), zd, zn, pg, size),
        ReductionOp::Andv => reduction_to(into, "andv ", letter_of(size), zd, zn, pg, size),
    }
}

fn reduction_to(
    into: &mut LineBuf,
    mnemonic: &str,
    letter: &str,
    zd: VectorReg,
    zn: VectorReg,
    pg: GoverningReg,
    size: Size,
)
    requires short { length mnemonic.now ≤ 8 }
    requires one { length letter.now ≤ 1 }
    ensures { into.new.bytes ≡ text.reduction mnemonic.now letter.now
        (zd.number ∷ zn.number ∷ pg.number ∷ size_number size ∷ []) }
{
    begin(into, mnemonic);
    into.push_str(letter);
    push_decimal(into, zd.number);
    comma_p(into, pg.number);
    comma_z(into, zn, size);
}

/// Writes `cmpeq p2.s, p0/z, z1.s, z2.s` and its like.
fn compare_vectors(
    into: &mut LineBuf,
    op: VectorCompareOp,
    pd: PredicateReg,
    zn: VectorReg,
    pg: GoverningReg,
    zm: VectorReg,
    size: Size,
)
    ensures { into.new.bytes ≡ text.sve_text (instruction_view (Sve.CompareVectors op pd zn pg zm size)) }
{
    match op {
        VectorCompareOp::Hs => compare_to(into, "cmphs ", pd, zn, pg, zm, size),
        VectorCompareOp::Hi => compare_to(into, "cmphi ", pd, zn, pg, zm, size),
        VectorCompareOp::Ge => compare_to(into, "cmpge ", pd, zn, pg, zm, size),
        VectorCompareOp::Gt => compare_to(into, "cmpgt ", pd, zn, pg, zm, size),
        VectorCompareOp::Eq => compare_to(into, "cmpeq ", pd, zn, pg, zm, size),
        VectorCompareOp::Ne => compare_to(into, "cmpne ", pd, zn, pg, zm, size),
    }
}

fn compare_to(
    into: &mut LineBuf,
    mnemonic: &str,
    pd: PredicateReg,
    zn: VectorReg,
    pg: GoverningReg,
    zm: VectorReg,
    size: Size,
)
    requires { length mnemonic.now ≤ 8 }
    ensures { into.new.bytes ≡ text.compare_vectors mnemonic.now
        (pd.number ∷ zn.number ∷ pg.number ∷ zm.number ∷ size_number size ∷ []) }
{
    begin_p(into, mnemonic, pd.number);
    into.push_str(dotted_of(size));
    comma_p(into, pg.number);
    into.push_str("/z, ");
    push_z(into, zn, size);
    comma_z(into, zm, size);
}

/// Writes `ld1h {z0.s}, p0/z, [x0, x9, lsl #1]` and its like.
fn contiguous_load(
    into: &mut LineBuf,
    zt: VectorReg,
    rn: Reg,
    pg: GoverningReg,
    offset: OffsetReg,
    dtype: Dtype,
)
    ensures { into.new.bytes ≡ text.sve_text (instruction_view (Sve.ContiguousLoad zt rn pg offset dtype)) }
{
    load(into, "ld1", zt, rn, pg, Reg::new(offset.number), dtype);
}

/// Writes `ldff1h {z0.s}, p0/z, [x0, x9, lsl #1]` and its like.
fn first_fault_load(
    into: &mut LineBuf,
    zt: VectorReg,
    rn: Reg,
    pg: GoverningReg,
    rm: Reg,
    dtype: Dtype,
)
    ensures { into.new.bytes ≡ text.sve_text (instruction_view (Sve.FirstFaultLoad zt rn pg rm dtype)) }
{
    load(into, "ldff1", zt, rn, pg, rm, dtype);
}

fn load(
    into: &mut LineBuf,
    mnemonic: &str,
    zt: VectorReg,
    rn: Reg,
    pg: GoverningReg,
    rm: Reg,
    dtype: Dtype,
)
    requires { length mnemonic.now ≤ 8 }
    ensures { into.new.bytes ≡ text.load mnemonic.now
        (zt.number ∷ rn.number ∷ pg.number ∷ rm.number ∷ dtype_number dtype ∷ []) }
{
    begin(into, mnemonic);
    push_access(into, dtype);
    push_loaded(into, zt, dtype.element(), pg);
    push_register_address(into, rn, rm, dtype.memory() as u32);
}

/// Writes `ldnf1b {z0.b}, p0/z, [x0]` and its like.
fn non_fault_load(into: &mut LineBuf, zt: VectorReg, rn: Reg, pg: GoverningReg, dtype: Dtype)
    ensures { into.new.bytes ≡ text.sve_text (instruction_view (Sve.NonFaultLoad zt rn pg dtype)) }
{
    begin(into, "ldnf1");
    push_access(into, dtype);
    push_loaded(into, zt, dtype.element(), pg);
    push_offset_address(into, rn, 0);
}

fn push_access(into: &mut LineBuf, dtype: Dtype)
    requires { array_string_len into.old ≤ 50 }
    ensures bytes { into.new.bytes ≡ into.old.bytes ++ text.access_name (dtype_number dtype) }
    ensures len { array_string_len into.new ≤ array_string_len into.old + 2 }
{
    if dtype.is_signed() {
        into.push_str("s");
    }
    into.push_str(access_letter_of(dtype.memory()));
}

fn push_loaded(into: &mut LineBuf, zt: VectorReg, size: Size, pg: GoverningReg)
    requires { array_string_len into.old ≤ 20 }
    ensures bytes { into.new.bytes ≡ into.old.bytes ++ text.loaded (size_number size) zt.number pg.number }
    ensures len { array_string_len into.new ≤ array_string_len into.old + 15 }
{
    into.push_str(" {");
    push_z(into, zt, size);
    into.push_str("}, ");
    push_p(into, pg.number);
    into.push_str("/z");
}

/// Writes `ld1b {z0.d}, p0/z, [x0, z1.d]` and its like.
fn gather_load(
    into: &mut LineBuf,
    op: GatherOp,
    zt: VectorReg,
    rn: Reg,
    pg: GoverningReg,
    zm: VectorReg,
)
    ensures { into.new.bytes ≡ text.sve_text (instruction_view (Sve.GatherLoad op zt rn pg zm)) }
{
    match op {
        GatherOp::Ld1b => gather(into, "ld1b", zt, rn, pg, zm),
        GatherOp::Ld1h => gather(into, "ld1h", zt, rn, pg, zm),
        GatherOp::Ld1w => gather(into, "ld1w", zt, rn, pg, zm),
        GatherOp::Ld1d => gather(into, "ld1d", zt, rn, pg, zm),
        GatherOp::Ld1sb => gather(into, "ld1sb", zt, rn, pg, zm),
        GatherOp::Ld1sh => gather(into, "ld1sh", zt, rn, pg, zm),
        GatherOp::Ld1sw => gather(into, "ld1sw", zt, rn, pg, zm),
    }
}

fn gather(
    into: &mut LineBuf,
    mnemonic: &str,
    zt: VectorReg,
    rn: Reg,
    pg: GoverningReg,
    zm: VectorReg,
)
    requires { length mnemonic.now ≤ 8 }
    ensures { into.new.bytes ≡ text.gather mnemonic.now (zt.number ∷ rn.number ∷ pg.number ∷ zm.number ∷ []) }
{
    begin(into, mnemonic);
    push_loaded(into, zt, Size::D, pg);
    push_vector_address(into, rn, zm);
}

/// Writes `st1w {z0.s}, p0, [x2, x9, lsl #2]` and its like.
fn contiguous_store(
    into: &mut LineBuf,
    zt: VectorReg,
    rn: Reg,
    pg: GoverningReg,
    offset: OffsetReg,
    sizes: StoreSizes,
)
    ensures { into.new.bytes ≡ text.sve_text (instruction_view (Sve.ContiguousStore zt rn pg offset sizes)) }
{
    begin(into, "st1");
    into.push_str(access_letter_of(sizes.msz));
    into.push_str(" {");
    push_z(into, zt, sizes.size);
    into.push_str("}, ");
    push_p(into, pg.number);
    push_register_address(into, rn, Reg::new(offset.number), sizes.msz as u32);
}
