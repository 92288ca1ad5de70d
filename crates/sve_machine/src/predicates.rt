//! Instructions that compute a predicate register, the first-fault register or a count.

ghost use Rattle.std.specs.Prelude.{◌≡◌};
ghost use Rattle.guest_types.specs.declared.length.Width.TheVariants.{B};
ghost use Rattle.guest_types.specs.Length.{lanes};
ghost use Rattle.guest_types.specs.Elements.{active, pred_test};
ghost use Rattle.sve_code.specs.declared.Sve.{Sve};
ghost use Rattle.a64_machine.specs.Cores.{flags_kept};
ghost use Rattle.a64_machine.specs.declared.core_state.Core.{Core as CoreOf};
ghost use Rattle.sve_machine.specs.Rows.{RowLeaves, logic_flags, is_after, count_width};

use crate::operations::{comparison, logic_op, width_of};
use crate::vectors::Vectors;
use a64_machine::{Core, FlagState, flags_are_kept};
use guest_types::length::{Vl, Width};
use guest_types::operation::PredOp;
use guest_types::predicate::PReg;
use lane_blocks::shape::Shape;
use lane_preds::compare::compare_into;
use lane_preds::logic::{brk_into, logic_into};
use lane_preds::make::{all_true_into, while_lo_test};
use lane_preds::test::{count, pred_test};
use sve_code::{
    BreakOp, ElementCountOp, GoverningReg, PredicateLogicalOp, PredicateReg, Reg, Size,
    VectorCompareOp, VectorReg,
};

// Sets the flags by a predicate under a mask.
#[inline(always)]
fn set_flags(core: &mut Core, width: Width, vl: Vl, mask: &PReg, outcome: &PReg)
    ensures flags { flags_kept core.new.nzcv
        ≡ pred_test (active width mask.now.bits) (active width outcome.now.bits) (lanes vl width) }
    ensures kept { core.new ≡ record core.old { nzcv = core.new.nzcv } }
{
    flags_are_kept();
    let bits = pred_test(width, vl, mask, outcome);
    core.nzcv = FlagState::Bits(bits);
}

/// "PTRUE", with pattern ALL.
#[inline(never)]
pub fn all_true(vectors: &mut Vectors, pd: PredicateReg, size: Size)
    ensures { (core : CoreOf) → RowLeaves (Sve.Ptrue pd size) core vectors.old core vectors.new }
{
    let width = width_of(size);
    let vl = vectors.vl();
    let mut out = PReg::none();
    all_true_into(width, vl, &mut out);
    vectors.set_p(pd.number, &out);
}

/// "PFALSE".
#[inline(never)]
pub fn all_false(vectors: &mut Vectors, pd: PredicateReg)
    ensures { (core : CoreOf) → RowLeaves (Sve.Pfalse pd) core vectors.old core vectors.new }
{
    // This call tells the proof that the length is a valid one.
    let _vl = vectors.vl();
    let out = PReg::none();
    vectors.set_p(pd.number, &out);
}

/// "WHILELO", of X registers.
#[inline(never)]
pub fn while_below(
    core: &mut Core,
    vectors: &mut Vectors,
    pd: PredicateReg,
    rn: Reg,
    rm: Reg,
    size: Size,
)
    ensures { RowLeaves (Sve.Whilelo pd rn rm size) core.old vectors.old core.new vectors.new }
{
    let width = width_of(size);
    let vl = vectors.vl();
    let from = core.register(rn);
    let to = core.register(rm);
    let mut out = PReg::none();
    let flags = while_lo_test(width, vl, from, to, &mut out);
    flags_are_kept();
    core.nzcv = FlagState::Bits(flags);
    vectors.set_p(pd.number, &out);
}

/// "PTEST".
#[inline(never)]
pub fn test(core: &mut Core, vectors: &Vectors, pn: PredicateReg, pg: PredicateReg)
    ensures { RowLeaves (Sve.Ptest pn pg) core.old vectors.now core.new vectors.now }
{
    let vl = vectors.vl();
    let mask = vectors.p(pg.number);
    let outcome = vectors.p(pn.number);
    set_flags(core, Width::B, vl, mask, outcome);
}

// Sets the flags where the operation does.
#[inline(always)]
fn set_flags_by(core: &mut Core, op: PredicateLogicalOp, vl: Vl, mask: &PReg, outcome: &PReg)
    ensures flags { flags_kept core.new.nzcv
        ≡ logic_flags op (flags_kept core.old.nzcv)
        (pred_test (active B mask.now.bits) (active B outcome.now.bits) (lanes vl B)) }
    ensures kept { core.new ≡ record core.old { nzcv = core.new.nzcv } }
{
    match op {
        PredicateLogicalOp::Ands => set_flags(core, Width::B, vl, mask, outcome),
        PredicateLogicalOp::And => {}
        PredicateLogicalOp::Bic => {}
        PredicateLogicalOp::Eor => {}
        PredicateLogicalOp::Orr => {}
    }
}

/// What an operation of predicates names beside the predicate that it writes.
#[derive(Clone, Copy)]
pub struct LogicOperands {
    pub op: PredicateLogicalOp,
    pub pn: PredicateReg,
    pub pg: PredicateReg,
    pub pm: PredicateReg,
}

/// "AND (predicates)", "BIC (predicates)", "EOR (predicates)", "ORR (predicates)", "ANDS".
#[inline(never)]
pub fn logic(core: &mut Core, vectors: &mut Vectors, pd: PredicateReg, operands: LogicOperands)
    ensures { let o = operands in
        RowLeaves (Sve.PredicateLogical o.op pd o.pn o.pg o.pm) core.old vectors.old core.new vectors.new }
{
    let LogicOperands { op, pn, pg, pm } = operands;
    let vl = vectors.vl();
    let operation = logic_op(op);
    let mask = vectors.p(pg.number);
    let left = vectors.p(pn.number);
    let right = vectors.p(pm.number);
    let mut out = PReg::none();
    logic_into(operation, mask, left, right, &mut out);
    set_flags_by(core, op, vl, mask, &out);
    vectors.set_p(pd.number, &out);
}

// Whether the first true element is kept.
#[inline(always)]
fn is_after(op: BreakOp) -> bool
    ensures { result ≡ is_after op }
{
    match op {
        BreakOp::Brka => true,
        BreakOp::Brkb => false,
    }
}

/// "BRKA", "BRKB".
#[inline(never)]
pub fn break_at(
    vectors: &mut Vectors,
    op: BreakOp,
    pd: PredicateReg,
    pn: PredicateReg,
    pg: PredicateReg,
)
    ensures { (core : CoreOf) → RowLeaves (Sve.Break op pd pn pg) core vectors.old core vectors.new }
{
    let after = is_after(op);
    let mask = vectors.p(pg.number);
    let tested = vectors.p(pn.number);
    let mut out = PReg::none();
    brk_into(after, mask, tested, &mut out);
    vectors.set_p(pd.number, &out);
}

/// "RDFFR (unpredicated)".
#[inline(never)]
pub fn read_ffr(vectors: &mut Vectors, pd: PredicateReg)
    ensures { (core : CoreOf) → RowLeaves (Sve.Rdffr pd) core vectors.old core vectors.new }
{
    let ffr = *vectors.ffr();
    vectors.set_p(pd.number, &ffr);
}

/// "RDFFR (predicated)".
#[inline(never)]
pub fn read_ffr_under(vectors: &mut Vectors, pd: PredicateReg, pg: PredicateReg)
    ensures { (core : CoreOf) → RowLeaves (Sve.RdffrPredicated pd pg) core vectors.old core vectors.new }
{
    let mask = vectors.p(pg.number);
    let ffr = vectors.ffr();
    let mut out = PReg::none();
    logic_into(PredOp::And, mask, ffr, ffr, &mut out);
    vectors.set_p(pd.number, &out);
}

/// "SETFFR".
#[inline(never)]
pub fn set_ffr(vectors: &mut Vectors)
    ensures { (core : CoreOf) → RowLeaves Sve.Setffr core vectors.old core vectors.new }
{
    let vl = vectors.vl();
    let mut out = PReg::none();
    all_true_into(Width::B, vl, &mut out);
    vectors.set_ffr(&out);
}

/// "WRFFR".
#[inline(never)]
pub fn write_ffr(vectors: &mut Vectors, pn: PredicateReg)
    ensures { (core : CoreOf) → RowLeaves (Sve.Wrffr pn) core vectors.old core vectors.new }
{
    let bits = *vectors.p(pn.number);
    vectors.set_ffr(&bits);
}

/// "CNTB, CNTD, CNTH, CNTW", with pattern ALL and a multiplier of 1.
#[inline(never)]
pub fn count_elements(core: &mut Core, vectors: &Vectors, op: ElementCountOp, rd: Reg)
    ensures { RowLeaves (Sve.ElementCount op rd) core.old vectors.now core.new vectors.now }
{
    let lanes = vectors.vl().lanes(count_width(op));
    core.set_register(rd, u64::from(lanes));
}

// The width of the elements that a CNT instruction counts.
#[inline(always)]
fn count_width(op: ElementCountOp) -> Width
    ensures { result ≡ count_width op }
{
    match op {
        ElementCountOp::Cntb => Width::B,
        ElementCountOp::Cnth => Width::H,
        ElementCountOp::Cntw => Width::S,
        ElementCountOp::Cntd => Width::D,
    }
}

/// "INCP (scalar)".
#[inline(never)]
pub fn increment_by_count(core: &mut Core, vectors: &Vectors, rd: Reg, pm: PredicateReg, size: Size)
    ensures { RowLeaves (Sve.Incp rd pm size) core.old vectors.now core.new vectors.now }
{
    let width = width_of(size);
    let vl = vectors.vl();
    let mask = vectors.p(pm.number);
    let lanes = count(width, vl, mask, mask);
    let value = core.register(rd).wrapping_add(u64::from(lanes));
    core.set_register(rd, value);
}

/// "CNTP".
#[inline(never)]
pub fn count_true(
    core: &mut Core,
    vectors: &Vectors,
    rd: Reg,
    pn: PredicateReg,
    pg: PredicateReg,
    size: Size,
)
    ensures { RowLeaves (Sve.Cntp rd pn pg size) core.old vectors.now core.new vectors.now }
{
    let width = width_of(size);
    let vl = vectors.vl();
    let mask = vectors.p(pg.number);
    let tested = vectors.p(pn.number);
    let lanes = count(width, vl, mask, tested);
    core.set_register(rd, u64::from(lanes));
}

/// What a comparison names beside the predicate that it writes.
#[derive(Clone, Copy)]
pub struct CompareOperands {
    pub op: VectorCompareOp,
    pub zn: VectorReg,
    pub pg: GoverningReg,
    pub zm: VectorReg,
}

/// "CMP<cc> (vectors)".
#[inline(never)]
pub fn compare(
    core: &mut Core,
    vectors: &mut Vectors,
    pd: PredicateReg,
    size: Size,
    operands: CompareOperands,
)
    ensures { let o = operands in
        RowLeaves (Sve.CompareVectors o.op pd o.zn o.pg o.zm size) core.old vectors.old core.new vectors.new }
{
    let CompareOperands { op, zn, pg, zm } = operands;
    let operation = comparison(op);
    let width = width_of(size);
    let vl = vectors.vl();
    let mask = vectors.p(pg.number);
    let left = vectors.z(zn.number);
    let right = vectors.z(zm.number);
    let mut out = PReg::none();
    compare_into(operation, Shape { width, vl }, mask, left, right, &mut out);
    set_flags(core, width, vl, mask, &out);
    vectors.set_p(pd.number, &out);
}
