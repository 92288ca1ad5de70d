//! Operations of predicates, bit by bit.

ghost use Rattle.std.specs.Prelude.{◌≡◌};
ghost use Rattle.guest_types.specs.Lanes.{logic_of, brk_of};

use crate::bits::first_bit;
use guest_types::operation::PredOp;
use guest_types::predicate::PReg;
use lane_blocks::mask::{below, predicate_block};

/// `logic` into a predicate that is there.
pub fn logic_into(op: PredOp, pg: &PReg, left: &PReg, right: &PReg, out: &mut PReg)
    ensures { out.new.bits ≡ logic_of op pg.now.bits left.now.bits right.now.bits }
{
    let mask = predicate_block(pg);
    let l = predicate_block(left);
    let r = predicate_block(right);
    let bits = match op {
        PredOp::And => mask & (l & r),
        PredOp::Bic => mask & (l & !r),
        PredOp::Eor => mask & (l ^ r),
        PredOp::Orr => mask & (l | r),
    };
    out.bits = bits.to_array();
}

/// The operation at each bit of two predicates that is set in `pg` (Arm DDI 0584: AND, BIC, EOR and
/// ORR, predicates). All 256 bits are looked at.
pub fn logic(op: PredOp, pg: &PReg, left: &PReg, right: &PReg) -> PReg
    ensures { result.bits ≡ logic_of op pg.now.bits left.now.bits right.now.bits }
{
    let mut out = PReg::none();
    logic_into(op, pg, left, right, &mut out);
    out
}

/// `brk` into a predicate that is there.
pub fn brk_into(after: bool, pg: &PReg, p: &PReg, out: &mut PReg)
    ensures { out.new.bits ≡ brk_of after pg.now.bits p.now.bits }
{
    let mask = predicate_block(pg);
    let tested = predicate_block(p);
    let limit = match first_bit(mask & tested) {
        Some(j) => j + after as usize,
        None => 256,
    };
    let limits = below(limit);
    out.bits = (mask & limits).to_array();
}

/// The bits of `pg` before the first at which `p` is true too (Arm DDI 0584: BRKB), and with that one
/// where `after` is true (BRKA). All 256 bits are looked at.
pub fn brk(after: bool, pg: &PReg, p: &PReg) -> PReg
    ensures { result.bits ≡ brk_of after pg.now.bits p.now.bits }
{
    let mut out = PReg::none();
    brk_into(after, pg, p, &mut out);
    out
}
