//! The same work by a plain loop over elements.

ghost use Rattle.std.specs.Prelude.{◌≤◌, ◌<◌, ◌≡◌};
ghost use Rattle.guest_types.specs.Length.{all_lanes, width_bits};
ghost use Rattle.guest_types.specs.Lanes.{ShiftFits, source_bits};

use crate::operands::Operands;
use crate::work::Work;
use guest_types::length::{Vl, Width};
use guest_types::operation::{LaneCompare, LaneOp, LaneUnary, PredOp, ReduceOp, ShiftOp};
use guest_types::predicate::PReg;
use guest_types::register::ZReg;
use lane_blocks::shape::Shape;

/// How many elements a register of the length has.
#[inline(always)]
pub fn elements(width: Width, vl: Vl) -> usize
    ensures { result ≤ all_lanes width }
{
    vl.lanes(width) as usize
}

fn dup(width: Width, vl: Vl, value: u64, out: &mut ZReg) {
    for e in 0..elements(width, vl) {
        out.put(width, e, value);
    }
}

fn index(width: Width, vl: Vl, from: u64, by: u64, out: &mut ZReg) {
    for e in 0..elements(width, vl) {
        out.put(width, e, from.wrapping_add(by.wrapping_mul(e as u64)));
    }
}

fn select(width: Width, vl: Vl, pg: &PReg, yes: &ZReg, no: &ZReg, out: &mut ZReg) {
    for e in 0..elements(width, vl) {
        let from = if pg.is_active(width, e) { yes } else { no };
        out.put(width, e, from.element(width, e));
    }
}

fn shift(op: ShiftOp, width: Width, vl: Vl, z: &ZReg, count: u32, out: &mut ZReg)
    requires { ShiftFits op width count }
{
    for e in 0..elements(width, vl) {
        out.put(width, e, op.apply(width, z.element(width, e), count));
    }
}

fn merge_one(op: LaneUnary, width: Width, vl: Vl, pg: &PReg, z: &ZReg, out: &mut ZReg)
    requires { source_bits op < width_bits width }
{
    for e in 0..elements(width, vl) {
        if pg.is_active(width, e) {
            out.put(width, e, op.apply(width, z.element(width, e)));
        }
    }
}

fn binary(op: LaneOp, width: Width, vl: Vl, left: &ZReg, right: &ZReg, out: &mut ZReg) {
    for e in 0..elements(width, vl) {
        let value = op.apply(width, left.element(width, e), right.element(width, e));
        out.put(width, e, value);
    }
}

fn merge(op: LaneOp, width: Width, vl: Vl, pg: &PReg, right: &ZReg, out: &mut ZReg) {
    for e in 0..elements(width, vl) {
        if pg.is_active(width, e) {
            let value = op.apply(width, out.element(width, e), right.element(width, e));
            out.put(width, e, value);
        }
    }
}

// One more active element of a fold, whose words are wrapped to the element's width unless it is UADDV's.
fn fold_one(op: ReduceOp, width: Width, so_far: u64, value: u64) -> u64 {
    match op {
        ReduceOp::UAdd => so_far.wrapping_add(value),
        ReduceOp::SMax => LaneOp::SMax.apply(width, width.wrap(so_far), width.wrap(value)),
        ReduceOp::UMax => so_far.max(value),
        ReduceOp::SMin => LaneOp::SMin.apply(width, width.wrap(so_far), width.wrap(value)),
        ReduceOp::UMin => so_far.min(value),
        ReduceOp::Or => so_far | value,
        ReduceOp::Xor => so_far ^ value,
        ReduceOp::And => so_far & value,
    }
}

fn reduce(op: ReduceOp, width: Width, vl: Vl, pg: &PReg, z: &ZReg) -> u64 {
    let mut so_far = op.identity(width);
    for e in 0..elements(width, vl) {
        if pg.is_active(width, e) {
            so_far = fold_one(op, width, so_far, z.element(width, e));
        }
    }
    so_far
}

/// One pass over the elements that writes a vector register or gives a number.
#[inline(never)]
pub fn on_lanes(work: Work, s: &mut Operands) {
    let (width, vl) = (s.width, s.vl);
    match work {
        Work::Dup => dup(width, vl, s.total, &mut s.out),
        Work::Index => index(width, vl, s.total, 3, &mut s.out),
        Work::Select => select(width, vl, &s.mask, &s.left, &s.right, &mut s.out),
        Work::Shift(op) => shift(op, width, vl, &s.left, 3, &mut s.out),
        Work::Negate => merge_one(LaneUnary::Neg, width, vl, &s.mask, &s.left, &mut s.out),
        Work::Absolute => merge_one(LaneUnary::Abs, width, vl, &s.mask, &s.left, &mut s.out),
        Work::Binary(op) => binary(op, width, vl, &s.left, &s.right, &mut s.out),
        Work::Merge(op) => merge(op, width, vl, &s.mask, &s.right, &mut s.out),
        Work::Reduce(op) => {
            s.total = s
                .total
                .wrapping_add(reduce(op, width, vl, &s.mask, &s.left))
        }
        _ => on_predicates(work, s),
    }
}

fn all_true(width: Width, vl: Vl, out: &mut PReg) {
    *out = PReg::none();
    for e in 0..elements(width, vl) {
        out.put(width.bytes() * e, true);
    }
}

// The flags as `lane_preds::make::while_lo_test` gives them.
fn while_lo(width: Width, vl: Vl, from: u64, to: u64, out: &mut PReg) -> u64 {
    *out = PReg::none();
    let mut some = false;
    let mut ends = false;
    for e in 0..elements(width, vl) {
        if from.saturating_add(e as u64) < to {
            out.put(width.bytes() * e, true);
            some = true;
        } else {
            ends = true;
        }
    }
    8 * some as u64 + 4 * !some as u64 + 2 * ends as u64
}

fn logic(op: PredOp, pg: &PReg, left: &PReg, right: &PReg, out: &mut PReg) {
    *out = PReg::none();
    for j in 0..256 {
        out.put(j, pg.bit(j) && op.apply(left.bit(j), right.bit(j)));
    }
}

fn brk_after(pg: &PReg, p: &PReg, out: &mut PReg) {
    *out = PReg::none();
    for j in 0..256 {
        if pg.bit(j) {
            out.put(j, true);
            if p.bit(j) {
                return;
            }
        }
    }
}

fn count(width: Width, vl: Vl, pg: &PReg, p: &PReg) -> u64 {
    let mut total: u64 = 0;
    for e in 0..elements(width, vl) {
        if pg.is_active(width, e) && p.is_active(width, e) {
            total = total.wrapping_add(1);
        }
    }
    total
}

fn compare(op: LaneCompare, shape: Shape, pg: &PReg, left: &ZReg, right: &ZReg, out: &mut PReg) {
    let Shape { width, vl } = shape;
    *out = PReg::none();
    for e in 0..elements(width, vl) {
        if pg.is_active(width, e) {
            let holds = op.holds(width, left.element(width, e), right.element(width, e));
            out.put(width.bytes() * e, holds);
        }
    }
}

// The flags N, Z and C in one pass.
fn pred_test(width: Width, vl: Vl, mask: &PReg, outcome: &PReg) -> u64 {
    let mut first = None;
    let mut none = true;
    let mut last = false;
    for e in 0..elements(width, vl) {
        if mask.is_active(width, e) {
            let is_true = outcome.is_active(width, e);
            if first.is_none() {
                first = Some(is_true);
            }
            none &= !is_true;
            last = is_true;
        }
    }
    8 * (first == Some(true)) as u64 + 4 * none as u64 + 2 * !last as u64
}

// One pass that is about predicates.
#[inline(never)]
fn on_predicates(work: Work, s: &mut Operands) {
    let (width, vl) = (s.width, s.vl);
    match work {
        Work::AllTrue => all_true(width, vl, &mut s.truths),
        Work::WhileLo => {
            let to = s.total.wrapping_add(1000);
            let flags = while_lo(width, vl, s.total, to, &mut s.truths);
            s.total = s.total.wrapping_add(flags);
        }
        Work::Logic(op) => logic(op, &s.mask, &s.tested, &s.mask, &mut s.truths),
        Work::Break => brk_after(&s.mask, &s.tested, &mut s.truths),
        Work::Count => { s.total = s.total.wrapping_add(count(width, vl, &s.mask, &s.tested)) }
        Work::Compare(op) => {
            let shape = Shape { width, vl };
            compare(op, shape, &s.mask, &s.left, &s.right, &mut s.truths)
        }
        Work::PredTest => {
            s.total = s
                .total
                .wrapping_add(pred_test(width, vl, &s.mask, &s.tested))
        }
        _ => {}
    }
}
