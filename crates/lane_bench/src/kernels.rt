//! One call of a kernel.

use crate::operands::Operands;
use crate::work::Work;
use guest_types::operation::LaneUnary;
use lane_arith::fill::{dup_into, index_into};
use lane_arith::reduce::reduce;
use lane_blocks::shape::Shape;
use lane_preds::compare::compare_into;
use lane_preds::logic::{brk_into, logic_into};
use lane_preds::make::{all_true_into, while_lo_test};
use lane_preds::test::{count, pred_test};

/// One call that writes a vector register or gives a number.
#[inline(never)]
pub fn on_lanes(work: Work, s: &mut Operands) {
    let (width, vl) = (s.width, s.vl);
    match work {
        Work::Dup => dup_into(width, vl, s.total, &mut s.out),
        Work::Index => index_into(width, vl, s.total, 3, &mut s.out),
        Work::Select => s.bank.select(width, &s.mask),
        Work::Shift(op) => s.bank.shift(op, width, 3),
        Work::Negate => s.bank.merge_one(LaneUnary::Neg, width, &s.mask),
        Work::Absolute => s.bank.merge_one(LaneUnary::Abs, width, &s.mask),
        Work::Binary(op) => s.bank.binary(op, width),
        Work::Merge(op) => s.bank.merge(op, width, &s.mask),
        Work::Reduce(op) => {
            s.total = s
                .total
                .wrapping_add(reduce(op, width, vl, &s.mask, &s.left))
        }
        _ => on_predicates(work, s),
    }
}

// One call that is about predicates.
#[inline(never)]
fn on_predicates(work: Work, s: &mut Operands) {
    let (width, vl) = (s.width, s.vl);
    match work {
        Work::AllTrue => all_true_into(width, vl, &mut s.truths),
        Work::WhileLo => {
            let to = s.total.wrapping_add(1000);
            let flags = while_lo_test(width, vl, s.total, to, &mut s.truths);
            s.total = s.total.wrapping_add(u64::from(flags));
        }
        Work::Logic(op) => logic_into(op, &s.mask, &s.tested, &s.mask, &mut s.truths),
        Work::Break => brk_into(true, &s.mask, &s.tested, &mut s.truths),
        Work::Count => {
            s.total = s
                .total
                .wrapping_add(u64::from(count(width, vl, &s.mask, &s.tested)))
        }
        Work::Compare(op) => {
            let shape = Shape { width, vl };
            compare_into(op, shape, &s.mask, &s.left, &s.right, &mut s.truths)
        }
        Work::PredTest => {
            s.total = s
                .total
                .wrapping_add(u64::from(pred_test(width, vl, &s.mask, &s.tested)))
        }
        _ => {}
    }
}
