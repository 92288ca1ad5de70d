//! Predicates that are made from numbers.

ghost use Rattle.std.specs.Prelude.{◌≡◌, ◌+◌, ◌<◌, ◌≤◌, min, ◌-◌};
ghost use Rattle.guest_types.specs.Elements.{pred_test, nzcv};
ghost use Rattle.guest_types.specs.Length.{lanes};
ghost use Rattle.guest_types.specs.Lanes.{all_at, all_true_of, while_at, while_of};

use crate::bits::{all_elements, first_elements};
use guest_types::length::{Vl, Width};
use guest_types::predicate::PReg;

/// `all_true` into a predicate that is there.
pub fn all_true_into(width: Width, vl: Vl, out: &mut PReg)
    ensures { out.new.bits ≡ all_true_of width (lanes vl width) }
{
    out.bits = all_elements(width, vl).to_array();
}

/// The predicate that is true in every element of a register of the length (Arm DDI 0584: PTRUE).
pub fn all_true(width: Width, vl: Vl) -> PReg
    ensures { result.bits ≡ all_true_of width (lanes vl width) }
{
    let mut out = PReg::none();
    all_true_into(width, vl, &mut out);
    out
}

// How many of `lanes` numbers from `from` on are below `to`.
fn lanes_below(lanes: u32, from: u64, to: u64) -> usize
    ensures { result ≡ min lanes (to - from) }
{
    to.saturating_sub(from).min(lanes as u64) as usize
}

/// `while_lo` into a predicate that is there, and the flags N, Z, C and V that it sets, as the four
/// lowest bits, V the lowest: those of a test of every element (Arm DDI 0487: PredTest). V is 0.
#[inline(always)]
pub fn while_lo_test(width: Width, vl: Vl, from: u64, to: u64, out: &mut PReg) -> u8
    ensures predicate { out.new.bits ≡ while_of width (lanes vl width) from to }
    ensures flags { result ≡ nzcv (pred_test all_at (while_at from to) (lanes vl width)) }
{
    let lanes = vl.lanes(width);
    let count = lanes_below(lanes, from, to);
    out.bits = first_elements(width, count).to_array();
    let some = 0 < count;
    let ends = count < lanes as usize;
    8 * some as u8 + 4 * !some as u8 + 2 * ends as u8
}

/// The predicate that is true from element 0 up, while `from` and the number of the element are
/// together below `to` (Arm DDI 0584: WHILELO).
pub fn while_lo(width: Width, vl: Vl, from: u64, to: u64) -> PReg
    ensures { result.bits ≡ while_of width (lanes vl width) from to }
{
    let mut out = PReg::none();
    let _flags = while_lo_test(width, vl, from, to, &mut out);
    out
}
