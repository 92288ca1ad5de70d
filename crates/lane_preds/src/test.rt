//! Questions about predicates.

ghost use Rattle.std.specs.Prelude.{◌≡◌, ℕ, ◌<◌, IsTrue, true};
ghost use Rattle.guest_types.specs.Length.{lanes};
ghost use Rattle.guest_types.specs.Elements.{active, pred_test, nzcv};
ghost use Rattle.guest_types.specs.Lanes.{count_of};

use crate::bits::{all_elements, count_bits, first_bit, has_bits, last_bit};
use guest_types::length::{Vl, Width};
use guest_types::predicate::PReg;
use lane_blocks::mask::predicate_block;

/// Whether every element of a register of the length is true.
#[inline(always)]
pub fn is_all_true(width: Width, vl: Vl, p: &PReg) -> bool
    ensures { IsTrue result → (e : ℕ) → e < lanes vl width → active width p.now.bits e ≡ true }
{
    let predicate = predicate_block(p);
    let elements = all_elements(width, vl);
    let is_all = has_bits(predicate, elements);
    is_all
}

/// The number of elements of a register of the length that are true in both predicates (Arm DDI
/// 0584: CNTP, INCP).
pub fn count(width: Width, vl: Vl, pg: &PReg, p: &PReg) -> u32
    ensures { result ≡ count_of width (lanes vl width) pg.now.bits p.now.bits }
{
    let elements = all_elements(width, vl);
    let mask = predicate_block(pg);
    let tested = predicate_block(p);
    count_bits(elements & (mask & tested))
}

/// The flags N, Z, C and V as the four lowest bits, V the lowest (Arm DDI 0487: PredTest). V is 0.
pub fn pred_test(width: Width, vl: Vl, mask: &PReg, outcome: &PReg) -> u8
    ensures { result ≡ nzcv (pred_test (active width mask.now.bits) (active width outcome.now.bits) (lanes vl width)) }
{
    let elements = all_elements(width, vl);
    let active = elements & predicate_block(mask);
    let tested = predicate_block(outcome);
    let first = match first_bit(active) {
        Some(j) => outcome.bit(j),
        None => false,
    };
    let last = match last_bit(active) {
        Some(j) => outcome.bit(j),
        None => false,
    };
    let none = first_bit(active & tested).is_none();
    8 * first as u8 + 4 * none as u8 + 2 * !last as u8
}
