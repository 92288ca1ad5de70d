//! Masks of which the first elements are all active.

ghost use Rattle.std.specs.Prelude.{◌≡◌, ℕ, ◌<◌, ◌≤◌, IsTrue, true, length};
ghost use Rattle.guest_types.specs.Length.{all_lanes, width_bytes};
ghost use Rattle.guest_types.specs.Elements.{active};
ghost use Rattle.lane_memory.specs.Readings.{masked_of};

use guest_types::length::Width;
use guest_types::predicate::PReg;
use guest_types::register::ZReg;
use lane_blocks::block::{blocks_of, clear_above};
use lane_blocks::mask::predicate_block;
use lane_preds::bits::{first_elements, has_bits};

/// Whether the first elements are all active, so many of them.
#[inline(always)]
pub fn is_full(pg: &PReg, width: Width, lanes: usize) -> bool
    requires { lanes ≤ all_lanes width }
    ensures { IsTrue result → (e : ℕ) → e < lanes → active width pg.now.bits e ≡ true }
{
    let predicate = predicate_block(pg);
    let elements = first_elements(width, lanes);
    has_bits(predicate, elements)
}

/// Keeps the first elements, which are all active, and zeroes the others.
#[inline(always)]
pub fn keep_first(z: &mut ZReg, width: Width, pg: &PReg, lanes: usize)
    requires lanes { lanes ≤ all_lanes width }
    requires full { (e : ℕ) → e < lanes → active width pg.now.bits e ≡ true }
    ensures { z.new.bytes ≡ masked_of width pg.now.bits z.old.bytes lanes }
{
    let _blocks = blocks_of(z);
    let _mask = pg;
    clear_above(z, width.bytes() * lanes);
}
