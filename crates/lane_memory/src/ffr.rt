//! The first-fault register.

ghost use Rattle.std.specs.Prelude.{◌≡◌, ℕ, ◌<◌, ◌≤◌, Some, unwrap_or, IsTrue};
ghost use Rattle.guest_types.specs.Length.{all_lanes};
ghost use Rattle.guest_types.specs.Elements.{first_true, bits_of};
ghost use Rattle.lane_blocks.specs.Blocks.{is_below};
ghost use Rattle.guest_types.specs.LaneMemory.{cleared_from, is_clear};

use guest_types::length::Width;
use guest_types::predicate::PReg;
use lane_blocks::mask::{below, bits_below};

/// Clears every bit from that of an element on, where there is one.
pub fn clear_from(ffr: &mut PReg, width: Width, first: Option<usize>)
    requires { (e : ℕ) → first ≡ Some e → e < all_lanes width }
    ensures { ffr.new.bits ≡ cleared_from width first ffr.old.bits }
{
    if let Some(e) = first {
        *ffr = bits_below(ffr, width.bytes() * e);
    }
}

/// Whether the bits below a limit are set, and no others.
#[inline(always)]
fn is_below(p: &PReg, limit: usize) -> bool
    requires { limit ≤ 256 }
    ensures { IsTrue result → p.now.bits ≡ bits_of (is_below limit) 32 }
{
    p.bits == below(limit).to_array()
}

/// How many elements stand before the first one whose bit is clear, of so many.
pub fn count_set(ffr: &PReg, width: Width, lanes: usize) -> usize
    requires { lanes ≤ all_lanes width }
    ensures { result ≡ unwrap_or (first_true (is_clear width ffr.now.bits) lanes 0) lanes }
{
    if is_below(ffr, width.bytes() * lanes) {
        return lanes;
    }
    for e in 0..lanes {
        if !ffr.is_active(width, e) {
            return e;
        }
    }
    lanes
}
