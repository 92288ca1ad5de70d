//! The elements from the first active one to the last.

ghost use Rattle.std.specs.Prelude.{◌≡◌, ℕ, ◌+◌, ◌*◌, ◌<◌, ◌≤◌, slice_index};
ghost use Rattle.guest_types.specs.Length.{all_lanes, width_bytes};
ghost use Rattle.lane_memory.specs.Readings.{IsActiveRange};

use guest_types::length::Width;
use guest_types::predicate::PReg;

/// Elements from one place up to another.
#[derive(Clone, Copy)]
pub struct ActiveRange {
    pub from: usize,
    pub to: usize,
}

/// How many of the first bytes of a predicate are zero, of so many.
fn zeros_before(pg: &PReg, bytes: usize) -> usize
    requires { bytes ≤ 32 }
    ensures inside { result ≤ bytes }
    ensures zero { (i : ℕ) → i < result → slice_index pg.now.bits i ≡ 0 }
{
    for i in 0..bytes {
        if pg.bits[i] != 0 {
            return i;
        }
    }
    bytes
}

/// From where on the bytes of a predicate are zero, between two places.
fn zeros_from(pg: &PReg, from: usize, bytes: usize) -> usize
    requires order { from ≤ bytes }
    requires inside { bytes ≤ 32 }
    ensures order { from ≤ result }
    ensures inside { result ≤ bytes }
    ensures zero { (i : ℕ) → result ≤ i → i < bytes → slice_index pg.now.bits i ≡ 0 }
{
    let mut to = bytes;
    while to > from {
        if pg.bits[to - 1] != 0 {
            return to;
        }
        to -= 1;
    }
    to
}

/// The elements whose bits one byte of a predicate holds.
#[inline(always)]
fn lanes_of_byte(width: Width) -> usize
    ensures { width_bytes width * result ≡ 8 }
{
    match width {
        Width::B => 8,
        Width::H => 4,
        Width::S => 2,
        Width::D => 1,
    }
}

/// A range of so many elements outside of which none is active. It is as narrow as whole bytes of
/// the predicate allow.
pub fn active_range(pg: &PReg, width: Width, lanes: usize) -> ActiveRange
    requires { lanes ≤ all_lanes width }
    ensures { IsActiveRange width pg.now.bits lanes result.from result.to }
{
    let bytes = (width.bytes() * lanes + 7) / 8;
    let first = zeros_before(pg, bytes);
    let last = zeros_from(pg, first, bytes);
    let each = lanes_of_byte(width);
    ActiveRange {
        from: lanes.min(each * first),
        to: lanes.min(each * last),
    }
}
