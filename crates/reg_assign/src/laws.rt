//! What is known of overlaps.

ghost use Rattle.std.specs.Prelude.{ℕ, ◌≤◌};
ghost use Rattle.reg_assign.specs.Intervals.{overlap, need_of};

use crate::interval::Interval;

/// No point has more live intervals than are needed.
pub fn no_more_than_need(intervals: &[Interval])
    ensures { (p : ℕ) → overlap intervals.now p ≤ need_of intervals.now }
{}
