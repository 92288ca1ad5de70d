//! How many registers intervals need.

ghost use Rattle.std.specs.Prelude.{◌≡◌, ◌<◌, ◌≤◌, ◌^◌, length};
ghost use Rattle.reg_assign.specs.Intervals.{is_live, overlap, greater_overlap, need_of};

use crate::interval::Interval;

// Whether an interval is live at a point.
fn is_live(interval: Interval, point: u32) -> bool
    ensures { result ≡ is_live point interval }
{
    interval.from <= point && point < interval.last_use
}

// How many intervals are live at a point.
fn overlap(intervals: &[Interval], point: u32) -> u32
    requires { length intervals.now < 2 ^ 32 }
    ensures { result ≡ overlap intervals.now point }
{
    let live = intervals.iter().filter(|i| is_live(**i, point)).count();
    live as u32
}

// The greater one of a number and the overlap where an interval begins.
fn greater_overlap(intervals: &[Interval], most: u32, interval: Interval) -> u32
    requires { length intervals.now < 2 ^ 32 }
    ensures { result ≡ greater_overlap intervals.now most interval }
{
    most.max(overlap(intervals, interval.from))
}

/// The greatest number of intervals that are live at one point.
pub fn need(intervals: &[Interval]) -> u32
    requires { length intervals.now < 2 ^ 32 }
    ensures { result ≡ need_of intervals.now }
{
    let mut most = 0;
    for interval in intervals {
        most = greater_overlap(intervals, most, *interval);
    }
    most
}
