//! The elements of a load whose access faults.

ghost use Rattle.std.specs.Prelude.{◌≡◌, ◌-◌, ◌<◌, ◌≤◌, true, Some};
ghost use Rattle.guest_types.specs.Length.{all_lanes};
ghost use Rattle.guest_types.specs.Elements.{first_true};
ghost use Rattle.guest_types.specs.LaneMemory.{lane_fault, read_fault};
ghost use Rattle.lane_memory.specs.Readings.{form_of, place_of, on_of, faults_of, refused_of};

use crate::range::active_range;
use crate::reading::{Reading, count_in_page};
use guest_types::guest::GuestMemory;
use guest_types::memory::AccessFault;
use guest_types::predicate::PReg;
use paged_memory::pages::Pages;

/// The fault of an element's access, where there is one.
pub fn fault_at(pages: &Pages, reading: Reading, e: usize) -> Option<AccessFault>
    ensures { result ≡ read_fault (lane_fault (form_of reading) pages.now.memory (place_of reading) e) }
{
    match pages.load(reading.place(e), reading.memory.bytes() as u32) {
        Ok(_value) => None,
        Err(fault) => Some(fault),
    }
}

/// Whether an element's access faults.
pub fn faults(pages: &Pages, reading: Reading, e: usize) -> bool
    ensures { result ≡ faults_of reading pages.now.memory e }
{
    fault_at(pages, reading, e).is_some()
}

/// Whether an element is active and its access faults.
#[cold]
#[inline(never)]
fn is_refused(pages: &Pages, reading: Reading, pg: &PReg, e: usize) -> bool
    requires { e < all_lanes reading.element }
    ensures { result ≡ refused_of reading pages.now.memory pg.now.bits e }
{
    pg.is_active(reading.element, e) && faults(pages, reading, e)
}

/// The first active element, of so many.
pub fn first_active(reading: Reading, pg: &PReg, lanes: usize) -> Option<usize>
    requires { lanes ≤ all_lanes reading.element }
    ensures { result ≡ first_true (on_of reading pg.now.bits) lanes 0 }
{
    let range = active_range(pg, reading.element, lanes);
    for e in range.from..range.to {
        if pg.is_active(reading.element, e) {
            return Some(e);
        }
    }
    None
}

/// The first active element from one place up to another whose access faults. What stands in one
/// page that is mapped is passed over at once.
pub fn first_refused(
    pages: &Pages,
    reading: Reading,
    pg: &PReg,
    from: usize,
    to: usize,
) -> Option<usize>
    requires { to ≤ all_lanes reading.element }
    ensures { result ≡ first_true (refused_of reading pages.now.memory pg.now.bits) (to - from) from }
{
    let range = active_range(pg, reading.element, to);
    let size = reading.memory.bytes();
    let mut e = from.max(range.from);
    while e < range.to {
        let address = reading.place(e);
        let count = count_in_page(address, reading.memory, range.to - e);
        if pages.has_span(address, (size * count) as u32) {
            e += count;
        } else if is_refused(pages, reading, pg, e) {
            return Some(e);
        } else {
            e += 1;
        }
    }
    None
}
