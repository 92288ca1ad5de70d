//! The elements of a load that nothing refuses.

ghost use Rattle.std.specs.Prelude.{◌≡◌, ◌<◌, ◌≤◌, ℕ, IsTrue, None, false, true};
ghost use Rattle.guest_types.specs.Length.{all_lanes};
ghost use Rattle.guest_types.specs.Elements.{active, first_true};
ghost use Rattle.lane_memory.specs.Readings.{refused_of, lanes_of, HoldsLanes, IsRead};

use crate::copy::copy_part;
use crate::full::{is_full, keep_first};
use crate::keep::{is_whole, keep_active};
use crate::range::active_range;
use crate::reading::{Reading, count_in_page};
use guest_types::guest::GuestMemory;
use guest_types::predicate::PReg;
use guest_types::register::ZReg;
use paged_memory::pages::Pages;

/// One element, where it is active.
#[cold]
#[inline(never)]
fn copy_one(pages: &Pages, reading: Reading, pg: &PReg, e: usize, out: &mut ZReg)
    requires inside { e < all_lanes reading.element }
    requires read { refused_of reading pages.now.memory pg.now.bits e ≡ false }
    ensures { IsRead reading pages.now.memory pg.now.bits e out.old.bytes out.new.bytes }
{
    pages.is_memory();
    is_whole(out);
    if pg.is_active(reading.element, e) {
        let size = reading.memory.bytes() as u32;
        if let Ok(value) = pages.load(reading.place(e), size) {
            out.put(reading.element, e, reading.extend(value));
        }
    }
}

/// The active elements from one place up to another: all that stand in one page at once, and those
/// across an edge, or in a page that is not mapped, one by one.
fn copy_active(pages: &Pages, reading: Reading, pg: &PReg, from: usize, to: usize, out: &mut ZReg)
    requires order { from ≤ to }
    requires inside { to ≤ all_lanes reading.element }
    requires read { first_true (refused_of reading pages.now.memory pg.now.bits) to 0 ≡ None }
    ensures { HoldsLanes reading pages.now.memory pg.now.bits from to out.new.bytes }
{
    pages.is_memory();
    let size = reading.memory.bytes();
    let mut e = from;
    while e < to {
        let address = reading.place(e);
        let count = count_in_page(address, reading.memory, to - e);
        if let Some(part) = pages.span(address, (size * count) as u32) {
            copy_part(reading, part, e, count, out);
            e += count;
        } else {
            copy_one(pages, reading, pg, e, out);
            e += 1;
        }
    }
}

/// The first elements of a load, and zeros above them, where all are active and stand in one page that is mapped: whether
/// they do. Nothing refuses them then.
#[inline(always)]
pub fn fill_full(pages: &Pages, reading: Reading, pg: &PReg, lanes: usize, out: &mut ZReg) -> bool
    requires lanes { lanes ≤ all_lanes reading.element }
    requires full { (e : ℕ) → e < lanes → active reading.element pg.now.bits e ≡ true }
    ensures filled { IsTrue result → out.new.bytes ≡ lanes_of reading pages.now.memory pg.now.bits lanes }
    ensures free { IsTrue result → first_true (refused_of reading pages.now.memory pg.now.bits) lanes 0 ≡ None }
    ensures unchanged { result ≡ false → out.new ≡ out.old }
{
    pages.is_memory();
    let address = reading.place(0);
    let len = (reading.memory.bytes() * lanes) as u32;
    let Some(part) = pages.span(address, len) else {
        return false;
    };
    copy_part(reading, part, 0, lanes, out);
    keep_first(out, reading.element, pg, lanes);
    true
}

// The same from the first active one to the last, where some may not be active.
#[inline(never)]
fn fill_range(pages: &Pages, reading: Reading, pg: &PReg, lanes: usize, out: &mut ZReg) -> bool
    requires { lanes ≤ all_lanes reading.element }
    ensures filled { IsTrue result → out.new.bytes ≡ lanes_of reading pages.now.memory pg.now.bits lanes }
    ensures free { IsTrue result → first_true (refused_of reading pages.now.memory pg.now.bits) lanes 0 ≡ None }
    ensures unchanged { result ≡ false → out.new ≡ out.old }
{
    pages.is_memory();
    let range = active_range(pg, reading.element, lanes);
    let count = range.to - range.from;
    let address = reading.place(range.from);
    let len = (reading.memory.bytes() * count) as u32;
    let Some(part) = pages.span(address, len) else {
        return false;
    };
    copy_part(reading, part, range.from, count, out);
    keep_active(out, reading.element, pg, lanes);
    true
}

/// The first elements of a load, and zeros above them, where all from the first active one to the last stand in one page
/// that is mapped: whether they do. Nothing refuses them then.
#[inline(always)]
pub fn fill_at_once(
    pages: &Pages,
    reading: Reading,
    pg: &PReg,
    lanes: usize,
    out: &mut ZReg,
) -> bool
    requires { lanes ≤ all_lanes reading.element }
    ensures filled { IsTrue result → out.new.bytes ≡ lanes_of reading pages.now.memory pg.now.bits lanes }
    ensures free { IsTrue result → first_true (refused_of reading pages.now.memory pg.now.bits) lanes 0 ≡ None }
    ensures unchanged { result ≡ false → out.new ≡ out.old }
{
    if is_full(pg, reading.element, lanes) {
        return fill_full(pages, reading, pg, lanes, out);
    }
    fill_range(pages, reading, pg, lanes, out)
}

/// The first elements of a load, and zeros above them.
pub fn fill(pages: &Pages, reading: Reading, pg: &PReg, lanes: usize, out: &mut ZReg)
    requires inside { lanes ≤ all_lanes reading.element }
    requires read { first_true (refused_of reading pages.now.memory pg.now.bits) lanes 0 ≡ None }
    ensures { out.new.bytes ≡ lanes_of reading pages.now.memory pg.now.bits lanes }
{
    let range = active_range(pg, reading.element, lanes);
    copy_active(pages, reading, pg, range.from, range.to, out);
    keep_active(out, reading.element, pg, lanes);
}
