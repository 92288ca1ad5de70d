//! Stores of lanes: ST1.

ghost use Rattle.std.specs.Prelude.{◌≡◌, ◌+◌, ◌-◌, ◌*◌, ◌≤◌, ◌<◌, ℕ, true, false, length, IfErr, OnOk, IsTrue};
ghost use Rattle.guest_types.specs.Length.{all_lanes, width_bytes};
ghost use Rattle.guest_types.specs.Elements.{active};
ghost use Rattle.paged_memory.specs.Loans.{IsPlaceOf};
ghost use Rattle.guest_types.specs.LaneMemory.{store_of, AllStored, StoreFault};
ghost use Rattle.lane_memory.specs.Writings.{stored_of, target_of, IsSpanWritten};

use crate::full::is_full;
use crate::part::{Part, Whole};
use crate::range::active_range;
use crate::reading::count_in_page;
use crate::writing::Writing;
use guest_types::guest::GuestMemory;
use guest_types::length::Vl;
use guest_types::memory::AccessFault;
use guest_types::predicate::PReg;
use guest_types::register::ZReg;
use guest_types::row::StoreRow;
use paged_memory::pages::Pages;

/// Stores one element, where it is active.
#[cold]
#[inline(never)]
fn store_one(
    pages: &mut Pages,
    writing: Writing,
    pg: &PReg,
    z: &ZReg,
    e: usize,
) -> Result<(), AccessFault>
    requires { e < all_lanes writing.element }
    ensures done { let left = stored_of writing pg.now.bits z.now.bytes 1 e pages.old.memory in
        OnOk result (left ≡ AllStored pages.new.memory) }
    ensures refused { let left = stored_of writing pg.now.bits z.now.bytes 1 e pages.old.memory in
        IfErr result (λ fault. left ≡ StoreFault fault pages.new.memory) }
    ensures past { pages.new.past ≡ pages.old.past }
{
    if pg.is_active(writing.element, e) {
        let value = z.element(writing.element, e);
        pages.store(writing.target(e), writing.memory.bytes() as u32, value)
    } else {
        Ok(())
    }
}

/// Stores the active of so many elements that stand in one page that may be written.
fn store_part(pages: &mut Pages, elements: &Part<'_>, place: usize)
    requires inside { elements.now.from + elements.now.count ≤ all_lanes elements.now.writing.element }
    requires part { let w = elements.now.writing in
        let len = width_bytes w.memory * elements.now.count in
        IsPlaceOf pages.old.memory (target_of w elements.now.from) len place }
    ensures written { let e = elements.now in
        IsSpanWritten e.writing e.pg.now.bits e.z.now.bytes e.from e.count pages.old.memory pages.new.memory }
    ensures past { pages.new.past ≡ pages.old.past }
{
    let len = elements.writing.memory.bytes() * elements.count;
    let address = elements.writing.target(elements.from);
    pages.write_span(address, len as u32, place, elements);
}

/// Stores so many elements that are all active and stand in one page that may be written: one copy.
#[inline(always)]
fn store_full(pages: &mut Pages, elements: &Part<'_>, place: usize)
    requires same { elements.now.writing.memory ≡ elements.now.writing.element }
    requires inside { elements.now.from + elements.now.count ≤ all_lanes elements.now.writing.element }
    requires full { let last = elements.now.from + elements.now.count in
        (e : ℕ) → e < last → active elements.now.writing.element elements.now.pg.now.bits e ≡ true }
    requires part { let w = elements.now.writing in
        let len = width_bytes w.memory * elements.now.count in
        IsPlaceOf pages.old.memory (target_of w elements.now.from) len place }
    ensures written { let e = elements.now in
        IsSpanWritten e.writing e.pg.now.bits e.z.now.bytes e.from e.count pages.old.memory pages.new.memory }
    ensures past { pages.new.past ≡ pages.old.past }
{
    let len = elements.writing.memory.bytes() * elements.count;
    let address = elements.writing.target(elements.from);
    pages.write_span(address, len as u32, place, &Whole(*elements));
}

/// Stores so many elements where they have the same width in memory, are all active and stand in one page that may be
/// written: whether they do.
#[inline(always)]
fn store_at_once(pages: &mut Pages, writing: Writing, pg: &PReg, z: &ZReg, lanes: usize) -> bool
    requires { lanes ≤ all_lanes writing.element }
    ensures done { let left = stored_of writing pg.now.bits z.now.bytes (lanes - 0) 0 pages.old.memory in
        IsTrue result → left ≡ AllStored pages.new.memory }
    ensures unchanged { result ≡ false → pages.new.memory ≡ pages.old.memory }
    ensures past { pages.new.past ≡ pages.old.past }
{
    pages.is_memory();
    if writing.memory != writing.element || !is_full(pg, writing.element, lanes) {
        return false;
    }
    let len = writing.memory.bytes() * lanes;
    let Some(place) = pages.place_mut(writing.target(0), len as u32) else {
        return false;
    };
    let elements = Part {
        writing,
        pg,
        z,
        from: 0,
        count: lanes,
    };
    store_full(pages, &elements, place);
    true
}

/// Stores the active elements from one place up to another: all that stand in one page at once, and
/// those across an edge, or in a page that may not be written, one by one.
fn store_active(
    pages: &mut Pages,
    writing: Writing,
    pg: &PReg,
    z: &ZReg,
    from: usize,
    to: usize,
) -> Result<(), AccessFault>
    requires order { from ≤ to }
    requires inside { to ≤ all_lanes writing.element }
    ensures done { let left = stored_of writing pg.now.bits z.now.bytes (to - from) from pages.old.memory in
        OnOk result (left ≡ AllStored pages.new.memory) }
    ensures refused { let left = stored_of writing pg.now.bits z.now.bytes (to - from) from pages.old.memory in
        IfErr result (λ fault. left ≡ StoreFault fault pages.new.memory) }
    ensures past { pages.new.past ≡ pages.old.past }
{
    let size = writing.memory.bytes();
    let mut e = from;
    while e < to {
        pages.is_memory();
        let address = writing.target(e);
        let count = count_in_page(address, writing.memory, to - e);
        if let Some(place) = pages.place_mut(address, (size * count) as u32) {
            let elements = Part {
                writing,
                pg,
                z,
                from: e,
                count,
            };
            store_part(pages, &elements, place);
            e += count;
        } else {
            if let Err(fault) = store_one(pages, writing, pg, z, e) {
                return Err(fault);
            }
            e += 1;
        }
    }
    Ok(())
}

/// Stores the active elements of a register from `base + (index + e) * size` on, in ascending order,
/// each by its lowest bytes (ST1).
///
/// # Errors
/// The fault of the first active element that faults. The active elements below it stay written, and
/// nothing else changes.
pub fn store(
    pages: &mut Pages,
    row: StoreRow,
    base: u64,
    index: u64,
    vl: Vl,
    pg: &PReg,
    z: &ZReg,
) -> Result<(), AccessFault>
    ensures done { let left = store_of row.msz row.size base index vl pg.now.bits z.now.bytes pages.old.memory in
        OnOk result (left ≡ AllStored pages.new.memory) }
    ensures refused { let left = store_of row.msz row.size base index vl pg.now.bits z.now.bytes pages.old.memory in
        IfErr result (λ fault. left ≡ StoreFault fault pages.new.memory) }
    ensures past { pages.new.past ≡ pages.old.past }
{
    let writing = Writing::new(row, base, index);
    let lanes = vl.lanes(writing.element) as usize;
    if store_at_once(pages, writing, pg, z, lanes) {
        return Ok(());
    }
    let range = active_range(pg, writing.element, lanes);
    store_active(pages, writing, pg, z, range.from, range.to)
}
