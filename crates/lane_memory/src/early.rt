//! Loads that may stop early.

ghost use Rattle.std.specs.Prelude.{◌≡◌, ◌≤◌, None};
ghost use Rattle.guest_types.specs.Length.{all_lanes};
ghost use Rattle.guest_types.specs.Elements.{first_true};
ghost use Rattle.guest_types.specs.EarlyLoads.{suppressed_at, stop_at, later, looked_at, early_load};
ghost use Rattle.lane_memory.specs.Readings.{form_of, place_of, on_of, on_from, faults_of, refused_of};
ghost use Rattle.lane_memory.specs.Loads.{left_by_early};

use crate::ffr::{clear_from, count_set};
use crate::fill::fill;
use crate::reading::Reading;
use crate::refusal::{faults, first_refused};
use crate::suppress::Suppress;
use guest_types::predicate::PReg;
use guest_types::register::ZReg;
use paged_memory::pages::Pages;

/// The first elements of a load under a mask, so many of them.
#[derive(Clone, Copy)]
pub struct Masked<'a> {
    pub reading: Reading,
    pub pg: &'a PReg,
    pub lanes: usize,
}

/// The first suppressed element, of so many, where the active elements from one on are free.
fn first_suppressed(
    pages: &Pages,
    reading: Reading,
    pg: &PReg,
    from: usize,
    lanes: usize,
    stops: &mut Suppress,
) -> Option<usize>
    requires inside { lanes ≤ all_lanes reading.element }
    requires from { from ≤ lanes }
    ensures first { let free = on_from reading pg.now.bits from in
        result ≡ first_true (suppressed_at free (faults_of reading pages.now.memory) (stop_at stops.old)) lanes 0 }
    ensures counted { let free = on_from reading pg.now.bits from in
        stops.new ≡ later stops.old (looked_at free (faults_of reading pages.now.memory) lanes result) }
{
    if stops.is_none() {
        return first_refused(pages, reading, pg, from, lanes);
    }
    stops.is_counted();
    for e in from..lanes {
        if pg.is_active(reading.element, e) {
            if faults(pages, reading, e) {
                return Some(e);
            }
            if stops.next() {
                return Some(e);
            }
        }
    }
    None
}

/// A load in which the active elements from one on are free, and those before it do not fault.
pub fn load_early(
    pages: &Pages,
    masked: &Masked<'_>,
    from: usize,
    ffr: &mut PReg,
    stops: &mut Suppress,
    out: &mut ZReg,
)
    requires inside { masked.now.lanes ≤ all_lanes masked.now.reading.element }
    requires from { from ≤ masked.now.lanes }
    requires read { first_true (refused_of masked.now.reading pages.now.memory masked.now.pg.now.bits) from 0 ≡ None }
    ensures { let r = masked.now.reading in
        let on = on_of r masked.now.pg.now.bits in
        let free = on_from r masked.now.pg.now.bits from in
        left_by_early
        (early_load (form_of r) pages.now.memory stops.old on free (place_of r) masked.now.lanes ffr.old.bits)
        ≡ record { z = out.new.bytes; ffr = ffr.new.bits; stops = stops.new } }
{
    let Masked { reading, pg, lanes } = *masked;
    let first = first_suppressed(pages, reading, pg, from, lanes, stops);
    clear_from(ffr, reading.element, first);
    let kept = count_set(ffr, reading.element, lanes);
    fill(pages, reading, pg, kept, out);
}
