//! Loads of lanes: LD1, LDFF1 and LDNF1.

ghost use Rattle.std.specs.Prelude.{◌≡◌, ◌≤◌, ℕ, List, Some, Ok, Err, IfOk, IfErr, IfSome, IsTrue, OnOk, OnErr, false};
ghost use Rattle.guest_types.specs.Length.{all_lanes};
ghost use Rattle.guest_types.specs.Elements.{first_true};
ghost use Rattle.guest_types.specs.LaneMemory.{fault_at as fault_of, load_form, load_form_of, plain_load};
ghost use Rattle.guest_types.specs.EarlyLoads.{StopList, first_fault_early};
ghost use Rattle.guest_types.specs.declared.row.LoadMode.TheVariants.{Plain};
ghost use Rattle.lane_memory.specs.Readings.{form_of, place_of, on_of, refused_of, IsFreeFrom};
ghost use Rattle.lane_memory.specs.Loads.{load_of, left_by, left_by_plain, left_by_first};

use crate::early::{Masked, load_early};
use crate::fill::{fill, fill_at_once, fill_full};
use crate::reading::Reading;
use crate::refusal::{fault_at, first_active, first_refused};
use crate::suppress::Suppress;
use guest_types::length::{Vl, Width};
use guest_types::memory::AccessFault;
use guest_types::predicate::PReg;
use guest_types::register::ZReg;
use guest_types::row::{LoadMode, LoadRow};
use lane_preds::test::is_all_true;
use paged_memory::pages::Pages;

/// A contiguous load: its mode and form, and where element 0 stands, as a base and an index in elements.
#[derive(Clone, Copy)]
pub struct LoadFrom {
    pub mode: LoadMode,
    pub row: LoadRow,
    pub base: u64,
    pub index: u64,
}

/// The fault of the first of so many active elements that faults.
fn refusal(pages: &Pages, reading: Reading, pg: &PReg, lanes: usize) -> Option<AccessFault>
    requires { lanes ≤ all_lanes reading.element }
    ensures { let first = first_true (refused_of reading pages.now.memory pg.now.bits) lanes 0 in
        result ≡ fault_of (form_of reading) pages.now.memory (place_of reading) first }
{
    let e = first_refused(pages, reading, pg, 0, lanes)?;
    fault_at(pages, reading, e)
}

/// LD1, by its register alone.
fn load_plain(
    pages: &Pages,
    reading: Reading,
    pg: &PReg,
    lanes: usize,
    out: &mut ZReg,
) -> Result<(), AccessFault>
    requires { lanes ≤ all_lanes reading.element }
    ensures done { (ffr : List ℕ) → OnOk result (
        plain_load (form_of reading) pages.now.memory (on_of reading pg.now.bits) (place_of reading) lanes ffr
        ≡ Ok (record { z = out.new.bytes; ffr = ffr })) }
    ensures refused { (ffr : List ℕ) → IfErr result (λ fault.
        plain_load (form_of reading) pages.now.memory (on_of reading pg.now.bits) (place_of reading) lanes ffr
        ≡ Err fault) }
    ensures unchanged { OnErr result (out.new ≡ out.old) }
{
    if fill_at_once(pages, reading, pg, lanes, out) {
        return Ok(());
    }
    if let Some(fault) = refusal(pages, reading, pg, lanes) {
        return Err(fault);
    }
    fill(pages, reading, pg, lanes, out);
    Ok(())
}

/// The first place from which the active elements of LDFF1 are free, or the fault of its first one.
fn free_from(pages: &Pages, reading: Reading, pg: &PReg, lanes: usize) -> Result<usize, AccessFault>
    requires { lanes ≤ all_lanes reading.element }
    ensures free { IfOk result (IsFreeFrom reading pages.now.memory pg.now.bits lanes) }
    ensures refused { let first = first_true (on_of reading pg.now.bits) lanes 0 in
        IfErr result (λ fault. fault_of (form_of reading) pages.now.memory (place_of reading) first ≡ Some fault) }
{
    let Some(first) = first_active(reading, pg, lanes) else {
        return Ok(lanes);
    };
    match fault_at(pages, reading, first) {
        Some(fault) => Err(fault),
        None => Ok(first + 1),
    }
}

/// LDFF1.
fn load_first_fault(
    pages: &Pages,
    masked: &Masked<'_>,
    ffr: &mut PReg,
    stops: &mut Suppress,
    out: &mut ZReg,
) -> Result<(), AccessFault>
    requires { masked.now.lanes ≤ all_lanes masked.now.reading.element }
    ensures done { let r = masked.now.reading in
        let on = on_of r masked.now.pg.now.bits in
        OnOk result (
        left_by_first
        (first_fault_early (form_of r) pages.now.memory stops.old on (place_of r) masked.now.lanes ffr.old.bits)
        ≡ Ok (record { z = out.new.bytes; ffr = ffr.new.bits; stops = stops.new })) }
    ensures refused { let r = masked.now.reading in
        let on = on_of r masked.now.pg.now.bits in
        IfErr result (λ fault. first_fault_early (form_of r) pages.now.memory stops.old on
        (place_of r) masked.now.lanes ffr.old.bits ≡ Err fault) }
    ensures unchanged { OnErr result ((out.new ≡ out.old) × (ffr.new ≡ ffr.old) × (stops.new ≡ stops.old)) }
{
    let from = free_from(pages, masked.reading, masked.pg, masked.lanes)?;
    load_early(pages, masked, from, ffr, stops, out);
    Ok(())
}

// A load in one of its modes.
#[inline(never)]
fn load_any(
    pages: &Pages,
    load: &LoadFrom,
    vl: Vl,
    pg: &PReg,
    ffr: &mut PReg,
    stops: &mut Suppress,
    out: &mut ZReg,
) -> Result<(), AccessFault>
    ensures done { let l = load.now in
        let left = load_of l.mode l.row.dtype l.base l.index vl pages.now.memory stops.old pg.now.bits ffr.old.bits in
        OnOk result (left ≡ Ok (record { z = out.new.bytes; ffr = ffr.new.bits; stops = stops.new })) }
    ensures refused { let l = load.now in
        let left = load_of l.mode l.row.dtype l.base l.index vl pages.now.memory stops.old pg.now.bits ffr.old.bits in
        IfErr result (λ fault. left ≡ Err fault) }
    ensures unchanged { OnErr result ((out.new ≡ out.old) × (ffr.new ≡ ffr.old) × (stops.new ≡ stops.old)) }
{
    let reading = Reading::new(load.row, load.base, load.index);
    let lanes = vl.lanes(reading.element) as usize;
    match load.mode {
        LoadMode::Plain => load_plain(pages, reading, pg, lanes, out),
        LoadMode::FirstFault => {
            let masked = Masked { reading, pg, lanes };
            load_first_fault(pages, &masked, ffr, stops, out)
        }
        LoadMode::NonFault => {
            let masked = Masked { reading, pg, lanes };
            load_early(pages, &masked, 0, ffr, stops, out);
            Ok(())
        }
    }
}

/// The width of the elements that a row reads and makes, where it is the same.
#[inline(always)]
fn whole_width(row: LoadRow) -> Option<Width>
    ensures { IfSome result (λ width. load_form row.dtype ≡ load_form_of width width false) }
{
    match row.dtype {
        0 => Some(Width::B),
        5 => Some(Width::H),
        10 => Some(Width::S),
        15 => Some(Width::D),
        _ => None,
    }
}

/// LD1 of elements that have the same width in memory, where all are active and stand in one page that is mapped: whether
/// they do. Most loads of a loop are such.
#[inline(always)]
fn load_whole(pages: &Pages, load: &LoadFrom, vl: Vl, pg: &PReg, out: &mut ZReg) -> bool
    ensures loaded { (stops : StopList) → (ffr : List ℕ) → IsTrue result
        → load_of Plain load.now.row.dtype load.now.base load.now.index vl pages.now.memory stops pg.now.bits ffr
        ≡ Ok (record { z = out.new.bytes; ffr = ffr; stops = stops }) }
    ensures unchanged { result ≡ false → out.new ≡ out.old }
{
    let Some(width) = whole_width(load.row) else {
        return false;
    };
    if !is_all_true(width, vl, pg) {
        return false;
    }
    let reading = Reading {
        base: load.base,
        index: load.index,
        memory: width,
        element: width,
        signed: false,
    };
    let lanes = vl.lanes(width) as usize;
    fill_full(pages, reading, pg, lanes, out)
}

/// Loads the active elements of a register from `base + (index + e) * size` on, in place: LD1, LDFF1
/// or LDNF1 by the mode. Elements past the vector length, and those that are not active, become 0.
///
/// # Errors
/// The fault of an access: of the first active element that faults (LD1), or of the first active
/// element (LDFF1). Nothing changes then.
pub fn load_into(
    pages: &Pages,
    load: &LoadFrom,
    vl: Vl,
    pg: &PReg,
    ffr: &mut PReg,
    stops: &mut Suppress,
    out: &mut ZReg,
) -> Result<(), AccessFault>
    ensures done { let l = load.now in
        let left = load_of l.mode l.row.dtype l.base l.index vl pages.now.memory stops.old pg.now.bits ffr.old.bits in
        OnOk result (left ≡ Ok (record { z = out.new.bytes; ffr = ffr.new.bits; stops = stops.new })) }
    ensures refused { let l = load.now in
        let left = load_of l.mode l.row.dtype l.base l.index vl pages.now.memory stops.old pg.now.bits ffr.old.bits in
        IfErr result (λ fault. left ≡ Err fault) }
    ensures unchanged { OnErr result ((out.new ≡ out.old) × (ffr.new ≡ ffr.old) × (stops.new ≡ stops.old)) }
{
    if let LoadMode::Plain = load.mode {
        if load_whole(pages, load, vl, pg, out) {
            return Ok(());
        }
    }
    load_any(pages, load, vl, pg, ffr, stops, out)
}

/// The same, giving the register.
///
/// # Errors
/// As `load_into`.
pub fn load(
    pages: &Pages,
    mode: LoadMode,
    row: LoadRow,
    base: u64,
    index: u64,
    vl: Vl,
    pg: &PReg,
    ffr: &mut PReg,
    stops: &mut Suppress,
) -> Result<ZReg, AccessFault>
    ensures done { let left = load_of mode row.dtype base index vl pages.now.memory stops.old
        pg.now.bits ffr.old.bits in
        IfOk result (λ z. left ≡ Ok (record { z = z.bytes; ffr = ffr.new.bits; stops = stops.new })) }
    ensures refused { let left = load_of mode row.dtype base index vl pages.now.memory stops.old
        pg.now.bits ffr.old.bits in
        IfErr result (λ fault. left ≡ Err fault) }
    ensures unchanged { OnErr result ((ffr.new ≡ ffr.old) × (stops.new ≡ stops.old)) }
{
    let mut out = ZReg::zero();
    let load = LoadFrom {
        mode,
        row,
        base,
        index,
    };
    load_into(pages, &load, vl, pg, ffr, stops, &mut out)?;
    Ok(out)
}
