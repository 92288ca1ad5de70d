//! Loads of elements from a base and offsets: the forms of LD1 with a scalar and a vector.

ghost use Rattle.std.specs.Prelude.{◌≡◌, ◌<◌, ◌≤◌, ℕ, List, Ok, Err, Some, None, IfOk, IfErr, OnOk, OnErr, true, false};
ghost use Rattle.guest_types.specs.declared.length.Width.TheVariants.{D};
ghost use Rattle.guest_types.specs.Length.{width_bytes};
ghost use Rattle.guest_types.specs.Elements.{active, first_true, register};
ghost use Rattle.guest_types.specs.LaneMemory.{fault_at, lane_fault, load_form, read_fault};
ghost use Rattle.guest_types.specs.EarlyLoads.{StopList};
ghost use Rattle.lane_memory.specs.Readings.{form_of};
ghost use Rattle.lane_memory.specs.Gathers.{gather_of, gather_place, gather_refused, gathered_of};

use crate::reading::Reading;
use guest_types::guest::GuestMemory;
use guest_types::length::{Vl, Width};
use guest_types::memory::AccessFault;
use guest_types::predicate::PReg;
use guest_types::register::ZReg;
use guest_types::row::LoadRow;
use paged_memory::pages::Pages;

// The address of an element.
#[inline(always)]
fn place(reading: Reading, offsets: &ZReg, e: usize) -> u64
    requires { e < 32 }
    ensures { result ≡ gather_place reading offsets.now.bytes e }
{
    reading.base.wrapping_add(offsets.element(Width::D, e))
}

// One element that is active, of so many bytes in memory. It is inlined where these are known.
#[inline(always)]
fn read(
    pages: &Pages,
    reading: Reading,
    size: u32,
    offsets: &ZReg,
    e: usize,
) -> Result<u64, AccessFault>
    requires size { size ≡ width_bytes reading.memory }
    requires inside { e < 32 }
    ensures done { (pg : List ℕ) → active D pg e ≡ true
        → IfOk result (λ v. v ≡ gathered_of reading pages.now.memory offsets.now.bytes pg e) }
    ensures free { (pg : List ℕ)
        → OnOk result (gather_refused reading pages.now.memory offsets.now.bytes pg e ≡ false) }
    ensures fault { IfErr result (λ fault.
        read_fault (lane_fault (form_of reading) pages.now.memory (gather_place reading offsets.now.bytes) e)
        ≡ Some fault) }
{
    pages.is_memory();
    let address = place(reading, offsets, e);
    match pages.load(address, size) {
        Ok(value) => Ok(reading.extend(value)),
        Err(fault) => Err(fault),
    }
}

// One element: what was read where it is active, else 0.
#[inline(always)]
fn lane(
    pages: &Pages,
    reading: Reading,
    size: u32,
    offsets: &ZReg,
    pg: &PReg,
    e: usize,
) -> Result<u64, AccessFault>
    requires size { size ≡ width_bytes reading.memory }
    requires inside { e < 32 }
    ensures done { IfOk result (λ v. v ≡ gathered_of reading pages.now.memory offsets.now.bytes pg.now.bits e) }
    ensures free { OnOk result (gather_refused reading pages.now.memory offsets.now.bytes pg.now.bits e ≡ false) }
    ensures refused { OnErr result (gather_refused reading pages.now.memory offsets.now.bytes pg.now.bits e ≡ true) }
    ensures fault { IfErr result (λ fault.
        read_fault (lane_fault (form_of reading) pages.now.memory (gather_place reading offsets.now.bytes) e)
        ≡ Some fault) }
{
    if pg.is_active(Width::D, e) {
        return read(pages, reading, size, offsets, e);
    }
    Ok(0)
}

// The first elements of a gather, of so many bytes in memory, and zeros above them.
#[inline(always)]
fn gathered(
    pages: &Pages,
    reading: Reading,
    size: u32,
    offsets: &ZReg,
    pg: &PReg,
    lanes: usize,
    out: &mut ZReg,
) -> Result<(), AccessFault>
    requires size { size ≡ width_bytes reading.memory }
    requires inside { lanes ≤ 32 }
    ensures done { OnOk result (out.new.bytes
        ≡ register (width_bytes D) (gathered_of reading pages.now.memory offsets.now.bytes pg.now.bits) lanes) }
    ensures free { let first = first_true (gather_refused reading pages.now.memory offsets.now.bytes pg.now.bits)
        lanes 0 in
        OnOk result (first ≡ None) }
    ensures fault { let first = first_true (gather_refused reading pages.now.memory offsets.now.bytes pg.now.bits)
        lanes 0 in
        IfErr result (λ fault.
        fault_at (form_of reading) pages.now.memory (gather_place reading offsets.now.bytes) first ≡ Some fault) }
{
    *out = ZReg::zero();
    for e in 0..lanes {
        match lane(pages, reading, size, offsets, pg, e) {
            Ok(value) => out.put(Width::D, e, value),
            Err(fault) => return Err(fault),
        }
    }
    Ok(())
}

// The bytes of an element in memory are chosen before the loop over elements.
#[inline(always)]
fn gathered_by_size(
    pages: &Pages,
    reading: Reading,
    offsets: &ZReg,
    pg: &PReg,
    lanes: usize,
    out: &mut ZReg,
) -> Result<(), AccessFault>
    requires { lanes ≤ 32 }
    ensures done { OnOk result (out.new.bytes
        ≡ register (width_bytes D) (gathered_of reading pages.now.memory offsets.now.bytes pg.now.bits) lanes) }
    ensures free { let first = first_true (gather_refused reading pages.now.memory offsets.now.bytes pg.now.bits)
        lanes 0 in
        OnOk result (first ≡ None) }
    ensures fault { let first = first_true (gather_refused reading pages.now.memory offsets.now.bytes pg.now.bits)
        lanes 0 in
        IfErr result (λ fault.
        fault_at (form_of reading) pages.now.memory (gather_place reading offsets.now.bytes) first ≡ Some fault) }
{
    match reading.memory {
        Width::B => gathered(pages, reading, 1, offsets, pg, lanes, out),
        Width::H => gathered(pages, reading, 2, offsets, pg, lanes, out),
        Width::S => gathered(pages, reading, 4, offsets, pg, lanes, out),
        Width::D => gathered(pages, reading, 8, offsets, pg, lanes, out),
    }
}

// The load of a row whose elements have 64 bits, from a base.
#[inline(always)]
fn reading_of(row: LoadRow, base: u64) -> Reading
    requires wide { (load_form row.dtype).element ≡ D }
    ensures form { form_of result ≡ load_form row.dtype }
    ensures base { result.base ≡ base }
{
    Reading {
        base,
        index: 0,
        memory: row.memory(),
        element: Width::D,
        signed: row.is_signed(),
    }
}

/// Loads the active elements of `out`, each from `base` and the element of `offsets` in its place, modulo 2^64.
/// Elements past the vector length, and those that are not active, become 0.
///
/// # Errors
/// The fault of the first active element that faults. Nothing is said of `out` then.
#[inline(always)]
pub fn gather_into(
    pages: &Pages,
    row: LoadRow,
    base: u64,
    offsets: &ZReg,
    vl: Vl,
    pg: &PReg,
    out: &mut ZReg,
) -> Result<(), AccessFault>
    requires wide { (load_form row.dtype).element ≡ D }
    ensures done { (stops : StopList) → (ffr : List ℕ) → OnOk result (
        gather_of row.dtype base vl pages.now.memory stops offsets.now.bytes pg.now.bits ffr
        ≡ Ok (record { z = out.new.bytes; ffr = ffr; stops = stops })) }
    ensures refused { (stops : StopList) → (ffr : List ℕ) → IfErr result (λ fault.
        gather_of row.dtype base vl pages.now.memory stops offsets.now.bytes pg.now.bits ffr ≡ Err fault) }
{
    let reading = reading_of(row, base);
    let lanes = vl.lanes(Width::D) as usize;
    gathered_by_size(pages, reading, offsets, pg, lanes, out)
}

/// The same into a register of its own.
///
/// # Errors
/// The fault of the first active element that faults.
pub fn gather(
    pages: &Pages,
    row: LoadRow,
    base: u64,
    offsets: &ZReg,
    vl: Vl,
    pg: &PReg,
) -> Result<ZReg, AccessFault>
    requires wide { (load_form row.dtype).element ≡ D }
    ensures done { (stops : StopList) → (ffr : List ℕ) → IfOk result (λ z.
        gather_of row.dtype base vl pages.now.memory stops offsets.now.bytes pg.now.bits ffr
        ≡ Ok (record { z = z.bytes; ffr = ffr; stops = stops })) }
    ensures refused { (stops : StopList) → (ffr : List ℕ) → IfErr result (λ fault.
        gather_of row.dtype base vl pages.now.memory stops offsets.now.bytes pg.now.bits ffr ≡ Err fault) }
{
    let mut out = ZReg::zero();
    match gather_into(pages, row, base, offsets, vl, pg, &mut out) {
        Ok(()) => Ok(out),
        Err(fault) => Err(fault),
    }
}
