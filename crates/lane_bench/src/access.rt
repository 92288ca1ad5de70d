//! Loads and stores of lanes in one page, by the kernel and by a plain loop.

ghost use Rattle.std.specs.Prelude.{◌≡◌};
ghost use Rattle.guest_types.specs.declared.length.Width.TheVariants.{D};
ghost use Rattle.guest_types.specs.LaneMemory.{load_form};

use crate::operands::Operands;
use crate::plain::elements;
use crate::work::Access;
use guest_types::guest::GuestMemory;
use guest_types::image::{Image, PageMap};
use guest_types::length::Width;
use guest_types::memory::{AccessFault, Perm};
use guest_types::predicate::PReg;
use guest_types::row::{LoadMode, LoadRow, StoreRow};
use lane_memory::gather::gather_into;
use lane_memory::load::{LoadFrom, load_into};
use lane_memory::store::store;
use lane_memory::suppress::Suppress;
use paged_memory::pages::Pages;
use paged_memory::run::run;
use std::alloc::{AllocError, Global};

/// The address of element 0.
const BASE: u64 = 0x10040;

/// Four pages that may be written.
pub fn built(alloc: Global) -> Result<Pages, AllocError> {
    let image = Image {
        entry: 0,
        code_from: 0,
        code_end: 0,
        pages: run(alloc, 0x10, 2, Perm::ReadWrite, &[])?,
    };
    let map = PageMap {
        pages: run(alloc, 0x20, 2, Perm::ReadWrite, &[])?,
    };
    let pages = Pages::build(alloc, &image, &map)?;
    Ok(pages)
}

fn load_row(width: Width) -> LoadRow {
    LoadRow {
        dtype: match width {
            Width::B => 0,
            Width::H => 5,
            Width::S => 10,
            Width::D => 15,
        },
    }
}

fn store_row(width: Width) -> StoreRow {
    let size = match width {
        Width::B => 0,
        Width::H => 1,
        Width::S => 2,
        Width::D => 3,
    };
    StoreRow { msz: size, size }
}

fn load_by_kernel(pages: &Pages, mode: LoadMode, s: &mut Operands) -> Result<(), AccessFault> {
    let mut stops = Suppress::none();
    let load = LoadFrom {
        mode,
        row: load_row(s.width),
        base: BASE,
        index: s.total & 1,
    };
    load_into(
        pages,
        &load,
        s.vl,
        &s.mask,
        &mut s.truths,
        &mut stops,
        &mut s.out,
    )
}

// Doublewords, or bytes and their like extended to doublewords.
fn gather_row(width: Width) -> LoadRow
    ensures { (load_form result.dtype).element ≡ D }
{
    LoadRow {
        dtype: match width {
            Width::B => 3,
            Width::H => 7,
            Width::S => 11,
            Width::D => 15,
        },
    }
}

fn gather_by_kernel(pages: &Pages, s: &mut Operands) -> Result<(), AccessFault> {
    let row = gather_row(s.width);
    let base = BASE + (s.total & 1);
    gather_into(pages, row, base, &s.offsets, s.vl, &s.mask, &mut s.out)
}

/// One access by its kernel.
#[inline(never)]
pub fn by_kernel(access: Access, pages: &mut Pages, s: &mut Operands) -> Result<(), AccessFault> {
    match access {
        Access::Load => load_by_kernel(pages, LoadMode::Plain, s),
        Access::FirstFaultLoad => load_by_kernel(pages, LoadMode::FirstFault, s),
        Access::NonFaultLoad => load_by_kernel(pages, LoadMode::NonFault, s),
        Access::Gather => gather_by_kernel(pages, s),
        Access::Store => {
            store(
                pages,
                store_row(s.width),
                BASE,
                s.total & 1,
                s.vl,
                &s.mask,
                &s.left,
            )
        }
    }
}

// The address of an element.
#[inline(always)]
fn address(s: &Operands, e: usize) -> u64 {
    let k = s.width.bytes() as u64;
    (e as u64)
        .wrapping_add(s.total & 1)
        .wrapping_mul(k)
        .wrapping_add(BASE)
}

fn load_each(pages: &Pages, s: &mut Operands) -> Result<(), AccessFault> {
    let width = s.width;
    for e in 0..elements(width, s.vl) {
        let value = if s.mask.is_active(width, e) {
            pages.load(address(s, e), width.bytes() as u32)?
        } else {
            0
        };
        s.out.put(width, e, value);
    }
    Ok(())
}

// As LDFF1 and LDNF1: nothing is read from the first fault on, where FFR is cleared.
fn load_each_early(pages: &Pages, s: &mut Operands) {
    let width = s.width;
    let mut is_over = false;
    for e in 0..elements(width, s.vl) {
        let mut value = 0;
        is_over |= !s.truths.is_active(width, e);
        if !is_over && s.mask.is_active(width, e) {
            match pages.load(address(s, e), width.bytes() as u32) {
                Ok(read) => value = read,
                Err(_) => {
                    is_over = true;
                    s.truths = PReg::none();
                }
            }
        }
        s.out.put(width, e, value);
    }
}

// Each active element by a load of its own.
fn gather_each(pages: &Pages, s: &mut Operands) -> Result<(), AccessFault> {
    let base = BASE + (s.total & 1);
    let size = s.width.bytes() as u32;
    for e in 0..elements(Width::D, s.vl) {
        let value = if s.mask.is_active(Width::D, e) {
            let offset = s.offsets.element(Width::D, e);
            pages.load(base.wrapping_add(offset), size)?
        } else {
            0
        };
        s.out.put(Width::D, e, value);
    }
    Ok(())
}

fn store_each(pages: &mut Pages, s: &Operands) -> Result<(), AccessFault> {
    for e in 0..elements(s.width, s.vl) {
        if s.mask.is_active(s.width, e) {
            pages.store(
                address(s, e),
                s.width.bytes() as u32,
                s.left.element(s.width, e),
            )?;
        }
    }
    Ok(())
}

/// The same access, element by element.
#[inline(never)]
pub fn by_loop(access: Access, pages: &mut Pages, s: &mut Operands) -> Result<(), AccessFault> {
    match access {
        Access::Load => load_each(pages, s),
        Access::FirstFaultLoad | Access::NonFaultLoad => {
            load_each_early(pages, s);
            Ok(())
        }
        Access::Gather => gather_each(pages, s),
        Access::Store => store_each(pages, s),
    }
}
