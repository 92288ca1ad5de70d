//! Loads and stores of lanes over four pages: 0 and 1 may be written, 2 may be read, 3 is not mapped.

use guest_types::guest::GuestMemory;
use guest_types::image::{Image, PageMap};
use guest_types::length::{Vl, Width};
use guest_types::memory::{AccessFault, Perm};
use guest_types::predicate::PReg;
use guest_types::register::ZReg;
use guest_types::row::{LoadMode, LoadRow, StoreRow};
use lane_memory::gather::gather;
use lane_memory::load::load;
use lane_memory::store::store;
use lane_memory::suppress::Suppress;
use paged_memory::pages::Pages;
use paged_memory::run::run;
use std::alloc::{AllocError, Global};
use std::test::Fail;

// The four pages, in which the last 16 bytes of page 1 are 0x80 to 0x8f, as are the first of page 0 and those round the end of page 0.
fn built(alloc: Global) -> Result<Pages, AllocError> {
    let image = Image {
        entry: 0,
        code_from: 0,
        code_end: 0,
        pages: run(alloc, 0, 2, Perm::ReadWrite, &[])?,
    };
    let map = PageMap {
        pages: run(alloc, 2, 1, Perm::Read, &[])?,
    };
    let mut pages = Pages::build(alloc, &image, &map)?;
    for at in [0, 0xff8, 0x1ff0] {
        let _low = pages.store(at, 8, 0x8786_8584_8382_8180);
        let _high = pages.store(at + 8, 8, 0x8f8e_8d8c_8b8a_8988);
    }
    Ok(pages)
}

// The row of a load, its base and index, the bits of a vector, and a byte that the mask repeats.
type Load = (u32, u64, u64, u32, u8);

// A load, an element, and what it is then, or the address of the fault.
static LOADS: [(Load, Width, usize, Result<u64, u64>); 34] = [
    // element 1 by each row
    ((0, 0x1ff0, 0, 128, 255), Width::B, 1, Ok(0x81)),
    ((1, 0x1ff0, 0, 128, 255), Width::H, 1, Ok(0x81)),
    ((2, 0x1ff0, 0, 128, 255), Width::S, 1, Ok(0x81)),
    ((3, 0x1ff0, 0, 128, 255), Width::D, 1, Ok(0x81)),
    (
        (4, 0x1ff0, 0, 128, 255),
        Width::D,
        1,
        Ok(0xffff_ffff_8786_8584),
    ),
    ((5, 0x1ff0, 0, 128, 255), Width::H, 1, Ok(0x8382)),
    ((6, 0x1ff0, 0, 128, 255), Width::S, 1, Ok(0x8382)),
    ((7, 0x1ff0, 0, 128, 255), Width::D, 1, Ok(0x8382)),
    (
        (8, 0x1ff0, 0, 128, 255),
        Width::D,
        1,
        Ok(0xffff_ffff_ffff_8382),
    ),
    ((9, 0x1ff0, 0, 128, 255), Width::S, 1, Ok(0xffff_8382)),
    ((10, 0x1ff0, 0, 128, 255), Width::S, 1, Ok(0x8786_8584)),
    ((11, 0x1ff0, 0, 128, 255), Width::D, 1, Ok(0x8786_8584)),
    (
        (12, 0x1ff0, 0, 128, 255),
        Width::D,
        1,
        Ok(0xffff_ffff_ffff_ff81),
    ),
    ((13, 0x1ff0, 0, 128, 255), Width::S, 1, Ok(0xffff_ff81)),
    ((14, 0x1ff0, 0, 128, 255), Width::H, 1, Ok(0xff81)),
    (
        (15, 0x1ff0, 0, 128, 255),
        Width::D,
        1,
        Ok(0x8f8e_8d8c_8b8a_8988),
    ),
    // masks
    ((0, 0x3000, 0, 2048, 0), Width::B, 255, Ok(0)),
    ((0, 0, 0, 2048, 0x5a), Width::B, 0, Ok(0)),
    ((0, 0, 0, 2048, 0x5a), Width::B, 1, Ok(0x81)),
    ((0, 0, 0, 2048, 0x5a), Width::B, 2, Ok(0)),
    ((0, 0, 0, 2048, 0x5a), Width::B, 14, Ok(0x8e)),
    ((10, 0, 0, 256, 0x10), Width::S, 0, Ok(0)),
    ((10, 0, 0, 256, 0x10), Width::S, 1, Ok(0x8786_8584)),
    ((10, 0, 0, 256, 0x10), Width::S, 3, Ok(0x8f8e_8d8c)),
    // 384 bits are one block and 16 bytes, and above them is zero
    ((0, 0x1fd0, 0, 384, 255), Width::B, 47, Ok(0x8f)),
    ((0, 0x1fc8, 0, 384, 255), Width::B, 48, Ok(0)),
    ((0, 0x1fc8, 0, 512, 255), Width::B, 48, Ok(0x88)),
    // across pages, and where one is not mapped
    ((0, 0xfff, 0, 128, 255), Width::B, 1, Ok(0x88)),
    ((10, 0xffa, 0, 128, 255), Width::S, 1, Ok(0x8988_8786)),
    ((10, 0x2ffa, 0, 128, 255), Width::S, 0, Err(0x3000)),
    ((10, 0x2ffa, 0, 128, 0x01), Width::S, 0, Err(0x3002)),
    // past the last address
    (
        (0, u64::MAX - 15, 0, 256, 255),
        Width::B,
        0,
        Err(u64::MAX - 15),
    ),
    ((0, 4, u64::MAX, 128, 255), Width::B, 15, Ok(0)),
    (
        (15, 8, u64::MAX, 128, 255),
        Width::D,
        0,
        Ok(0x8786_8584_8382_8180),
    ),
];

// What LD1 gives of an element, or the address of its fault.
fn read(pages: &Pages, read: Load, width: Width, e: usize) -> Option<Result<u64, u64>> {
    let (dtype, base, index, bits, mask) = read;
    let row = LoadRow::new(dtype)?;
    let vl = Vl::new(bits)?;
    let pg = PReg { bits: [mask; 32] };
    let mut ffr = PReg { bits: [255; 32] };
    let mut stops = Suppress::none();
    if e >= width.all_lanes() {
        return None;
    }
    let plain = LoadMode::Plain;
    match load(
        pages, plain, row, base, index, vl, &pg, &mut ffr, &mut stops,
    ) {
        Ok(z) => Some(Ok(z.element(width, e))),
        Err(fault) => Some(Err(fault.address)),
    }
}

#[test]
fn what_is_loaded(rt: HostRuntime) -> Result<(), Fail> {
    let pages = built(rt.alloc())?;
    for (load, width, e, want) in &LOADS {
        let (dtype, base, ..) = *load;
        let got = read(&pages, *load, *width, *e);
        assert!(rt; got == Some(*want), "row {dtype} at {base}, element {e}");
    }
    Ok(())
}

// The base of a gather of signed bytes, its two offsets, and a byte that the mask repeats.
type Gather = (u64, u64, u64, u8);

// A gather, an element, and what it is then, or the address of the fault.
static GATHERS: [(Gather, usize, Result<u64, u64>); 5] = [
    (
        (0x1ff0, 0x0f, 0xffff_ffff_ffff_e011, 255),
        0,
        Ok(0xffff_ffff_ffff_ff8f),
    ),
    (
        (0x1ff0, 0x0f, 0xffff_ffff_ffff_e011, 255),
        1,
        Ok(0xffff_ffff_ffff_ff81),
    ),
    ((0x1ff0, 0, 0x2000, 0xfe), 0, Ok(0)),
    ((0x1ff0, 0, 0x2000, 0xfe), 1, Ok(0)),
    ((0x1ff0, 0, 0x2000, 1), 1, Err(0x3ff0)),
];

// What a gather gives of an element, or the address of its fault.
fn gathered(pages: &Pages, from: Gather, e: usize) -> Option<Result<u64, u64>> {
    let (base, first, second, mask) = from;
    let vl = Vl::new(128)?;
    let mut offsets = ZReg::zero();
    offsets.put(Width::D, 0, first);
    offsets.put(Width::D, 1, second);
    let pg = PReg { bits: [mask; 32] };
    if e >= 2 {
        return None;
    }
    let row = LoadRow { dtype: 12 };
    match gather(pages, row, base, &offsets, vl, &pg) {
        Ok(z) => Some(Ok(z.element(Width::D, e))),
        Err(fault) => Some(Err(fault.address)),
    }
}

#[test]
fn what_is_gathered(rt: HostRuntime) -> Result<(), Fail> {
    let pages = built(rt.alloc())?;
    for (from, e, want) in &GATHERS {
        let (base, ..) = *from;
        let got = gathered(&pages, *from, *e);
        assert!(rt; got == Some(*want), "gather from {base}, element {e}");
    }
    Ok(())
}

// Words of 4 bytes from 0x2ff4 on, of which the first three can be read.
#[test]
fn first_faults(rt: HostRuntime) -> Result<(), Fail> {
    let pages = built(rt.alloc())?;
    let row = LoadRow { dtype: 10 };
    let vl = Vl::new(256).expect(&rt, "a length");
    let pg = PReg { bits: [255; 32] };
    let mut ffr = PReg { bits: [255; 32] };
    let mut stops = Suppress::none();
    let mode = LoadMode::FirstFault;
    let some = load(&pages, mode, row, 0x2ff4, 0, vl, &pg, &mut ffr, &mut stops);
    assert!(rt; some.is_ok() && ffr.bits.starts_with(&[255, 0x0f, 0]));
    let first = load(&pages, mode, row, 0x3000, 0, vl, &pg, &mut ffr, &mut stops);
    assert!(rt; first.err() == Some(AccessFault::read(0x3000)) && ffr.bits[1] == 0x0f);
    let mode = LoadMode::NonFault;
    let none = load(&pages, mode, row, 0x3000, 0, vl, &pg, &mut ffr, &mut stops);
    assert!(rt; none.is_ok() && ffr.bits[0] == 0);
    Ok(())
}

// The first element of LDFF1 is not free, so the third free one is element 3.
#[test]
fn suppressed(rt: HostRuntime) -> Result<(), Fail> {
    let pages = built(rt.alloc())?;
    let row = LoadRow { dtype: 0 };
    let vl = Vl::new(128).expect(&rt, "a length");
    let pg = PReg { bits: [255; 32] };
    let mut stops = Suppress::each(3).expect(&rt, "stops");
    for (mode, bits) in [(LoadMode::FirstFault, 0x07), (LoadMode::NonFault, 0x03)] {
        let mut ffr = PReg { bits: [255; 32] };
        let some = load(&pages, mode, row, 0, 0, vl, &pg, &mut ffr, &mut stops);
        assert!(rt; some.is_ok() && ffr.bits[0] == bits, "{bits}");
    }
    assert!(rt; Suppress::each(0).is_none());
    Ok(())
}

// A row's sizes, its base and index, the bits of a vector, and a byte that the mask repeats.
type Store = (u32, u32, u64, u64, u32, u8);

// A store, the address of its fault, and eight bytes of memory then.
static STORES: [(Store, Result<(), u64>, u64, u64); 12] = [
    (
        (2, 2, 0xffe, 0, 128, 255),
        Ok(()),
        0xffe,
        0x0807_0605_0403_0201,
    ),
    (
        (0, 2, 0x1ff8, 0, 128, 255),
        Ok(()),
        0x1ff8,
        0x8f8e_8d8c_3333_0501,
    ),
    ((1, 3, 0x10, 0, 128, 1), Ok(()), 0x10, 0x3333_0201),
    ((0, 0, 0x20, 0, 2048, 0x02), Ok(()), 0x20, 0x0200),
    ((0, 0, 0x20, 0, 2048, 0x02), Ok(()), 0x110, 0x3300),
    // an element that is not active is not tested, and a fault leaves the elements below it written
    (
        (0, 0, 0x1ff8, 0, 128, 0x0f),
        Err(0x2000),
        0x1ff8,
        0x8f8e_8d8c_0403_0201,
    ),
    (
        (0, 0, 0x1ff0, 0, 2048, 0),
        Ok(()),
        0x1ff0,
        0x8786_8584_8382_8180,
    ),
    (
        (3, 3, 0x1ffc, 0, 128, 255),
        Err(0x2000),
        0x1ff8,
        0x8f8e_8d8c_8b8a_8988,
    ),
    // past the last address, where no page is, and an index that wraps
    (
        (0, 0, u64::MAX - 15, 0, 256, 255),
        Err(u64::MAX - 15),
        0,
        0x8786_8584_8382_8180,
    ),
    (
        (2, 2, u64::MAX - 1, 0, 128, 255),
        Err(u64::MAX - 1),
        0,
        0x8786_8584_8382_8180,
    ),
    (
        (3, 3, 0x28, u64::MAX, 128, 255),
        Ok(()),
        0x20,
        0x0807_0605_0403_0201,
    ),
    ((3, 3, 0x28, u64::MAX, 128, 255), Ok(()), 0x30, 0),
];

// The result of ST1, or the address of its fault.
fn write(pages: &mut Pages, write: Store, z: &ZReg) -> Option<Result<(), u64>> {
    let (msz, size, base, index, bits, mask) = write;
    let row = StoreRow::new(msz, size)?;
    let vl = Vl::new(bits)?;
    let pg = PReg { bits: [mask; 32] };
    match store(pages, row, base, index, vl, &pg, z) {
        Ok(()) => Some(Ok(())),
        Err(fault) => Some(Err(fault.address)),
    }
}

#[test]
fn what_is_stored(rt: HostRuntime) -> Result<(), Fail> {
    let mut z = ZReg { bytes: [0x33; 256] };
    z.put(Width::D, 0, 0x0807_0605_0403_0201);
    for (store, want, at, number) in &STORES {
        let mut pages = built(rt.alloc())?;
        let (msz, _, base, ..) = *store;
        let got = write(&mut pages, *store, &z);
        let then = pages.load(*at, 8);
        assert!(rt;
            got == Some(*want) && then == Ok(*number),
            "size {msz} at {base}"
        );
    }
    Ok(())
}
