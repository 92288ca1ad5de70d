//! Values of the guest, by hand: each function once, and what is none at both sides of its bounds.

use guest_types::bytes::{number, put_number};
use guest_types::image::Image;
use guest_types::length::{Vl, Width};
use guest_types::memory::{PAGE_BYTES, PageBytes, PageNo, PageSpec, Perm};
use guest_types::operation::{LaneCompare, LaneOp, LaneUnary, PredOp, ReduceOp, ShiftOp};
use guest_types::predicate::PReg;
use guest_types::register::ZReg;
use guest_types::row::{LoadRow, StoreRow};
use std::test::Fail;

// The bits of a vector, the number of a load's row, and the sizes of a store's, with whether each is valid.
static VALID: [(u32, u32, (u32, u32), bool); 6] = [
    (0, 16, (0, 4), false),
    (127, 16, (2, 1), false),
    (128, 0, (0, 0), true),
    (192, 17, (2, 1), false),
    (2048, 15, (3, 3), true),
    (2176, 255, (4, 4), false),
];

#[test]
fn what_is_none(rt: HostRuntime) {
    for &(bits, dtype, (msz, size), valid) in &VALID {
        let found = [
            Vl::new(bits).is_some(),
            LoadRow::new(dtype).is_some(),
            StoreRow::new(msz, size).is_some(),
        ];
        assert!(rt; found == [valid; 3], "{bits} bits: {found:?}");
    }
    assert!(rt; PageNo::new(1 << 36).is_none());
}

#[test]
fn lengths_and_rows(rt: HostRuntime) {
    let vl = Vl::new(384).expect(&rt, "a length");
    let found = [
        vl.bits(),
        vl.lanes(Width::B),
        vl.lanes(Width::H),
        vl.lanes(Width::S),
        vl.lanes(Width::D),
    ];
    assert!(rt; found == [384, 48, 24, 12, 6]);
    let width = Width::H;
    assert!(rt; width.bytes() * width.all_lanes() == 256 && width.wrap(0x1_ffff) == width.max());
    let load = LoadRow::new(8).expect(&rt, "a row");
    let store = StoreRow::new(0, 2).expect(&rt, "a row");
    let widths = [
        load.memory(),
        load.element(),
        store.memory(),
        store.element(),
    ];
    assert!(rt; widths == [Width::H, Width::D, Width::B, Width::S] && load.is_signed());
}

#[test]
fn pages(rt: HostRuntime) -> Result<(), Fail> {
    let page = PageNo::new((1 << 36) - 1).expect(&rt, "a page");
    assert!(rt; page.number() == 0xF_FFFF_FFFF);
    let mut bytes = PageBytes::new(vec![in rt.alloc(); 0u8; PAGE_BYTES as usize]?);
    bytes.put(4095, 9);
    let spec = PageSpec::new(page, Perm::ReadWrite, bytes);
    assert!(rt; spec.bytes.as_slice().ends_with(&[0, 9]));
    assert!(rt; Image::empty(rt.alloc()).pages.is_empty());
    Ok(())
}

#[test]
fn registers(rt: HostRuntime) {
    let mut bytes = [0; 2];
    put_number(&mut bytes, 0xABCD);
    assert!(rt; bytes == [0xCD, 0xAB] && number(&bytes) == 0xABCD);
    let mut z = ZReg::zero();
    z.put(Width::H, 1, 0x1_2345);
    assert!(rt; z.element(Width::S, 0) == 0x2345_0000);
    let mut p = PReg::none();
    p.put(12, true);
    let found = [
        p.bit(12),
        p.is_active(Width::S, 3),
        p.is_active(Width::D, 1),
    ];
    assert!(rt; found == [true, true, false]);
}

#[test]
fn operations(rt: HostRuntime) {
    let numbers = [
        LaneOp::Sub.apply(Width::B, 0, 1),
        LaneOp::Bic.apply(Width::B, 0xFF, 0x0F),
        LaneUnary::SxtB.apply(Width::H, 0x1280),
        ShiftOp::Asr.apply(Width::B, 0x80, 8),
        ReduceOp::SMin.identity(Width::B),
    ];
    assert!(rt; numbers == [0xFF, 0xF0, 0xFF80, 0xFF, 0x7F]);
    assert!(rt; LaneCompare::Gt.holds(Width::B, 0, 0xFF) && PredOp::Eor.apply(true, false));
}
