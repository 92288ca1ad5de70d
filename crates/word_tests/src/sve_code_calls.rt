//! Calls of sve_code.

use sve_code::*;
use word_rows::Bits;

/// The words that GNU `as` makes of the text beside.
#[test]
fn writes_checked_predicate_words(rt: HostRuntime) {
    // whilelo p0.b, x9, x1
    let whilelo = Sve::Whilelo {
        pd: Bits::new(0),
        rn: Bits::new(9),
        rm: Bits::new(1),
        size: Size::B,
    };
    assert_eq!(rt; encode(whilelo), 0x2521_1d20);
    // ptrue p1.b
    let ptrue = Sve::Ptrue {
        pd: Bits::new(1),
        size: Size::B,
    };
    assert_eq!(rt; encode(ptrue), 0x2518_e3e1);
}

/// The words that GNU `as` makes of the text beside.
#[test]
fn writes_checked_shift_words(rt: HostRuntime) {
    // lsl z0.s, z1.s, #3
    let left = Sve::ShiftImmediate {
        op: ShiftImmediateOp::Lsl,
        zd: Bits::new(0),
        zn: Bits::new(1),
        amount: ShiftAmount::left(Size::S, 3),
    };
    assert_eq!(rt; encode(left), 0x0463_9c20);
    // asr z4.h, z5.h, #16
    let right = Sve::ShiftImmediate {
        op: ShiftImmediateOp::Asr,
        zd: Bits::new(4),
        zn: Bits::new(5),
        amount: ShiftAmount::right(Size::H, 16),
    };
    assert_eq!(rt; encode(right), 0x0430_90a4);
}

/// What the assembler's names `ld1sh {z0.s}` and `ld1d {z0.d}` say of the types 9 and 15.
#[test]
fn knows_what_is_loaded(rt: HostRuntime) {
    let halfword = Dtype::at(0xa529_4000);
    assert!(rt; halfword.memory() == Size::H && halfword.element() == Size::S);
    assert!(rt; halfword.is_signed());
    let doubleword = Dtype::at(0xa5e9_4000);
    assert!(rt; doubleword.memory() == Size::D && doubleword.element() == Size::D);
    assert!(rt; !doubleword.is_signed() && doubleword.memory().width() == 64);
    let store = StoreSizes::of(Size::B, Size::S);
    assert!(rt; store.is_some() && StoreSizes::of(Size::D, Size::S).is_none());
    assert!(rt; OffsetReg::of(31).is_none() && OffsetReg::of(30).is_some());
}
