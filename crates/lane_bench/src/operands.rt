//! What a kernel is timed on.

use crate::bank::Bank;
use crate::plain::elements;
use guest_types::length::{Vl, Width};
use guest_types::predicate::PReg;
use guest_types::register::ZReg;
use lane_preds::make::all_true;

/// Registers that a kernel or a loop reads and writes. A kernel that works in place has its own, which begin alike.
#[derive(Drop)]
pub struct Operands {
    pub vl: Vl,
    pub width: Width,
    pub mask: PReg,
    pub tested: PReg,
    pub truths: PReg,
    pub left: ZReg,
    pub right: ZReg,
    pub offsets: ZReg,
    pub out: ZReg,
    pub bank: Bank,
    pub total: u64,
}

// Two of three elements.
fn ragged(width: Width, vl: Vl) -> PReg {
    let mut mask = PReg::none();
    for e in 0..vl.lanes(width) as usize {
        mask.put(width.bytes() * e, e % 3 != 1);
    }
    mask
}

// The last bit of a predicate of the length alone, so that no loop ends early.
fn last_bit(vl: Vl) -> PReg {
    let mut last = PReg::none();
    last.bits[(vl.bits() / 64 - 1) as usize] = 0x80;
    last
}

fn filled(from: u8, by: u8, vl: Vl) -> ZReg {
    let mut z = ZReg::zero();
    let mut byte = from;
    for e in 0..vl.lanes(Width::B) as usize {
        z.bytes[e] = byte;
        byte = byte.wrapping_mul(5).wrapping_add(by);
    }
    z
}

// Offsets in no order, the bytes of a doubleword or more apart, all below 2,048.
fn scattered(vl: Vl) -> ZReg {
    let mut z = ZReg::zero();
    for e in 0..elements(Width::D, vl) {
        z.put(Width::D, e, (e as u64 * 37 % 128) * 16);
    }
    z
}

impl Operands {
    /// Bytes of all kinds, and a mask of which every element or two of three are true.
    pub fn new(width: Width, vl: Vl, is_ragged: bool) -> Operands {
        let all = all_true(width, vl);
        let left = filled(3, 7, vl);
        let right = filled(250, 11, vl);
        Operands {
            vl,
            width,
            mask: if is_ragged { ragged(width, vl) } else { all },
            tested: last_bit(vl),
            truths: all_true(Width::B, vl),
            left,
            right,
            offsets: scattered(vl),
            out: ZReg::zero(),
            bank: Bank::new(vl, left, right),
            total: 1,
        }
    }

    /// Makes the next call depend on what the last one gave.
    #[inline(always)]
    pub fn go_on(&mut self) {
        self.left.bytes[0] ^= self.out.bytes[5];
        self.bank.go_on();
        self.tested.bits[31] ^= self.truths.bits[0] & 1;
    }
}
