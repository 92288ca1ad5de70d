//! Corners of the operations at each width, every length, and masks.

ghost use Rattle.std.specs.Prelude.{◌≡◌, ◌+◌, ◌^◌, ◌≤◌};
ghost use Rattle.guest_types.specs.Length.{modulus};

use guest_types::length::{Vl, Width};
use guest_types::operation::{LaneOp, LaneUnary, ReduceOp, ShiftOp};
use guest_types::predicate::PReg;
use guest_types::register::ZReg;
use lane_arith::binary::binary;
use lane_arith::fill::{dup, index};
use lane_arith::merge::{merge, select};
use lane_arith::reduce::reduce;
use lane_arith::shift::shift;
use lane_arith::unary::merge_one;

static WIDTHS: [Width; 4] = [Width::B, Width::H, Width::S, Width::D];

// The number whose top bit alone is set.
fn least(width: Width) -> u64
    ensures half { result + result ≡ modulus width }
    ensures some { (1 ≤ result) × (result ≤ 2 ^ 63) }
{
    match width {
        Width::B => 0x80,
        Width::H => 0x8000,
        Width::S => 0x8000_0000,
        Width::D => 0x8000_0000_0000_0000,
    }
}

// A register of 2,048 bits of which every element is a number.
fn filled(width: Width, value: u64) -> ZReg {
    dup(width, Vl::new(2048).unwrap(), value)
}

fn is_filled(width: Width, z: &ZReg, value: u64) -> bool {
    let mut same = true;
    for e in 0..width.all_lanes() {
        same &= z.element(width, e) == value;
    }
    same
}

// No element, element 1, elements whose number leaves 0 or 1 by 3, or all.
fn mask(width: Width, kind: u32) -> PReg {
    let mut p = PReg::none();
    for e in 0..width.all_lanes() {
        let is_true = (kind == 1 && e == 1) || (kind == 2 && e % 3 < 2) || kind == 3;
        p.put(width.bytes() * e, is_true);
    }
    p
}

#[test]
fn operations_of_two(rt: HostRuntime) {
    for &width in &WIDTHS {
        let top = width.max();
        let low = least(width);
        for (op, a, b, want) in [
            (LaneOp::Add, top, 2, 1),
            (LaneOp::Sub, 1, 2, top),
            (LaneOp::Mul, top, top, 1),
            (LaneOp::And, low + 1, top - 1, low),
            (LaneOp::Or, low, 1, low + 1),
            (LaneOp::Xor, top, 1, top - 1),
            (LaneOp::Bic, top, low, top - low),
            (LaneOp::SMin, low, low - 1, low),
            (LaneOp::SMax, low, low - 1, low - 1),
            (LaneOp::UMin, low, low - 1, low - 1),
            (LaneOp::UMax, low, low - 1, low),
        ] {
            let z = binary(op, width, &filled(width, a), &filled(width, b));
            assert!(rt;
                is_filled(width, &z, want),
                "{} bytes, {a} and {b}",
                width.bytes()
            );
        }
    }
}

#[test]
fn masks(rt: HostRuntime) {
    for &width in &WIDTHS {
        let left = filled(width, 5);
        let right = filled(width, 7);
        for kind in [0, 1, 2, 3] {
            let p = mask(width, kind);
            let sum = merge(LaneOp::Add, width, &p, &left, &right);
            let chosen = select(width, &p, &left, &right);
            let minus = merge_one(LaneUnary::Neg, width, &p, &left, &right);
            for e in 0..width.all_lanes() {
                let found = [
                    sum.element(width, e),
                    chosen.element(width, e),
                    minus.element(width, e),
                ];
                let active = [12, 5, width.max() - 6];
                let want = if p.is_active(width, e) {
                    active
                } else {
                    [5, 7, 5]
                };
                assert!(rt; found == want, "{} bytes, element {e}", width.bytes());
            }
        }
    }
}

#[test]
fn shifts(rt: HostRuntime) {
    for &width in &WIDTHS {
        let bits = width.bits();
        let low = least(width);
        for (up, left, down, negative, positive) in [
            (1, 6, 1, low + low / 2, 1),
            (bits - 1, low, bits, width.max(), 0),
        ] {
            let two = filled(width, 2);
            let found = [
                is_filled(
                    width,
                    &shift(ShiftOp::Lsl, width, &filled(width, 3), up),
                    left,
                ),
                is_filled(width, &shift(ShiftOp::Lsr, width, &two, down), positive),
                is_filled(
                    width,
                    &shift(ShiftOp::Asr, width, &filled(width, low), down),
                    negative,
                ),
                is_filled(width, &shift(ShiftOp::Asr, width, &two, down), positive),
            ];
            assert!(rt; found == [true; 4], "{} bytes: {found:?}", width.bytes());
        }
    }
}

// Extensions of 0xdead_beef_89ab_8280.
static EXTENSIONS: [(LaneUnary, u64); 6] = [
    (LaneUnary::SxtB, 0xffff_ffff_ffff_ff80),
    (LaneUnary::UxtB, 0x80),
    (LaneUnary::SxtH, 0xffff_ffff_ffff_8280),
    (LaneUnary::UxtH, 0x8280),
    (LaneUnary::SxtW, 0xffff_ffff_89ab_8280),
    (LaneUnary::UxtW, 0x89ab_8280),
];

#[test]
fn operations_of_one(rt: HostRuntime) {
    for &width in &WIDTHS {
        let all = mask(width, 3);
        for (op, a, want) in [
            (LaneUnary::Abs, least(width), least(width)),
            (LaneUnary::Abs, width.max(), 1),
            (LaneUnary::Neg, least(width), least(width)),
            (LaneUnary::Not, width.max(), 0),
        ] {
            let z = merge_one(op, width, &all, &ZReg::zero(), &filled(width, a));
            assert!(rt; is_filled(width, &z, want), "{} bytes, {a}", width.bytes());
        }
    }
    let z = filled(Width::D, 0xdead_beef_89ab_8280);
    let all = mask(Width::D, 3);
    for &(op, want) in &EXTENSIONS {
        let extended = merge_one(op, Width::D, &all, &ZReg::zero(), &z);
        assert!(rt; is_filled(Width::D, &extended, want), "{want}");
    }
}

#[test]
fn lengths(rt: HostRuntime) {
    for sixteenths in 1..17 {
        let vl = Vl::new(128 * sixteenths).expect(&rt, "a length");
        for &width in &WIDTHS {
            let lanes = vl.lanes(width) as usize;
            let same = dup(width, vl, 0x1_0203_0405_0607);
            let row = index(width, vl, 3, -1);
            let number = width.wrap(0x1_0203_0405_0607);
            for e in 0..width.all_lanes() {
                let found = [same.element(width, e), row.element(width, e)];
                let counted = width.wrap(3u64.wrapping_sub(e as u64));
                let want = if e < lanes { [number, counted] } else { [0, 0] };
                assert!(rt; found == want, "{} bytes, element {e}", width.bytes());
            }
            let two = filled(width, 2);
            let sum = reduce(ReduceOp::UAdd, width, vl, &mask(width, 3), &two);
            assert!(rt; sum == 2 * lanes as u64, "{} bytes", width.bytes());
        }
    }
}

#[test]
fn reductions(rt: HostRuntime) {
    let vl = Vl::new(384).expect(&rt, "a length");
    for &width in &WIDTHS {
        let (low, top) = (least(width), width.max());
        let mut z = filled(width, 1);
        z.put(width, 0, low);
        z.put(width, 1, top);
        for (op, none, one, all) in [
            (ReduceOp::SMax, low, top, 1),
            (ReduceOp::UMax, 0, top, top),
            (ReduceOp::SMin, low - 1, top, low),
            (ReduceOp::UMin, top, top, 1),
            (ReduceOp::Or, 0, top, top),
            (ReduceOp::And, top, top, 0),
        ] {
            let found = [
                reduce(op, width, vl, &mask(width, 0), &z),
                reduce(op, width, vl, &mask(width, 1), &z),
                reduce(op, width, vl, &mask(width, 3), &z),
            ];
            assert!(rt;
                found == [none, one, all],
                "{} bytes: {found:?}",
                width.bytes()
            );
        }
    }
    let bytes = filled(Width::B, 0xff);
    let found = [
        reduce(ReduceOp::UAdd, Width::B, vl, &mask(Width::B, 3), &bytes),
        reduce(ReduceOp::UAdd, Width::B, vl, &mask(Width::B, 2), &bytes),
        reduce(ReduceOp::Xor, Width::B, vl, &mask(Width::B, 1), &bytes),
    ];
    assert!(rt; found == [48 * 255, 32 * 255, 0xff]);
}
