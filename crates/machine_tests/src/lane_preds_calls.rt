use guest_types::length::{Vl, Width};
use guest_types::operation::{LaneCompare, PredOp};
use guest_types::predicate::PReg;
use guest_types::register::ZReg;
use lane_preds::compare::compare;
use lane_preds::logic::{brk, logic};
use lane_preds::make::{all_true, while_lo};
use lane_preds::test::{count, pred_test};

static WIDTHS: [Width; 4] = [Width::B, Width::H, Width::S, Width::D];

fn filled(width: Width, value: u64) -> ZReg {
    let mut z = ZReg::zero();
    for e in 0..width.all_lanes() {
        z.put(width, e, value);
    }
    z
}

fn of_byte(byte: u8) -> PReg {
    let mut p = PReg::none();
    p.bits[0] = byte;
    p
}

fn every_bit() -> PReg {
    PReg { bits: [0xff; 32] }
}

// How many of the lowest bits are those of the first `count` elements, and the others zero.
fn is_prefix(width: Width, p: &PReg, count: usize) -> bool {
    let k = width.bytes();
    let mut same = true;
    for j in 0..256 {
        same &= p.bit(j) == (j % k == 0 && j / k < count);
    }
    same
}

// Two numbers, and how many elements WHILELO gives of them where the vector has so many.
static WHILES: [(u64, u64, usize); 5] = [
    (0, 1, 1),
    (5, 5, 0),
    (6, 5, 0),
    (0, u64::MAX, 256),
    (u64::MAX - 1, u64::MAX, 1),
];

// Whether predicates of all elements have those of a length.
fn are_all(width: Width, vl: Vl) -> bool {
    let lanes = vl.lanes(width) as usize;
    let all = all_true(width, vl);
    let zero = ZReg::zero();
    let same = compare(LaneCompare::Eq, width, vl, &every_bit(), &zero, &zero);
    let counted = count(width, vl, &every_bit(), &every_bit()) as usize;
    let flags = pred_test(width, vl, &every_bit(), &all);
    is_prefix(width, &all, lanes)
        && is_prefix(width, &same, lanes)
        && counted == lanes
        && flags == 8
}

#[test]
fn lengths(rt: HostRuntime) {
    for sixteenths in 1..17 {
        let vl = Vl::new(128 * sixteenths).expect(&rt, "a length");
        for &width in &WIDTHS {
            assert!(rt; are_all(width, vl), "{} bytes", width.bytes());
            for &(from, to, most) in &WHILES {
                let want = most.min(vl.lanes(width) as usize);
                let p = while_lo(width, vl, from, to);
                assert!(rt; is_prefix(width, &p, want), "{from} to {to}");
            }
        }
    }
}

// A comparison of the least signed number and 1: of 1 with it, of it with itself, and of it with 1.
static COMPARISONS: [(LaneCompare, [bool; 3]); 6] = [
    (LaneCompare::Hs, [false, true, true]),
    (LaneCompare::Hi, [false, false, true]),
    (LaneCompare::Ge, [true, true, false]),
    (LaneCompare::Gt, [true, false, false]),
    (LaneCompare::Eq, [false, true, false]),
    (LaneCompare::Ne, [true, false, true]),
];

// Whether a comparison of two numbers is so in each element.
fn is_so(op: LaneCompare, width: Width, vl: Vl, a: u64, b: u64, want: bool) -> bool {
    let (left, right) = (filled(width, a), filled(width, b));
    let p = compare(op, width, vl, &every_bit(), &left, &right);
    let lanes = if want { vl.lanes(width) as usize } else { 0 };
    is_prefix(width, &p, lanes)
}

#[test]
fn comparisons(rt: HostRuntime) {
    let vl = Vl::new(384).expect(&rt, "a length");
    for &width in &WIDTHS {
        let low = width.max() / 2 + 1;
        for &(op, [below, same, above]) in &COMPARISONS {
            let found = [
                is_so(op, width, vl, 1, low, below),
                is_so(op, width, vl, low, low, same),
                is_so(op, width, vl, low, 1, above),
            ];
            assert!(rt; found == [true; 3], "{} bytes: {found:?}", width.bytes());
        }
    }
    let one = filled(Width::H, 1);
    let ragged = of_byte(0b0101_0001);
    let p = compare(LaneCompare::Eq, Width::H, vl, &ragged, &one, &one);
    assert!(rt; [p.bits[0], p.bits[1]] == [0b0101_0001, 0]);
}

static OPERATIONS: [(PredOp, u8); 4] = [
    (PredOp::And, 0b0000_1000),
    (PredOp::Bic, 0b0100_0100),
    (PredOp::Eor, 0b0110_0110),
    (PredOp::Orr, 0b0110_1110),
];

// Whether BRKA or BRKB, their predicate and their result.
static BREAKS: [(bool, u8, u8); 4] = [
    (true, 0b1001_0001, 0b0001_1110),
    (false, 0b1001_0001, 0b0000_1110),
    (true, 0b1000_0001, 0b0111_1110),
    (false, 0b0000_0010, 0),
];

#[test]
fn bits(rt: HostRuntime) {
    let pg = of_byte(0b0111_1110);
    let left = of_byte(0b1100_1100);
    let right = of_byte(0b1010_1010);
    for &(op, want) in &OPERATIONS {
        assert!(rt; logic(op, &pg, &left, &right).bits[0] == want, "{want:b}");
    }
    for &(after, p, want) in &BREAKS {
        assert!(rt; brk(after, &pg, &of_byte(p)).bits[0] == want, "{p:b}");
    }
}

// A mask, an outcome, and the flags of a test: N at 8, Z at 4, C at 2.
static TESTS: [(u8, u8, u8); 5] = [
    (0, 0xff, 0b0110),
    (0b0001_0001, 0b0000_0001, 0b1010),
    (0b0001_0001, 0b0001_0000, 0b0000),
    (0b0001_0001, 0b1110_1110, 0b0110),
    (0b0001_0001, 0b0001_0001, 0b1000),
];

#[test]
fn flags(rt: HostRuntime) {
    let vl = Vl::new(128).expect(&rt, "a length");
    for &(mask, outcome, want) in &TESTS {
        let (mask, outcome) = (of_byte(mask), of_byte(outcome));
        let none = count(Width::S, vl, &mask, &outcome) == 0;
        let flags = pred_test(Width::S, vl, &mask, &outcome);
        assert!(rt; flags == want && none == (want & 4 != 0), "{want:b}");
    }
}
