//! Instructions as llvm-mc encodes their assembly text, which stands beside each.

use guest_types::length::Width;
use kernel_tree::{Ty, UpdateOp};
use lane_emit::update_word;
use reductions::{reduce_word, start_word};
use sve_code::encode;
use word_rows::Bits;

#[test]
fn starts(rt: HostRuntime) {
    // dup z3.s, w7
    let word = start_word(Width::S, Bits { number: 3 }, Bits { number: 7 });
    // dup z31.d, x28
    let last = start_word(Width::D, Bits { number: 31 }, Bits { number: 28 });
    assert!(rt; [encode(word), encode(last)] == [0x05a0_38e3, 0x05e0_3b9f]);
}

// A width, an operator and a type, with the word that updates a lane and the one that reduces them.
static LISTED: [(Width, UpdateOp, Ty, u32, u32); 8] = [
    // add z3.s, p2/m, z3.s, z1.s; uaddv d5, p1, z3.s
    (Width::S, UpdateOp::Add, Ty::I32, 0x0480_0823, 0x0481_2465),
    // and z3.d, p2/m, z3.d, z1.d; andv d5, p1, z3.d
    (Width::D, UpdateOp::And, Ty::U64, 0x04da_0823, 0x04da_2465),
    // orr z3.h, p2/m, z3.h, z1.h; orv h5, p1, z3.h
    (Width::H, UpdateOp::Or, Ty::U8, 0x0458_0823, 0x0458_2465),
    // eor z3.b, p2/m, z3.b, z1.b; eorv b5, p1, z3.b
    (Width::B, UpdateOp::Xor, Ty::I8, 0x0419_0823, 0x0419_2465),
    // smin z3.s, p2/m, z3.s, z1.s; sminv s5, p1, z3.s
    (Width::S, UpdateOp::Min, Ty::I16, 0x048a_0823, 0x048a_2465),
    // umin z3.s, p2/m, z3.s, z1.s; uminv s5, p1, z3.s
    (Width::S, UpdateOp::Min, Ty::U32, 0x048b_0823, 0x048b_2465),
    // smax z3.d, p2/m, z3.d, z1.d; smaxv d5, p1, z3.d
    (Width::D, UpdateOp::Max, Ty::I64, 0x04c8_0823, 0x04c8_2465),
    // umax z3.h, p2/m, z3.h, z1.h; umaxv h5, p1, z3.h
    (Width::H, UpdateOp::Max, Ty::U16, 0x0449_0823, 0x0449_2465),
];

#[test]
fn updates_and_reductions(rt: HostRuntime) {
    let acc = Bits { number: 3 };
    for &(width, op, ty, update, reduction) in &LISTED {
        let updated = update_word(width, op, ty, acc, Bits { number: 2 }, Bits { number: 1 });
        let reduced = reduce_word(width, op, ty, Bits { number: 5 }, acc);
        assert!(rt;
            [encode(updated), encode(reduced)] == [update, reduction],
            "{update:x}"
        );
    }
}
