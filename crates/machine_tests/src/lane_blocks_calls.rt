use guest_types::length::{Vl, Width};
use guest_types::predicate::PReg;
use guest_types::register::ZReg;
use lane_blocks::block::{
    block_at, block_lanes, blocks_of, clear_above, put_block, register_bytes, used_blocks,
};
use lane_blocks::mask::{below, bits_below, choose_block, mask_at, nonzero_bits, put_mask, spread};
use std::simd::prelude::*;

// The bits of a length, its bytes, and the blocks that it uses.
static LENGTHS: [(u32, usize, usize); 4] = [
    (128, 16, 1),
    (256, 32, 1),
    (384, 48, 2),
    (2048, 256, 8),
];

#[test]
fn blocks(rt: HostRuntime) {
    let mut z = ZReg::zero();
    put_block(&mut z, 1, u8x32::splat(7));
    let put = [z.bytes[31], z.bytes[32], block_at(&z, 1).to_array()[31]];
    clear_above(&mut z, 40);
    assert!(rt; put == [0, 7, 7] && [z.bytes[39], z.bytes[40]] == [7, 0]);
    assert!(rt; blocks_of(&z) == 8 && block_lanes(Width::H) == 16);
    for &(bits, bytes, blocks) in &LENGTHS {
        let vl = Vl::new(bits).expect(&rt, "a length");
        assert!(rt;
            [register_bytes(vl), used_blocks(vl)] == [bytes, blocks],
            "{bits} bits"
        );
    }
}

#[test]
fn masks(rt: HostRuntime) {
    let mut p = PReg::none();
    put_mask(&mut p, 2, [1, 0, 0, 0x80]);
    let bytes = spread(u8x4::from_array([1, 0, 0, 0x80]));
    let spread = bytes.to_array();
    let found = [
        p.bits[8],
        mask_at(&p, 2).to_array()[3],
        spread[0],
        spread[30],
        spread[31],
        nonzero_bits(bytes)[3],
    ];
    assert!(rt; found == [1, 0x80, 1, 0, 1, 0x80]);
    let element = u8x4::from_array([0x10, 0, 0, 0]);
    let chosen = choose_block(Width::S, element, u8x32::splat(1), u8x32::splat(2)).to_array();
    assert!(rt; [chosen[3], chosen[4], chosen[8]] == [2, 1, 2]);
    let low = below(12).to_array();
    let most = bits_below(&PReg { bits: [0xff; 32] }, 255);
    assert!(rt; [low[0], low[1], most.bits[31]] == [0xff, 0x0f, 0x7f]);
}
