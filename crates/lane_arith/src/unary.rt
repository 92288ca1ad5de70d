//! Operations of one operand under a predicate.

ghost use Rattle.std.specs.Prelude.{◌≡◌, ◌<◌};
ghost use Rattle.guest_types.specs.Length.{width_bits};
ghost use Rattle.guest_types.specs.Lanes.{source_bits, merge_one_of};
ghost use Rattle.lane_arith.specs.Blocks.{unary_block_of, merge_one_block_of};

use guest_types::length::Width;
use guest_types::operation::LaneUnary;
use guest_types::predicate::PReg;
use guest_types::register::ZReg;
use lane_blocks::block::{block_at, blocks_of, put_block};
use lane_blocks::mask::{choose_block, mask_at};
use std::simd::prelude::*;

// The elements without their signs, `$half` being the least number whose top bit is set.
macro_rules! absolute {
    ($a:expr, $vector:ident, $half:expr) => {
        $a.simd_lt($vector::splat($half))
            .select($a, $vector::splat(0) - $a)
    };
}

// The bits of `$low` as signed numbers: those from `$half` on are negative, which `$high` makes of them.
macro_rules! extend {
    ($a:expr, $vector:ident, $low:expr, $half:expr, $high:expr) => {{
        let low = $a & $vector::splat($low);
        low.simd_lt($vector::splat($half))
            .select(low, low + $vector::splat($high))
    }};
}

#[inline(always)]
fn unary_8(op: LaneUnary, a: u8x32) -> u8x32
    requires { source_bits op < 8 }
    ensures { result ≡ unary_block_of op Width.B a }
{
    match op {
        LaneUnary::Abs => absolute!(a, u8x32, 0x80),
        LaneUnary::Neg => u8x32::splat(0) - a,
        LaneUnary::Not => !a,
        LaneUnary::SxtB => a,
        LaneUnary::UxtB => a,
        LaneUnary::SxtH => a,
        LaneUnary::UxtH => a,
        LaneUnary::SxtW => a,
        LaneUnary::UxtW => a,
    }
}

#[inline(always)]
fn unary_16(op: LaneUnary, a: u8x32) -> u8x32
    requires { source_bits op < 16 }
    ensures { result ≡ unary_block_of op Width.H a }
{
    let a = u16x16::from_le_bytes(a);
    let outcome = match op {
        LaneUnary::Abs => absolute!(a, u16x16, 0x8000),
        LaneUnary::Neg => u16x16::splat(0) - a,
        LaneUnary::Not => !a,
        LaneUnary::SxtB => extend!(a, u16x16, 0xFF, 0x80, 0xFF00),
        LaneUnary::UxtB => a & u16x16::splat(0xFF),
        LaneUnary::SxtH => a,
        LaneUnary::UxtH => a,
        LaneUnary::SxtW => a,
        LaneUnary::UxtW => a,
    };
    outcome.to_le_bytes()
}

#[inline(always)]
fn unary_32(op: LaneUnary, a: u8x32) -> u8x32
    requires { source_bits op < 32 }
    ensures { result ≡ unary_block_of op Width.S a }
{
    let a = u32x8::from_le_bytes(a);
    let outcome = match op {
        LaneUnary::Abs => absolute!(a, u32x8, 0x8000_0000),
        LaneUnary::Neg => u32x8::splat(0) - a,
        LaneUnary::Not => !a,
        LaneUnary::SxtB => extend!(a, u32x8, 0xFF, 0x80, 0xFFFF_FF00),
        LaneUnary::UxtB => a & u32x8::splat(0xFF),
        LaneUnary::SxtH => extend!(a, u32x8, 0xFFFF, 0x8000, 0xFFFF_0000),
        LaneUnary::UxtH => a & u32x8::splat(0xFFFF),
        LaneUnary::SxtW => a,
        LaneUnary::UxtW => a,
    };
    outcome.to_le_bytes()
}

#[inline(always)]
fn unary_64(op: LaneUnary, a: u8x32) -> u8x32
    requires { source_bits op < 64 }
    ensures { result ≡ unary_block_of op Width.D a }
{
    let a = u64x4::from_le_bytes(a);
    let outcome = match op {
        LaneUnary::Abs => absolute!(a, u64x4, 0x8000_0000_0000_0000),
        LaneUnary::Neg => u64x4::splat(0) - a,
        LaneUnary::Not => !a,
        LaneUnary::SxtB => extend!(a, u64x4, 0xFF, 0x80, 0xFFFF_FFFF_FFFF_FF00),
        LaneUnary::UxtB => a & u64x4::splat(0xFF),
        LaneUnary::SxtH => extend!(a, u64x4, 0xFFFF, 0x8000, 0xFFFF_FFFF_FFFF_0000),
        LaneUnary::UxtH => a & u64x4::splat(0xFFFF),
        LaneUnary::SxtW => extend!(a, u64x4, 0xFFFF_FFFF, 0x8000_0000, 0xFFFF_FFFF_0000_0000),
        LaneUnary::UxtW => a & u64x4::splat(0xFFFF_FFFF),
    };
    outcome.to_le_bytes()
}

#[inline(always)]
fn unary_block(op: LaneUnary, width: Width, a: u8x32) -> u8x32
    requires { source_bits op < width_bits width }
    ensures { result ≡ unary_block_of op width a }
{
    match width {
        Width::B => unary_8(op, a),
        Width::H => unary_16(op, a),
        Width::S => unary_32(op, a),
        Width::D => unary_64(op, a),
    }
}

#[inline(always)]
pub(crate) fn merge_block(op: LaneUnary, width: Width, p: u8x4, old: u8x32, a: u8x32) -> u8x32
    requires { source_bits op < width_bits width }
    ensures { result ≡ merge_one_block_of op width p old a }
{
    choose_block(width, p, unary_block(op, width, a), old)
}

#[inline(always)]
fn each_merged(op: LaneUnary, width: Width, pg: &PReg, old: &ZReg, z: &ZReg) -> ZReg
    requires { source_bits op < width_bits width }
    ensures { result.bytes ≡ merge_one_of op width pg.now.bits old.now.bytes z.now.bytes }
{
    let mut out = ZReg::zero();
    for i in 0..blocks_of(&out) {
        let p = mask_at(pg, i);
        let block = merge_block(op, width, p, block_at(old, i), block_at(z, i));
        put_block(&mut out, i, block);
    }
    out
}

// The operation is chosen before the loop, so that each has a loop of its own.
#[inline(always)]
fn by_operation(op: LaneUnary, width: Width, pg: &PReg, old: &ZReg, z: &ZReg) -> ZReg
    requires { source_bits op < width_bits width }
    ensures { result.bytes ≡ merge_one_of op width pg.now.bits old.now.bytes z.now.bytes }
{
    match op {
        LaneUnary::Abs => each_merged(LaneUnary::Abs, width, pg, old, z),
        LaneUnary::Neg => each_merged(LaneUnary::Neg, width, pg, old, z),
        LaneUnary::Not => each_merged(LaneUnary::Not, width, pg, old, z),
        LaneUnary::SxtB => each_merged(LaneUnary::SxtB, width, pg, old, z),
        LaneUnary::UxtB => each_merged(LaneUnary::UxtB, width, pg, old, z),
        LaneUnary::SxtH => each_merged(LaneUnary::SxtH, width, pg, old, z),
        LaneUnary::UxtH => each_merged(LaneUnary::UxtH, width, pg, old, z),
        LaneUnary::SxtW => each_merged(LaneUnary::SxtW, width, pg, old, z),
        LaneUnary::UxtW => each_merged(LaneUnary::UxtW, width, pg, old, z),
    }
}

/// The operation at each active element of `z`, and the element of `old` elsewhere (Arm DDI 0584:
/// ABS, NEG, NOT, SXTB, UXTB, SXTH, UXTH, SXTW and UXTW, vectors). All 256 bytes are written.
pub fn merge_one(op: LaneUnary, width: Width, pg: &PReg, old: &ZReg, z: &ZReg) -> ZReg
    requires narrower { source_bits op < width_bits width }
    ensures { result.bytes ≡ merge_one_of op width pg.now.bits old.now.bytes z.now.bytes }
{
    match width {
        Width::B => by_operation(op, Width::B, pg, old, z),
        Width::H => by_operation(op, Width::H, pg, old, z),
        Width::S => by_operation(op, Width::S, pg, old, z),
        Width::D => by_operation(op, Width::D, pg, old, z),
    }
}
