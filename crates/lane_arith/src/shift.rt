//! Shifts of a register by a fixed count.

ghost use Rattle.std.specs.Prelude.{◌≡◌};
ghost use Rattle.guest_types.specs.Lanes.{ShiftFits, shift_of};
ghost use Rattle.lane_arith.specs.Blocks.{shift_block_of};

use guest_types::length::Width;
use guest_types::operation::{ShiftOp, shifted_down};
use guest_types::register::ZReg;
use lane_blocks::block::{block_at, blocks_of, put_block};
use std::simd::prelude::*;

// A shift of a vector. A count may be as great as the width, so a shift down is made in two steps.
macro_rules! shift_by {
    ($op:expr, $a:expr, $count:expr, $vector:ident, $lane:ident, $width:expr, $half:expr) => {
        match $op {
            ShiftOp::Lsl => $a << $vector::splat($count as $lane),
            ShiftOp::Lsr => {
                let most = $vector::splat(($count - 1) as $lane);
                ($a >> most) >> $vector::splat(1)
            }
            ShiftOp::Asr => {
                let most = $vector::splat(($count - 1) as $lane);
                let low = ($a >> most) >> $vector::splat(1);
                let top = $width.max();
                let ones = (top - shifted_down(top, $count)) as $lane;
                let positive = $a.simd_lt($vector::splat($half));
                low + positive.select($vector::splat(0), $vector::splat(ones))
            }
        }
    };
}

#[inline(always)]
fn shift_8(op: ShiftOp, a: u8x32, count: u32) -> u8x32
    requires { ShiftFits op Width.B count }
    ensures { result ≡ shift_block_of op Width.B a count }
{
    shift_by!(op, a, count, u8x32, u8, Width::B, 0x80)
}

#[inline(always)]
fn shift_16(op: ShiftOp, a: u8x32, count: u32) -> u8x32
    requires { ShiftFits op Width.H count }
    ensures { result ≡ shift_block_of op Width.H a count }
{
    let a = u16x16::from_le_bytes(a);
    let outcome = shift_by!(op, a, count, u16x16, u16, Width::H, 0x8000);
    outcome.to_le_bytes()
}

#[inline(always)]
fn shift_32(op: ShiftOp, a: u8x32, count: u32) -> u8x32
    requires { ShiftFits op Width.S count }
    ensures { result ≡ shift_block_of op Width.S a count }
{
    let a = u32x8::from_le_bytes(a);
    let outcome = shift_by!(op, a, count, u32x8, u32, Width::S, 0x8000_0000);
    outcome.to_le_bytes()
}

#[inline(always)]
fn shift_64(op: ShiftOp, a: u8x32, count: u32) -> u8x32
    requires { ShiftFits op Width.D count }
    ensures { result ≡ shift_block_of op Width.D a count }
{
    let a = u64x4::from_le_bytes(a);
    let outcome = shift_by!(op, a, count, u64x4, u64, Width::D, 0x8000_0000_0000_0000);
    outcome.to_le_bytes()
}

#[inline(always)]
pub(crate) fn shift_block(op: ShiftOp, width: Width, a: u8x32, count: u32) -> u8x32
    requires { ShiftFits op width count }
    ensures { result ≡ shift_block_of op width a count }
{
    match width {
        Width::B => shift_8(op, a, count),
        Width::H => shift_16(op, a, count),
        Width::S => shift_32(op, a, count),
        Width::D => shift_64(op, a, count),
    }
}

#[inline(always)]
fn each_shifted(op: ShiftOp, width: Width, z: &ZReg, count: u32) -> ZReg
    requires { ShiftFits op width count }
    ensures { result.bytes ≡ shift_of op width z.now.bytes count }
{
    let mut out = ZReg::zero();
    for i in 0..blocks_of(&out) {
        let block = shift_block(op, width, block_at(z, i), count);
        put_block(&mut out, i, block);
    }
    out
}

// The operation is chosen before the loop, so that each has a loop of its own.
#[inline(always)]
fn by_operation(op: ShiftOp, width: Width, z: &ZReg, count: u32) -> ZReg
    requires { ShiftFits op width count }
    ensures { result.bytes ≡ shift_of op width z.now.bytes count }
{
    match op {
        ShiftOp::Lsl => each_shifted(ShiftOp::Lsl, width, z, count),
        ShiftOp::Lsr => each_shifted(ShiftOp::Lsr, width, z, count),
        ShiftOp::Asr => each_shifted(ShiftOp::Asr, width, z, count),
    }
}

/// Each element shifted by `count` bits (Arm DDI 0584: LSL, LSR and ASR, immediate,
/// unpredicated). All 256 bytes are written.
pub fn shift(op: ShiftOp, width: Width, z: &ZReg, count: u32) -> ZReg
    requires { ShiftFits op width count }
    ensures { result.bytes ≡ shift_of op width z.now.bytes count }
{
    match width {
        Width::B => by_operation(op, Width::B, z, count),
        Width::H => by_operation(op, Width::H, z, count),
        Width::S => by_operation(op, Width::S, z, count),
        Width::D => by_operation(op, Width::D, z, count),
    }
}
