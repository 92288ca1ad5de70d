//! Operations of two registers, element by element.

ghost use Rattle.std.specs.Prelude.{◌≡◌};
ghost use Rattle.guest_types.specs.Lanes.{binary_of};
ghost use Rattle.lane_arith.specs.Blocks.{binary_block_of};

use guest_types::length::Width;
use guest_types::operation::LaneOp;
use guest_types::register::ZReg;
use lane_blocks::block::{block_at, blocks_of, put_block};
use std::simd::prelude::*;

// An operation of two vectors, `$half` being the least number whose top bit is set.
macro_rules! operate {
    ($op:expr, $a:expr, $b:expr, $vector:ident, $half:expr) => {
        match $op {
            LaneOp::Add => $a + $b,
            LaneOp::Sub => $a - $b,
            LaneOp::Mul => $a * $b,
            LaneOp::And => $a & $b,
            LaneOp::Or => $a | $b,
            LaneOp::Xor => $a ^ $b,
            LaneOp::Bic => $a & !$b,
            LaneOp::SMin => {
                let half = $vector::splat($half);
                ($a + half).simd_lt($b + half).select($a, $b)
            }
            LaneOp::SMax => {
                let half = $vector::splat($half);
                ($a + half).simd_lt($b + half).select($b, $a)
            }
            LaneOp::UMin => $a.simd_min($b),
            LaneOp::UMax => $a.simd_max($b),
        }
    };
}

#[inline(always)]
fn binary_8(op: LaneOp, a: u8x32, b: u8x32) -> u8x32
    ensures { result ≡ binary_block_of op Width.B a b }
{
    operate!(op, a, b, u8x32, 0x80)
}

#[inline(always)]
fn binary_16(op: LaneOp, a: u8x32, b: u8x32) -> u8x32
    ensures { result ≡ binary_block_of op Width.H a b }
{
    let a = u16x16::from_le_bytes(a);
    let b = u16x16::from_le_bytes(b);
    let outcome = operate!(op, a, b, u16x16, 0x8000);
    outcome.to_le_bytes()
}

#[inline(always)]
fn binary_32(op: LaneOp, a: u8x32, b: u8x32) -> u8x32
    ensures { result ≡ binary_block_of op Width.S a b }
{
    let a = u32x8::from_le_bytes(a);
    let b = u32x8::from_le_bytes(b);
    let outcome = operate!(op, a, b, u32x8, 0x8000_0000);
    outcome.to_le_bytes()
}

#[inline(always)]
fn binary_64(op: LaneOp, a: u8x32, b: u8x32) -> u8x32
    ensures { result ≡ binary_block_of op Width.D a b }
{
    let a = u64x4::from_le_bytes(a);
    let b = u64x4::from_le_bytes(b);
    let outcome = operate!(op, a, b, u64x4, 0x8000_0000_0000_0000);
    outcome.to_le_bytes()
}

/// The operation of two blocks.
#[inline(always)]
pub(crate) fn binary_block(op: LaneOp, width: Width, a: u8x32, b: u8x32) -> u8x32
    ensures { result ≡ binary_block_of op width a b }
{
    match width {
        Width::B => binary_8(op, a, b),
        Width::H => binary_16(op, a, b),
        Width::S => binary_32(op, a, b),
        Width::D => binary_64(op, a, b),
    }
}

#[inline(always)]
fn each_block(op: LaneOp, width: Width, left: &ZReg, right: &ZReg) -> ZReg
    ensures { result.bytes ≡ binary_of op width left.now.bytes right.now.bytes }
{
    let mut out = ZReg::zero();
    for i in 0..blocks_of(&out) {
        let block = binary_block(op, width, block_at(left, i), block_at(right, i));
        put_block(&mut out, i, block);
    }
    out
}

// The operation is chosen before the loop, so that each has a loop of its own.
#[inline(always)]
fn by_operation(op: LaneOp, width: Width, left: &ZReg, right: &ZReg) -> ZReg
    ensures { result.bytes ≡ binary_of op width left.now.bytes right.now.bytes }
{
    match op {
        LaneOp::Add => each_block(LaneOp::Add, width, left, right),
        LaneOp::Sub => each_block(LaneOp::Sub, width, left, right),
        LaneOp::Mul => each_block(LaneOp::Mul, width, left, right),
        LaneOp::And => each_block(LaneOp::And, width, left, right),
        LaneOp::Or => each_block(LaneOp::Or, width, left, right),
        LaneOp::Xor => each_block(LaneOp::Xor, width, left, right),
        LaneOp::Bic => each_block(LaneOp::Bic, width, left, right),
        LaneOp::SMin => each_block(LaneOp::SMin, width, left, right),
        LaneOp::SMax => each_block(LaneOp::SMax, width, left, right),
        LaneOp::UMin => each_block(LaneOp::UMin, width, left, right),
        LaneOp::UMax => each_block(LaneOp::UMax, width, left, right),
    }
}

/// The operation at each element of two registers (Arm DDI 0584: ADD, SUB, AND, ORR, EOR and BIC,
/// vectors, unpredicated). All 256 bytes are written.
pub fn binary(op: LaneOp, width: Width, left: &ZReg, right: &ZReg) -> ZReg
    ensures { result.bytes ≡ binary_of op width left.now.bytes right.now.bytes }
{
    match width {
        Width::B => by_operation(op, Width::B, left, right),
        Width::H => by_operation(op, Width::H, left, right),
        Width::S => by_operation(op, Width::S, left, right),
        Width::D => by_operation(op, Width::D, left, right),
    }
}
