//! Reductions of the active elements of a register to one number.

ghost use Rattle.std.specs.Prelude.{◌≡◌, ◌≤◌, ℕ};
ghost use Rattle.guest_types.specs.Length.{lanes, width_bytes};
ghost use Rattle.guest_types.specs.Lanes.{lane, joined, fold_limit, reduce_of};
ghost use Rattle.lane_arith.specs.Blocks.{block_fold, bytes_fold, sum_step_of, fold_step_of};
ghost use Rattle.guest_types.specs.declared.operation.ReduceOp.TheVariants.{UAdd};

use crate::binary::binary_block;
use crate::fill::dup_block;
use guest_types::length::{Vl, Width};
use guest_types::operation::{LaneOp, ReduceOp};
use guest_types::predicate::PReg;
use guest_types::register::ZReg;
use lane_blocks::block::{block_at, register_bytes, used_blocks_of};
use lane_blocks::mask::{bits_below, choose_block, mask_at};
use std::simd::prelude::*;

// The sum of the elements of a block, which are widened before they are added.
#[inline(always)]
fn block_sum(width: Width, x: u8x32) -> u64
    ensures { result ≡ block_fold UAdd width x }
{
    match width {
        Width::B => x.cast::<u64>().reduce_sum(),
        Width::H => u16x16::from_le_bytes(x).cast::<u64>().reduce_sum(),
        Width::S => u32x8::from_le_bytes(x).cast::<u64>().reduce_sum(),
        Width::D => u64x4::from_le_bytes(x).reduce_sum(),
    }
}

// The sum of the elements of a block at which the mask is true, and of those of `zero` elsewhere.
#[inline(always)]
fn sum_step(width: Width, p: u8x4, x: u8x32, zero: u8x32) -> u64
    ensures { result ≡ sum_step_of width p x zero }
{
    block_sum(width, choose_block(width, p, x, zero))
}

// UADDV: one sum, to which that of each block is added.
#[inline(always)]
fn sum(width: Width, vl: Vl, pg: &PReg, z: &ZReg) -> u64
    ensures { result ≡ reduce_of UAdd width (lanes vl width) pg.now.bits z.now.bytes }
{
    let used = bits_below(pg, register_bytes(vl));
    let zero = dup_block(width, 0);
    let mut total: u64 = 0;
    for i in 0..used_blocks_of(z, vl) {
        let p = mask_at(&used, i);
        total = total.wrapping_add(sum_step(width, p, block_at(z, i), zero));
    }
    total
}

// The elements of the first 16 bytes of a block, each joined with the one 16 bytes above it, fold to
// what all do. Here and in the next five functions `op` stands for the contract alone: it says which
// fold is meant, and `join` does it.
#[inline(always)]
fn half_16(op: ReduceOp, join: LaneOp, width: Width, x: u8x32) -> u8x32
    requires lanes { (m a b : ℕ) → joined op m a b ≡ lane join m a b }
    requires element { (m : ℕ) → fold_limit op m ≡ m }
    ensures { bytes_fold op width 16 result ≡ bytes_fold op width 32 x }
{
    binary_block(join, width, x, x.rotate_elements_left::<16>())
}

// The same of the first 8 bytes and the next 8.
#[inline(always)]
fn half_8(op: ReduceOp, join: LaneOp, width: Width, x: u8x32) -> u8x32
    requires lanes { (m a b : ℕ) → joined op m a b ≡ lane join m a b }
    requires element { (m : ℕ) → fold_limit op m ≡ m }
    ensures { bytes_fold op width 8 result ≡ bytes_fold op width 16 x }
{
    binary_block(join, width, x, x.rotate_elements_left::<8>())
}

// The same of 4 bytes.
#[inline(always)]
fn half_4(op: ReduceOp, join: LaneOp, width: Width, x: u8x32) -> u8x32
    requires lanes { (m a b : ℕ) → joined op m a b ≡ lane join m a b }
    requires element { (m : ℕ) → fold_limit op m ≡ m }
    requires narrow { width_bytes width ≤ 4 }
    ensures { bytes_fold op width 4 result ≡ bytes_fold op width 8 x }
{
    binary_block(join, width, x, x.rotate_elements_left::<4>())
}

// The same of 2 bytes.
#[inline(always)]
fn half_2(op: ReduceOp, join: LaneOp, width: Width, x: u8x32) -> u8x32
    requires lanes { (m a b : ℕ) → joined op m a b ≡ lane join m a b }
    requires element { (m : ℕ) → fold_limit op m ≡ m }
    requires narrow { width_bytes width ≤ 2 }
    ensures { bytes_fold op width 2 result ≡ bytes_fold op width 4 x }
{
    binary_block(join, width, x, x.rotate_elements_left::<2>())
}

// The same of one byte.
#[inline(always)]
fn half_1(op: ReduceOp, join: LaneOp, x: u8x32) -> u8x32
    requires lanes { (m a b : ℕ) → joined op m a b ≡ lane join m a b }
    requires element { (m : ℕ) → fold_limit op m ≡ m }
    ensures { bytes_fold op Width.B 1 result ≡ bytes_fold op Width.B 2 x }
{
    binary_block(join, Width::B, x, x.rotate_elements_left::<1>())
}

// The first element of a block, which is the fold of itself alone, whatever the operation.
#[inline(always)]
fn first_element(op: ReduceOp, width: Width, x: u8x32) -> u64
    ensures { result ≡ bytes_fold op width (width_bytes width) x }
{
    match width {
        Width::B => x.to_array()[0] as u64,
        Width::H => u16x16::from_le_bytes(x).to_array()[0] as u64,
        Width::S => u32x8::from_le_bytes(x).to_array()[0] as u64,
        Width::D => u64x4::from_le_bytes(x).to_array()[0],
    }
}

// The fold of the elements of one block, by halves down to one element.
#[inline(always)]
fn fold_block(op: ReduceOp, join: LaneOp, width: Width, x: u8x32) -> u64
    requires lanes { (m a b : ℕ) → joined op m a b ≡ lane join m a b }
    requires element { (m : ℕ) → fold_limit op m ≡ m }
    ensures { result ≡ block_fold op width x }
{
    let x = half_8(op, join, width, half_16(op, join, width, x));
    match width {
        Width::B => {
            let x = half_2(op, join, Width::B, half_4(op, join, Width::B, x));
            first_element(op, Width::B, half_1(op, join, x))
        }
        Width::H => {
            let x = half_2(op, join, Width::H, half_4(op, join, Width::H, x));
            first_element(op, Width::H, x)
        }
        Width::S => first_element(op, Width::S, half_4(op, join, Width::S, x)),
        Width::D => first_element(op, Width::D, x),
    }
}

// Partial results joined with the elements of a block at which the mask is true, and with those of
// `start` elsewhere.
#[inline(always)]
fn fold_step(join: LaneOp, width: Width, p: u8x4, partial: u8x32, x: u8x32, start: u8x32) -> u8x32
    ensures { result ≡ fold_step_of join width p partial x start }
{
    binary_block(join, width, partial, choose_block(width, p, x, start))
}

// One block of partial results, from the identity on, and their fold at the end.
#[inline(always)]
fn fold(op: ReduceOp, join: LaneOp, width: Width, vl: Vl, pg: &PReg, z: &ZReg) -> u64
    requires lanes { (m a b : ℕ) → joined op m a b ≡ lane join m a b }
    requires element { (m : ℕ) → fold_limit op m ≡ m }
    ensures { result ≡ reduce_of op width (lanes vl width) pg.now.bits z.now.bytes }
{
    let used = bits_below(pg, register_bytes(vl));
    let start = dup_block(width, op.identity(width));
    let mut partial = start;
    for i in 0..used_blocks_of(z, vl) {
        let p = mask_at(&used, i);
        partial = fold_step(join, width, p, partial, block_at(z, i), start);
    }
    fold_block(op, join, width, partial)
}

// The operation is chosen before the loop, so that each has a loop of its own.
#[inline(always)]
fn by_operation(op: ReduceOp, width: Width, vl: Vl, pg: &PReg, z: &ZReg) -> u64
    ensures { result ≡ reduce_of op width (lanes vl width) pg.now.bits z.now.bytes }
{
    match op {
        ReduceOp::UAdd => sum(width, vl, pg, z),
        ReduceOp::SMax => fold(ReduceOp::SMax, LaneOp::SMax, width, vl, pg, z),
        ReduceOp::UMax => fold(ReduceOp::UMax, LaneOp::UMax, width, vl, pg, z),
        ReduceOp::SMin => fold(ReduceOp::SMin, LaneOp::SMin, width, vl, pg, z),
        ReduceOp::UMin => fold(ReduceOp::UMin, LaneOp::UMin, width, vl, pg, z),
        ReduceOp::Or => fold(ReduceOp::Or, LaneOp::Or, width, vl, pg, z),
        ReduceOp::Xor => fold(ReduceOp::Xor, LaneOp::Xor, width, vl, pg, z),
        ReduceOp::And => fold(ReduceOp::And, LaneOp::And, width, vl, pg, z),
    }
}

/// The fold of the active elements of a register of the length, from the operation's identity on
/// (Arm DDI 0584: UADDV, SMAXV, UMAXV, SMINV, UMINV, ORV, EORV and ANDV). UADDV adds in 64 bits.
pub fn reduce(op: ReduceOp, width: Width, vl: Vl, pg: &PReg, z: &ZReg) -> u64
    ensures { result ≡ reduce_of op width (lanes vl width) pg.now.bits z.now.bytes }
{
    match width {
        Width::B => by_operation(op, Width::B, vl, pg, z),
        Width::H => by_operation(op, Width::H, vl, pg, z),
        Width::S => by_operation(op, Width::S, vl, pg, z),
        Width::D => by_operation(op, Width::D, vl, pg, z),
    }
}
