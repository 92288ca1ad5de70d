//! Registers that are made from numbers.

ghost use Rattle.std.specs.Prelude.{◌≡◌, ◌+◌, ◌*◌, ◌%◌, ◌^◌, ◌<◌};
ghost use Rattle.std.specs.Int.{Width as Bits, w64, cast_unsigned};
ghost use Rattle.guest_types.specs.Length.{lanes};
ghost use Rattle.guest_types.specs.Lanes.{dup_of, index_of};
ghost use Rattle.lane_blocks.specs.Blocks.{block_lanes};
ghost use Rattle.lane_arith.specs.Blocks.{dup_block_of, index_block_of};

use guest_types::length::{Vl, Width};
use guest_types::register::ZReg;
use lane_blocks::block::{block_lanes, clear_above, put_block, register_bytes, used_blocks};
use std::simd::prelude::*;

/// A block of which every element is the number.
#[inline(always)]
pub(crate) fn dup_block(width: Width, value: u64) -> u8x32
    ensures { result ≡ dup_block_of width value }
{
    match width {
        Width::B => u8x32::splat((value & 0xff) as u8),
        Width::H => u16x16::splat((value & 0xffff) as u16).to_le_bytes(),
        Width::S => u32x8::splat((value & 0xffff_ffff) as u32).to_le_bytes(),
        Width::D => u64x4::splat(value).to_le_bytes(),
    }
}

/// `dup` into a register that is there.
pub fn dup_into(width: Width, vl: Vl, value: u64, out: &mut ZReg)
    ensures { out.new.bytes ≡ dup_of width (lanes vl width) value }
{
    let block = dup_block(width, value);
    for i in 0..used_blocks(vl) {
        put_block(out, i, block);
    }
    clear_above(out, register_bytes(vl));
}

/// A register of the length of which every element is the lowest bits of the number (Arm DDI 0584:
/// DUP, scalar). Past the length it is zero.
pub fn dup(width: Width, vl: Vl, value: u64) -> ZReg
    ensures { result.bytes ≡ dup_of width (lanes vl width) value }
{
    let mut out = ZReg::zero();
    dup_into(width, vl, value, &mut out);
    out
}

#[inline(always)]
fn index_8(from: u64, by: u64) -> u8x32
    ensures { result ≡ index_block_of Width.B from by }
{
    let places = u8x32::from_array([
        0, 1, 2, 3, 4, 5, 6, 7, 8, 9, 10, 11, 12, 13, 14, 15, 16, 17, 18, 19, 20, 21, 22, 23, 24,
        25, 26, 27, 28, 29, 30, 31,
    ]);
    places * u8x32::splat((by & 0xff) as u8) + u8x32::splat((from & 0xff) as u8)
}

#[inline(always)]
fn index_16(from: u64, by: u64) -> u8x32
    ensures { result ≡ index_block_of Width.H from by }
{
    let places = u16x16::from_array([0, 1, 2, 3, 4, 5, 6, 7, 8, 9, 10, 11, 12, 13, 14, 15]);
    let outcome = places * u16x16::splat((by & 0xffff) as u16)
        + u16x16::splat((from & 0xffff) as u16);
    outcome.to_le_bytes()
}

#[inline(always)]
fn index_32(from: u64, by: u64) -> u8x32
    ensures { result ≡ index_block_of Width.S from by }
{
    let places = u32x8::from_array([0, 1, 2, 3, 4, 5, 6, 7]);
    let outcome = places * u32x8::splat((by & 0xffff_ffff) as u32)
        + u32x8::splat((from & 0xffff_ffff) as u32);
    outcome.to_le_bytes()
}

#[inline(always)]
fn index_64(from: u64, by: u64) -> u8x32
    ensures { result ≡ index_block_of Width.D from by }
{
    let places = u64x4::from_array([0, 1, 2, 3]);
    let outcome = places * u64x4::splat(by) + u64x4::splat(from);
    outcome.to_le_bytes()
}

#[inline(always)]
fn index_block(width: Width, from: u64, by: u64) -> u8x32
    ensures { result ≡ index_block_of width from by }
{
    match width {
        Width::B => index_8(from, by),
        Width::H => index_16(from, by),
        Width::S => index_32(from, by),
        Width::D => index_64(from, by),
    }
}

// What the first element of block i is.
#[inline(always)]
fn block_start(width: Width, from: u64, by: u64, i: usize) -> u64
    requires { i < 8 }
    ensures { result ≡ (from + block_lanes width * i * by % 2 ^ 64) % 2 ^ 64 }
{
    let places = (block_lanes(width) * i) as u64;
    from.wrapping_add(places.wrapping_mul(by))
}

#[inline(always)]
fn each_index(width: Width, vl: Vl, from: u64, by: u64, out: &mut ZReg)
    ensures { out.new.bytes ≡ index_of width (lanes vl width) from by }
{
    for i in 0..used_blocks(vl) {
        let start = block_start(width, from, by, i);
        put_block(out, i, index_block(width, start, by));
    }
    clear_above(out, register_bytes(vl));
}

/// `index` into a register that is there.
pub fn index_into(width: Width, vl: Vl, from: u64, by: i32, out: &mut ZReg)
    ensures { out.new.bytes ≡ index_of width (lanes vl width) from (cast_unsigned w64 by) }
{
    let by = (by as i64).cast_unsigned();
    match width {
        Width::B => each_index(Width::B, vl, from, by, out),
        Width::H => each_index(Width::H, vl, from, by, out),
        Width::S => each_index(Width::S, vl, from, by, out),
        Width::D => each_index(Width::D, vl, from, by, out),
    }
}

/// A register of the length whose elements are `from`, `from + by`, `from + 2 * by` and so on, each
/// the lowest bits of it (Arm DDI 0584: INDEX). Past the length it is zero.
pub fn index(width: Width, vl: Vl, from: u64, by: i32) -> ZReg
    ensures { result.bytes ≡ index_of width (lanes vl width) from (cast_unsigned w64 by) }
{
    let mut out = ZReg::zero();
    index_into(width, vl, from, by, &mut out);
    out
}
