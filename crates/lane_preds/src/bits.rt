//! Predicates as vectors of 32 bytes: which bits are set.

ghost use Rattle.std.specs.Prelude.{◌≡◌, ◌*◌, ◌<◌, ◌≤◌, IfSome, IsTrue};
ghost use Rattle.guest_types.specs.Length.{IsLength, width_bytes, all_lanes, lanes};
ghost use Rattle.guest_types.specs.Elements.{bits_of, predicate};
ghost use Rattle.guest_types.specs.Lanes.{all_at};
ghost use Rattle.lane_preds.specs.Bits.{starts, both_of, first_set, last_set, nonzero_bytes, bit_count};

use guest_types::length::{Vl, Width};
use lane_blocks::mask::below;
use std::simd::prelude::*;

/// The bits at which the elements of a width begin.
#[inline(always)]
pub fn starts(width: Width) -> u8x32
    ensures { result ≡ bits_of (starts (width_bytes width)) 32 }
{
    match width {
        Width::B => u8x32::splat(0xff),
        Width::H => u8x32::splat(0x55),
        Width::S => u8x32::splat(0x11),
        Width::D => u8x32::splat(0x01),
    }
}

/// The predicate that is true in the first elements, so many of them.
#[inline(always)]
pub fn first_elements(width: Width, count: usize) -> u8x32
    requires { count ≤ all_lanes width }
    ensures { result ≡ predicate (width_bytes width) all_at count }
{
    let starts = starts(width);
    let limits = below(width.bytes() * count);
    starts & limits
}

/// The predicate that is true in every element of a register of the length. Its last byte is a whole one, so that less is
/// computed than for `first_elements`.
#[inline(always)]
pub fn all_elements(width: Width, vl: Vl) -> u8x32
    ensures value { result ≡ predicate (width_bytes width) all_at (lanes vl width) }
    ensures valid { IsLength vl }
{
    let starts = starts(width);
    let limits = below(8 * vl.lanes(Width::D) as usize);
    starts & limits
}

/// Whether a predicate has each of these bits.
#[inline(always)]
pub fn has_bits(predicate: u8x32, bits: u8x32) -> bool
    ensures { IsTrue result → both_of predicate bits ≡ bits }
{
    (predicate & bits).to_array() == bits.to_array()
}

/// Which bytes are not 0, as bits.
#[inline(always)]
fn nonzero_bytes(x: u8x32) -> u64
    ensures { result ≡ nonzero_bytes x }
{
    x.simd_ne(u8x32::splat(0)).to_bitmask()
}

/// The place of the lowest bit that is set.
#[inline(always)]
pub fn first_bit(x: u8x32) -> Option<usize>
    ensures value { result ≡ first_set x }
    ensures inside { IfSome result (λ j. j < 256) }
{
    let bytes = x.to_array();
    let nonzero = nonzero_bytes(x);
    if nonzero == 0 {
        None
    } else {
        let i = nonzero.trailing_zeros() as usize;
        Some(8 * i + bytes[i].trailing_zeros() as usize)
    }
}

/// The place of the highest bit that is set.
#[inline(always)]
pub fn last_bit(x: u8x32) -> Option<usize>
    ensures value { result ≡ last_set x }
    ensures inside { IfSome result (λ j. j < 256) }
{
    let bytes = x.to_array();
    let nonzero = nonzero_bytes(x);
    if nonzero == 0 {
        None
    } else {
        let i = 63 - nonzero.leading_zeros() as usize;
        Some(8 * i + 7 - bytes[i].leading_zeros() as usize)
    }
}

/// How many bits are set.
#[inline(always)]
pub fn count_bits(x: u8x32) -> u32
    ensures { result ≡ bit_count x }
{
    x.count_ones().cast::<u16>().strict_reduce_sum() as u32
}
