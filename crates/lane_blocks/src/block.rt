//! Blocks of a vector register.

ghost use Rattle.std.specs.Prelude.{ℕ, slice_index, length, ◌≡◌, ◌/◌, ◌%◌, ◌*◌, ◌+◌, ◌<◌, ◌≤◌};
ghost use Rattle.guest_types.specs.Length.{IsLength};
ghost use Rattle.lane_blocks.specs.Blocks.{block_lanes, block_of, with_block, cleared_above, cleared_half};

use guest_types::length::{Vl, Width};
use guest_types::register::ZReg;
use std::simd::prelude::*;

#[inline(always)]
fn block_count(bytes: &[u8]) -> usize
    ensures value { result ≡ length bytes.now / 32 }
    ensures bytes { (i : ℕ) → slice_index bytes.now i < 256 }
{
    bytes.len() / 32
}

/// The number of blocks in a register.
#[inline(always)]
pub fn blocks_of(z: &ZReg) -> usize
    ensures value { result ≡ 8 }
    ensures len { length z.now.bytes ≡ 256 }
    ensures bytes { (i : ℕ) → slice_index z.now.bytes i < 256 }
{
    block_count(&z.bytes)
}

/// The number of elements in a block.
#[inline(always)]
pub fn block_lanes(width: Width) -> usize
    ensures { result ≡ block_lanes width }
{
    match width {
        Width::B => 32,
        Width::H => 16,
        Width::S => 8,
        Width::D => 4,
    }
}

/// The number of bytes in a vector register of a length, and of bits in a predicate.
#[inline(always)]
pub fn register_bytes(vl: Vl) -> usize
    ensures value { result ≡ vl / 8 }
    ensures valid { IsLength vl }
{
    vl.lanes(Width::B) as usize
}

/// The number of blocks in which a vector register of a length lies, the last of which may stand
/// half past it.
#[inline(always)]
pub fn used_blocks(vl: Vl) -> usize
    ensures value { result ≡ (vl / 8 + 31) / 32 }
    ensures fits { result ≤ 8 }
{
    (register_bytes(vl) + 31) / 32
}

/// The same of a register that is read.
#[inline(always)]
pub fn used_blocks_of(z: &ZReg, vl: Vl) -> usize
    ensures value { result ≡ (vl / 8 + 31) / 32 }
    ensures fits { result ≤ 8 }
    ensures bytes { (i : ℕ) → slice_index z.now.bytes i < 256 }
{
    used_blocks(vl).min(blocks_of(z))
}

/// Block i.
#[inline(always)]
pub fn block_at(z: &ZReg, i: usize) -> u8x32
    requires { i < 8 }
    ensures { result ≡ block_of z.now.bytes i }
{
    let (blocks, _) = z.bytes.as_chunks::<32>();
    u8x32::from_array(blocks[i])
}

/// Writes block i.
#[inline(always)]
pub fn put_block(z: &mut ZReg, i: usize, block: u8x32)
    requires { i < 8 }
    ensures { z.new.bytes ≡ with_block z.old.bytes i block }
{
    block.copy_to_slice(&mut z.bytes[32 * i..32 * i + 32]);
}

/// Zeroes the bytes from byte n on.
#[inline(always)]
pub fn clear_above(z: &mut ZReg, n: usize)
    requires { n ≤ 256 }
    ensures { z.new.bytes ≡ cleared_above z.old.bytes n }
{
    z.bytes[n..].fill(0);
}

/// Zeroes the second half of the block in which a register of n bytes ends, where it ends in the
/// middle of one.
#[inline(always)]
pub fn clear_half(z: &mut ZReg, n: usize)
    requires halves { n % 16 ≡ 0 }
    requires inside { n ≤ 256 }
    ensures { z.new.bytes ≡ cleared_half z.old.bytes n }
{
    if n % 32 != 0 {
        z.bytes[n..n + 16].fill(0);
    }
}
