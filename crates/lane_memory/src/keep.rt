//! The active elements of a register, and zeros elsewhere.

ghost use Rattle.std.specs.Prelude.{◌≡◌, ◌*◌, ◌≤◌, length};
ghost use Rattle.guest_types.specs.Length.{all_lanes};
ghost use Rattle.lane_blocks.specs.Blocks.{block_lanes};
ghost use Rattle.lane_memory.specs.Readings.{masked_of};

use crate::full::{is_full, keep_first};
use guest_types::length::Width;
use guest_types::predicate::PReg;
use guest_types::register::ZReg;
use lane_blocks::block::{block_at, clear_above, put_block};
use lane_blocks::mask::{bits_below, choose_block, mask_at};
use std::simd::prelude::*;

/// What callers may rest on: a register has 256 bytes. It does nothing.
#[inline(always)]
pub fn is_whole(z: &ZReg)
    ensures { length z.now.bytes ≡ 256 }
{
    let _bytes = &z.bytes;
}

#[inline(always)]
fn keep_blocks(z: &mut ZReg, width: Width, kept: &PReg, blocks: usize)
    requires { blocks ≤ 8 }
    ensures { z.new.bytes ≡ masked_of width kept.now.bits z.old.bytes (block_lanes width * blocks) }
{
    is_whole(z);
    for i in 0..blocks {
        let block = choose_block(width, mask_at(kept, i), block_at(z, i), u8x32::splat(0));
        put_block(z, i, block);
    }
    clear_above(z, 32 * blocks);
}

// The same where some of them may not be active.
fn keep_some(z: &mut ZReg, width: Width, pg: &PReg, lanes: usize)
    requires { lanes ≤ all_lanes width }
    ensures { z.new.bytes ≡ masked_of width pg.now.bits z.old.bytes lanes }
{
    let limit = width.bytes() * lanes;
    let kept = bits_below(pg, limit);
    let blocks = (limit + 31) / 32;
    match width {
        Width::B => keep_blocks(z, Width::B, &kept, blocks),
        Width::H => keep_blocks(z, Width::H, &kept, blocks),
        Width::S => keep_blocks(z, Width::S, &kept, blocks),
        Width::D => keep_blocks(z, Width::D, &kept, blocks),
    }
}

/// Keeps the active of the first elements, and zeroes the others. Where all are active it only does
/// the latter.
pub fn keep_active(z: &mut ZReg, width: Width, pg: &PReg, lanes: usize)
    requires { lanes ≤ all_lanes width }
    ensures { z.new.bytes ≡ masked_of width pg.now.bits z.old.bytes lanes }
{
    if is_full(pg, width, lanes) {
        return keep_first(z, width, pg, lanes);
    }
    keep_some(z, width, pg, lanes);
}
