//! Elements that are written to a part of one page.

ghost use Rattle.std.specs.Prelude.{◌≡◌, ℕ, ◌+◌, ◌*◌, ◌<◌, ◌≤◌, true, length};
ghost use Rattle.guest_types.specs.Length.{all_lanes, width_bytes};
ghost use Rattle.guest_types.specs.Elements.{active};
ghost use Rattle.lane_memory.specs.Writings.{IsMerged, IsWritten};

use crate::full::is_full;
use crate::keep::is_whole;
use crate::part::Part;
use guest_types::length::Width;
use guest_types::predicate::PReg;
use guest_types::register::ZReg;
use lane_blocks::block::{block_at, blocks_of, put_block};
use lane_blocks::mask::{choose_block, mask_at};
use paged_memory::number::{number, put_number};

// The active elements of the first blocks in place of others.
#[inline(always)]
fn merge_blocks(out: &mut ZReg, width: Width, pg: &PReg, z: &ZReg, blocks: usize)
    requires { blocks ≤ 8 }
    ensures { IsMerged width pg.now.bits z.now.bytes blocks out.old.bytes out.new.bytes }
{
    is_whole(out);
    for i in 0..blocks {
        let block = choose_block(width, mask_at(pg, i), block_at(z, i), block_at(out, i));
        put_block(out, i, block);
    }
}

// The width is chosen before the loop over blocks.
fn merge_active(out: &mut ZReg, width: Width, pg: &PReg, z: &ZReg, blocks: usize)
    requires { blocks ≤ 8 }
    ensures { IsMerged width pg.now.bits z.now.bytes blocks out.old.bytes out.new.bytes }
{
    match width {
        Width::B => merge_blocks(out, Width::B, pg, z, blocks),
        Width::H => merge_blocks(out, Width::H, pg, z, blocks),
        Width::S => merge_blocks(out, Width::S, pg, z, blocks),
        Width::D => merge_blocks(out, Width::D, pg, z, blocks),
    }
}

/// Elements that have the same width in memory and are all active: one copy.
#[inline(always)]
pub fn write_whole(elements: &Part<'_>, part: &mut [u8])
    requires same { elements.now.writing.memory ≡ elements.now.writing.element }
    requires part { length part.old ≡ width_bytes elements.now.writing.memory * elements.now.count }
    requires inside { elements.now.from + elements.now.count ≤ all_lanes elements.now.writing.element }
    requires full { let last = elements.now.from + elements.now.count in
        (e : ℕ) → e < last → active elements.now.writing.element elements.now.pg.now.bits e ≡ true }
    ensures { let e = elements.now in
        IsWritten e.writing e.pg.now.bits e.z.now.bytes e.from e.count part.old part.new }
{
    let Part {
        writing,
        z,
        from,
        ..
    } = *elements;
    let _blocks = blocks_of(z);
    let at = writing.element.bytes() * from;
    part.copy_from_slice(&z.bytes[at..at + part.len()]);
}

// Elements that have the same width in memory: the part is merged as a register, block by block.
fn merge_some(elements: &Part<'_>, part: &mut [u8])
    requires same { elements.now.writing.memory ≡ elements.now.writing.element }
    requires part { length part.old ≡ width_bytes elements.now.writing.memory * elements.now.count }
    requires inside { elements.now.from + elements.now.count ≤ all_lanes elements.now.writing.element }
    ensures { let e = elements.now in
        IsWritten e.writing e.pg.now.bits e.z.now.bytes e.from e.count part.old part.new }
{
    let Part {
        writing,
        pg,
        z,
        from,
        ..
    } = *elements;
    let size = writing.element.bytes();
    let at = size * from;
    let end = at + part.len();
    let mut merged = ZReg::zero();
    merged.bytes[at..end].copy_from_slice(part);
    merge_active(&mut merged, writing.element, pg, z, (end + 31) / 32);
    part.copy_from_slice(&merged.bytes[at..end]);
}

// Elements that have the same width in memory.
fn merge_part(elements: &Part<'_>, part: &mut [u8])
    requires same { elements.now.writing.memory ≡ elements.now.writing.element }
    requires part { length part.old ≡ width_bytes elements.now.writing.memory * elements.now.count }
    requires inside { elements.now.from + elements.now.count ≤ all_lanes elements.now.writing.element }
    ensures { let e = elements.now in
        IsWritten e.writing e.pg.now.bits e.z.now.bytes e.from e.count part.old part.new }
{
    let last = elements.from + elements.count;
    if is_full(elements.pg, elements.writing.element, last) {
        return write_whole(elements, part);
    }
    merge_some(elements, part);
}

// Elements of so many bytes in memory and in the register. It is inlined where these are known.
#[inline(always)]
fn narrow(elements: &Part<'_>, memory: u32, element: u32, part: &mut [u8])
    requires memory { memory ≡ width_bytes elements.now.writing.memory }
    requires element { element ≡ width_bytes elements.now.writing.element }
    requires part { length part.old ≡ width_bytes elements.now.writing.memory * elements.now.count }
    requires inside { elements.now.from + elements.now.count ≤ all_lanes elements.now.writing.element }
    ensures { let e = elements.now in
        IsWritten e.writing e.pg.now.bits e.z.now.bytes e.from e.count part.old part.new }
{
    let Part {
        writing,
        pg,
        z,
        from,
        count,
    } = *elements;
    for i in 0..count {
        if pg.is_active(writing.element, from + i) {
            let value = number(&z.bytes, element as usize * (from + i), element);
            put_number(part, memory as usize * i, memory, value);
        }
    }
}

// The width in memory is chosen before the loop over elements.
#[inline(always)]
fn narrow_from(elements: &Part<'_>, element: u32, part: &mut [u8])
    requires element { element ≡ width_bytes elements.now.writing.element }
    requires part { length part.old ≡ width_bytes elements.now.writing.memory * elements.now.count }
    requires inside { elements.now.from + elements.now.count ≤ all_lanes elements.now.writing.element }
    ensures { let e = elements.now in
        IsWritten e.writing e.pg.now.bits e.z.now.bytes e.from e.count part.old part.new }
{
    match elements.writing.memory {
        Width::B => narrow(elements, 1, element, part),
        Width::H => narrow(elements, 2, element, part),
        Width::S => narrow(elements, 4, element, part),
        Width::D => narrow(elements, 8, element, part),
    }
}

/// Writes the active of so many elements from a place on to a part of memory.
#[inline(never)]
pub fn write_part(elements: &Part<'_>, part: &mut [u8])
    requires part { length part.old ≡ width_bytes elements.now.writing.memory * elements.now.count }
    requires inside { elements.now.from + elements.now.count ≤ all_lanes elements.now.writing.element }
    ensures { let e = elements.now in
        IsWritten e.writing e.pg.now.bits e.z.now.bytes e.from e.count part.old part.new }
{
    if elements.writing.memory == elements.writing.element {
        return merge_part(elements, part);
    }
    match elements.writing.element {
        Width::B => narrow_from(elements, 1, part),
        Width::H => narrow_from(elements, 2, part),
        Width::S => narrow_from(elements, 4, part),
        Width::D => narrow_from(elements, 8, part),
    }
}
