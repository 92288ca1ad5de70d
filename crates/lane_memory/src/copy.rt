//! Elements that are read from a part of one page.

ghost use Rattle.std.specs.Prelude.{◌≡◌, ◌+◌, ◌*◌, ◌≤◌, length};
ghost use Rattle.guest_types.specs.Length.{all_lanes, width_bytes};
ghost use Rattle.lane_memory.specs.Readings.{IsCopied};

use crate::reading::Reading;
use guest_types::length::Width;
use guest_types::register::ZReg;
use paged_memory::number::{number, put_number};

// Elements that have the same width in memory.
#[inline(always)]
fn copy_whole(reading: Reading, part: &[u8], from: usize, count: usize, out: &mut ZReg)
    requires same { reading.memory ≡ reading.element }
    requires part { length part.now ≡ width_bytes reading.memory * count }
    requires inside { from + count ≤ all_lanes reading.element }
    ensures { IsCopied reading part.now from count out.old.bytes out.new.bytes }
{
    let at = reading.element.bytes() * from;
    out.bytes[at..at + part.len()].copy_from_slice(part);
}

// Elements of so many bytes in memory and in the register. It is inlined where these are known.
#[inline(always)]
fn widen(
    reading: Reading,
    memory: u32,
    element: u32,
    part: &[u8],
    from: usize,
    count: usize,
    out: &mut ZReg,
)
    requires memory { memory ≡ width_bytes reading.memory }
    requires element { element ≡ width_bytes reading.element }
    requires part { length part.now ≡ width_bytes reading.memory * count }
    requires inside { from + count ≤ all_lanes reading.element }
    ensures { IsCopied reading part.now from count out.old.bytes out.new.bytes }
{
    for i in 0..count {
        let value = number(part, memory as usize * i, memory);
        let at = element as usize * (from + i);
        put_number(&mut out.bytes, at, element, reading.extend(value));
    }
}

// The width in the register is chosen before the loop over elements.
#[inline(always)]
fn widen_from(reading: Reading, memory: u32, part: &[u8], from: usize, count: usize, out: &mut ZReg)
    requires memory { memory ≡ width_bytes reading.memory }
    requires part { length part.now ≡ width_bytes reading.memory * count }
    requires inside { from + count ≤ all_lanes reading.element }
    ensures { IsCopied reading part.now from count out.old.bytes out.new.bytes }
{
    match reading.element {
        Width::B => widen(reading, memory, 1, part, from, count, out),
        Width::H => widen(reading, memory, 2, part, from, count, out),
        Width::S => widen(reading, memory, 4, part, from, count, out),
        Width::D => widen(reading, memory, 8, part, from, count, out),
    }
}

// The width in memory is chosen before the loop over elements.
#[inline(never)]
fn widen_part(reading: Reading, part: &[u8], from: usize, count: usize, out: &mut ZReg)
    requires part { length part.now ≡ width_bytes reading.memory * count }
    requires inside { from + count ≤ all_lanes reading.element }
    ensures { IsCopied reading part.now from count out.old.bytes out.new.bytes }
{
    match reading.memory {
        Width::B => widen_from(reading, 1, part, from, count, out),
        Width::H => widen_from(reading, 2, part, from, count, out),
        Width::S => widen_from(reading, 4, part, from, count, out),
        Width::D => widen_from(reading, 8, part, from, count, out),
    }
}

/// Reads so many elements from a place on from a part of memory, whether they are active or not.
#[inline(always)]
pub fn copy_part(reading: Reading, part: &[u8], from: usize, count: usize, out: &mut ZReg)
    requires part { length part.now ≡ width_bytes reading.memory * count }
    requires inside { from + count ≤ all_lanes reading.element }
    ensures { IsCopied reading part.now from count out.old.bytes out.new.bytes }
{
    if reading.memory == reading.element {
        return copy_whole(reading, part, from, count, out);
    }
    widen_part(reading, part, from, count, out);
}
