//! One load: its form, and where its elements stand.

ghost use Rattle.std.specs.Prelude.{◌≡◌, ◌<◌, ◌≤◌};
ghost use Rattle.guest_types.specs.Length.{modulus, width_bytes};
ghost use Rattle.guest_types.specs.LaneMemory.{extended, lane_address, load_form};
ghost use Rattle.lane_memory.specs.Readings.{form_of, place_of};

use guest_types::length::Width;
use guest_types::memory::PAGE_BYTES;
use guest_types::row::LoadRow;

/// The address of an element, which has the bytes of a width in memory.
#[inline(always)]
pub fn place(base: u64, index: u64, memory: Width, e: usize) -> u64
    ensures { result ≡ lane_address base index (width_bytes memory) e }
{
    base.wrapping_add(
        index
            .wrapping_add(e as u64)
            .wrapping_mul(memory.bytes() as u64),
    )
}

/// How many elements of a width stand in the page of an address from there on, of so many.
#[inline(always)]
pub fn count_in_page(address: u64, memory: Width, most: usize) -> usize
    ensures { result ≤ most }
{
    let rest = (PAGE_BYTES - address % PAGE_BYTES) as usize;
    let whole = match memory {
        Width::B => rest,
        Width::H => rest / 2,
        Width::S => rest / 4,
        Width::D => rest / 8,
    };
    most.min(whole)
}

/// A load of elements: element e has `memory` at `base + (index + e) * size` modulo 2^64, where size
/// is its bytes there, and is extended to `element`.
#[derive(Clone, Copy)]
pub struct Reading {
    pub base: u64,
    pub index: u64,
    pub memory: Width,
    pub element: Width,
    pub signed: bool,
}

impl Reading {
    /// The load of a row at an address and an index.
    pub fn new(row: LoadRow, base: u64, index: u64) -> Reading
        ensures form { form_of result ≡ load_form row.dtype }
        ensures base { result.base ≡ base }
        ensures index { result.index ≡ index }
    {
        Reading {
            base,
            index,
            memory: row.memory(),
            element: row.element(),
            signed: row.is_signed(),
        }
    }

    /// The address of an element.
    #[inline(always)]
    pub fn place(self, e: usize) -> u64
        ensures { result ≡ place_of self e }
    {
        place(self.base, self.index, self.memory, e)
    }

    /// A number that was read, as an element.
    #[inline(always)]
    pub fn extend(self, value: u64) -> u64
        requires { value < modulus self.memory }
        ensures { result ≡ extended (form_of self) value }
    {
        if self.signed && value > self.memory.max() / 2 {
            value + self.element.max().saturating_sub(self.memory.max())
        } else {
            value
        }
    }
}
