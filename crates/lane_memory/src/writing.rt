//! One store: its widths, and where its elements stand.

ghost use Rattle.std.specs.Prelude.{◌≡◌};
ghost use Rattle.guest_types.specs.LaneMemory.{width_of_size};
ghost use Rattle.lane_memory.specs.Writings.{target_of};

use crate::reading::place;
use guest_types::length::Width;
use guest_types::row::StoreRow;

/// A store of elements: the lowest `memory` of element e goes to `base + (index + e) * size` modulo
/// 2^64, where size is its bytes there.
#[derive(Clone, Copy)]
pub struct Writing {
    pub base: u64,
    pub index: u64,
    pub memory: Width,
    pub element: Width,
}

impl Writing {
    /// The store of a row at an address and an index.
    pub fn new(row: StoreRow, base: u64, index: u64) -> Writing
        ensures memory { result.memory ≡ width_of_size row.msz }
        ensures element { result.element ≡ width_of_size row.size }
        ensures base { result.base ≡ base }
        ensures index { result.index ≡ index }
    {
        Writing {
            base,
            index,
            memory: row.memory(),
            element: row.element(),
        }
    }

    /// The address of an element.
    #[inline(always)]
    pub fn target(self, e: usize) -> u64
        ensures { result ≡ target_of self e }
    {
        place(self.base, self.index, self.memory, e)
    }
}
