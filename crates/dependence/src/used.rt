//! Array parameters that a loop uses.

use guest_types::length::Width;

/// The end of the elements that a loop comes to by a parameter.
#[derive(Clone, Copy)]
pub enum Extent {
    /// Stream indexes alone: the bound and the greatest offset.
    Streams { greatest: i32 },
    /// Computed indexes alone: their greatest reach.
    Computed { reach: u32 },
    /// Both: the greater of the two.
    Both { greatest: i32, reach: u32 },
}

/// An array parameter that the loop uses: its place, the width of its elements, the least of its offsets, and 0 among
/// them where it has computed indexes, the end of its elements, and whether the loop stores to it.
#[derive(Clone, Copy)]
pub struct Used {
    pub place: u32,
    pub width: Width,
    pub least: i32,
    pub extent: Extent,
    pub stored: bool,
}

impl Default for Used {
    /// The blank of a buffer.
    fn default() -> Self {
        Used {
            place: 0,
            width: Width::B,
            least: 0,
            extent: Extent::Streams { greatest: 0 },
            stored: false,
        }
    }
}
