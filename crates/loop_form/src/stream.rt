//! Accesses by stream index.

use arrayvec::ArrayVec;

/// An access of the loop by stream index: the place of its array among the parameters, its offset from the loop
/// variable, whether it is a store, and its item.
#[derive(Clone, Copy, PartialEq, Eq, Debug)]
pub struct Stream {
    pub param: u32,
    pub offset: i32,
    pub store: bool,
    pub item: u32,
}

impl Default for Stream {
    /// The blank of a buffer.
    fn default() -> Self {
        Stream {
            param: 0,
            offset: 0,
            store: false,
            item: 0,
        }
    }
}

/// Accesses of a loop, of which there are at most as many as items.
pub type Streams = ArrayVec<Stream, 1000>;
