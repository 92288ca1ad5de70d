//! Reads at computed indexes that have a reach.

use arrayvec::ArrayVec;

/// A read of the loop at a computed index that has a reach: the place of its array among the parameters, and how many
/// elements, from the first on, that index can come to.
#[derive(Clone, Copy, PartialEq, Eq, Debug)]
pub struct Reach {
    pub param: u32,
    pub reach: u32,
}

impl Default for Reach {
    /// The blank of a buffer.
    fn default() -> Self {
        Reach { param: 0, reach: 0 }
    }
}

/// Such reads of a loop, of which there are at most as many as items.
pub type Reaches = ArrayVec<Reach, 1000>;
