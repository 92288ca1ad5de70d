//! Parts of masks.

/// A condition item of the listing with the truth value that it must have.
#[derive(Clone, Copy, Debug, PartialEq, Eq)]
pub struct MaskPart {
    pub item: u32,
    pub holds: bool,
}
