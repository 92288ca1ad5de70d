//! Bounds.

/// The integers from `low` to `high`.
#[derive(Clone, Copy)]
pub struct Bounds {
    pub low: i128,
    pub high: i128,
}
