//! What is kept of a word that was decoded.

use a64_code::A64;
use a64_machine::Prepared;
use sve_code::Sve;

/// What is done at the place of an entry.
#[derive(Clone, Copy)]
pub enum Decoded {
    /// No word can stand there.
    Nowhere,
    /// An A64 instruction that was made ready for its place.
    Ready(Prepared),
    /// Another A64 instruction.
    Scalar(A64),
    /// An SVE instruction.
    Vector(Sve),
}

/// A place, and what is done there.
#[derive(Clone, Copy)]
pub struct CacheEntry {
    pub place: u64,
    pub decoded: Decoded,
}
