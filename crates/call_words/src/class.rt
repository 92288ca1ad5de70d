//! Classes of registers.

/// A class of registers that a function keeps: X19 to X28, or the low halves of V8 to V15.
#[derive(Clone, Copy)]
pub enum Class {
    General,
    Vector,
}
