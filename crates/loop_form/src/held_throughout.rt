//! What is held in registers throughout.

use kernel_tree::Ty;

/// What is held in a register throughout.
#[derive(Clone, Copy)]
pub enum Held<'a> {
    /// The scalar parameter of this name.
    Scalar(&'a str),
    /// A literal of a type.
    Constant(Option<Ty>, i128),
    /// The loop variable.
    Index,
    /// The accumulator of this name.
    Accumulating(&'a str),
}
