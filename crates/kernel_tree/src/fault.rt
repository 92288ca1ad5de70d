//! What may be wrong with the types of a kernel, and what a name stands for.

use crate::ops::Ty;

/// A rule of typing that fails.
#[derive(Clone, Copy)]
pub enum Fault {
    /// No name of this text is visible here.
    Unknown,
    /// The name is declared a second time.
    Twice,
    /// The name stands for something that has no place here, as a scalar that is indexed.
    WrongKind,
    /// A value of one type where another is wanted.
    Mismatch { want: Ty, found: Ty },
    /// Literals alone, which have no type of their own, where nothing says which one is wanted.
    Untyped,
    /// A literal that its type does not have.
    LiteralRange,
    /// A shift by as many bits as the type has, or more.
    ShiftRange,
    /// An offset from the loop variable of more than 1,024 elements.
    OffsetRange,
}

/// A fault and the item of the listing that it stands at.
#[derive(Clone, Copy)]
pub struct Found {
    pub item: u32,
    pub fault: Fault,
}

/// What a name stands for.
#[derive(Clone, Copy, PartialEq, Eq, Debug)]
pub enum Binding {
    /// A scalar parameter.
    Scalar(Ty),
    /// An array parameter with elements of this type.
    Array(Ty),
    Accumulator(Ty),
    /// What a `let` defines.
    Value(Ty),
    /// The variable of the loop.
    Index,
}
