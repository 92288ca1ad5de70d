//! Tokens.

ghost use Rattle.std.specs.Prelude.{◌<◌, ◌^◌};

use crate::mark::Mark;
use crate::name::Name;
use crate::ops::{CompareOp, Ty, UpdateOp};

/// A number as a text spells it, below 2^127.
#[derive(Clone, Copy)]
pub struct Number {
    pub value: u128,
    pub ghost in_range: { value < 2 ^ 127 },
}

/// A token.
#[derive(Drop)]
pub enum Token {
    Name(Name),
    Number(Number),
    /// One of the eight type words.
    Type(Ty),
    Compare(CompareOp),
    Update(UpdateOp),
    Mark(Mark),
}
