//! What a place of a kernel wants, and what was found so far.

use kernel_tree::Ty;
use kernel_tree::fault::Found;

/// What a place wants.
#[derive(Clone, Copy)]
pub enum Role {
    /// A value, of this type where one is wanted.
    Value(Option<Ty>),
    Condition,
}

/// What was found so far: the number of the next item, the first fault, the wanted type of each item, and whether
/// one of these was lost for want of memory.
#[derive(Drop)]
pub struct Notes {
    pub next: u32,
    pub found: Option<Found>,
    pub types: Vec<Option<Ty>>,
    pub lost: bool,
}
