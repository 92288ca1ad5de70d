//! Items of the listing.

use kernel_tree::Ty;

/// What kind of item an item is. An `abs` is Unary, and `min` and `max` are Binary.
#[derive(Clone, Copy, PartialEq, Eq, Debug)]
pub enum ItemKind {
    Param,
    Var,
    For,
    Literal,
    Name,
    Read,
    Unary,
    Binary,
    Shift,
    Cast,
    Select,
    Compare,
    Not,
    And,
    Or,
    Mark,
    Let,
    Store,
    Update,
    Break,
    Then,
    Else,
    End,
    Return,
}

/// An item of the listing: its kind, the type of its value, and the item that uses it last, for each class of
/// registers in which it has a value.
#[derive(Clone, Copy, PartialEq, Eq, Debug)]
pub struct Item {
    pub kind: ItemKind,
    pub ty: Option<Ty>,
    pub x_last_use: Option<u32>,
    pub z_last_use: Option<u32>,
    pub p_last_use: Option<u32>,
}
