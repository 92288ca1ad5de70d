//! Items of the listing with what stands in them.

use crate::item::ItemKind;
use arrayvec::ArrayVec;
use kernel_tree::{Expr, Ty, UpdateOp};

/// What an item is, with the names, the number and the index that stand in it.
#[derive(Clone, Copy)]
pub enum Content<'a> {
    Literal(i128),
    Name(&'a str),
    Read { array: &'a str, index: &'a Expr },
    Let(&'a str),
    Store { array: &'a str, index: &'a Expr },
    Update { name: &'a str, op: UpdateOp },
    /// An item of any other kind.
    Plain(ItemKind),
}

/// An item: its number, what it is, the type of its value, and the item that uses what it makes. An item that makes
/// nothing, and a `let`, stand for their own user here.
#[derive(Clone, Copy)]
pub struct Entry<'a> {
    pub item: u32,
    pub content: Content<'a>,
    pub ty: Option<Ty>,
    pub last_use: u32,
}

impl Default for Entry<'_> {
    /// The blank of a buffer.
    fn default() -> Self {
        Entry {
            item: 0,
            content: Content::Plain(ItemKind::Param),
            ty: None,
            last_use: 0,
        }
    }
}

/// Items of a kernel, of which there are at most 1,000.
pub type Entries<'a> = ArrayVec<Entry<'a>, 1000>;
