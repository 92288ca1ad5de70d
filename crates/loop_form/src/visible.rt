//! Names that are visible in a loop.

use crate::loop_item::Operand;
use kernel_tree::fault::Binding;

/// A name, what it stands for, and where its value is held.
#[derive(Clone, Copy)]
pub struct Visible<'a> {
    pub name: &'a str,
    pub binding: Binding,
    pub source: Operand,
}
