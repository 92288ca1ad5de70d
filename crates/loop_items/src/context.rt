//! What the items of an expression or of a statement are listed by.

use kernel_tree::Checked;

/// A place in the listing of a kernel: the number of the item that is next, and the item under whose condition it and
/// those after it are done.
#[derive(Clone, Copy)]
pub struct Context<'k> {
    pub kernel: &'k Checked,
    pub mask: Option<u32>,
    pub from: u32,
}
