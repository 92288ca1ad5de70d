//! The items of a kernel, listed once.

use loop_form::entry::Entries;

/// The items of a kernel. They are made first, and lent to all that is found out about the kernel's loop.
#[derive(Drop)]
pub struct Items<'a> {
    /// All items of the kernel.
    pub all: Entries<'a>,
    /// Those of its loop.
    pub looped: Entries<'a>,
}
