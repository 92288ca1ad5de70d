//! The names at a place of a kernel.

use indexmap::IndexSet;
use kernel_tree::fault::Binding;

/// A name that is visible, and what it stands for.
#[derive(Drop)]
pub struct Local<'a> {
    pub name: &'a str,
    pub binding: Binding,
}

/// The names that are visible at a place, in the order of their declaration; all names that were declared before
/// it, each once, in the order of their first declaration; the name of the loop variable; and whether the place
/// stands in the loop.
#[derive(Drop)]
pub struct Scope<'a> {
    pub visible: Vec<Local<'a>>,
    pub declared: IndexSet<&'a str>,
    pub index: Option<&'a str>,
    pub inside: bool,
}
