//! Where scalar code is written.

ghost use Rattle.std.specs.Prelude.{◌≡◌};
ghost use Rattle.kernel_tree.specs.Plain.{name_of};
ghost use Rattle.scalar_words.specs.View.{homes_of};
ghost use Rattle.scalar_words.specs.Layout as layouts;

use crate::home::{Home, register_at};
use crate::kernel_layout::KernelLayout;
use a64_code::Reg;
use kernel_scope::Scope;
use kernel_tree::Name;

/// What scalar code is written by at a place of a kernel: where values are kept, the registers of the visible names, and the
/// scope. Expressions borrow it; statements declare names in it.
#[derive(Drop)]
pub struct Site<'a> {
    pub layout: KernelLayout<'a>,
    pub homes: Vec<Home<'a>>,
    pub scope: Scope<'a>,
}

impl<'a> Site<'a> {
    /// The register of a name.
    pub fn register(&self, name: &Name) -> Reg
        ensures { result.number ≡ layouts.register_at (homes_of self.now.homes.items) (name_of name.now) }
    {
        register_at(&self.homes, name)
    }
}
