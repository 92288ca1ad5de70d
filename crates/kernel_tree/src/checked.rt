//! Kernels that are checked.

ghost use Rattle.std.specs.Prelude.{◌≡◌, None};
ghost use Rattle.kernel_tree.specs.Plain.{program_of};
ghost use Rattle.kernel_tree.specs.Grammar.{IsTree};
ghost use Rattle.kernel_tree.specs.Typing.{check_fault, types_of};

use crate::ast::Kernel;
use crate::ops::Ty;

/// A kernel that some text spells and that meets the rules of typing and the limits on size and depth.
#[derive(Drop)]
pub struct Checked {
    kernel: Kernel,
    // the wanted type of each item
    types: Vec<Option<Ty>>,
    pub ghost tree: { ∥ IsTree (program_of kernel) ∥₁ },
    pub ghost typed: { check_fault (program_of kernel) ≡ None },
    pub ghost wanted: { types.items ≡ types_of (program_of kernel) },
}

impl Checked {
    ghost use Rattle.kernel_tree.specs.Checked.{kernel_of, type_at};

    /// Puts a kernel together with the wanted type of each of its items, None for an item that is no value.
    pub fn new(kernel: Kernel, types: Vec<Option<Ty>>) -> Checked
        requires tree { IsTree (program_of kernel) }
        requires typed { check_fault (program_of kernel) ≡ None }
        requires wanted { types.items ≡ types_of (program_of kernel) }
        ensures { kernel_of result ≡ kernel }
    {
        Checked { kernel, types }
    }

    /// The kernel itself.
    pub fn kernel(&self) -> &Kernel
        ensures { result.now ≡ kernel_of self.now }
    {
        &self.kernel
    }

    /// The type of a value item of the listing, and None for any other number.
    pub fn ty(&self, item: u32) -> Option<Ty>
        ensures { result ≡ type_at (program_of (kernel_of self.now)) item }
    {
        self.types.get(item as usize).copied().flatten()
    }
}
