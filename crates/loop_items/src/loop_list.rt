//! Lists what the items of a kernel's loop do.

ghost use Rattle.std.specs.Prelude.{◌≡◌, IfOk};
ghost use Rattle.kernel_tree.specs.Plain.{program_of};
ghost use Rattle.kernel_tree.specs.Checked.{kernel_of};
ghost use Rattle.loop_form.specs.LoopItems.{loop_items_of};
ghost use Rattle.loop_form.specs.LoopView.{view};

use crate::context::Context;
use crate::listed::Listed;
use crate::loop_names::loop_names;
use crate::loop_statements::list_block;
use kernel_tree::Checked;
use loop_form::laws::{few_items, near_statements};
use loop_form::{LoopItem, vars_size_of};
use std::alloc::{AllocError, Global};

/// What the items of a kernel's loop do, in the order of the listing: each with its operands, their types, and the item
/// whose condition it is done under. A literal, a name, `then` and `end` do nothing and are left out, and so are a read
/// at a computed index and what makes that index. A kernel without a loop has none.
#[tactic(auto, unfolding(loop_form::specs::View::program))]
pub fn loop_items(alloc: Global, kernel: &Checked) -> Result<Vec<LoopItem<'_>>, AllocError>
    ensures { IfOk result (λ items. view items.items ≡ loop_items_of (program_of (kernel_of kernel.now))) }
{
    few_items(kernel);
    near_statements(kernel);
    let mut listed = Listed {
        items: Vec::new(alloc),
        short: false,
    };
    let tree = kernel.kernel();
    if let Some(for_loop) = &tree.body {
        let start = tree.params.len() as u32 + vars_size_of(kernel, &tree.vars);
        let mut names = loop_names(alloc, kernel, for_loop)?;
        let at = Context {
            kernel,
            mask: None,
            from: start + 1,
        };
        list_block(at, &mut names, &mut listed, &for_loop.body);
    }
    if listed.short {
        return Err(AllocError);
    }
    Ok(listed.items)
}
