//! How many registers a kernel needs.

ghost use Rattle.std.specs.Prelude.{◌≡◌, IfOk};
ghost use Rattle.kernel_tree.specs.Plain.{program_of};
ghost use Rattle.kernel_tree.specs.Checked.{kernel_of};
ghost use Rattle.loop_form.specs.Needs.{need, needs_of};
ghost use Rattle.loop_form.specs.View.{program};
ghost use Rattle.loop_lists.specs.ItemLists.{AreItems};

use crate::entry_list::{item_count, list_items};
use crate::items::Items;
use crate::values::intervals_by;
use kernel_tree::Checked;
use loop_form::laws::ordered_intervals;
use loop_form::need::Needs;
use reg_assign::{RegClass, need};
use std::alloc::{AllocError, Global};

// How many registers of a class are needed.
#[tactic(auto, unfolding(loop_form::specs::View::program))]
fn class_need(
    alloc: Global,
    kernel: &Checked,
    items: &Items<'_>,
    class: RegClass,
) -> Result<u32, AllocError>
    requires { AreItems (program kernel.now) items.now }
    ensures { IfOk result (λ count. count ≡ need (program kernel.now) class) }
{
    ordered_intervals(kernel, class);
    let intervals = intervals_by(alloc, kernel, items, class)?;
    let count = need(&intervals);
    Ok(count)
}

/// How many items a kernel has, and how many registers of each class it needs: one for each value that is held
/// throughout, and the greatest number of values that are live at one item. For the classes Z and P only the loop
/// counts.
#[tactic(auto, unfolding(loop_form::specs::View::program))]
pub fn needs(alloc: Global, kernel: &Checked) -> Result<Needs, AllocError>
    ensures { IfOk result (λ needs. needs ≡ needs_of (program_of (kernel_of kernel.now))) }
{
    let items = list_items(kernel);
    let size = item_count(kernel, &items.all);
    let z = class_need(alloc, kernel, &items, RegClass::Z)?;
    let p = class_need(alloc, kernel, &items, RegClass::P)?;
    let x = class_need(alloc, kernel, &items, RegClass::X)?;
    Ok(Needs { size, z, p, x })
}
