//! The mask of an item and its owner.

ghost use Rattle.std.specs.Prelude.{ℕ, Bool};
ghost use Rattle.loop_form.specs.LoopItems.{loop_items_of};
ghost use Rattle.loop_form.specs.View.{program};
ghost use Rattle.predicate_plan.specs.Masks.{mask_at, masks_of};
ghost use Rattle.predicate_plan.specs.Owners.{AreOwned, AreSettled};

use kernel_tree::Checked;
use kernel_tree::laws::right_kinds;

/// The owner of an item's mask stands for the mask: in a lane whose truths are those that the items of the loop leave, it is true
/// exactly where all parts of the mask are met.
#[tactic(auto, unfolding(loop_form::specs::View::program))]
pub fn owners_stand_for_masks(kernel: &Checked)
    ensures { (truth : ℕ → Bool) → AreSettled truth (loop_items_of (program kernel.now))
        → AreOwned (mask_at (masks_of (program kernel.now))) truth (loop_items_of (program kernel.now)) }
{
    right_kinds(kernel);
}
