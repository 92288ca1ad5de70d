//! What is known of a kernel's loop.

ghost use Rattle.std.specs.Prelude.{◌≡◌};
ghost use Rattle.kernel_tree.specs.Items.{loop_start};
ghost use Rattle.reg_assign.specs.declared.interval.RegClass.TheVariants as class;
ghost use Rattle.loop_form.specs.Entries.{loop_entries};
ghost use Rattle.loop_form.specs.HeldView.{view};
ghost use Rattle.loop_form.specs.Lanes.{lane_width_of};
ghost use Rattle.loop_form.specs.Listing.{listing_of};
ghost use Rattle.loop_form.specs.Needs as needs;
ghost use Rattle.loop_form.specs.Places.{value_places};
ghost use Rattle.loop_form.specs.View.{program, entries_view};

use crate::entry::Entry;
use crate::held_throughout::Held;
use crate::item::Item;
use guest_types::length::Width;
use kernel_tree::Checked;

/// What the vector code of a kernel's loop is written by: made once, and lent to each part that writes some of it.
#[derive(Drop)]
pub struct LoopFacts<'a> {
    pub kernel: &'a Checked,
    /// All items of the kernel, with the values that they make.
    pub listing: Vec<Item>,
    /// The items of the loop, with what stands in them.
    pub entries: Vec<Entry<'a>>,
    /// The number of the loop's first item, which is its `for`.
    pub first: u32,
    /// The width of the loop's lanes.
    pub width: Width,
    /// What is held in vector registers throughout.
    pub held: Vec<Held<'a>>,
    /// By item of the loop, the place of its value's interval among those of class Z.
    pub values: Vec<Option<u32>>,
    /// The same of its condition's, among those of class P.
    pub truths: Vec<Option<u32>>,
    pub ghost listed: { listing.items ≡ listing_of (program kernel.now) },
    pub ghost looped: { ∥ entries_view entries.items ≡ loop_entries (program kernel.now) ∥₁ },
    pub ghost begins: { first ≡ loop_start (program kernel.now) },
    pub ghost sized: { width ≡ lane_width_of (program kernel.now) },
    pub ghost throughout: { view held.items ≡ needs.throughout (program kernel.now) class.Z },
    pub ghost valued: { values.items ≡ value_places (program kernel.now) class.Z },
    pub ghost tested: { truths.items ≡ value_places (program kernel.now) class.P },
}
