//! What is known of a kernel's loop.

ghost use Rattle.std.specs.Prelude.{◌≡◌, IfOk};
ghost use Rattle.loop_form.specs.Entries.{entries_of, loop_entries};
ghost use Rattle.loop_form.specs.View.{program, entries_view};
ghost use Rattle.loop_lists.specs.ItemLists.{AreItems};

use crate::entry_list::{first_item, list_items};
use crate::held_throughout::push_of_loop;
use crate::item_list::items;
use crate::items::Items;
use crate::places::places_from;
use crate::widest_type::widest_of;
use kernel_tree::Checked;
use loop_form::laws::few_intervals;
use loop_form::{Entry, LoopFacts};
use reg_assign::RegClass;
use std::alloc::{AllocError, Global};

// By all items of the kernel and those of the loop.
fn facts_by<'a>(
    alloc: Global,
    kernel: &'a Checked,
    all: &[Entry<'_>],
    looped: &[Entry<'a>],
) -> Result<LoopFacts<'a>, AllocError>
    requires all { entries_view all.now ≡ entries_of (program kernel.now) }
    requires looped { entries_view looped.now ≡ loop_entries (program kernel.now) }
    ensures { IfOk result (λ facts. facts.kernel.now ≡ kernel.now) }
{
    few_intervals(kernel, RegClass::Z);
    let first = first_item(kernel);
    let width = widest_of(kernel, looped);
    let listing = items(alloc, all)?;
    let entries = Vec::from_slice(alloc, looped)?;
    let mut held = Vec::new(alloc);
    push_of_loop(kernel, &mut held, looped)?;
    let values = places_from(alloc, RegClass::Z, all, held.len() as u32, looped)?;
    let truths = places_from(alloc, RegClass::P, all, 0, looped)?;
    Ok(LoopFacts {
        kernel,
        listing,
        entries,
        first,
        width,
        held,
        values,
        truths,
    })
}

/// What the vector code of a kernel's loop is written by, by the items of the kernel.
pub fn loop_facts_by<'a>(
    alloc: Global,
    kernel: &'a Checked,
    items: &Items<'a>,
) -> Result<LoopFacts<'a>, AllocError>
    requires items { AreItems (program kernel.now) items.now }
    ensures { IfOk result (λ facts. facts.kernel.now ≡ kernel.now) }
{
    facts_by(alloc, kernel, &items.all, &items.looped)
}

/// What the vector code of a kernel's loop is written by.
pub fn loop_facts(alloc: Global, kernel: &Checked) -> Result<LoopFacts<'_>, AllocError>
    ensures { IfOk result (λ facts. facts.kernel.now ≡ kernel.now) }
{
    loop_facts_by(alloc, kernel, &list_items(kernel))
}
