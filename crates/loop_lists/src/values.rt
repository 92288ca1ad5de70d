//! The intervals in which the values of a kernel are needed.

ghost use Rattle.std.specs.Prelude.{◌≡◌, ◌++◌, IfOk, OnOk};
ghost use Rattle.std.proofs.Math.ListN.{replicate};
ghost use Rattle.kernel_tree.specs.Plain.{program_of};
ghost use Rattle.kernel_tree.specs.Checked.{kernel_of};
ghost use Rattle.loop_form.specs.Needs.{span_of, spans_of, values, intervals};
ghost use Rattle.loop_form.specs.View.{program, entry_of, entries_view};
ghost use Rattle.loop_lists.specs.ItemLists.{AreItems};

use crate::entry_list::{item_count, list_items};
use crate::held_throughout::held_count;
use crate::item_list::last_use_if_made;
use crate::items::Items;
use kernel_tree::Checked;
use loop_form::Entry;
use reg_assign::{Interval, RegClass};
use std::alloc::{AllocError, Global};

// The values of a class that some items of a kernel make.
fn push_spans(
    spans: &mut Vec<Interval>,
    class: RegClass,
    all: &[Entry<'_>],
    some: &[Entry<'_>],
) -> Result<(), AllocError>
    ensures { OnOk result (spans.new.items ≡ spans.old.items
        ++ spans_of class (entries_view all.now) (entries_view some.now)) }
{
    for entry in some {
        if let Some(last_use) = last_use_if_made(class, all, entry) {
            spans.push(Interval {
                from: entry.item,
                last_use,
            })?;
        }
    }
    Ok(())
}

// The values of a class.
fn push_values(
    spans: &mut Vec<Interval>,
    kernel: &Checked,
    items: &Items<'_>,
    class: RegClass,
) -> Result<(), AllocError>
    requires { AreItems (program kernel.now) items.now }
    ensures { OnOk result (spans.new.items ≡ spans.old.items ++ values (program kernel.now) class) }
{
    match class {
        RegClass::X => push_spans(spans, class, &items.all, &items.all),
        RegClass::Z | RegClass::P => push_spans(spans, class, &items.all, &items.looped),
    }
}

// So many intervals over all items of a kernel.
fn whole_intervals(alloc: Global, count: u32, size: u32) -> Result<Vec<Interval>, AllocError>
    ensures { IfOk result (λ v. v.items ≡ replicate count (record { from = 0; last_use = size })) }
{
    let mut intervals = Vec::new(alloc);
    for _made in 0..count {
        intervals.push(Interval {
            from: 0,
            last_use: size,
        })?;
    }
    Ok(intervals)
}

/// The intervals of a class, by the items of the kernel.
#[tactic(auto, unfolding(loop_form::specs::View::program))]
pub fn intervals_by(
    alloc: Global,
    kernel: &Checked,
    items: &Items<'_>,
    class: RegClass,
) -> Result<Vec<Interval>, AllocError>
    requires items { AreItems (program kernel.now) items.now }
    ensures { IfOk result (λ v. v.items ≡ intervals (program kernel.now) class) }
{
    let held = held_count(alloc, kernel, &items.looped, class)?;
    let mut intervals = whole_intervals(alloc, held, item_count(kernel, &items.all))?;
    push_values(&mut intervals, kernel, items, class)?;
    Ok(intervals)
}

/// The intervals of a class, in items of the listing: what is held throughout, over all items, and then the values in
/// the order of their items, each until the item that uses it last. For the classes Z and P only the loop counts. A
/// `let` that nothing reads has an empty interval.
#[tactic(auto, unfolding(loop_form::specs::View::program))]
pub fn intervals(
    alloc: Global,
    kernel: &Checked,
    class: RegClass,
) -> Result<Vec<Interval>, AllocError>
    ensures { IfOk result (λ v. v.items ≡ intervals (program_of (kernel_of kernel.now)) class) }
{
    intervals_by(alloc, kernel, &list_items(kernel), class)
}
