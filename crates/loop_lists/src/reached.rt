//! How far computed indexes reach.

ghost use Rattle.std.specs.Prelude.{◌≡◌, ◌≤◌, length, filter_map, option_and_then};
ghost use Rattle.std.specs.List.{find};
ghost use Rattle.kernel_tree.specs.Plain.{term_of};
ghost use Rattle.loop_form.specs.Entries.{loop_entries};
ghost use Rattle.loop_form.specs.View.{program, content_of, entry_of, entries_view};
ghost use Rattle.loop_form.specs.Reaches.{source_type, reach_of_type, read_reach, reach_of, has_number, index_reach, reach_at, reaches_of};

use crate::entry_list::{few_looped, loop_entries};
use kernel_tree::{Checked, Expr, Ty};
use loop_form::reach::Reaches;
use loop_form::{Content, Entry, Reach, is_stream, param_place, type_reach, widens};

// The type that an index's value comes from.
#[tactic(auto, unfolding(loop_form::specs::View::program, loop_form::specs::Entries::item_type))]
fn source(kernel: &Checked, last: u32, index: &Expr) -> Option<Ty>
    ensures { result ≡ source_type (program kernel.now) last (term_of index.now) }
{
    match index {
        Expr::Cast { arg, ty } => {
            let before = last.saturating_sub(1);
            if widens(kernel.ty(before), *ty) {
                source(kernel, before, arg)
            } else {
                Some(*ty)
            }
        }
        _ => kernel.ty(last),
    }
}

// The reach of the index of a read.
fn reach_of_index(kernel: &Checked, index: &Expr, item: u32) -> Option<u32>
    ensures { result ≡ read_reach (program kernel.now) (term_of index.now) item }
{
    if is_stream(kernel, index) {
        return None;
    }
    type_reach(source(kernel, item.saturating_sub(1), index))
}

/// How many elements, from the first on, an item can come to that is a read at a computed index; None where it is no such
/// read, and where that is not known.
pub fn entry_reach(kernel: &Checked, entry: &Entry<'_>) -> Option<u32>
    ensures { result ≡ reach_of (program kernel.now) (entry_of entry.now) }
{
    match entry.content {
        Content::Read { index, .. } => reach_of_index(kernel, index, entry.item),
        _ => None,
    }
}

fn reach_among(kernel: &Checked, entries: &[Entry<'_>], item: u32) -> Option<u32>
    ensures { let k = program kernel.now in
        result ≡ option_and_then (reach_of k) (find (has_number item) (entries_view entries.now)) }
{
    for entry in entries {
        if entry.item == item {
            return entry_reach(kernel, entry);
        }
    }
    None
}

/// The same of an item of the loop by its number: 256 where the index comes from a `u8`, and 65,536 where it comes from a
/// `u16`.
pub fn index_reach(kernel: &Checked, item: u32) -> Option<u32>
    ensures { result ≡ index_reach (program kernel.now) item }
{
    let entries = loop_entries(kernel);
    reach_among(kernel, &entries, item)
}

// The read that an item is, where its index has a reach.
#[tactic(auto, unfolding(loop_form::specs::View::program))]
fn reach_in(kernel: &Checked, entry: &Entry<'_>) -> Option<Reach>
    ensures { result ≡ reach_at (program kernel.now) (entry_of entry.now) }
{
    match entry.content {
        Content::Read { array, index } => {
            let param = param_place(&kernel.kernel().params, array)?;
            let reach = reach_of_index(kernel, index, entry.item)?;
            Some(Reach { param, reach })
        }
        _ => None,
    }
}

fn reaches_among(kernel: &Checked, entries: &[Entry<'_>]) -> Reaches
    requires { length entries.now ≤ 1000 }
    ensures { result.items ≡ filter_map (reach_at (program kernel.now)) (entries_view entries.now) }
{
    let mut reaches = Reaches::new();
    for entry in entries {
        if let Some(reach) = reach_in(kernel, entry) {
            reaches.push(reach);
        }
    }
    reaches
}

/// The reads of the loop at computed indexes that have a reach, in their order, by the loop's items, without taking
/// memory.
pub fn reaches(kernel: &Checked, looped: &[Entry<'_>]) -> Reaches
    requires items { entries_view looped.now ≡ loop_entries (program kernel.now) }
    ensures { result.items ≡ reaches_of (program kernel.now) }
{
    few_looped(kernel, looped);
    reaches_among(kernel, looped)
}
