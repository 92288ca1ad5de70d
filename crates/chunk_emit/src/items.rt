//! The code of a list of items.

ghost use Rattle.std.specs.Prelude.{◌≡◌, ◌+◌, ◌<◌, List, ◌++◌, length, drop, slice_get, OnOk, IfOk, option_map};
ghost use Rattle.label_fix.specs.DraftRun.{DraftEntry};
ghost use Rattle.label_fix.specs.Emits.{Emits, puts};
ghost use Rattle.loop_form.specs.LoopView.{op_of, view_of, view};
ghost use Rattle.chunk_emit.specs.ChunkCode as code;
ghost use Rattle.chunk_emit.specs.Steps as steps;
ghost use Rattle.chunk_emit.specs.Writable.{AreWritable};
ghost use Rattle.chunk_emit.specs.View.{layout_in, width_in};

use crate::emit::emit_one;
use crate::layout::LoopLayout;
use label_fix::Draft;
use loop_form::{LoopItem, LoopOp, Operand};
use std::alloc::{AllocError, Global};

// Whether an operand is the value of an item.
fn is_made(item: u32, value: Operand) -> bool
    ensures { result ≡ code.is_made item value }
{
    match value {
        Operand::Made(made) => made == item,
        _ => false,
    }
}

// The store of a cast's operand, where the one operation is a cast and the other one stores it.
fn past_cast<'a>(item: u32, op: &LoopOp<'a>, next: &LoopOp<'a>) -> Option<LoopOp<'a>>
    ensures { option_map op_of result ≡ code.past_cast item (op_of op.now) (op_of next.now) }
{
    match (*op, *next) {
        (
            LoopOp::Cast { arg, .. },
            LoopOp::Store {
                array,
                base,
                ty,
                offset,
                value,
            },
        ) if is_made(item, value) => Some(LoopOp::Store {
            array,
            base,
            ty,
            offset,
            value: arg,
        }),
        _ => None,
    }
}

// The item that is written in an item's place, and whether it is the next one.
fn choose<'a>(item: LoopItem<'a>, next: Option<LoopItem<'a>>) -> (LoopItem<'a>, bool)
    ensures item { view_of result.0 ≡ steps.chosen (view_of item.entry) (option_map view_of next.entry) }
    ensures next { result.1 ≡ steps.takes_next (view_of item.entry) (option_map view_of next.entry) }
{
    match next {
        None => (item, false),
        Some(next) => match past_cast(item.item, &item.op, &next.op) {
            None => (item, false),
            Some(op) => (LoopItem { op, ..next }, true),
        },
    }
}

// The item at a place.
fn item_at<'a>(items: &[LoopItem<'a>], place: usize) -> Option<LoopItem<'a>>
    ensures { result ≡ slice_get items.now place }
{
    items.get(place).copied()
}

// The code of the item at a place, or of the store that takes its place, where the item is not done: whether the next one
// then is.
fn emit_at(
    alloc: Global,
    layout: &LoopLayout<'_>,
    done: bool,
    items: &[LoopItem<'_>],
    place: usize,
    draft: &mut Draft,
) -> Result<bool, AllocError>
    requires within { place < length items.now }
    requires writable { AreWritable (width_in layout.now) (view (drop place items.now)) }
    ensures labels { OnOk result (draft.new.labels ≡ draft.old.labels) }
    ensures code { let left = steps.left_words (width_in layout.now) (layout_in layout.now) in
        IfOk result (λ took. (rest : List DraftEntry)
        → draft.new.entries ++ puts (left took (view (drop (place + 1) items.now))) rest
        ≡ draft.old.entries ++ puts (left done (view (drop place items.now))) rest) }
{
    if done {
        return Ok(false);
    }
    let (chosen, takes) = choose(items[place], item_at(items, place + 1));
    emit_one(alloc, layout, &chosen, draft)?;
    Ok(takes)
}

/// The code of a list of items, done over the lanes of a chunk.
pub fn emit_items(
    alloc: Global,
    layout: &LoopLayout<'_>,
    items: &[LoopItem<'_>],
    draft: &mut Draft,
) -> Result<(), AllocError>
    requires { AreWritable (width_in layout.now) (view items.now) }
    ensures { let words = code.items_words (width_in layout.now) (layout_in layout.now) (view items.now) in
        OnOk result (Emits draft.old draft.new draft.old.labels (puts words)) }
{
    let mut done = false;
    for place in 0..items.len() {
        done = emit_at(alloc, layout, done, items, place, draft)?;
    }
    Ok(())
}
