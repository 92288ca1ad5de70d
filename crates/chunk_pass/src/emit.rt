//! The code of a pass of the loop.

ghost use Rattle.std.specs.Prelude.{◌≡◌, [], ◌∷◌, OnOk, if◌then◌else◌};
ghost use Rattle.label_fix.specs.Emits.{Emits, puts};
ghost use Rattle.loop_form.specs.LoopView.{view};
ghost use Rattle.chunk_emit.specs.Writable.{AreWritable};
ghost use Rattle.chunk_emit.specs.View.{layout_in, width_in};
ghost use Rattle.first_fault.specs.BreakRegion.{region_of, rest_of};
ghost use Rattle.chunk_pass.specs.PassCode as pass;

use crate::words::{advance, first_lane, index, lanes, one};
use a64_code::Reg;
use chunk_emit::{LoopLayout, emit_items};
use first_fault::{emit_exits, emit_single, region, rest};
use label_fix::{Draft, Word};
use loop_form::{LoopItem, Operand};
use std::alloc::{AllocError, Global};

// The loop variable, where it has a register.
fn emit_loop_index(layout: &LoopLayout<'_>, draft: &mut Draft) -> Result<(), AllocError>
    ensures { OnOk result (Emits draft.old draft.new draft.old.labels (puts (pass.index_words (layout_in layout.now)))) }
{
    if layout.registers.is_index_held() {
        let d = layout.registers.source(Operand::LoopIndex);
        draft.put(Word::V(index(d)))?;
    }
    Ok(())
}

/// A chunk of a loop with a break: the lanes below the bound, in a general register.
pub fn emit_chunk(
    alloc: Global,
    layout: &LoopLayout<'_>,
    bound: Reg,
    items: &[LoopItem<'_>],
    draft: &mut Draft,
) -> Result<(), AllocError>
    requires region { AreWritable (width_in layout.now) (region_of (view items.now)) }
    requires rest { AreWritable (width_in layout.now) (rest_of (view items.now)) }
    ensures { let words = pass.chunk_words (width_in layout.now) (layout_in layout.now) bound.number
        (view items.now) in
        OnOk result (Emits draft.old draft.new draft.old.labels (puts words)) }
{
    draft.put(lanes(layout.width(), bound))?;
    emit_loop_index(layout, draft)?;
    emit_exits(alloc, layout, region(items), draft)?;
    emit_items(alloc, layout, rest(items), draft)?;
    draft.put(advance(layout.width()))?;
    Ok(())
}

/// One iteration of such a loop, where no lane came through a chunk.
pub fn emit_iteration(
    alloc: Global,
    layout: &LoopLayout<'_>,
    items: &[LoopItem<'_>],
    draft: &mut Draft,
) -> Result<(), AllocError>
    requires region { AreWritable (width_in layout.now) (region_of (view items.now)) }
    requires rest { AreWritable (width_in layout.now) (rest_of (view items.now)) }
    ensures { let words = pass.iteration_words (width_in layout.now) (layout_in layout.now) (view items.now) in
        OnOk result (Emits draft.old draft.new draft.old.labels (puts words)) }
{
    draft.put(one())?;
    draft.put(first_lane(layout.width()))?;
    emit_single(alloc, layout, region(items), draft)?;
    emit_items(alloc, layout, rest(items), draft)?;
    draft.put(advance(layout.width()))?;
    Ok(())
}

/// A chunk of a loop without a break, whose lanes are in P0.
pub fn emit_plain(
    alloc: Global,
    layout: &LoopLayout<'_>,
    items: &[LoopItem<'_>],
    draft: &mut Draft,
) -> Result<(), AllocError>
    requires { AreWritable (width_in layout.now) (view items.now) }
    ensures { let words = pass.plain_words (width_in layout.now) (layout_in layout.now) (view items.now) in
        OnOk result (Emits draft.old draft.new draft.old.labels (puts words)) }
{
    emit_loop_index(layout, draft)?;
    emit_items(alloc, layout, items, draft)?;
    draft.put(advance(layout.width()))?;
    Ok(())
}
