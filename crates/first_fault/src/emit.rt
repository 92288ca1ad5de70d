//! The code of the break region.

ghost use Rattle.std.specs.Prelude.{◌≡◌, ◌+◌, ◌*◌, ◌<◌, [], ◌∷◌, length, OnOk, if◌then◌else◌};
ghost use Rattle.label_fix.specs.Emits.{Emits, EmitsBefore, AppendsWords, puts};
ghost use Rattle.loop_form.specs.LoopView.{op_of, view_of, view};
ghost use Rattle.lane_emit.specs.ItemCode as lane;
ghost use Rattle.chunk_emit.specs.Registers as layouts;
ghost use Rattle.chunk_emit.specs.ChunkCode as code;
ghost use Rattle.chunk_emit.specs.Writable.{IsPlace, IsWritable, AreWritable};
ghost use Rattle.chunk_emit.specs.View.{layout_in, width_in};
ghost use Rattle.first_fault.specs.RegionCode as region;
ghost use Rattle.first_fault.specs.View.{mode_of};

use crate::mode::Mode;
use crate::words::{address, first_fault, leave, narrow, non_fault, read_faults, set_faults};
use a64_code::Reg;
use chunk_emit::{
    LoopLayout, base_register, emit_index, index_register, is_used, load, mask_of, put_all,
};
use kernel_tree::Ty;
use label_fix::Draft;
use lane_emit::emit_item;
use loop_form::{LoopItem, LoopOp, Operand};
use std::alloc::{AllocError, Global};
use sve_code::OffsetReg;

// A mask loses the lanes that P0 has lost.
fn emit_narrow(
    layout: &LoopLayout<'_>,
    mask: Option<u32>,
    draft: &mut Draft,
) -> Result<(), AllocError>
    ensures { OnOk result (EmitsBefore draft.old draft.new draft.old.labels
        (region.narrow_words (layout_in layout.now) mask)) }
{
    if let Some(item) = mask {
        draft.put(narrow(layout.registers.p(item)))?;
    }
    Ok(())
}

// A read that may stop early.
fn emit_early(
    layout: &LoopLayout<'_>,
    item: u32,
    mask: Option<u32>,
    ty: Ty,
    base: Reg,
    index: OffsetReg,
    draft: &mut Draft,
) -> Result<(), AllocError>
    ensures { let words = region.load_words region.Early (width_in layout.now) (layout_in layout.now) item mask ty
        base.number index.number in
        OnOk result (Emits draft.old draft.new draft.old.labels (puts words)) }
{
    let d = layout.registers.z(item);
    match mask {
        None => {
            draft.put(first_fault(layout.width(), ty, d, base, index))?;
            draft.put(read_faults())?;
        }
        Some(mask) => {
            draft.put(address(ty, base, index))?;
            let m = layout.registers.p(mask);
            draft.put(non_fault(layout.width(), ty, d, m))?;
            draft.put(read_faults())?;
        }
    }
    Ok(())
}

// A plain read.
fn emit_plain(
    layout: &LoopLayout<'_>,
    item: u32,
    mask: Option<u32>,
    ty: Ty,
    base: Reg,
    index: OffsetReg,
    draft: &mut Draft,
) -> Result<(), AllocError>
    ensures { let words = region.load_words region.Single (width_in layout.now) (layout_in layout.now) item mask ty
        base.number index.number in
        OnOk result (Emits draft.old draft.new draft.old.labels (puts words)) }
{
    let d = layout.registers.z(item);
    let m = mask_of(layout, mask);
    draft.put(load(layout.width(), ty, d, m, base, index))
}

fn emit_read(
    mode: Mode,
    layout: &LoopLayout<'_>,
    item: u32,
    mask: Option<u32>,
    ty: Ty,
    base: Reg,
    index: OffsetReg,
    draft: &mut Draft,
) -> Result<(), AllocError>
    ensures { let words = region.load_words (mode_of mode) (width_in layout.now)
        (layout_in layout.now) item mask ty
        base.number index.number in
        OnOk result (Emits draft.old draft.new draft.old.labels (puts words)) }
{
    match mode {
        Mode::Early => emit_early(layout, item, mask, ty, base, index, draft)?,
        Mode::Single => emit_plain(layout, item, mask, ty, base, index, draft)?,
    }
    Ok(())
}

// A read, with its mask and its index.
fn emit_load(
    mode: Mode,
    layout: &LoopLayout<'_>,
    item: u32,
    mask: Option<u32>,
    base: Operand,
    ty: Ty,
    offset: i32,
    draft: &mut Draft,
) -> Result<(), AllocError>
    requires { IsPlace base offset }
    ensures { let l = layout_in layout.now in
        let read = region.load_words (mode_of mode) (width_in layout.now) l item mask ty (layouts.base_of base)
        (code.index_of offset) in
        OnOk result (Emits draft.old draft.new draft.old.labels
        (puts (region.narrow_words l mask (code.with_index offset read)))) }
{
    let array = base_register(base);
    let index = index_register(offset);
    emit_narrow(layout, mask, draft)?;
    emit_index(offset, draft)?;
    emit_read(mode, layout, item, mask, ty, array, index, draft)
}

// An operation on values or conditions, where what it makes is used.
fn emit_used(
    alloc: Global,
    layout: &LoopLayout<'_>,
    item: &LoopItem<'_>,
    draft: &mut Draft,
) -> Result<(), AllocError>
    ensures { let l = layout_in layout.now in
        let it = view_of item.now in
        let words = lane.op_code (width_in layout.now) l.registers it.item
        (lane.mask_register l.registers it.mask) it.op in
        let all = region.narrow_words l it.mask (code.vectors words) in
        OnOk result (Emits draft.old draft.new draft.old.labels
        (puts (if layouts.is_used l it.op it.item then all else []))) }
{
    if is_used(layout, item.item, &item.op) {
        emit_narrow(layout, item.mask, draft)?;
        let m = mask_of(layout, item.mask);
        let words = emit_item(
            alloc,
            layout.width(),
            &layout.registers,
            item.item,
            m,
            &item.op,
        )?;
        put_all(&words, draft)?;
    }
    Ok(())
}

// An item of the region.
fn emit_step(
    alloc: Global,
    mode: Mode,
    layout: &LoopLayout<'_>,
    item: &LoopItem<'_>,
    draft: &mut Draft,
) -> Result<(), AllocError>
    requires { IsWritable (width_in layout.now) (view_of item.now).op }
    ensures { let it = view_of item.now in
        let words = region.step_words (mode_of mode) (width_in layout.now)
        (layout_in layout.now) it.item it.mask it.op in
        OnOk result (Emits draft.old draft.new draft.old.labels (puts words)) }
{
    match item.op {
        LoopOp::Load {
            base,
            ty: Some(ty),
            offset,
            ..
        } => emit_load(mode, layout, item.item, item.mask, base, ty, offset, draft)?,
        LoopOp::Break(condition) => draft.put(leave(layout.registers.p(condition)))?,
        _ => emit_used(alloc, layout, item, draft)?,
    }
    Ok(())
}

// The items of the region.
fn emit_region(
    alloc: Global,
    mode: Mode,
    layout: &LoopLayout<'_>,
    items: &[LoopItem<'_>],
    draft: &mut Draft,
) -> Result<(), AllocError>
    requires { AreWritable (width_in layout.now) (view items.now) }
    ensures { let words = region.region_words (mode_of mode) (width_in layout.now) (layout_in layout.now)
        (view items.now) in
        OnOk result (Emits draft.old draft.new draft.old.labels (puts words)) }
{
    for item in items {
        emit_step(alloc, mode, layout, item, draft)?;
    }
    Ok(())
}

/// The break region over a chunk, by loads that may stop early.
pub fn emit_exits(
    alloc: Global,
    layout: &LoopLayout<'_>,
    items: &[LoopItem<'_>],
    draft: &mut Draft,
) -> Result<(), AllocError>
    requires { AreWritable (width_in layout.now) (view items.now) }
    ensures words { OnOk result (AppendsWords draft.old draft.new (1 + 5 * length items.now)) }
    ensures emits { let words = region.exits_words (width_in layout.now) (layout_in layout.now) (view items.now) in
        OnOk result (Emits draft.old draft.new draft.old.labels (puts words)) }
{
    draft.put(set_faults())?;
    emit_region(alloc, Mode::Early, layout, items, draft)
}

/// The break region over one lane, by plain loads.
pub fn emit_single(
    alloc: Global,
    layout: &LoopLayout<'_>,
    items: &[LoopItem<'_>],
    draft: &mut Draft,
) -> Result<(), AllocError>
    requires { AreWritable (width_in layout.now) (view items.now) }
    ensures words { OnOk result (AppendsWords draft.old draft.new (4 * length items.now)) }
    ensures emits { let words = region.single_words (width_in layout.now) (layout_in layout.now) (view items.now) in
        OnOk result (Emits draft.old draft.new draft.old.labels (puts words)) }
{
    emit_region(alloc, Mode::Single, layout, items, draft)
}
