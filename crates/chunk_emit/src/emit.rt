//! The code of items over the lanes of a chunk.

ghost use Rattle.std.specs.Prelude.{◌≡◌, ◌<◌, ◌≤◌, [], ◌∷◌, unsigned_abs, OnOk, if◌then◌else◌};
ghost use Rattle.machine_model.specs.InstructionTable.{Vector};
ghost use Rattle.kernel_tree.specs.Wrap.{log_bytes};
ghost use Rattle.label_fix.specs.Emits.{Emits, EmitsBefore, puts};
ghost use Rattle.loop_form.specs.LoopView.{op_of, view_of};
ghost use Rattle.sve_code.specs.View.{instruction_view};
ghost use Rattle.lane_emit.specs.ItemCode as lane;
ghost use Rattle.lane_emit.specs.LaneCode.{size_of};
ghost use Rattle.lane_emit.specs.View.{words_of};
ghost use Rattle.lane_emit.specs.AccumulatorLanes.{update_code};
ghost use Rattle.chunk_emit.specs.Registers as layouts;
ghost use Rattle.chunk_emit.specs.ChunkCode as code;
ghost use Rattle.chunk_emit.specs.Writable.{IsPlace, IsWritable};
ghost use Rattle.chunk_emit.specs.View.{layout_in, width_in};

use crate::layout::LoopLayout;
use crate::words::{
    base_register, cut, cut_reach, gather, index_register, index_word, load, store,
};
use a64_code::Reg;
use guest_types::length::Width;
use kernel_tree::{Ty, UpdateOp};
use label_fix::registers::LANES_LEFT;
use label_fix::{Draft, Word};
use lane_emit::{emit_item, shift_left, update_word};
use loop_form::{LoopItem, LoopOp, Operand};
use std::alloc::{AllocError, Global};
use sve_code::{GoverningReg, Sve, VectorReg};

/// Vector instructions.
pub fn put_all(words: &[Sve], draft: &mut Draft) -> Result<(), AllocError>
    ensures { OnOk result (Emits draft.old draft.new draft.old.labels (puts (code.vectors (words_of words.now)))) }
{
    for word in words {
        draft.put(Word::V(*word))?;
    }
    Ok(())
}

/// The index of an element: X26 = X9 and an offset, where it is not 0.
pub fn emit_index(offset: i32, draft: &mut Draft) -> Result<(), AllocError>
    requires { unsigned_abs offset < 4096 }
    ensures { OnOk result (EmitsBefore draft.old draft.new draft.old.labels (code.with_index offset)) }
{
    if offset != 0 {
        draft.put(index_word(offset))?;
    }
    Ok(())
}

/// The predicate register of a mask: P0 where an item has none.
pub fn mask_of(layout: &LoopLayout<'_>, mask: Option<u32>) -> GoverningReg
    ensures { result.number ≡ lane.mask_register (layout_in layout.now).registers mask }
{
    match mask {
        None => LANES_LEFT,
        Some(item) => layout.registers.p(item),
    }
}

// A read.
fn emit_load(
    layout: &LoopLayout<'_>,
    item: u32,
    mask: GoverningReg,
    base: Operand,
    ty: Ty,
    offset: i32,
    draft: &mut Draft,
) -> Result<(), AllocError>
    requires { IsPlace base offset }
    ensures { let word = code.load_word (width_in layout.now) ty (layouts.z_of (layout_in layout.now) item)
        mask.number (layouts.base_of base) (code.index_of offset) in
        OnOk result (Emits draft.old draft.new draft.old.labels (puts (code.with_index offset (Vector word ∷ [])))) }
{
    let d = layout.registers.z(item);
    let word = load(
        layout.width(),
        ty,
        d,
        mask,
        base_register(base),
        index_register(offset),
    );
    emit_index(offset, draft)?;
    draft.put(word)
}

// A read of the elements that a register has the indexes of, in lanes of 64 bits.
fn emit_elements(
    ty: Ty,
    d: VectorReg,
    mask: GoverningReg,
    base: Reg,
    index: VectorReg,
    draft: &mut Draft,
) -> Result<(), AllocError>
    ensures { let words = code.gather_by (log_bytes ty) ty d.number mask.number base.number index.number in
        OnOk result (Emits draft.old draft.new draft.old.labels (puts (code.vectors words))) }
{
    let shift = ty.log_bytes();
    if shift == 0 {
        draft.put(gather(ty, d, mask, base, index))?;
    } else {
        draft.put(Word::V(shift_left(Width::D, d, index, shift)))?;
        draft.put(gather(ty, d, mask, base, d))?;
    }
    Ok(())
}

// A read at a computed index, which is cut to a reach first where there is one to cut to.
fn emit_gather(
    layout: &LoopLayout<'_>,
    item: u32,
    mask: GoverningReg,
    base: Operand,
    ty: Ty,
    reach: Option<u32>,
    index: Operand,
    draft: &mut Draft,
) -> Result<(), AllocError>
    requires { layouts.base_of base < 32 }
    ensures { let words = code.gather_code ty reach (layouts.z_of (layout_in layout.now) item) mask.number
        (layouts.base_of base) ((layout_in layout.now).registers.source index) in
        OnOk result (Emits draft.old draft.new draft.old.labels (puts (code.vectors words))) }
{
    let d = layout.registers.z(item);
    let x = layout.registers.source(index);
    match reach {
        None => emit_elements(ty, d, mask, base_register(base), x, draft)?,
        Some(reach) => {
            draft.put(cut(reach, d, x))?;
            emit_elements(ty, d, mask, base_register(base), d, draft)?;
        }
    }
    Ok(())
}

// A store.
fn emit_store(
    layout: &LoopLayout<'_>,
    mask: GoverningReg,
    base: Operand,
    ty: Ty,
    offset: i32,
    value: Operand,
    draft: &mut Draft,
) -> Result<(), AllocError>
    requires place { IsPlace base offset }
    requires narrow { log_bytes ty ≤ size_of (width_in layout.now) }
    ensures { let word = code.store_word (width_in layout.now) ty ((layout_in layout.now).registers.source value)
        mask.number (layouts.base_of base) (code.index_of offset) in
        OnOk result (Emits draft.old draft.new draft.old.labels (puts (code.with_index offset (Vector word ∷ [])))) }
{
    let v = layout.registers.source(value);
    let word = store(
        layout.width(),
        ty,
        v,
        mask,
        base_register(base),
        index_register(offset),
    );
    emit_index(offset, draft)?;
    draft.put(word)
}

// An update of an accumulator.
fn emit_update(
    layout: &LoopLayout<'_>,
    mask: GoverningReg,
    name: &str,
    op: UpdateOp,
    ty: Ty,
    value: Operand,
    draft: &mut Draft,
) -> Result<(), AllocError>
    ensures { let words = update_code (width_in layout.now) op ty ((layout_in layout.now).sum name.now)
        mask.number ((layout_in layout.now).registers.source value) in
        OnOk result (Emits draft.old draft.new draft.old.labels (puts (code.vectors words))) }
{
    let sum = layout.registers.sum(name);
    let v = layout.registers.source(value);
    draft.put(Word::V(update_word(layout.width(), op, ty, sum, mask, v)))
}

/// Whether an operation makes a condition.
pub fn makes_truth(op: &LoopOp<'_>) -> bool
    ensures { result ≡ lane.makes_truth (op_of op.now) }
{
    matches!(
        *op,
        LoopOp::Compare { .. } | LoopOp::Not(_) | LoopOp::And(_) | LoopOp::Or(..)
    )
}

/// Whether what an item makes is used.
pub fn is_used(layout: &LoopLayout<'_>, item: u32, op: &LoopOp<'_>) -> bool
    ensures { result ≡ layouts.is_used (layout_in layout.now) (op_of op.now) item }
{
    if makes_truth(op) {
        layout.is_truth_used(item)
    } else {
        layout.is_value_used(item)
    }
}

// An operation on values or conditions, where what it makes is used.
fn emit_pure(
    alloc: Global,
    layout: &LoopLayout<'_>,
    item: u32,
    mask: GoverningReg,
    op: &LoopOp<'_>,
    draft: &mut Draft,
) -> Result<(), AllocError>
    ensures { let l = layout_in layout.now in
        let words = lane.op_code (width_in layout.now) l.registers item mask.number (op_of op.now) in
        OnOk result (Emits draft.old draft.new draft.old.labels
        (puts (if layouts.is_used l (op_of op.now) item then code.vectors words else []))) }
{
    if is_used(layout, item, op) {
        let words = emit_item(alloc, layout.width(), &layout.registers, item, mask, op)?;
        put_all(&words, draft)?;
    }
    Ok(())
}

// An operation under the mask in a predicate register.
fn emit_op(
    alloc: Global,
    layout: &LoopLayout<'_>,
    item: u32,
    mask: GoverningReg,
    op: &LoopOp<'_>,
    draft: &mut Draft,
) -> Result<(), AllocError>
    requires { IsWritable (width_in layout.now) (op_of op.now) }
    ensures { let words = code.op_words (width_in layout.now) (layout_in layout.now) item mask.number
        (op_of op.now) in
        OnOk result (Emits draft.old draft.new draft.old.labels (puts words)) }
{
    match *op {
        LoopOp::Load {
            base,
            ty: Some(ty),
            offset,
            ..
        } => emit_load(layout, item, mask, base, ty, offset, draft)?,
        LoopOp::Gather {
            base,
            ty: Some(ty),
            reach,
            index_ty: Some(index_ty),
            index,
            ..
        } => {
            let reach = cut_reach(reach, index_ty);
            emit_gather(layout, item, mask, base, ty, reach, index, draft)?
        }
        LoopOp::Store {
            base,
            ty: Some(ty),
            offset,
            value,
            ..
        } => emit_store(layout, mask, base, ty, offset, value, draft)?,
        LoopOp::Update {
            name,
            op,
            ty: Some(ty),
            value,
        } => emit_update(layout, mask, name, op, ty, value, draft)?,
        _ => emit_pure(alloc, layout, item, mask, op, draft)?,
    }
    Ok(())
}

/// The code of an item.
pub fn emit_one(
    alloc: Global,
    layout: &LoopLayout<'_>,
    item: &LoopItem<'_>,
    draft: &mut Draft,
) -> Result<(), AllocError>
    requires { IsWritable (width_in layout.now) (view_of item.now).op }
    ensures { let words = code.item_words (width_in layout.now) (layout_in layout.now) (view_of item.now) in
        OnOk result (Emits draft.old draft.new draft.old.labels (puts words)) }
{
    let mask = mask_of(layout, item.mask);
    emit_op(alloc, layout, item.item, mask, &item.op, draft)
}
