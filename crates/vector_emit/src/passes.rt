//! Emits the passes of the loop.

ghost use Rattle.std.specs.Prelude.{◌≡◌, ◌+◌, ◌*◌, ◌<◌, suc, [], ◌∷◌, OnOk};
ghost use Rattle.std.specs.List.{list_any};
ghost use Rattle.a64_code.specs.Table.{subs};
ghost use Rattle.reg_assign.specs.declared.interval.RegClass.TheVariants as class;
ghost use Rattle.label_fix.specs.Draft.{word_view};
ghost use Rattle.label_fix.specs.DraftRun as plain;
ghost use Rattle.loop_form.specs.LoopView.{view};
ghost use Rattle.loop_form.specs.Registers.{FitsKernel};
ghost use Rattle.loop_form.specs.View.{program};
ghost use Rattle.dependence.specs.Apart as apart;
ghost use Rattle.dependence.specs.Classes.{class_of};
ghost use Rattle.dependence.specs.declared.reason.Class.TheVariants.{Vector};
ghost use Rattle.label_fix.specs.Emits.{Emits, AppendsWords};
ghost use Rattle.label_fix.specs.DraftRun.{ins};
ghost use Rattle.label_fix.specs.Registers.{turn_limit};
ghost use Rattle.lane_emit.specs.RegistersView.{kernel_in, vectors_in, predicates_in};
ghost use Rattle.chunk_emit.specs.Writable.{AreWritable};
ghost use Rattle.chunk_emit.specs.View.{layout_in, width_in};
ghost use Rattle.chunk_pass.specs.PassCode.{plain_words};
ghost use Rattle.first_fault.specs.BreakRegion.{is_loop_break, region_of, rest_of};
ghost use Rattle.vector_emit.specs.Parts as parts;
ghost use Rattle.vector_emit.specs.VectorCode as code;

use a64_code::{A64, AddSubOp, AddSubShift, Cond, Reg};
use chunk_emit::{LoopLayout, loop_layout};
use chunk_pass::{emit_chunk, emit_iteration, emit_plain, lanes};
use dependence::bound_place;
use first_fault::{has_break, writable_items};
use guest_types::length::Width;
use label_fix::registers::{LANES_LEFT, TURN_LIMIT, compare_iteration};
use label_fix::{BranchKind, Draft, Label, Word};
use lane_emit::wide;
use loop_form::{LoopFacts, LoopItem};
use loop_items::loop_items;
use reg_assign::VectorRegs;
use std::alloc::{AllocError, Global};
use sve_code::{ElementCountOp, Sve};
use word_rows::Bits;

// Z is clear where a lane came through.
fn any_lane() -> Word
    ensures { word_view result ≡ code.any_lane }
{
    Word::V(Sve::Ptest {
        pn: wide(LANES_LEFT),
        pg: wide(LANES_LEFT),
    })
}

// CNTB, CNTH, CNTW, CNTD X8: the lanes of a chunk.
fn count(width: Width) -> Word
    ensures { word_view result ≡ code.count_word width }
{
    let op = match width {
        Width::B => ElementCountOp::Cntb,
        Width::H => ElementCountOp::Cnth,
        Width::S => ElementCountOp::Cntw,
        Width::D => ElementCountOp::Cntd,
    };
    Word::V(Sve::ElementCount { op, rd: TURN_LIMIT })
}

// Whether a loop has so many items that a turn has two passes.
fn is_long(items: &[LoopItem<'_>]) -> bool
    ensures { result ≡ code.is_long (view items.now) }
{
    32 < items.len()
}

// The logarithm of the number of passes of a turn.
fn turn_shift(long: bool) -> Bits<6>
    ensures { result.number ≡ code.turn_shift long }
{
    if long {
        Bits { number: 1 }
    } else {
        Bits { number: 2 }
    }
}

// X8, the last iteration from which the chunks of a turn are left.
fn limit(bound: Reg, long: bool) -> Word
    ensures { let shift = code.turn_shift long in
        plain.Put (word_view result) ≡ ins subs (turn_limit ∷ bound.number ∷ shift ∷ turn_limit ∷ 0 ∷ []) }
{
    Word::A(A64::AddSubShifted {
        op: AddSubOp::Subs,
        rd: TURN_LIMIT,
        rn: bound,
        imm6: turn_shift(long),
        rm: TURN_LIMIT,
        shift: AddSubShift::Lsl,
    })
}

// A chunk of a loop with a break.
fn emit_chunk_part(
    alloc: Global,
    layout: &LoopLayout<'_>,
    bound: Reg,
    items: &[LoopItem<'_>],
    head: Label,
    end: Label,
    draft: &mut Draft,
) -> Result<(), AllocError>
    requires region { AreWritable (width_in layout.now) (region_of (view items.now)) }
    requires rest { AreWritable (width_in layout.now) (rest_of (view items.now)) }
    requires head { head < draft.old.labels }
    requires end { end < draft.old.labels }
    ensures { let part = parts.chunk_part (width_in layout.now) (layout_in layout.now) bound.number in
        OnOk result (Emits draft.old draft.new draft.old.labels (part (view items.now) head end)) }
{
    draft.place(head)?;
    emit_chunk(alloc, layout, bound, items, draft)?;
    draft.put(any_lane())?;
    draft.branch(BranchKind::If(Cond::Ne), head)?;
    draft.put(compare_iteration(bound))?;
    draft.branch(BranchKind::If(Cond::Hs), end)
}

// One iteration of such a loop.
fn emit_iteration_part(
    alloc: Global,
    layout: &LoopLayout<'_>,
    items: &[LoopItem<'_>],
    head: Label,
    end: Label,
    draft: &mut Draft,
) -> Result<(), AllocError>
    requires region { AreWritable (width_in layout.now) (region_of (view items.now)) }
    requires rest { AreWritable (width_in layout.now) (rest_of (view items.now)) }
    requires head { head < draft.old.labels }
    requires end { end < draft.old.labels }
    ensures { let part = parts.iteration_part (width_in layout.now) (layout_in layout.now) in
        OnOk result (Emits draft.old draft.new draft.old.labels (part (view items.now) head end)) }
{
    emit_iteration(alloc, layout, items, draft)?;
    draft.put(any_lane())?;
    draft.branch(BranchKind::If(Cond::Ne), head)?;
    draft.place(end)
}

// Two passes.
fn emit_two(
    alloc: Global,
    layout: &LoopLayout<'_>,
    items: &[LoopItem<'_>],
    draft: &mut Draft,
) -> Result<(), AllocError>
    requires writable { AreWritable (width_in layout.now) (view items.now) }
    ensures { let words = plain_words (width_in layout.now) (layout_in layout.now) (view items.now) in
        OnOk result (Emits draft.old draft.new draft.old.labels (code.times 2 words)) }
{
    emit_plain(alloc, layout, items, draft)?;
    emit_plain(alloc, layout, items, draft)
}

// The passes of a turn.
fn emit_turn(
    alloc: Global,
    layout: &LoopLayout<'_>,
    items: &[LoopItem<'_>],
    long: bool,
    draft: &mut Draft,
) -> Result<(), AllocError>
    requires writable { AreWritable (width_in layout.now) (view items.now) }
    ensures { let words = plain_words (width_in layout.now) (layout_in layout.now) (view items.now) in
        OnOk result (Emits draft.old draft.new draft.old.labels (code.times (code.turn_passes long) words)) }
{
    if long {
        return emit_two(alloc, layout, items, draft);
    }
    emit_two(alloc, layout, items, draft)?;
    emit_two(alloc, layout, items, draft)
}

// The turns of a loop without a break.
fn emit_turns_part(
    alloc: Global,
    layout: &LoopLayout<'_>,
    bound: Reg,
    items: &[LoopItem<'_>],
    long: bool,
    head: Label,
    end: Label,
    turn: Label,
    draft: &mut Draft,
) -> Result<(), AllocError>
    requires writable { AreWritable (width_in layout.now) (view items.now) }
    requires head { head < draft.old.labels }
    requires end { end < draft.old.labels }
    requires turn { turn < draft.old.labels }
    ensures { let part = parts.turns_part (width_in layout.now) (layout_in layout.now) long bound.number in
        OnOk result (Emits draft.old draft.new draft.old.labels (part (view items.now) head end turn)) }
{
    draft.put(count(layout.width()))?;
    draft.put(limit(bound, long))?;
    draft.branch(BranchKind::If(Cond::Lo), head)?;
    draft.place(turn)?;
    emit_turn(alloc, layout, items, long, draft)?;
    draft.put(compare_iteration(TURN_LIMIT))?;
    draft.branch(BranchKind::If(Cond::Ls), turn)?;
    draft.put(lanes(layout.width(), bound))?;
    draft.branch(BranchKind::If(Cond::Eq), end)
}

// A chunk of such a loop.
fn emit_plain_part(
    alloc: Global,
    layout: &LoopLayout<'_>,
    bound: Reg,
    items: &[LoopItem<'_>],
    head: Label,
    end: Label,
    draft: &mut Draft,
) -> Result<(), AllocError>
    requires writable { AreWritable (width_in layout.now) (view items.now) }
    requires head { head < draft.old.labels }
    requires end { end < draft.old.labels }
    ensures { let part = parts.plain_part (width_in layout.now) (layout_in layout.now) bound.number in
        OnOk result (Emits draft.old draft.new draft.old.labels (part (view items.now) head end)) }
{
    draft.place(head)?;
    emit_plain(alloc, layout, items, draft)?;
    draft.put(lanes(layout.width(), bound))?;
    draft.branch(BranchKind::If(Cond::Ne), head)?;
    draft.place(end)
}

// The passes of a loop with a break.
fn emit_breaking(
    alloc: Global,
    layout: &LoopLayout<'_>,
    bound: Reg,
    items: &[LoopItem<'_>],
    draft: &mut Draft,
) -> Result<(), AllocError>
    requires bound { bound.number ≡ apart.bound_place (kernel_in layout.now.registers) }
    requires region { AreWritable (width_in layout.now) (region_of (view items.now)) }
    requires rest { AreWritable (width_in layout.now) (rest_of (view items.now)) }
    ensures { let r = layout.now.registers in
        let passes = code.breaking_code (kernel_in r) (vectors_in r) (predicates_in r) (view items.now) in
        OnOk result (Emits draft.old draft.new (draft.old.labels + 2) (passes draft.old.labels)) }
{
    let head = draft.label()?;
    let end = draft.label()?;
    emit_chunk_part(alloc, layout, bound, items, head, end, draft)?;
    emit_iteration_part(alloc, layout, items, head, end, draft)
}

// The passes of a loop without a break.
fn emit_straight(
    alloc: Global,
    layout: &LoopLayout<'_>,
    bound: Reg,
    items: &[LoopItem<'_>],
    draft: &mut Draft,
) -> Result<(), AllocError>
    requires bound { bound.number ≡ apart.bound_place (kernel_in layout.now.registers) }
    requires writable { AreWritable (width_in layout.now) (view items.now) }
    ensures { let r = layout.now.registers in
        let passes = code.straight_code (kernel_in r) (vectors_in r) (predicates_in r) (view items.now) in
        OnOk result (Emits draft.old draft.new (draft.old.labels + 3) (passes draft.old.labels)) }
{
    let head = draft.label()?;
    let end = draft.label()?;
    let turn = draft.label()?;
    let long = is_long(items);
    draft.put(lanes(layout.width(), bound))?;
    draft.branch(BranchKind::If(Cond::Eq), end)?;
    emit_turns_part(alloc, layout, bound, items, long, head, end, turn, draft)?;
    emit_plain_part(alloc, layout, bound, items, head, end, draft)
}

// The passes, by whether the loop has a break.
fn emit_by(
    alloc: Global,
    layout: &LoopLayout<'_>,
    bound: Reg,
    items: &[LoopItem<'_>],
    draft: &mut Draft,
) -> Result<(), AllocError>
    requires bound { bound.number ≡ apart.bound_place (kernel_in layout.now.registers) }
    requires region { AreWritable (width_in layout.now) (region_of (view items.now)) }
    requires rest { AreWritable (width_in layout.now) (rest_of (view items.now)) }
    ensures { let r = layout.now.registers in
        let by = code.passes_by (list_any is_loop_break (view items.now)) in
        let passes = by (kernel_in r) (vectors_in r) (predicates_in r) (view items.now) in
        let more = code.labels_by (list_any is_loop_break (view items.now)) in
        OnOk result (Emits draft.old draft.new (draft.old.labels + more) (passes draft.old.labels)) }
{
    if has_break(items) {
        emit_breaking(alloc, layout, bound, items, draft)
    } else {
        emit_straight(alloc, layout, bound, items, draft)
    }
}

/// The passes of a kernel's loop, with their labels: before a pass, after the loop, and in a loop without a break before a turn.
pub fn emit_passes(
    alloc: Global,
    facts: &LoopFacts<'_>,
    regs: &VectorRegs,
    draft: &mut Draft,
) -> Result<(), AllocError>
    requires class { class_of (program facts.now.kernel.now) ≡ Vector }
    requires vectors { FitsKernel (program facts.now.kernel.now) class.Z regs.now.z }
    requires predicates { FitsKernel (program facts.now.kernel.now) class.P regs.now.p }
    ensures words { let most = code.passes_most (program facts.now.kernel.now) in
        OnOk result (AppendsWords draft.old draft.new most) }
    ensures emits { let passes = code.passes_code (program facts.now.kernel.now) regs.now.z regs.now.p in
        let more = code.passes_labels (program facts.now.kernel.now) in
        OnOk result (Emits draft.old draft.new (draft.old.labels + more) (passes draft.old.labels)) }
{
    writable_items(facts.kernel, regs);
    let items = loop_items(alloc, facts.kernel)?;
    let layout = loop_layout(facts, regs, &items);
    let bound = Bits {
        number: bound_place(facts.kernel),
    };
    emit_by(alloc, &layout, bound, &items, draft)
}
