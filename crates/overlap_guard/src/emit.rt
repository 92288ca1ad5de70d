//! Emits the guard.

ghost use Rattle.std.specs.Prelude.{◌≡◌, ◌<◌, ◌≤◌, ◌+◌, ◌*◌, pos, ◌*ℤ◌, unsigned_abs, ◌||◌, OnOk};
ghost use Rattle.std.specs.List.{list_any};
ghost use Rattle.label_fix.specs.Emits.{Emits, AppendsWords};
ghost use Rattle.dependence.specs.declared.used.Extent.{Extent};
ghost use Rattle.dependence.specs.Apart.{is_stored, used_of};
ghost use Rattle.loop_form.specs.Entries.{loop_entries};
ghost use Rattle.loop_form.specs.View.{program, entries_view};
ghost use Rattle.overlap_guard.specs.Guard as guard;
ghost use Rattle.overlap_guard.specs.Guard.{IsFit, AreFit};
ghost use Rattle.word_rows.specs.Field.{flag_number};
ghost use Rattle.a64_code.specs.View.{add_sub_imm_name};
ghost use Rattle.guest_types.specs.Length.{width_bytes};
ghost use Rattle.kernel_tree.specs.Limits.{most_offset};

use crate::instructions::{bytes_at, compare, element_at, greater, step, with_top};
use crate::laws::{few_arrays, fit_arrays};
use crate::used::arrays;
use a64_code::{AddSubOp, Cond, Reg, zero};
use dependence::{Extent, Used, bound_place};
use guest_types::length::Width;
use kernel_tree::Checked;
use label_fix::registers::{SCRATCH, SECOND_SCRATCH};
use label_fix::{BranchKind, Draft, Label};
use loop_form::Entry;
use loop_lists::loop_entries;
use std::alloc::AllocError;
use word_rows::Bits;

// The register of a parameter.
fn register(place: u32) -> Reg
    requires { place < 32 }
    ensures { result.number ≡ place }
{
    Bits { number: place }
}

// X26 by an amount, where there is any.
fn emit_step(draft: &mut Draft, op: AddSubOp, by: u32, sh: bool) -> Result<(), AllocError>
    requires { by < 4096 }
    ensures { OnOk result (Emits draft.old draft.new draft.old.labels
        (guard.step_code (add_sub_imm_name op) by (flag_number sh))) }
{
    if by != 0 {
        draft.put(step(op, SCRATCH, SCRATCH, by, sh))
    } else {
        Ok(())
    }
}

fn emit_steps(draft: &mut Draft, op: AddSubOp, by: u32) -> Result<(), AllocError>
    ensures { OnOk result (Emits draft.old draft.new draft.old.labels
        (guard.steps_code (add_sub_imm_name op) by)) }
{
    emit_step(draft, op, by % 4096, false)?;
    emit_step(draft, op, by / 4096 % 4096, true)
}

// X26 and a number.
fn emit_shift(draft: &mut Draft, by: i32) -> Result<(), AllocError>
    ensures { OnOk result (Emits draft.old draft.new draft.old.labels
        (guard.shift_code by)) }
{
    if by >= 0 {
        emit_steps(draft, AddSubOp::Add, by.unsigned_abs())
    } else {
        emit_steps(draft, AddSubOp::Sub, by.unsigned_abs())
    }
}

// The bytes of some elements.
fn bytes_of(width: Width, count: i32) -> i32
    requires { unsigned_abs count ≤ most_offset }
    ensures small { unsigned_abs result ≤ 8192 }
    ensures value { result ≡ pos (width_bytes width) *ℤ count }
{
    match width {
        Width::B => count,
        Width::H => 2 * count,
        Width::S => 4 * count,
        Width::D => 8 * count,
    }
}

// The bytes of some elements from the first on.
fn reach_bytes(width: Width, reach: u32) -> u32
    requires { reach ≤ 65536 }
    ensures { result ≡ width_bytes width * reach }
{
    match width {
        Width::B => reach,
        Width::H => 2 * reach,
        Width::S => 4 * reach,
        Width::D => 8 * reach,
    }
}

// The greater of two ends.
fn emit_both(
    draft: &mut Draft,
    bound: Reg,
    place: u32,
    width: Width,
    greatest: i32,
    reach: u32,
) -> Result<(), AllocError>
    requires register { place < 32 }
    requires near { unsigned_abs greatest ≤ most_offset }
    requires far { reach ≤ 65536 }
    ensures { OnOk result (Emits draft.old draft.new draft.old.labels
        (guard.extent_code bound.number place width (Extent.Both greatest reach))) }
{
    draft.put(element_at(bound, register(place), width))?;
    emit_shift(draft, bytes_of(width, greatest))?;
    draft.put(bytes_at(SECOND_SCRATCH, register(place), reach_bytes(width, reach)))?;
    draft.put(compare(SCRATCH, SECOND_SCRATCH))?;
    draft.put(greater())
}

// The end of a parameter's elements, but for what is left over.
fn emit_end(draft: &mut Draft, bound: Reg, u: Used) -> Result<(), AllocError>
    requires { IsFit u }
    ensures { OnOk result (Emits draft.old draft.new draft.old.labels
        (guard.extent_code bound.number u.place u.width u.extent)) }
{
    match u.extent {
        Extent::Streams { .. } => draft.put(element_at(bound, register(u.place), u.width)),
        Extent::Computed { reach } => draft.put(bytes_at(
            SCRATCH,
            register(u.place),
            reach_bytes(u.width, reach),
        )),
        Extent::Both { greatest, reach } => {
            emit_both(draft, bound, u.place, u.width, greatest, reach)
        }
    }
}

// What is left over.
fn left_over(u: Used) -> i32
    requires { IsFit u }
    ensures small { unsigned_abs result ≤ 8192 }
    ensures value { result ≡ guard.left_over u.width u.extent }
{
    match u.extent {
        Extent::Streams { greatest } => bytes_of(u.width, greatest),
        Extent::Computed { .. } | Extent::Both { .. } => 0,
    }
}

fn gap(u: Used, v: Used) -> i32
    requires first { IsFit u }
    requires second { IsFit v }
    ensures { result ≡ guard.gap u v }
{
    left_over(u) - bytes_of(v.width, v.least)
}

// The test of an end with a beginning.
fn emit_below(draft: &mut Draft, bound: Reg, u: Used, v: Used) -> Result<(), AllocError>
    requires first { IsFit u }
    requires second { IsFit v }
    ensures { OnOk result (Emits draft.old draft.new draft.old.labels
        (guard.below_code bound.number u v)) }
{
    emit_end(draft, bound, u)?;
    emit_shift(draft, gap(u, v))?;
    draft.put(compare(register(v.place), SCRATCH))
}

// Whether a parameter has one element for each iteration.
fn is_point(u: Used) -> bool
    ensures { result ≡ guard.is_point u.least u.extent }
{
    match u.extent {
        Extent::Streams { greatest } => greatest <= u.least,
        Extent::Computed { .. } | Extent::Both { .. } => false,
    }
}

fn is_mixed(u: Used, v: Used) -> bool
    ensures { result ≡ guard.is_mixed u v }
{
    if is_point(u) {
        !is_point(v)
    } else {
        is_point(v)
    }
}

// The test of the bound, where just one of them has.
fn emit_none(draft: &mut Draft, bound: Reg, ok: Label, u: Used, v: Used) -> Result<(), AllocError>
    requires register { bound.number < 32 }
    requires passed { ok < draft.old.labels }
    ensures { OnOk result (Emits draft.old draft.new draft.old.labels
        (guard.none_if (guard.is_mixed u v) bound.number ok)) }
{
    if is_mixed(u, v) {
        draft.branch(BranchKind::Zero(bound.number), ok)
    } else {
        Ok(())
    }
}

// The tests of two parameters.
fn emit_tests(
    draft: &mut Draft,
    bound: Reg,
    fail: Label,
    ok: Label,
    u: Used,
    v: Used,
) -> Result<(), AllocError>
    requires register { bound.number < 32 }
    requires first { IsFit u }
    requires second { IsFit v }
    requires failed { fail < draft.old.labels }
    requires passed { ok < draft.old.labels }
    ensures { OnOk result (Emits draft.old draft.new draft.old.labels
        (guard.pair_code bound.number fail ok u v)) }
{
    emit_below(draft, bound, u, v)?;
    draft.branch(BranchKind::If(Cond::Hs), ok)?;
    emit_none(draft, bound, ok, u, v)?;
    emit_below(draft, bound, v, u)?;
    draft.branch(BranchKind::If(Cond::Lo), fail)?;
    draft.place(ok)
}

// The same with a label of their own.
fn emit_labelled(
    draft: &mut Draft,
    bound: Reg,
    fail: Label,
    u: Used,
    v: Used,
) -> Result<(), AllocError>
    requires register { bound.number < 32 }
    requires first { IsFit u }
    requires second { IsFit v }
    requires failed { fail < draft.old.labels }
    ensures { OnOk result (Emits draft.old draft.new (draft.old.labels + 1)
        (guard.pair_code bound.number fail draft.old.labels u v)) }
{
    let ok = draft.label()?;
    emit_tests(draft, bound, fail, ok, u, v)
}

// The tests of two parameters, where the loop stores to one of them.
fn emit_pair(draft: &mut Draft, bound: Reg, fail: Label, u: Used, v: Used) -> Result<(), AllocError>
    requires register { bound.number < 32 }
    requires first { IsFit u }
    requires second { IsFit v }
    requires failed { fail < draft.old.labels }
    ensures { OnOk result (Emits draft.old draft.new (guard.label_if (u.stored || v.stored) draft.old.labels)
        (guard.pair_if (u.stored || v.stored) bound.number fail draft.old.labels u v)) }
{
    if u.stored || v.stored {
        emit_labelled(draft, bound, fail, u, v)
    } else {
        Ok(())
    }
}

fn emit_with(
    draft: &mut Draft,
    bound: Reg,
    fail: Label,
    u: Used,
    others: &[Used],
) -> Result<(), AllocError>
    requires register { bound.number < 32 }
    requires first { IsFit u }
    requires others { AreFit others.now }
    requires failed { fail < draft.old.labels }
    ensures failed { OnOk result (fail < draft.new.labels) }
    ensures emits { OnOk result (Emits draft.old draft.new (guard.label_with draft.old.labels u others.now)
        (guard.with_code bound.number fail draft.old.labels u others.now)) }
{
    for v in others {
        emit_pair(draft, bound, fail, u, *v)?;
    }
    Ok(())
}

// The test of a base.
fn emit_base(draft: &mut Draft, place: u32) -> Result<(), AllocError>
    requires { place < 32 }
    ensures { OnOk result (Emits draft.old draft.new draft.old.labels
        (guard.base_code place)) }
{
    draft.put(step(AddSubOp::Sub, SECOND_SCRATCH, register(place), 16, true))?;
    draft.put(with_top(SCRATCH, SECOND_SCRATCH, 48))?;
    draft.put(with_top(SCRATCH, register(place), 48))
}

fn emit_bases(draft: &mut Draft, fail: Label, used: &[Used]) -> Result<(), AllocError>
    requires fit { AreFit used.now }
    requires failed { fail < draft.old.labels }
    ensures { OnOk result (Emits draft.old draft.new draft.old.labels
        (guard.bases_code fail used.now)) }
{
    for u in used {
        emit_base(draft, u.place)?;
    }
    draft.branch(BranchKind::NotZero(SCRATCH.number), fail)
}

fn emit_pairs(draft: &mut Draft, bound: Reg, fail: Label, used: &[Used]) -> Result<(), AllocError>
    requires register { bound.number < 32 }
    requires fit { AreFit used.now }
    requires failed { fail < draft.old.labels }
    ensures { OnOk result (Emits draft.old draft.new (guard.label_pairs draft.old.labels used.now)
        (guard.pairs_code bound.number fail draft.old.labels used.now)) }
{
    let mut following = 0;
    for u in used {
        following += 1;
        emit_with(draft, bound, fail, *u, &used[following..])?;
    }
    Ok(())
}

fn emit_checks(draft: &mut Draft, bound: Reg, fail: Label, used: &[Used]) -> Result<(), AllocError>
    requires register { bound.number < 32 }
    requires fit { AreFit used.now }
    requires failed { fail < draft.old.labels }
    ensures { OnOk result (Emits draft.old draft.new (guard.label_pairs draft.old.labels used.now)
        (guard.checks_code bound.number fail draft.old.labels used.now)) }
{
    draft.put(with_top(zero(), bound, 40))?;
    emit_bases(draft, fail, used)?;
    emit_pairs(draft, bound, fail, used)
}

fn stores(used: &[Used]) -> bool
    ensures { result ≡ list_any is_stored used.now }
{
    used.iter().any(|u| u.stored)
}

// Whether Apart holds for all arguments.
fn is_free(used: &[Used]) -> bool
    ensures { result ≡ guard.is_free used.now }
{
    !stores(used) || used.len() <= 1
}

/// The guard, by the parameters that the loop uses.
pub fn emit_used(
    draft: &mut Draft,
    bound: Reg,
    fail: Label,
    used: &[Used],
) -> Result<(), AllocError>
    requires register { bound.number < 32 }
    requires fit { AreFit used.now }
    requires failed { fail < draft.old.labels }
    ensures { OnOk result (Emits draft.old draft.new (guard.label_by (guard.is_free used.now) draft.old.labels used.now)
        (guard.code_by (guard.is_free used.now) bound.number fail draft.old.labels used.now)) }
{
    if !is_free(used) {
        emit_checks(draft, bound, fail, used)
    } else {
        Ok(())
    }
}

/// The guard: code that goes on exactly where Apart holds, and else to a label.
pub fn guard(kernel: &Checked, fail: Label, draft: &mut Draft) -> Result<(), AllocError>
    requires failed { fail < draft.old.labels }
    ensures words { OnOk result (AppendsWords draft.old draft.new 464) }
    ensures emits { let used = used_of (program kernel.now) in
        OnOk result (Emits draft.old draft.new (guard.label_by (guard.is_free used) draft.old.labels used)
        (guard.guard_code (program kernel.now) fail draft.old.labels)) }
{
    guard_by(kernel, &loop_entries(kernel), fail, draft)
}

/// The same by the items of the loop.
pub fn guard_by(
    kernel: &Checked,
    looped: &[Entry<'_>],
    fail: Label,
    draft: &mut Draft,
) -> Result<(), AllocError>
    requires items { entries_view looped.now ≡ loop_entries (program kernel.now) }
    requires failed { fail < draft.old.labels }
    ensures words { OnOk result (AppendsWords draft.old draft.new 464) }
    ensures emits { let used = used_of (program kernel.now) in
        OnOk result (Emits draft.old draft.new (guard.label_by (guard.is_free used) draft.old.labels used)
        (guard.guard_code (program kernel.now) fail draft.old.labels)) }
{
    fit_arrays(kernel);
    few_arrays(kernel);
    let used = arrays(kernel, looped);
    emit_used(draft, register(bound_place(kernel)), fail, &used)
}
