//! Emits the code of a kernel: what stands before its loop, the loop, and the end.

ghost use Rattle.std.specs.Prelude.{◌≡◌, ◌+◌, ◌*◌, ◌<◌, ◌≤◌, ◌^◌, Some, [], ◌∷◌, ◌++◌, OnOk, IfOk, length, option_map};
ghost use Rattle.kernel_tree.specs.Plain.{term_of, block_of, parameters_of, accumulator_of, accumulators_of, for_loop_of, returned_of, program_of};
ghost use Rattle.kernel_tree.specs.Kinds.{IsValue, VarsKinds, AnswerKinds, KernelKinds};
ghost use Rattle.kernel_scope.specs.Scopes.{scope_of, after_var};
ghost use Rattle.reg_assign.specs.declared.interval.RegClass.TheVariants.{X};
ghost use Rattle.reg_assign.specs.Registers.{IsAssignment};
ghost use Rattle.loop_form.specs.Registers.{FitsKernel};
ghost use Rattle.loop_form.specs.Listing.{listing_of};
ghost use Rattle.loop_form.specs.View.{program};
ghost use Rattle.scalar_words.specs.KernelRegisters.{register_in};
ghost use Rattle.label_fix.specs.Emits.{Emits, AppendsWords};
ghost use Rattle.scalar_words.specs.Sites.{at, index_at};
ghost use Rattle.scalar_words.specs.View.{homes_of};
ghost use Rattle.scalar_words.specs.Layout.{with_constants};
ghost use Rattle.loop_code.specs.LoopNumbers as numbers;
ghost use Rattle.kernel_tree.specs.Items as items;
ghost use Rattle.kernel_tree.specs.Typing as typing;
ghost use Rattle.loop_code.specs.Loop as loops;
ghost use Rattle.loop_code.specs.Kernel as kernels;
ghost use Rattle.scalar_words.specs.KernelRegisters as registers;

use crate::for_loop::{emit_head, emit_loop};
use kernel_scope::{Scope, empty, loop_index};
use kernel_tree::laws::{few_params, right_kinds};
use kernel_tree::{Answer, Checked, Kernel, Loop, Param, Shape, Var};
use label_fix::registers::{CALL_NUMBER, ITERATION};
use label_fix::{Draft, Label};
use loop_code::loosening::{after_loop, loosen_names};
use loop_code::numbers::hold_block;
use loop_form::laws::few_items;
use loop_form::{Item, vars_size_of};
use reg_assign::Assigned;
use scalar_values::emit_value;
use scalar_words::kernel_layout::{counted_register, lay_out};
use scalar_words::laws::each_has_a_register;
use scalar_words::names::{declare_names, declare_params, declare_var};
use scalar_words::operations::{emit_copy, emit_settle};
use scalar_words::{Home, KernelLayout, Site};
use std::alloc::{AllocError, Global};
use value_code::instructions::{exit_call, small};
use word_rows::Bits;

// ---- before the loop

// The scalar arguments, wrapped to their types.
fn emit_arguments(draft: &mut Draft, params: &[Param]) -> Result<(), AllocError>
    requires { length params.now ≤ 8 }
    ensures { OnOk result (Emits draft.old draft.new draft.old.labels
        (kernels.arguments_code 0 (parameters_of params.now))) }
{
    let mut place = 0;
    for param in params {
        if let Shape::Scalar(ty) = param.shape {
            emit_settle(draft, true, ty, Bits { number: place })?;
        }
        place += 1;
    }
    Ok(())
}

fn emit_var<'a>(
    draft: &mut Draft,
    site: &mut Site<'a>,
    regs: &Assigned,
    place: usize,
    var: &'a Var,
    item: &mut usize,
) -> Result<(), AllocError>
    requires assigned { IsAssignment 15 regs.now }
    requires within { place < length regs.now.registers }
    requires kind { IsValue (term_of var.now.init) }
    requires fits { item.old + (items.term_size (index_at site.old) (term_of var.now.init) + 1) < 2 ^ 32 }
    ensures layout { OnOk result (site.new.layout ≡ site.old.layout) }
    ensures scope { OnOk result (scope_of site.new.scope
        ≡ after_var (scope_of site.old.scope) (accumulator_of var.now)) }
    ensures homes { OnOk result (homes_of site.new.homes.items
        ≡ homes_of site.old.homes.items
        ++ registers.var_home (register_in regs.now) place (accumulator_of var.now) ∷ []) }
    ensures item { OnOk result (item.new ≡ item.old + items.term_size (index_at site.old)
        (term_of var.now.init) + 1) }
    ensures emits { OnOk result (Emits draft.old draft.new
        (draft.old.labels + kernels.var_labels (index_at site.old) (accumulator_of var.now))
        (kernels.var_code site.old.layout (register_in regs.now) (homes_of site.old.homes.items)
        (scope_of site.old.scope) place item.old draft.old.labels (accumulator_of var.now))) }
{
    let from = emit_value(draft, site, Some(var.ty), &var.init, item)?;
    emit_copy(draft, counted_register(regs, place), from)?;
    *item += 1;
    declare_var(&mut site.scope, &mut site.homes, regs, place, var)
}

// The accumulators in their order.
fn emit_vars<'a>(
    draft: &mut Draft,
    site: &mut Site<'a>,
    regs: &Assigned,
    vars: &'a [Var],
    item: usize,
) -> Result<(), AllocError>
    requires assigned { IsAssignment 15 regs.now }
    requires within { length vars.now ≤ length regs.now.registers }
    requires kinds { VarsKinds (accumulators_of vars.now) }
    requires fits { item + items.vars_size (index_at site.old) (accumulators_of vars.now) < 2 ^ 32 }
    ensures { OnOk result (Emits draft.old draft.new
        (draft.old.labels + kernels.vars_labels (index_at site.old) (accumulators_of vars.now))
        (kernels.vars_code site.old.layout (register_in regs.now) (homes_of site.old.homes.items)
        (scope_of site.old.scope) 0 item draft.old.labels (accumulators_of vars.now))) }
{
    let mut next = item;
    let mut place = 0;
    for var in vars {
        emit_var(draft, site, regs, place, var, &mut next)?;
        place += 1;
    }
    Ok(())
}

// The code before the loop, with no name declared yet.
fn emit_first<'a>(
    draft: &mut Draft,
    site: &mut Site<'a>,
    regs: &Assigned,
    kernel: &'a Kernel,
) -> Result<(), AllocError>
    requires assigned { IsAssignment 15 regs.now }
    requires vars { length (program_of kernel.now).vars ≤ length regs.now.registers }
    requires params { length (program_of kernel.now).params ≤ 8 }
    requires kinds { VarsKinds (program_of kernel.now).vars }
    requires few { items.size_of (program_of kernel.now) ≤ 1000 }
    requires layout { site.old.layout ≡ registers.layout_of_kernel (register_in regs.now) (program_of kernel.now) }
    requires scope { scope_of site.old.scope ≡ typing.empty (items.loop_index (program_of kernel.now)) }
    requires homes { site.old.homes.items ≡ [] }
    ensures { OnOk result (Emits draft.old draft.new (draft.old.labels + kernels.begin_labels (program_of kernel.now))
        (kernels.begin_code (register_in regs.now) (program_of kernel.now) draft.old.labels)) }
{
    declare_params(&mut site.scope, &mut site.homes, &kernel.params)?;
    emit_arguments(draft, &kernel.params)?;
    let first = kernel.params.len();
    emit_vars(draft, site, regs, &kernel.vars, first)?;
    draft.put(small(ITERATION.number, 0))
}

/// The code before the loop. It wraps the scalar arguments to their types, evaluates the accumulators in their order into
/// their registers and sets X9 to zero.
#[tactic(auto, unfolding(loop_form::specs::View::program))]
pub fn emit_begin(
    alloc: Global,
    kernel: &Checked,
    listing: &[Item],
    regs: &Assigned,
    draft: &mut Draft,
) -> Result<(), AllocError>
    requires fits { FitsKernel (program kernel.now) X regs.now }
    requires listed { listing.now ≡ listing_of (program kernel.now) }
    ensures words { OnOk result (AppendsWords draft.old draft.new (40 + 8 * items.size_of (program kernel.now))) }
    ensures emits { OnOk result (Emits draft.old draft.new
        (draft.old.labels + kernels.begin_labels (program kernel.now))
        (kernels.begin_code (register_in regs.now) (program kernel.now) draft.old.labels)) }
{
    few_items(kernel);
    few_params(kernel);
    right_kinds(kernel);
    each_has_a_register(kernel, regs);
    let layout = lay_out(alloc, kernel, listing, regs)?;
    let tree = kernel.kernel();
    let scope = empty(alloc, loop_index(&tree.body));
    let homes = Vec::new(alloc);
    let mut site = Site {
        layout,
        homes,
        scope,
    };
    emit_first(draft, &mut site, regs, tree)
}

// ---- the loop and the end

/// Where scalar code is entered.
#[derive(Clone, Copy)]
pub struct ScalarEntry {
    /// The label at the head of the loop, which is entered with the number of an iteration in X9; without a loop, the label
    /// before the returned value.
    pub at_iteration: Label,
}

// The end of a run, with its result in X0.
fn emit_exit(draft: &mut Draft) -> Result<(), AllocError>
    ensures { OnOk result (Emits draft.old draft.new draft.old.labels (loops.exit_code)) }
{
    draft.put(small(CALL_NUMBER.number, 93))?;
    draft.put(exit_call())
}

// The returned value, and the end.
fn emit_answer(
    draft: &mut Draft,
    site: &Site,
    answer: &Option<Answer>,
    item: usize,
) -> Result<(), AllocError>
    requires kind { AnswerKinds (option_map returned_of answer.now) }
    requires fits { item + items.answer_size (index_at site.now) (option_map returned_of answer.now) < 2 ^ 32 }
    ensures { OnOk result (Emits draft.old draft.new
        (draft.old.labels + loops.answer_labels (index_at site.now) (option_map returned_of answer.now))
        (at site.now loops.answer_code item draft.old.labels (option_map returned_of answer.now))) }
{
    match answer {
        None => {
            draft.put(small(0, 0))?;
            emit_exit(draft)
        }
        Some(answer) => {
            let mut next = item;
            let from = emit_value(draft, site, Some(answer.ty), &answer.value, &mut next)?;
            emit_copy(draft, Bits { number: 0 }, from)?;
            emit_exit(draft)
        }
    }
}

// What a loop holds, with so many parameters and the names before it.
fn hold_numbers(
    alloc: Global,
    layout: &mut KernelLayout,
    params: usize,
    homes: &[Home],
    scope: &Scope,
    for_loop: &Loop,
) -> Result<(), AllocError>
    requires { params ≤ 8 }
    ensures { OnOk result (layout.new ≡ with_constants layout.old
        (numbers.hold_block params (homes_of homes.now) (scope_of scope.now) (block_of for_loop.now.body.items) [])) }
{
    let mut constants = Vec::new(alloc);
    hold_block(&mut constants, params, homes, scope, &for_loop.body)?;
    layout.hold(constants);
    Ok(())
}

// What is held after a loop: the arrays that stand ahead.
fn leave_loop(alloc: Global, layout: &mut KernelLayout) -> Result<(), AllocError>
    ensures { OnOk result (layout.new ≡ loops.bare layout.old) }
{
    let ahead = after_loop(alloc, layout.loose())?;
    layout.hold(Vec::new(alloc));
    layout.loosen(ahead);
    Ok(())
}

// The loop of a kernel and what follows it, with the names before it.
fn emit_for_loop<'a>(
    alloc: Global,
    draft: &mut Draft,
    site: &mut Site<'a>,
    regs: &Assigned,
    kernel: &Kernel,
    for_loop: &'a Loop,
    item: usize,
) -> Result<ScalarEntry, AllocError>
    requires params { length (program_of kernel.now).params ≤ 8 }
    requires for_loop { (program_of kernel.now).for_loop ≡ Some (for_loop_of for_loop.now) }
    requires kinds { KernelKinds (program_of kernel.now) }
    requires few { items.size_of (program_of kernel.now) ≤ 1000 }
    requires layout { site.old.layout ≡ registers.layout_of_kernel (register_in regs.now) (program_of kernel.now) }
    requires start { item ≡ items.loop_start (program_of kernel.now) }
    requires scope { scope_of site.old.scope ≡ typing.var_scope (program_of kernel.now) }
    requires homes { homes_of site.old.homes.items
        ≡ registers.kernel_homes (register_in regs.now) (program_of kernel.now) }
    ensures entry { IfOk result (λ e. e.at_iteration ≡ draft.old.labels) }
    ensures emits { OnOk result (Emits draft.old draft.new
        (draft.old.labels + kernels.scalar_labels (program_of kernel.now))
        (kernels.scalar_code (register_in regs.now) (program_of kernel.now) draft.old.labels)) }
{
    let mut next = item;
    let params = kernel.params.len();
    hold_numbers(
        alloc,
        &mut site.layout,
        params,
        &site.homes,
        &site.scope,
        for_loop,
    )?;
    loosen_names(alloc, &mut site.layout, &mut site.scope, kernel, for_loop)?;
    let at_iteration = emit_loop(draft, site, for_loop, &mut next)?;
    leave_loop(alloc, &mut site.layout)?;
    emit_answer(draft, site, &kernel.answer, next)?;
    Ok(ScalarEntry { at_iteration })
}

// The code of a kernel's loop and of what follows it, with no name declared yet.
fn emit_rest<'a>(
    alloc: Global,
    draft: &mut Draft,
    site: &mut Site<'a>,
    regs: &Assigned,
    kernel: &'a Kernel,
    item: usize,
) -> Result<ScalarEntry, AllocError>
    requires assigned { IsAssignment 15 regs.now }
    requires vars { length (program_of kernel.now).vars ≤ length regs.now.registers }
    requires params { length (program_of kernel.now).params ≤ 8 }
    requires kinds { KernelKinds (program_of kernel.now) }
    requires few { items.size_of (program_of kernel.now) ≤ 1000 }
    requires layout { site.old.layout ≡ registers.layout_of_kernel (register_in regs.now) (program_of kernel.now) }
    requires start { item ≡ items.loop_start (program_of kernel.now) }
    requires scope { scope_of site.old.scope ≡ typing.empty (items.loop_index (program_of kernel.now)) }
    requires homes { site.old.homes.items ≡ [] }
    ensures entry { IfOk result (λ e. e.at_iteration ≡ draft.old.labels) }
    ensures emits { OnOk result (Emits draft.old draft.new
        (draft.old.labels + kernels.scalar_labels (program_of kernel.now))
        (kernels.scalar_code (register_in regs.now) (program_of kernel.now) draft.old.labels)) }
{
    declare_names(&mut site.scope, &mut site.homes, regs, kernel)?;
    match &kernel.body {
        None => {
            let at_iteration = emit_head(draft)?;
            emit_answer(draft, site, &kernel.answer, item)?;
            Ok(ScalarEntry { at_iteration })
        }
        Some(for_loop) => emit_for_loop(alloc, draft, site, regs, kernel, for_loop, item),
    }
}

/// The code of the loop and of what follows it, up to the end of the run.
#[tactic(auto, unfolding(loop_form::specs::View::program))]
pub fn emit_scalar(
    alloc: Global,
    kernel: &Checked,
    listing: &[Item],
    regs: &Assigned,
    draft: &mut Draft,
) -> Result<ScalarEntry, AllocError>
    requires fits { FitsKernel (program kernel.now) X regs.now }
    requires listed { listing.now ≡ listing_of (program kernel.now) }
    ensures words { OnOk result (AppendsWords draft.old draft.new (64 + 16 * items.size_of (program kernel.now))) }
    ensures entry { IfOk result (λ e. e.at_iteration ≡ draft.old.labels) }
    ensures emits { OnOk result (Emits draft.old draft.new
        (draft.old.labels + kernels.scalar_labels (program kernel.now))
        (kernels.scalar_code (register_in regs.now) (program kernel.now) draft.old.labels)) }
{
    few_items(kernel);
    few_params(kernel);
    right_kinds(kernel);
    each_has_a_register(kernel, regs);
    let layout = lay_out(alloc, kernel, listing, regs)?;
    let tree = kernel.kernel();
    let item = tree.params.len() + vars_size_of(kernel, &tree.vars) as usize;
    let scope = empty(alloc, loop_index(&tree.body));
    let homes = Vec::new(alloc);
    let mut site = Site {
        layout,
        homes,
        scope,
    };
    emit_rest(alloc, draft, &mut site, regs, tree, item)
}
