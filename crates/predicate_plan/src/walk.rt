//! Masks by a walk over the statements of a loop.

ghost use Rattle.std.specs.Prelude.{◌≡◌, ◌+◌, ◌<◌, ◌≤◌, ◌^◌, [], ◌∷◌, ◌++◌, length, replicate, is_some, true, Some, IfOk, OnOk};
ghost use Rattle.kernel_tree.specs.Plain.{Element, Not, Choice, Both, Either, Choose, Nothing, Else, term_of, action_of, block_of, for_loop_of};
ghost use Rattle.kernel_tree.specs.Items.{loop_index, index_of, term_size, index_items, action_size, block_size, for_loop_size, loop_start};
ghost use Rattle.loop_form.specs.View.{program};
ghost use Rattle.predicate_plan.specs.View.{FitsTerm, FitsAction, FitsBlock, GrowsTerm, GrowsAction, GrowsBlock, PlansTerm, PlansOne, PlansTwo, PlansAction, PlansBlock};
ghost use Rattle.predicate_plan.specs.Masks.{MeetsMasks, part, term_masks, action_masks, block_masks, loop_masks, masks_of};

use crate::mask::Plan;
use crate::part::MaskPart;
use kernel_tree::{Checked, Expr, Loop, Part, Stmt, parts};
use loop_form::is_stream;
use loop_form::laws::{few_items, numbered_items};
use loop_lists::loop_entries;
use std::alloc::{AllocError, Global};

// A mask with one more condition.
fn and_part(
    alloc: Global,
    mask: &[MaskPart],
    item: u32,
    holds: bool,
) -> Result<Vec<MaskPart>, AllocError>
    ensures { IfOk result (λ parts. parts.items ≡ mask.now ++ part item holds ∷ []) }
{
    let mut parts = mask.to_vec(alloc)?;
    parts.push(MaskPart { item, holds })?;
    Ok(parts)
}

// Masks of the items of an expression.
#[cycle(terms)]
fn plan_expr(
    alloc: Global,
    kernel: &Checked,
    plan: &mut Plan,
    mask: &[MaskPart],
    expr: &Expr,
) -> Result<(), AllocError>
    requires fits { FitsTerm (program kernel.now) (term_of expr.now) plan.old }
    ensures masks { OnOk result (PlansTerm (program kernel.now) mask.now (term_of expr.now) plan.old plan.new) }
    ensures len { OnOk result (GrowsTerm (program kernel.now) (term_of expr.now) plan.old plan.new) }
{
    match expr {
        Expr::Lit(_) | Expr::Var(_) => plan.put(alloc, mask)?,
        Expr::Read { index, .. } => plan_read(alloc, kernel, plan, mask, index)?,
        Expr::Unary { arg, .. }
        | Expr::Shift { arg, .. }
        | Expr::Cast { arg, .. }
        | Expr::Not { arg } => plan_one(alloc, kernel, plan, mask, arg)?,
        Expr::Binary { left, right, .. } | Expr::Compare { left, right, .. } => {
            plan_two(alloc, kernel, plan, mask, left, right)?;
        }
        Expr::Select { cond, yes, no } => {
            plan_select(alloc, kernel, plan, mask, yes, no, cond)?;
        }
        Expr::And { left, right } => plan_and(alloc, kernel, plan, mask, left, right)?,
        Expr::Or { left, right } => plan_or(alloc, kernel, plan, mask, left, right)?,
    }
    Ok(())
}

// A read: its index where it is computed, and the read.
#[cycle(terms)]
fn plan_read(
    alloc: Global,
    kernel: &Checked,
    plan: &mut Plan,
    mask: &[MaskPart],
    index: &Expr,
) -> Result<(), AllocError>
    requires fits { FitsTerm (program kernel.now) (Element [] (term_of index.now)) plan.old }
    ensures masks { OnOk result (PlansTerm (program kernel.now) mask.now
        (Element [] (term_of index.now)) plan.old plan.new) }
    ensures len { OnOk result (GrowsTerm (program kernel.now) (Element [] (term_of index.now)) plan.old plan.new) }
{
    if !is_stream(kernel, index) {
        plan_expr(alloc, kernel, plan, mask, index)?;
    }
    plan.put(alloc, mask)
}

// An operand and what is made of it.
#[cycle(terms)]
fn plan_one(
    alloc: Global,
    kernel: &Checked,
    plan: &mut Plan,
    mask: &[MaskPart],
    arg: &Expr,
) -> Result<(), AllocError>
    requires fits { FitsTerm (program kernel.now) (Not (term_of arg.now)) plan.old }
    ensures masks { OnOk result (PlansOne (program kernel.now) mask.now (term_of arg.now) plan.old plan.new) }
    ensures len { OnOk result (GrowsTerm (program kernel.now) (Not (term_of arg.now)) plan.old plan.new) }
{
    plan_expr(alloc, kernel, plan, mask, arg)?;
    plan.put(alloc, mask)
}

// Two operands and what is made of them.
#[cycle(terms)]
fn plan_two(
    alloc: Global,
    kernel: &Checked,
    plan: &mut Plan,
    mask: &[MaskPart],
    left: &Expr,
    right: &Expr,
) -> Result<(), AllocError>
    requires fits { FitsTerm (program kernel.now) (Both (term_of left.now) (term_of right.now)) plan.old }
    ensures masks { OnOk result (PlansTwo (program kernel.now) mask.now
        (term_of left.now) (term_of right.now) plan.old plan.new) }
    ensures len { OnOk result (GrowsTerm (program kernel.now)
        (Both (term_of left.now) (term_of right.now)) plan.old plan.new) }
{
    plan_expr(alloc, kernel, plan, mask, left)?;
    plan_expr(alloc, kernel, plan, mask, right)?;
    plan.put(alloc, mask)
}

// `select`: both values, the condition, and the choice.
#[cycle(terms)]
fn plan_select(
    alloc: Global,
    kernel: &Checked,
    plan: &mut Plan,
    mask: &[MaskPart],
    yes: &Expr,
    no: &Expr,
    cond: &Expr,
) -> Result<(), AllocError>
    requires fits { FitsTerm (program kernel.now)
        (Choice (term_of cond.now) (term_of yes.now) (term_of no.now)) plan.old }
    ensures masks { OnOk result (PlansTerm (program kernel.now) mask.now
        (Choice (term_of cond.now) (term_of yes.now) (term_of no.now)) plan.old plan.new) }
    ensures len { OnOk result (GrowsTerm (program kernel.now)
        (Choice (term_of cond.now) (term_of yes.now) (term_of no.now)) plan.old plan.new) }
{
    plan_expr(alloc, kernel, plan, mask, yes)?;
    plan_expr(alloc, kernel, plan, mask, no)?;
    plan_expr(alloc, kernel, plan, mask, cond)?;
    plan.put(alloc, mask)
}

// `&&`, whose second side is evaluated where the first one is true.
#[cycle(terms)]
fn plan_and(
    alloc: Global,
    kernel: &Checked,
    plan: &mut Plan,
    mask: &[MaskPart],
    left: &Expr,
    right: &Expr,
) -> Result<(), AllocError>
    requires fits { FitsTerm (program kernel.now) (Both (term_of left.now) (term_of right.now)) plan.old }
    ensures masks { OnOk result (PlansTerm (program kernel.now) mask.now
        (Both (term_of left.now) (term_of right.now)) plan.old plan.new) }
    ensures len { OnOk result (GrowsTerm (program kernel.now)
        (Both (term_of left.now) (term_of right.now)) plan.old plan.new) }
{
    plan_expr(alloc, kernel, plan, mask, left)?;
    let inner = and_part(alloc, mask, plan.last(), true)?;
    plan_expr(alloc, kernel, plan, &inner, right)?;
    plan.put(alloc, mask)
}

// `||`, whose second side is evaluated where the first one is false, with the mark between them.
#[cycle(terms)]
fn plan_or(
    alloc: Global,
    kernel: &Checked,
    plan: &mut Plan,
    mask: &[MaskPart],
    left: &Expr,
    right: &Expr,
) -> Result<(), AllocError>
    requires fits { FitsTerm (program kernel.now) (Either (term_of left.now) (term_of right.now)) plan.old }
    ensures masks { OnOk result (PlansTerm (program kernel.now) mask.now
        (Either (term_of left.now) (term_of right.now)) plan.old plan.new) }
    ensures len { OnOk result (GrowsTerm (program kernel.now)
        (Either (term_of left.now) (term_of right.now)) plan.old plan.new) }
{
    plan_expr(alloc, kernel, plan, mask, left)?;
    let inner = and_part(alloc, mask, plan.last(), false)?;
    plan.put(alloc, mask)?;
    plan_expr(alloc, kernel, plan, &inner, right)?;
    plan.put(alloc, mask)
}

// Masks of the items of a statement.
#[cycle(statements)]
fn plan_stmt(
    alloc: Global,
    kernel: &Checked,
    plan: &mut Plan,
    mask: &[MaskPart],
    stmt: &Stmt,
) -> Result<(), AllocError>
    requires fits { FitsAction (program kernel.now) (action_of stmt.now) plan.old }
    ensures masks { OnOk result (PlansAction (program kernel.now) mask.now (action_of stmt.now) plan.old plan.new) }
    ensures len { OnOk result (GrowsAction (program kernel.now) (action_of stmt.now) plan.old plan.new) }
{
    match parts(stmt) {
        Part::Let { value, .. }
        | Part::Store { value, .. }
        | Part::Update { value, .. }
        | Part::Break { cond: value } => plan_one(alloc, kernel, plan, mask, value)?,
        Part::If { cond, block } => plan_if(alloc, kernel, plan, mask, cond, block)?,
        Part::IfElse { cond, block, other } => {
            plan_if_else(alloc, kernel, plan, mask, cond, block, other)?;
        }
    }
    Ok(())
}

// An `if` without a second block.
#[cycle(statements)]
fn plan_if(
    alloc: Global,
    kernel: &Checked,
    plan: &mut Plan,
    mask: &[MaskPart],
    cond: &Expr,
    block: &[Stmt],
) -> Result<(), AllocError>
    requires fits { FitsAction (program kernel.now) (Choose (term_of cond.now) (block_of block.now) Nothing) plan.old }
    ensures masks { OnOk result (PlansAction (program kernel.now) mask.now
        (Choose (term_of cond.now) (block_of block.now) Nothing) plan.old plan.new) }
    ensures len { OnOk result (GrowsAction (program kernel.now)
        (Choose (term_of cond.now) (block_of block.now) Nothing) plan.old plan.new) }
{
    plan_expr(alloc, kernel, plan, mask, cond)?;
    let inner = and_part(alloc, mask, plan.last(), true)?;
    plan.put(alloc, mask)?;
    plan_block(alloc, kernel, plan, &inner, block)?;
    plan.put(alloc, mask)
}

// An `if` with two blocks.
#[cycle(statements)]
fn plan_if_else(
    alloc: Global,
    kernel: &Checked,
    plan: &mut Plan,
    mask: &[MaskPart],
    cond: &Expr,
    block: &[Stmt],
    other: &[Stmt],
) -> Result<(), AllocError>
    requires fits { FitsAction (program kernel.now)
        (Choose (term_of cond.now) (block_of block.now) (Else (block_of other.now))) plan.old }
    ensures masks { OnOk result (PlansAction (program kernel.now) mask.now
        (Choose (term_of cond.now) (block_of block.now) (Else (block_of other.now))) plan.old plan.new) }
    ensures len { OnOk result (GrowsAction (program kernel.now)
        (Choose (term_of cond.now) (block_of block.now) (Else (block_of other.now))) plan.old plan.new) }
{
    plan_expr(alloc, kernel, plan, mask, cond)?;
    let condition = plan.last();
    let inner = and_part(alloc, mask, condition, true)?;
    let contrary = and_part(alloc, mask, condition, false)?;
    plan.put(alloc, mask)?;
    plan_block(alloc, kernel, plan, &inner, block)?;
    plan.put(alloc, mask)?;
    plan_block(alloc, kernel, plan, &contrary, other)?;
    plan.put(alloc, mask)
}

// Masks of the items of a block.
#[cycle(statements)]
fn plan_block(
    alloc: Global,
    kernel: &Checked,
    plan: &mut Plan,
    mask: &[MaskPart],
    block: &[Stmt],
) -> Result<(), AllocError>
    requires fits { FitsBlock (program kernel.now) (block_of block.now) plan.old }
    ensures masks { OnOk result (PlansBlock (program kernel.now) mask.now (block_of block.now) plan.old plan.new) }
    ensures len { OnOk result (GrowsBlock (program kernel.now) (block_of block.now) plan.old plan.new) }
{
    for stmt in block {
        plan_stmt(alloc, kernel, plan, mask, stmt)?;
    }
    Ok(())
}

// The number of `for`.
#[tactic(auto, unfolding(loop_form::specs::View::program))]
fn loop_start_of(kernel: &Checked) -> u32
    requires { is_some (program kernel.now).for_loop ≡ true }
    ensures { result ≡ loop_start (program kernel.now) }
{
    let entries = loop_entries(kernel);
    numbered_items(kernel);
    match entries.first() {
        Some(entry) => entry.item,
        None => 0,
    }
}

// No masks for so many items.
fn skip(alloc: Global, plan: &mut Plan, count: u32) -> Result<(), AllocError>
    ensures { OnOk result (plan.new ≡ plan.old ++ replicate count []) }
{
    for _item in 0..count {
        plan.put(alloc, &[])?;
    }
    Ok(())
}

// Masks of the items of a loop, and of those before it.
fn plan_for_loop(
    alloc: Global,
    kernel: &Checked,
    from: u32,
    for_loop: &Loop,
) -> Result<Plan, AllocError>
    requires fits { from + for_loop_size (Some (for_loop_of for_loop.now)) ≤ 1000 }
    requires index { loop_index (program kernel.now) ≡ Some (index_of (for_loop_of for_loop.now)) }
    ensures { IfOk result (λ plan. plan ≡ loop_masks from (Some (for_loop_of for_loop.now))) }
{
    let mut plan = Plan::new(alloc);
    skip(alloc, &mut plan, from)?;
    plan.put(alloc, &[])?;
    plan_block(alloc, kernel, &mut plan, &[], &for_loop.body)?;
    Ok(plan)
}

// The masks of a kernel's loop.
#[tactic(auto, unfolding(loop_form::specs::View::program))]
fn loop_plan(alloc: Global, kernel: &Checked) -> Result<Plan, AllocError>
    ensures { IfOk result (λ plan. plan ≡ masks_of (program kernel.now)) }
{
    few_items(kernel);
    match &kernel.kernel().body {
        None => Ok(Plan::new(alloc)),
        Some(for_loop) => plan_for_loop(alloc, kernel, loop_start_of(kernel), for_loop),
    }
}

/// The mask of each item of a kernel's loop. A kernel without a loop has the plan of no item.
pub fn plan(alloc: Global, kernel: &Checked) -> Result<Plan, AllocError>
    ensures masks { IfOk result (λ plan. plan ≡ masks_of (program kernel.now)) }
    ensures meets { IfOk result (λ plan. MeetsMasks (program kernel.now) plan) }
{
    let plan = loop_plan(alloc, kernel)?;
    Ok(plan)
}
