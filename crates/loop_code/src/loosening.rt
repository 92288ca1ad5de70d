//! Which names a loop holds loosely: its variable and its arrays where it counts to zero, and accumulators.

ghost use Rattle.std.specs.Prelude.{◌≡◌, List, [], ◌∷◌, ◌++◌, ◌&&◌, Some, if◌then◌else◌, IfOk, OnOk, option_map, option_and_then};
ghost use Rattle.kernel_tree.specs.Plain.{Define, Put, Update, name_of, term_of, action_of, block_of, for_loop_of, returned_of, program_of};
ghost use Rattle.kernel_scope.specs.Scopes.{scope_of, in_body};
ghost use Rattle.scalar_words.specs.View.{form_of, loose_of, looses_of};
ghost use Rattle.scalar_words.specs.Layout.{with_loose};
ghost use Rattle.scalar_words.specs.Layout as layouts;
ghost use Rattle.kernel_meaning.specs.Operators as operators;
ghost use Rattle.kernel_tree.specs.Typing as typing;
ghost use Rattle.loop_code.specs.Loosening as loosening;

use crate::arrays::add_block;
use kernel_meaning::binary_leaves;
use kernel_scope::{
    Scope, accumulator_type, array_type, close, declare, declared_count, define, first, leave,
    lookup, own_type, visible_count,
};
use kernel_tree::fault::Binding;
use kernel_tree::{Answer, Expr, Kernel, Loop, Name, Part, Stmt, Ty, UpdateOp, parts};
use scalar_words::instructions::is_narrow;
use scalar_words::operations::update_operator;
use scalar_words::{Form, KernelLayout, Loose, loose_form};
use std::alloc::{AllocError, Global};
use value_code::covers::{covers, covers_index, covers_truth, held_extent, is_enough, is_whole};
use value_code::extent::{Extent, binary_extent, extent_at};

// ---- whether statements ask no more of a name than stands in its register

fn covers_store(loose: &[Loose], scope: &Scope, array: &Name, index: &Expr, value: &Expr) -> bool
    ensures { result ≡ loosening.covers_action (looses_of loose.now) (scope_of scope.now)
        (Put (name_of array.now) (term_of index.now) (term_of value.now)) }
{
    let want = array_type(scope, array);
    covers_index(loose, scope, array, index) && covers(loose, scope, extent_at(want), want, value)
}

fn covers_update(loose: &[Loose], scope: &Scope, name: &Name, op: UpdateOp, value: &Expr) -> bool
    ensures { result ≡ loosening.covers_action (looses_of loose.now) (scope_of scope.now)
        (Update (name_of name.now) op (term_of value.now)) }
{
    let want = lookup(scope, name).and_then(accumulator_type);
    let held = loose_form(loose, name);
    let asked = binary_extent(update_operator(op), held_extent(held), want);
    is_enough(held, asked) && covers(loose, scope, asked, want, value)
}

fn covers_let<'a>(
    loose: &[Loose],
    scope: &mut Scope<'a>,
    name: &'a Name,
    ty: Option<Ty>,
    value: &Expr,
) -> Result<bool, AllocError>
    ensures scope { OnOk result (scope_of scope.new
        ≡ typing.after_action (scope_of scope.old) (Define (name_of name.now) ty (term_of value.now))) }
    ensures covers { IfOk result (λ t. t ≡ loosening.covers_action (looses_of loose.now) (scope_of scope.old)
        (Define (name_of name.now) ty (term_of value.now))) }
{
    let want = first(ty, own_type(scope, value));
    let covered = is_whole(loose, name) && covers(loose, scope, Extent::Whole, want, value);
    define(scope, name, want)?;
    Ok(covered)
}

#[cycle(statements)]
fn covers_stmt<'a>(
    loose: &[Loose],
    scope: &mut Scope<'a>,
    stmt: &'a Stmt,
) -> Result<bool, AllocError>
    ensures scope { OnOk result (scope_of scope.new ≡ typing.after_action (scope_of scope.old) (action_of stmt.now)) }
    ensures covers { IfOk result (λ t. t ≡ loosening.covers_action (looses_of loose.now) (scope_of scope.old)
        (action_of stmt.now)) }
{
    match parts(stmt) {
        Part::If { cond, block } => {
            let truth = covers_truth(loose, scope, cond);
            covers_inner(loose, scope, truth, block)
        }
        Part::IfElse { cond, block, other } => {
            let truth = covers_truth(loose, scope, cond);
            let first = covers_inner(loose, scope, truth, block)?;
            covers_inner(loose, scope, first, other)
        }
        Part::Let { name, ty, value } => covers_let(loose, scope, name, ty, value),
        Part::Store {
            array,
            index,
            value,
        } => Ok(covers_store(loose, scope, array, index, value)),
        Part::Update { name, op, value } => Ok(covers_update(loose, scope, name, op, value)),
        Part::Break { cond } => Ok(covers_truth(loose, scope, cond)),
    }
}

// A block, after which its names are visible no more, and what stands before it.
#[cycle(statements)]
fn covers_inner<'a>(
    loose: &[Loose],
    scope: &mut Scope<'a>,
    before: bool,
    block: &'a [Stmt],
) -> Result<bool, AllocError>
    ensures scope { OnOk result (scope_of scope.new
        ≡ typing.left (scope_of scope.old) (typing.after_block (scope_of scope.old) (block_of block.now))) }
    ensures covers { IfOk result (λ t. t ≡ (before && loosening.covers_block (looses_of loose.now) (scope_of scope.old)
        (block_of block.now))) }
{
    let visible = visible_count(scope);
    let covered = covers_block(loose, scope, before, block)?;
    leave(scope, visible);
    Ok(covered)
}

// Statements, after which their names stay visible, and what stands before them.
#[cycle(statements)]
fn covers_block<'a>(
    loose: &[Loose],
    scope: &mut Scope<'a>,
    before: bool,
    block: &'a [Stmt],
) -> Result<bool, AllocError>
    ensures scope { OnOk result (scope_of scope.new ≡ typing.after_block (scope_of scope.old) (block_of block.now)) }
    ensures covers { IfOk result (λ t. t ≡ (before && loosening.covers_block (looses_of loose.now) (scope_of scope.old)
        (block_of block.now))) }
{
    let mut covered = before;
    for stmt in block {
        let here = covers_stmt(loose, scope, stmt)?;
        covered = covered && here;
    }
    Ok(covered)
}

// The statements of a loop, after which the scope is what it was before it.
fn covers_body<'a>(
    loose: &[Loose],
    scope: &mut Scope<'a>,
    body: &'a [Stmt],
) -> Result<bool, AllocError>
    ensures scope { OnOk result (scope_of scope.new ≡ scope_of scope.old) }
    ensures covers { IfOk result (λ t. t ≡ loosening.covers_block (looses_of loose.now) (in_body (scope_of scope.old))
        (block_of body.now)) }
{
    let visible = visible_count(scope);
    let taken = declared_count(scope);
    let inside = scope.inside;
    scope.inside = true;
    let covered = covers_block(loose, scope, true, body)?;
    close(scope, visible, taken);
    scope.inside = inside;
    Ok(covered)
}

// ---- the accumulators

// One more, where the statements of the loop ask for no more of it.
fn loosen_name<'a>(
    scope: &mut Scope<'a>,
    body: &'a [Stmt],
    loose: &mut Vec<Loose<'a>>,
    name: &'a Name,
    ty: Ty,
) -> Result<(), AllocError>
    ensures scope { OnOk result (scope_of scope.new ≡ scope_of scope.old) }
    ensures loose { OnOk result (looses_of loose.new.items
        ≡ loosening.loosened (in_body (scope_of scope.old)) (block_of body.now) (name_of name.now) (Some ty)
        (looses_of loose.old.items)) }
{
    let count = loose.len();
    let name = name.text();
    let form = Form::LowBits(ty);
    loose.push(Loose { name, form })?;
    if covers_body(loose, scope, body)? {
        return Ok(());
    }
    loose.truncate(count);
    Ok(())
}

// The accumulator of an update that would have to extend it.
fn loosen_update<'a>(
    scope: &mut Scope<'a>,
    body: &'a [Stmt],
    loose: &mut Vec<Loose<'a>>,
    name: &'a Name,
    op: UpdateOp,
) -> Result<(), AllocError>
    ensures scope { OnOk result (scope_of scope.new ≡ scope_of scope.old) }
    ensures loose { OnOk result (looses_of loose.new.items
        ≡ loosening.loosened (in_body (scope_of scope.old)) (block_of body.now) (name_of name.now)
        (loosening.gained (looses_of loose.old.items) (name_of name.now) (operators.operator_of op)
        (option_and_then typing.accumulator_type (typing.lookup (scope_of scope.old) (name_of name.now))))
        (looses_of loose.old.items)) }
{
    let want = lookup(scope, name).and_then(accumulator_type);
    match want {
        Some(ty) if binary_leaves(update_operator(op)) && is_whole(loose, name) && is_narrow(ty) =>
            { loosen_name(scope, body, loose, name, ty) }
        _ => Ok(()),
    }
}

#[cycle(walk)]
fn loosen_stmt<'a>(
    scope: &mut Scope<'a>,
    body: &'a [Stmt],
    loose: &mut Vec<Loose<'a>>,
    stmt: &'a Stmt,
) -> Result<(), AllocError>
    ensures scope { OnOk result (scope_of scope.new ≡ scope_of scope.old) }
    ensures loose { OnOk result (looses_of loose.new.items
        ≡ loosening.loosen_action (in_body (scope_of scope.old)) (block_of body.now) (action_of stmt.now)
        (looses_of loose.old.items)) }
{
    match parts(stmt) {
        Part::If { block, .. } => loosen_block(scope, body, loose, block),
        Part::IfElse { block, other, .. } => {
            loosen_block(scope, body, loose, block)?;
            loosen_block(scope, body, loose, other)
        }
        Part::Update { name, op, .. } => loosen_update(scope, body, loose, name, op),
        _ => Ok(()),
    }
}

// Those of statements, after those that are held loosely before them.
#[cycle(walk)]
fn loosen_block<'a>(
    scope: &mut Scope<'a>,
    body: &'a [Stmt],
    loose: &mut Vec<Loose<'a>>,
    block: &'a [Stmt],
) -> Result<(), AllocError>
    ensures scope { OnOk result (scope_of scope.new ≡ scope_of scope.old) }
    ensures loose { OnOk result (looses_of loose.new.items
        ≡ loosening.loosen_block (in_body (scope_of scope.old)) (block_of body.now) (block_of block.now)
        (looses_of loose.old.items)) }
{
    for stmt in block {
        loosen_stmt(scope, body, loose, stmt)?;
    }
    Ok(())
}

// ---- counting to zero

// The loop variable behind, and the arrays of the loop ahead, after others.
fn moved_names<'a>(
    scope: &mut Scope<'a>,
    for_loop: &'a Loop,
    loose: &mut Vec<Loose<'a>>,
) -> Result<(), AllocError>
    ensures scope { OnOk result (scope_of scope.new ≡ scope_of scope.old) }
    ensures loose { OnOk result (looses_of loose.new.items
        ≡ loosening.block_arrays (in_body (scope_of scope.old)) (block_of for_loop.now.body.items)
        (looses_of loose.old.items ++ record { name = name_of for_loop.now.index; form = layouts.Behind } ∷ [])) }
{
    let name = for_loop.index.text();
    let form = Form::Behind;
    loose.push(Loose { name, form })?;
    let inside = scope.inside;
    scope.inside = true;
    add_block(loose, scope, &for_loop.body)?;
    scope.inside = inside;
    Ok(())
}

/// Those that stand ahead after the loop.
pub fn after_loop<'a>(alloc: Global, loose: &[Loose<'a>]) -> Result<Vec<Loose<'a>>, AllocError>
    ensures { IfOk result (λ v. looses_of v.items ≡ loosening.after_loop (looses_of loose.now)) }
{
    let mut kept = Vec::new(alloc);
    for held in loose {
        if let Form::Ahead(_) = held.form {
            let Loose { name, form } = *held;
            kept.push(Loose { name, form })?;
        }
    }
    Ok(kept)
}

// Whether the returned value, after the loop, asks no more of the names that stay held so.
fn may_leave(
    alloc: Global,
    loose: &[Loose],
    scope: &Scope,
    answer: &Option<Answer>,
) -> Result<bool, AllocError>
    ensures { IfOk result (λ t. t ≡ loosening.covers_answer (loosening.after_loop (looses_of loose.now))
        (scope_of scope.now) (option_map returned_of answer.now)) }
{
    match answer {
        None => Ok(true),
        Some(answer) => {
            let kept = after_loop(alloc, loose)?;
            let want = Some(answer.ty);
            Ok(covers(&kept, scope, Extent::Whole, want, &answer.value))
        }
    }
}

// None of these names, where a loop does not count to zero.
fn keep_moved<'a>(
    alloc: Global,
    scope: &mut Scope<'a>,
    kernel: &Kernel,
    for_loop: &'a Loop,
    loose: &mut Vec<Loose<'a>>,
) -> Result<(), AllocError>
    requires scope { scope_of scope.old
        ≡ typing.after_for_loop (typing.var_scope (program_of kernel.now)) (Some (for_loop_of for_loop.now)) }
    ensures scope { OnOk result (scope_of scope.new ≡ scope_of scope.old) }
    ensures loose { OnOk result (looses_of loose.new.items
        ≡ (if loosening.may_move (looses_of loose.old.items) (typing.var_scope (program_of kernel.now))
        (for_loop_of for_loop.now) (program_of kernel.now).answer then looses_of loose.old.items else [])) }
{
    let answered = may_leave(alloc, loose, scope, &kernel.answer)?;
    let covered = covers_body(loose, scope, &for_loop.body)?;
    if !(covered && answered) {
        loose.truncate(0);
    }
    Ok(())
}

// ---- the whole

/// The names that a loop holds loosely. The scope is left as it was, before the loop variable is declared.
pub fn loosen_names<'a>(
    alloc: Global,
    layout: &mut KernelLayout<'a>,
    scope: &mut Scope<'a>,
    kernel: &Kernel,
    for_loop: &'a Loop,
) -> Result<(), AllocError>
    requires for_loop { (program_of kernel.now).for_loop ≡ Some (for_loop_of for_loop.now) }
    requires scope { scope_of scope.old ≡ typing.var_scope (program_of kernel.now) }
    ensures scope { OnOk result (scope_of scope.new ≡ scope_of scope.old) }
    ensures layout { OnOk result (layout.new
        ≡ with_loose layout.old (loosening.held_loosely (program_of kernel.now))) }
{
    let visible = visible_count(scope);
    let taken = declared_count(scope);
    declare(scope, &for_loop.index, Binding::Index)?;
    let mut loose = Vec::new(alloc);
    moved_names(scope, for_loop, &mut loose)?;
    keep_moved(alloc, scope, kernel, for_loop, &mut loose)?;
    loosen_block(scope, &for_loop.body, &mut loose, &for_loop.body)?;
    layout.loosen(loose);
    close(scope, visible, taken);
    Ok(())
}
