//! Resolves statements.

ghost use Rattle.std.specs.Prelude.{◌≡◌, IfOk};
ghost use Rattle.kernel_tree.specs.Plain as plain;
ghost use Rattle.kernel_tree.specs.Plain.{name_of, term_of, action_of, block_of};
ghost use Rattle.kernel_tree.specs.Typing as typing;
ghost use Rattle.kernel_meaning.specs.Operators as operators;
ghost use Rattle.kernel_plan.specs.Trees.{task_of, tasks_of};
ghost use Rattle.kernel_plan.specs.Resolve as resolving;
ghost use Rattle.kernel_scope.specs.Scopes.{scope_of};

use crate::names::{MOST_SLOTS, index_slot, slot};
use crate::node::Node;
use crate::offset::stream_offset;
use crate::resolve::{operand, resolve, resolve_number};
use crate::step::Step;
use kernel_scope::{
    Scope, accumulator_type, array_type, define, first, leave, lookup, own_type, visible_count,
};
use kernel_tree::{BinaryOp, Expr, Name, Part, Stmt, Ty, UpdateOp, parts};
use std::alloc::{AllocError, Global};

// The slot of what a `let` defines.
fn let_slot(scope: &Scope, want: Option<Ty>) -> usize
    ensures { result ≡ resolving.let_slot (scope_of scope.now) want }
{
    match want {
        None => MOST_SLOTS,
        Some(_) => visible_count(scope),
    }
}

fn resolve_let<'a>(
    alloc: Global,
    scope: &mut Scope<'a>,
    name: &'a Name,
    ty: Option<Ty>,
    value: &Expr,
) -> Result<Step, AllocError>
    ensures step { IfOk result (λ s. task_of s
        ≡ resolving.resolved_action (scope_of scope.old) (plain.Define (name_of name.now) ty (term_of value.now))) }
    ensures scope { IfOk result (λ _. scope_of scope.new
        ≡ typing.after_action (scope_of scope.old) (plain.Define (name_of name.now) ty (term_of value.now))) }
{
    let want = first(ty, own_type(scope, value));
    let slot = let_slot(scope, want);
    let value = resolve(alloc, scope, want, value)?;
    define(scope, name, want)?;
    Ok(Step::Set { slot, value })
}

fn resolve_store(
    alloc: Global,
    scope: &Scope,
    array: &Name,
    index: &Expr,
    value: &Expr,
) -> Result<Step, AllocError>
    ensures { IfOk result (λ s. task_of s ≡ resolving.resolved_action (scope_of scope.now)
        (plain.Put (name_of array.now) (term_of index.now) (term_of value.now))) }
{
    let base = slot(scope, array);
    let ty = array_type(scope, array);
    let value = resolve(alloc, scope, ty, value)?;
    match stream_offset(scope.index, index) {
        Some(offset) => Ok(Step::Put {
            base,
            ty,
            index: index_slot(scope),
            offset,
            value,
        }),
        None => Ok(Step::Store {
            base,
            ty,
            number: resolve_number(alloc, scope, index)?,
            value,
        }),
    }
}

// The operator that an update applies.
fn operator(op: UpdateOp) -> BinaryOp
    ensures { result ≡ operators.operator_of op }
{
    match op {
        UpdateOp::Add => BinaryOp::Add,
        UpdateOp::And => BinaryOp::And,
        UpdateOp::Or => BinaryOp::Or,
        UpdateOp::Xor => BinaryOp::Xor,
        UpdateOp::Min => BinaryOp::Min,
        UpdateOp::Max => BinaryOp::Max,
    }
}

fn resolve_update(
    alloc: Global,
    scope: &Scope,
    name: &Name,
    op: UpdateOp,
    value: &Expr,
) -> Result<Step, AllocError>
    ensures { IfOk result (λ s. task_of s ≡ resolving.resolved_action (scope_of scope.now)
        (plain.Update (name_of name.now) op (term_of value.now))) }
{
    let want = lookup(scope, name).and_then(accumulator_type);
    let slot = slot(scope, name);
    let right = operand(alloc, scope, want, value)?;
    let left = Box::new(alloc, Node::Slot(slot))?;
    let value = Node::Binary {
        op: operator(op),
        ty: want,
        left,
        right,
    };
    Ok(Step::Set { slot, value })
}

fn resolve_break(alloc: Global, scope: &Scope, cond: &Expr) -> Result<Step, AllocError>
    ensures { IfOk result (λ s. task_of s ≡ resolving.resolved_action (scope_of scope.now)
        (plain.Leave (term_of cond.now))) }
{
    let cond = resolve(alloc, scope, None, cond)?;
    Ok(Step::Break { cond })
}

#[cycle(statements)]
fn resolve_stmt<'a>(
    alloc: Global,
    scope: &mut Scope<'a>,
    stmt: &'a Stmt,
) -> Result<Step, AllocError>
    ensures step { IfOk result (λ s. task_of s ≡ resolving.resolved_action (scope_of scope.old) (action_of stmt.now)) }
    ensures scope { IfOk result (λ _. scope_of scope.new
        ≡ typing.after_action (scope_of scope.old) (action_of stmt.now)) }
{
    match parts(stmt) {
        Part::Let { name, ty, value } => resolve_let(alloc, scope, name, ty, value),
        Part::Store {
            array,
            index,
            value,
        } => resolve_store(alloc, scope, array, index, value),
        Part::Update { name, op, value } => resolve_update(alloc, scope, name, op, value),
        Part::If { cond, block } => resolve_if(alloc, scope, cond, block, &[]),
        Part::IfElse { cond, block, other } => resolve_if(alloc, scope, cond, block, other),
        Part::Break { cond } => resolve_break(alloc, scope, cond),
    }
}

#[cycle(statements)]
fn resolve_if<'a>(
    alloc: Global,
    scope: &mut Scope<'a>,
    cond: &Expr,
    block: &'a [Stmt],
    other: &'a [Stmt],
) -> Result<Step, AllocError>
    ensures step { IfOk result (λ s. task_of s
        ≡ resolving.resolved_action (scope_of scope.old)
        (plain.Choose (term_of cond.now) (block_of block.now) (plain.Else (block_of other.now)))) }
    ensures scope { IfOk result (λ _. scope_of scope.new
        ≡ typing.after_action (scope_of scope.old)
        (plain.Choose (term_of cond.now) (block_of block.now) (plain.Else (block_of other.now)))) }
{
    let yes = resolve_inner(alloc, scope, block)?;
    let no = resolve_inner(alloc, scope, other)?;
    let cond = resolve(alloc, scope, None, cond)?;
    Ok(Step::If { cond, yes, no })
}

/// A block, after which its names are visible no more.
#[cycle(statements)]
pub fn resolve_inner<'a>(
    alloc: Global,
    scope: &mut Scope<'a>,
    block: &'a [Stmt],
) -> Result<Vec<Step>, AllocError>
    ensures steps { IfOk result (λ v. tasks_of v.items
        ≡ resolving.resolved_block (scope_of scope.old) (block_of block.now)) }
    ensures scope { IfOk result (λ _. scope_of scope.new
        ≡ typing.left (scope_of scope.old) (typing.after_block (scope_of scope.old) (block_of block.now))) }
{
    let count = visible_count(scope);
    let steps = resolve_block(alloc, scope, block)?;
    leave(scope, count);
    Ok(steps)
}

// Statements, after which their names stay visible.
#[cycle(statements)]
fn resolve_block<'a>(
    alloc: Global,
    scope: &mut Scope<'a>,
    block: &'a [Stmt],
) -> Result<Vec<Step>, AllocError>
    ensures steps { IfOk result (λ v. tasks_of v.items
        ≡ resolving.resolved_block (scope_of scope.old) (block_of block.now)) }
    ensures scope { IfOk result (λ _. scope_of scope.new
        ≡ typing.after_block (scope_of scope.old) (block_of block.now)) }
{
    let mut steps = Vec::new(alloc);
    for stmt in block {
        let step = resolve_stmt(alloc, scope, stmt)?;
        steps.push(step)?;
    }
    Ok(steps)
}
