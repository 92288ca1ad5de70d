//! Resolves expressions.

ghost use Rattle.std.specs.Prelude.{◌≡◌, IfOk, None};
ghost use Rattle.kernel_tree.specs.Plain.{name_of, term_of};
ghost use Rattle.kernel_tree.specs.Typing as typing;
ghost use Rattle.kernel_plan.specs.Trees as trees;
ghost use Rattle.kernel_plan.specs.Trees.{tree_of};
ghost use Rattle.kernel_plan.specs.Resolve as resolving;
ghost use Rattle.kernel_scope.specs.Scopes.{scope_of};

use crate::names::{index_slot, slot};
use crate::node::Node;
use crate::offset::stream_offset;
use kernel_meaning::wrapped;
use kernel_scope::{Scope, array_type, first, own_type, side_type};
use kernel_tree::{BinaryOp, CompareOp, Expr, Name, Ty};
use std::alloc::{AllocError, Global};

// An element at an offset from the loop variable.
fn stream(scope: &Scope, array: &Name, offset: i128) -> Node
    ensures { tree_of result ≡ resolving.stream_tree (scope_of scope.now) (name_of array.now) offset }
{
    Node::Stream {
        base: slot(scope, array),
        ty: array_type(scope, array),
        index: index_slot(scope),
        offset,
    }
}

/// An expression of which a type is wanted, or a condition.
#[cycle(nodes)]
pub fn resolve(
    alloc: Global,
    scope: &Scope,
    want: Option<Ty>,
    expr: &Expr,
) -> Result<Node, AllocError>
    ensures { IfOk result (λ n. tree_of n ≡ resolving.resolved (scope_of scope.now) want (term_of expr.now)) }
{
    match expr {
        Expr::Lit(value) => Ok(Node::Constant(wrapped(want, *value))),
        Expr::Var(name) => Ok(Node::Slot(slot(scope, name))),
        Expr::Read { array, index } => resolve_read(alloc, scope, array, index),
        Expr::Unary { op, arg } => Ok(Node::Unary {
            op: *op,
            ty: want,
            arg: operand(alloc, scope, want, arg)?,
        }),
        Expr::Binary { op, left, right } => resolve_binary(alloc, scope, *op, want, left, right),
        Expr::Shift {
            left_shift,
            arg,
            count,
        } => Ok(Node::Shift {
            left_shift: *left_shift,
            count: *count,
            ty: want,
            arg: operand(alloc, scope, want, arg)?,
        }),
        Expr::Cast { arg, ty } => Ok(Node::Cast {
            ty: *ty,
            arg: operand(alloc, scope, own_type(scope, arg), arg)?,
        }),
        Expr::Select { cond, yes, no } => resolve_select(alloc, scope, want, cond, yes, no),
        Expr::Compare { op, left, right } => resolve_compared(alloc, scope, *op, left, right),
        Expr::And { left, right } => resolve_both(alloc, scope, left, right),
        Expr::Or { left, right } => resolve_either(alloc, scope, left, right),
        Expr::Not { arg } => Ok(Node::Not {
            arg: operand(alloc, scope, None, arg)?,
        }),
    }
}

/// The number of an element, by an index that is computed.
#[cycle(nodes)]
pub fn resolve_number(alloc: Global, scope: &Scope, index: &Expr) -> Result<Node, AllocError>
    ensures { IfOk result (λ n. tree_of n ≡ resolving.number_tree (scope_of scope.now) (term_of index.now)) }
{
    let want = first(own_type(scope, index), Some(Ty::U64));
    resolve(alloc, scope, want, index)
}

/// An operand, in a box.
#[cycle(nodes)]
pub fn operand(
    alloc: Global,
    scope: &Scope,
    want: Option<Ty>,
    expr: &Expr,
) -> Result<Box<Node>, AllocError>
    ensures { IfOk result (λ b. tree_of b.value
        ≡ resolving.resolved (scope_of scope.now) want (term_of expr.now)) }
{
    let node = resolve(alloc, scope, want, expr)?;
    Ok(Box::new(alloc, node)?)
}

// Two operands of which the same type is wanted, each in a box.
#[cycle(nodes)]
fn operands(
    alloc: Global,
    scope: &Scope,
    want: Option<Ty>,
    left: &Expr,
    right: &Expr,
) -> Result<(Box<Node>, Box<Node>), AllocError>
    ensures left { IfOk result (λ p. tree_of p.0.value
        ≡ resolving.resolved (scope_of scope.now) want (term_of left.now)) }
    ensures right { IfOk result (λ p. tree_of p.1.value
        ≡ resolving.resolved (scope_of scope.now) want (term_of right.now)) }
{
    let left = operand(alloc, scope, want, left)?;
    let right = operand(alloc, scope, want, right)?;
    Ok((left, right))
}

#[cycle(nodes)]
fn resolve_read(
    alloc: Global,
    scope: &Scope,
    array: &Name,
    index: &Expr,
) -> Result<Node, AllocError>
    ensures { IfOk result (λ n. tree_of n ≡ resolving.element_tree (scope_of scope.now) (name_of array.now)
        (term_of index.now)) }
{
    match stream_offset(scope.index, index) {
        Some(offset) => Ok(stream(scope, array, offset)),
        None => resolve_element(alloc, scope, array, index),
    }
}

#[cycle(nodes)]
fn resolve_element(
    alloc: Global,
    scope: &Scope,
    array: &Name,
    index: &Expr,
) -> Result<Node, AllocError>
    ensures { IfOk result (λ n. tree_of n ≡ trees.Element (resolving.slot_of (scope_of scope.now) (name_of array.now))
        (typing.array_type (scope_of scope.now) (name_of array.now))
        (resolving.number_tree (scope_of scope.now) (term_of index.now))) }
{
    let number = Box::new(alloc, resolve_number(alloc, scope, index)?)?;
    Ok(Node::Element {
        base: slot(scope, array),
        ty: array_type(scope, array),
        number,
    })
}

#[cycle(nodes)]
fn resolve_binary(
    alloc: Global,
    scope: &Scope,
    op: BinaryOp,
    want: Option<Ty>,
    left: &Expr,
    right: &Expr,
) -> Result<Node, AllocError>
    ensures { IfOk result (λ n. tree_of n ≡ trees.Binary op want
        (resolving.resolved (scope_of scope.now) want (term_of left.now))
        (resolving.resolved (scope_of scope.now) want (term_of right.now))) }
{
    let (left, right) = operands(alloc, scope, want, left, right)?;
    Ok(Node::Binary {
        op,
        ty: want,
        left,
        right,
    })
}

#[cycle(nodes)]
fn resolve_select(
    alloc: Global,
    scope: &Scope,
    want: Option<Ty>,
    cond: &Expr,
    yes: &Expr,
    no: &Expr,
) -> Result<Node, AllocError>
    ensures { IfOk result (λ n. tree_of n ≡ trees.Select
        (resolving.resolved (scope_of scope.now) None (term_of cond.now))
        (resolving.resolved (scope_of scope.now) want (term_of yes.now))
        (resolving.resolved (scope_of scope.now) want (term_of no.now))) }
{
    let cond = operand(alloc, scope, None, cond)?;
    let (yes, no) = operands(alloc, scope, want, yes, no)?;
    Ok(Node::Select { cond, yes, no })
}

#[cycle(nodes)]
fn resolve_compared(
    alloc: Global,
    scope: &Scope,
    op: CompareOp,
    left: &Expr,
    right: &Expr,
) -> Result<Node, AllocError>
    ensures { let want = typing.side_type (scope_of scope.now) (term_of left.now) (term_of right.now) in
        IfOk result (λ n. tree_of n ≡ trees.Compare op (resolving.resolved (scope_of scope.now) want (term_of left.now))
        (resolving.resolved (scope_of scope.now) want (term_of right.now))) }
{
    let want = side_type(scope, left, right);
    let (left, right) = operands(alloc, scope, want, left, right)?;
    Ok(Node::Compare { op, left, right })
}

#[cycle(nodes)]
fn resolve_both(alloc: Global, scope: &Scope, left: &Expr, right: &Expr) -> Result<Node, AllocError>
    ensures { IfOk result (λ n. tree_of n ≡ trees.And (resolving.resolved (scope_of scope.now) None (term_of left.now))
        (resolving.resolved (scope_of scope.now) None (term_of right.now))) }
{
    let (left, right) = operands(alloc, scope, None, left, right)?;
    Ok(Node::And { left, right })
}

#[cycle(nodes)]
fn resolve_either(
    alloc: Global,
    scope: &Scope,
    left: &Expr,
    right: &Expr,
) -> Result<Node, AllocError>
    ensures { IfOk result (λ n. tree_of n ≡ trees.Or (resolving.resolved (scope_of scope.now) None (term_of left.now))
        (resolving.resolved (scope_of scope.now) None (term_of right.now))) }
{
    let (left, right) = operands(alloc, scope, None, left, right)?;
    Ok(Node::Or { left, right })
}
