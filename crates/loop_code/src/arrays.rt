//! The arrays of a loop, whose registers stand ahead where it counts to zero.

ghost use Rattle.std.specs.Prelude.{◌≡◌, OnOk};
ghost use Rattle.kernel_tree.specs.Plain.{name_of, term_of, action_of, block_of};
ghost use Rattle.kernel_scope.specs.Scopes.{scope_of};
ghost use Rattle.scalar_words.specs.View.{looses_of};
ghost use Rattle.kernel_tree.specs.Items as items;
ghost use Rattle.loop_code.specs.Loosening as loosening;

use kernel_scope::{Scope, array_type};
use kernel_tree::{Expr, Name, Part, Stmt, parts};
use scalar_words::{Form, Loose};
use std::alloc::AllocError;
use value_code::covers::is_whole;
use value_code::instructions::index_word;

// An array, where nothing else is held of its name.
fn add_array<'a>(
    loose: &mut Vec<Loose<'a>>,
    scope: &Scope,
    array: &'a Name,
) -> Result<(), AllocError>
    ensures { OnOk result (looses_of loose.new.items
        ≡ loosening.with_array (scope_of scope.now) (name_of array.now) (looses_of loose.old.items)) }
{
    match array_type(scope, array) {
        Some(ty) if is_whole(loose, array) => {
            let name = array.text();
            let form = Form::Ahead(ty);
            loose.push(Loose { name, form })?;
            Ok(())
        }
        _ => Ok(()),
    }
}

// Those of an expression, after others.
#[cycle(terms)]
fn add_term<'a>(loose: &mut Vec<Loose<'a>>, scope: &Scope, expr: &'a Expr) -> Result<(), AllocError>
    ensures { OnOk result (looses_of loose.new.items
        ≡ loosening.term_arrays (scope_of scope.now) (term_of expr.now) (looses_of loose.old.items)) }
{
    match expr {
        Expr::Read { array, index } => add_element(loose, scope, array, index),
        Expr::Unary { arg, .. }
        | Expr::Shift { arg, .. }
        | Expr::Cast { arg, .. }
        | Expr::Not { arg } => add_term(loose, scope, arg),
        Expr::Binary { left, right, .. }
        | Expr::Compare { left, right, .. }
        | Expr::And { left, right }
        | Expr::Or { left, right } => add_both(loose, scope, left, right),
        Expr::Select { cond, yes, no } => {
            add_both(loose, scope, yes, no)?;
            add_term(loose, scope, cond)
        }
        _ => Ok(()),
    }
}

// The array of an element at an offset from the loop variable, or those of a computed index.
#[cycle(terms)]
#[tactic(auto, using(crate::proofs::ArrayWalk::element_streamed, crate::proofs::ArrayWalk::element_computed))]
fn add_element<'a>(
    loose: &mut Vec<Loose<'a>>,
    scope: &Scope,
    array: &'a Name,
    index: &'a Expr,
) -> Result<(), AllocError>
    ensures { OnOk result (looses_of loose.new.items
        ≡ loosening.element_arrays (items.stream_offset (scope_of scope.now).index (term_of index.now))
        (loosening.with_array (scope_of scope.now) (name_of array.now) (looses_of loose.old.items))
        (loosening.term_arrays (scope_of scope.now) (term_of index.now) (looses_of loose.old.items))) }
{
    match index_word(scope, index) {
        Some(_) => add_array(loose, scope, array),
        None => add_term(loose, scope, index),
    }
}

// Those of two expressions, one after the other.
#[cycle(terms)]
fn add_both<'a>(
    loose: &mut Vec<Loose<'a>>,
    scope: &Scope,
    left: &'a Expr,
    right: &'a Expr,
) -> Result<(), AllocError>
    ensures { OnOk result (looses_of loose.new.items
        ≡ loosening.term_arrays (scope_of scope.now) (term_of right.now)
        (loosening.term_arrays (scope_of scope.now) (term_of left.now) (looses_of loose.old.items))) }
{
    add_term(loose, scope, left)?;
    add_term(loose, scope, right)
}

#[cycle(statements)]
fn add_stmt<'a>(loose: &mut Vec<Loose<'a>>, scope: &Scope, stmt: &'a Stmt) -> Result<(), AllocError>
    ensures { OnOk result (looses_of loose.new.items
        ≡ loosening.action_arrays (scope_of scope.now) (action_of stmt.now) (looses_of loose.old.items)) }
{
    match parts(stmt) {
        Part::If { cond, block } => {
            add_term(loose, scope, cond)?;
            add_block(loose, scope, block)
        }
        Part::IfElse { cond, block, other } => {
            add_term(loose, scope, cond)?;
            add_block(loose, scope, block)?;
            add_block(loose, scope, other)
        }
        Part::Store { array, value, .. } => {
            add_term(loose, scope, value)?;
            add_array(loose, scope, array)
        }
        Part::Let { value, .. } | Part::Update { value, .. } | Part::Break { cond: value } => {
            add_term(loose, scope, value)
        }
    }
}

/// The arrays of statements, after those of the statements before them.
#[cycle(statements)]
pub fn add_block<'a>(
    loose: &mut Vec<Loose<'a>>,
    scope: &Scope,
    block: &'a [Stmt],
) -> Result<(), AllocError>
    ensures { OnOk result (looses_of loose.new.items
        ≡ loosening.block_arrays (scope_of scope.now) (block_of block.now) (looses_of loose.old.items)) }
{
    for stmt in block {
        add_stmt(loose, scope, stmt)?;
    }
    Ok(())
}
