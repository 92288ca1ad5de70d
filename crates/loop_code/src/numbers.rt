//! What a loop holds in registers of its own.

ghost use Rattle.std.specs.Prelude.{◌≡◌, ◌≤◌, OnOk};
ghost use Rattle.kernel_tree.specs.Plain.{term_of, action_of, block_of};
ghost use Rattle.kernel_scope.specs.Scopes.{scope_of};
ghost use Rattle.scalar_words.specs.View.{constants_of, homes_of};
ghost use Rattle.kernel_meaning.specs.Operators as operators;
ghost use Rattle.value_code.specs.HeldNumbers as numbers;
ghost use Rattle.loop_code.specs.LoopNumbers as loops;

use kernel_scope::Scope;
use kernel_tree::{Expr, Part, Stmt, UpdateOp, parts};
use scalar_words::operations::update_operator;
use scalar_words::{Constant, Home};
use std::alloc::AllocError;
use value_code::hold::{addend_of, hold_element, hold_term};

// The value of an update, which its word may hold as a number.
fn hold_update(
    constants: &mut Vec<Constant>,
    params: usize,
    homes: &[Home],
    scope: &Scope,
    op: UpdateOp,
    value: &Expr,
) -> Result<(), AllocError>
    requires { params ≤ 8 }
    ensures { OnOk result (constants_of constants.new.items
        ≡ numbers.hold_side (numbers.addend_of (operators.operator_of op) (term_of value.now))
        (numbers.hold_term params (homes_of homes.now) (scope_of scope.now) (term_of value.now))
        (constants_of constants.old.items)) }
{
    match addend_of(update_operator(op), value) {
        Some(_) => Ok(()),
        None => hold_term(constants, params, homes, scope, value),
    }
}

#[cycle(statements)]
fn hold_stmt(
    constants: &mut Vec<Constant>,
    params: usize,
    homes: &[Home],
    scope: &Scope,
    stmt: &Stmt,
) -> Result<(), AllocError>
    requires { params ≤ 8 }
    ensures { OnOk result (constants_of constants.new.items
        ≡ loops.hold_action params (homes_of homes.now) (scope_of scope.now) (action_of stmt.now)
        (constants_of constants.old.items)) }
{
    match parts(stmt) {
        Part::If { cond, block } => {
            hold_term(constants, params, homes, scope, cond)?;
            hold_block(constants, params, homes, scope, block)
        }
        Part::IfElse { cond, block, other } => {
            hold_term(constants, params, homes, scope, cond)?;
            hold_block(constants, params, homes, scope, block)?;
            hold_block(constants, params, homes, scope, other)
        }
        Part::Store {
            array,
            index,
            value,
        } => {
            hold_term(constants, params, homes, scope, value)?;
            hold_element(constants, params, homes, scope, array, index)
        }
        Part::Update { op, value, .. } => hold_update(constants, params, homes, scope, op, value),
        Part::Let { value, .. } | Part::Break { cond: value } => {
            hold_term(constants, params, homes, scope, value)
        }
    }
}

/// The numbers of statements, after those that are held before them.
#[cycle(statements)]
pub fn hold_block(
    constants: &mut Vec<Constant>,
    params: usize,
    homes: &[Home],
    scope: &Scope,
    block: &[Stmt],
) -> Result<(), AllocError>
    requires { params ≤ 8 }
    ensures { OnOk result (constants_of constants.new.items
        ≡ loops.hold_block params (homes_of homes.now) (scope_of scope.now) (block_of block.now)
        (constants_of constants.old.items)) }
{
    for stmt in block {
        hold_stmt(constants, params, homes, scope, stmt)?;
    }
    Ok(())
}
