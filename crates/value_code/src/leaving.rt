//! What an operator asks of its operands, and whether its result is extended.

ghost use Rattle.std.specs.Prelude.{◌≡◌};
ghost use Rattle.kernel_tree.specs.Plain.{term_of};
ghost use Rattle.kernel_scope.specs.Scopes.{scope_of};
ghost use Rattle.value_code.specs.Extents as extents;
ghost use Rattle.value_code.specs.Leaving as leaving;

use crate::extent::{Extent, asked_extent, binary_joins, settles, unary_joins, within};
use kernel_meaning::{binary_leaves, unary_leaves};
use kernel_scope::Scope;
use kernel_tree::{BinaryOp, Expr, Ty, UnaryOp};
use value_bounds::{binary_stays, shift_stays, unary_stays};

// Whether an operator may leave the extended form at a type.
fn leaves_at(op: UnaryOp, want: Option<Ty>) -> bool
    ensures { result ≡ leaving.leaves_at op want }
{
    match want {
        None => false,
        Some(ty) => unary_leaves(op, ty),
    }
}

// What an operator, of which so much is asked for, asks of its operands, and whether its result is extended, by whether it joins
// low bits and whether its result may lie outside the extended form.
fn asks(joins: bool, may_leave: bool, extent: Extent, want: Option<Ty>) -> (Extent, bool)
    ensures asked { result.0 ≡ extents.asked_extent joins may_leave extent want }
    ensures settles { result.1 ≡ extents.settles (extents.within extent want) joins may_leave }
{
    (
        asked_extent(joins, may_leave, extent, want),
        settles(within(extent, want), joins, may_leave),
    )
}

/// What an operator on one value, of which so much is asked for, asks of its operand, and whether its result is extended.
pub fn unary_asks(
    scope: &Scope,
    want: Option<Ty>,
    op: UnaryOp,
    arg: &Expr,
    extent: Extent,
) -> (Extent, bool)
    ensures asked { result.0 ≡ leaving.unary_asks (scope_of scope.now) want op (term_of arg.now) extent }
    ensures settles { result.1 ≡ leaving.unary_settles (scope_of scope.now) want op (term_of arg.now) extent }
{
    let may_leave = leaves_at(op, want) && !unary_stays(scope, want, op, arg);
    asks(unary_joins(op), may_leave, extent, want)
}

/// The same of an operator on two values.
pub fn binary_asks(
    scope: &Scope,
    want: Option<Ty>,
    op: BinaryOp,
    left: &Expr,
    right: &Expr,
    extent: Extent,
) -> (Extent, bool)
    ensures asked { result.0
        ≡ leaving.binary_asks (scope_of scope.now) want op (term_of left.now) (term_of right.now) extent }
    ensures settles { result.1
        ≡ leaving.binary_settles (scope_of scope.now) want op (term_of left.now) (term_of right.now) extent }
{
    let may_leave = binary_leaves(op) && !binary_stays(scope, want, op, left, right);
    asks(binary_joins(op), may_leave, extent, want)
}

/// The same of a shift.
pub fn shift_asks(
    scope: &Scope,
    want: Option<Ty>,
    left_shift: bool,
    arg: &Expr,
    count: i128,
    extent: Extent,
) -> (Extent, bool)
    ensures asked { result.0 ≡ leaving.shift_asks (scope_of scope.now) want left_shift (term_of arg.now) count extent }
    ensures settles { result.1
        ≡ leaving.shift_settles (scope_of scope.now) want left_shift (term_of arg.now) count extent }
{
    let may_leave = left_shift && !shift_stays(scope, want, left_shift, arg, count);
    asks(left_shift, may_leave, extent, want)
}
