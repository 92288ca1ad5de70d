//! The bounds of expressions.

ghost use Rattle.std.specs.Prelude.{◌≡◌, unwrap_or};
ghost use Rattle.kernel_tree.specs.Plain.{term_of};
ghost use Rattle.kernel_scope.specs.Scopes.{scope_of};
ghost use Rattle.value_bounds.specs.ValueBounds as values;

use crate::bounds::Bounds;
use crate::operators::{binary_in, ends, in_type, joined, shift_in, unary_in};
use kernel_scope::{Scope, own_type};
use kernel_tree::{BinaryOp, Expr, Ty, UnaryOp};

// What is known of a value, else the ends of its type.
fn kept(want: Option<Ty>, known: Option<Bounds>) -> Bounds
    ensures { result ≡ unwrap_or known (values.ends want) }
{
    known.unwrap_or(ends(want))
}

/// The bounds of the value of an expression of which a type is wanted.
pub fn bounds_of(scope: &Scope, want: Option<Ty>, expr: &Expr) -> Bounds
    ensures { result ≡ values.bounds_of (scope_of scope.now) want (term_of expr.now) }
{
    match expr {
        Expr::Lit(value) => kept(
            want,
            in_type(
                want,
                Bounds {
                    low: *value,
                    high: *value,
                },
            ),
        ),
        Expr::Unary { op, arg } => kept(want, unary_in(want, *op, bounds_of(scope, want, arg))),
        Expr::Binary { op, left, right } => {
            let left = bounds_of(scope, want, left);
            let right = bounds_of(scope, want, right);
            kept(want, binary_in(want, *op, left, right))
        }
        Expr::Shift {
            left_shift,
            arg,
            count,
        } => {
            let arg = bounds_of(scope, want, arg);
            kept(want, shift_in(want, *left_shift, *count, arg))
        }
        Expr::Cast { arg, ty } => {
            let inner = bounds_of(scope, own_type(scope, arg), arg);
            kept(Some(*ty), in_type(Some(*ty), inner))
        }
        Expr::Select { yes, no, .. } => {
            joined(bounds_of(scope, want, yes), bounds_of(scope, want, no))
        }
        _ => ends(want),
    }
}

/// Whether the integer that an operator gives is a value of the type, whatever names and elements are.
pub fn unary_stays(scope: &Scope, want: Option<Ty>, op: UnaryOp, arg: &Expr) -> bool
    ensures { result ≡ values.unary_stays (scope_of scope.now) want op (term_of arg.now) }
{
    unary_in(want, op, bounds_of(scope, want, arg)).is_some()
}

/// The same of an operator with two operands.
pub fn binary_stays(
    scope: &Scope,
    want: Option<Ty>,
    op: BinaryOp,
    left: &Expr,
    right: &Expr,
) -> bool
    ensures { result ≡ values.binary_stays (scope_of scope.now) want op (term_of left.now) (term_of right.now) }
{
    let left = bounds_of(scope, want, left);
    let right = bounds_of(scope, want, right);
    binary_in(want, op, left, right).is_some()
}

/// The same of a shift.
pub fn shift_stays(
    scope: &Scope,
    want: Option<Ty>,
    left_shift: bool,
    arg: &Expr,
    count: i128,
) -> bool
    ensures { result ≡ values.shift_stays (scope_of scope.now) want left_shift (term_of arg.now) count }
{
    shift_in(want, left_shift, count, bounds_of(scope, want, arg)).is_some()
}
