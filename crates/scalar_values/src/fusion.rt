//! Which sides stand in the word of an operator.

ghost use Rattle.std.specs.Prelude.{◌≡◌, ◌+◌, ◌<◌, ◌^◌};
ghost use Rattle.kernel_tree.specs.Plain.{Operation, term_of};
ghost use Rattle.kernel_tree.specs.Items.{term_size};
ghost use Rattle.kernel_scope.specs.Scopes.{scope_of};
ghost use Rattle.scalar_words.specs.Sites.{at, at_index, index_at};
ghost use Rattle.value_code.specs.Code as code;
ghost use Rattle.scalar_values.specs.Sides.{side_view};

use crate::operations::signed_side;
use crate::registers::{expr_size, home_of};
use crate::side::Side;
use a64_code::{Reg, zero};
use kernel_scope::{Scope, own_type};
use kernel_tree::{BinaryOp, Expr, Ty};
use scalar_words::instructions::is_narrow;
use scalar_words::{KernelLayout, Site};
use value_code::extent::{Asked, fits_at, within_type};
use value_code::instructions::{added_number, shift_count};
use value_code::leaving::{binary_asks, shift_asks};

// Whether a result is not extended, by whether it would be at types that are narrower than 64 bits.
fn stays(ends: bool, want: Option<Ty>) -> bool
    ensures { result ≡ code.stays ends want }
{
    match want {
        None => false,
        Some(ty) => !(ends && is_narrow(ty)),
    }
}

// Whether the word of an operator may take a product.
fn takes_product(op: BinaryOp) -> bool
    ensures { result ≡ code.takes_product op }
{
    matches!(op, BinaryOp::Add | BinaryOp::Sub)
}

// The same of a shift.
fn takes_shift(op: BinaryOp) -> bool
    ensures { result ≡ code.takes_shift op }
{
    matches!(
        op,
        BinaryOp::Add | BinaryOp::Sub | BinaryOp::And | BinaryOp::Or | BinaryOp::Xor
    )
}

fn is_product(op: BinaryOp) -> bool
    ensures { result ≡ code.is_product op }
{
    matches!(op, BinaryOp::Mul)
}

/// Whether the right side of an operator, of which so much is asked for, stands in its word.
pub fn is_fused(scope: &Scope, op: BinaryOp, asked: Asked, expr: &Expr) -> bool
    ensures fused { result ≡ code.is_fused (scope_of scope.now) op asked.extent asked.want (term_of expr.now) }
    ensures parts { code.HasParts result (term_of expr.now) }
{
    let Asked { extent, want } = asked;
    match expr {
        Expr::Binary {
            op: inner,
            left,
            right,
        } => {
            takes_product(op)
                && (is_product(*inner)
                    && stays(
                        binary_asks(scope, want, *inner, left, right, extent).1,
                        want,
                    ))
        }
        Expr::Shift {
            left_shift,
            arg,
            count,
        } => {
            takes_shift(op)
                && stays(
                    shift_asks(scope, want, *left_shift, arg, *count, extent).1,
                    want,
                )
        }
        Expr::Cast { arg, ty } => { within_type(extent, *ty) || fits_at(own_type(scope, arg), *ty) }
        _ => false,
    }
}

// Whether the sides of an operator may change places.
fn is_commutative(op: BinaryOp) -> bool
    ensures { result ≡ code.is_commutative op }
{
    !matches!(op, BinaryOp::Sub)
}

// Whether a right side makes way for a left one: a cast, and of two casts the one that is of no name.
fn makes_way(left: &Expr, right: &Expr) -> bool
    ensures { result ≡ code.makes_way (term_of left.now) (term_of right.now) }
{
    match right {
        Expr::Cast { arg, .. } => {
            !(matches!(left, Expr::Cast { .. }) && matches!(&**arg, Expr::Var(_)))
        }
        _ => false,
    }
}

// Whether nothing of a right side need stand in the word.
fn stands_alone(scope: &Scope, op: BinaryOp, asked: Asked, left: &Expr, right: &Expr) -> bool
    ensures { result ≡ code.stands_alone (scope_of scope.now) op asked.extent asked.want (term_of left.now)
        (term_of right.now) }
{
    added_number(op, asked.want, right).is_none()
        && (makes_way(left, right) || !is_fused(scope, op, asked, right))
}

// Whether none of so many items from one on is made in a register.
fn is_spared(layout: &KernelLayout, item: usize, count: usize, register: Reg) -> bool
    requires { item + count < 2 ^ 32 }
    ensures { result ≡ code.is_spared layout.now item count register.number }
{
    if count == 0 {
        return true;
    }
    let made = item < layout.last_use(item) && layout.reg(item).number == register.number;
    !made && is_spared(layout, item + 1, count - 1, register)
}

// The same of each register of which a word takes the value.
fn side_lasts(layout: &KernelLayout, item: usize, count: usize, side: Side) -> bool
    requires { item + count < 2 ^ 32 }
    ensures { result ≡ code.side_lasts layout.now item count (side_view side) }
{
    match side {
        Side::Number(_) => true,
        Side::Register(r) => is_spared(layout, item, count, r),
        Side::Product(p, q) => {
            is_spared(layout, item, count, p) && is_spared(layout, item, count, q)
        }
        Side::Moved { register, .. } => is_spared(layout, item, count, register),
    }
}

/// What a word takes of a value that stands in it, whose items begin at one.
pub fn part_side(site: &Site, want: Option<Ty>, expr: &Expr, item: usize) -> Side
    requires { item + term_size (index_at site.now) (term_of expr.now) < 2 ^ 32 }
    ensures { side_view result ≡ at_index site.now code.part_side want item (term_of expr.now) }
{
    match expr {
        Expr::Binary { left, right, .. } => {
            let second = item + expr_size(&site.scope, left);
            let p = home_of(site, left, item);
            let q = home_of(site, right, second);
            Side::Product(p, q)
        }
        Expr::Shift {
            left_shift,
            arg,
            count,
        } => Side::Moved {
            left: *left_shift,
            signed: signed_side(want),
            count: shift_count(*count),
            register: home_of(site, arg, item),
        },
        Expr::Cast { arg, .. } => Side::Register(home_of(site, arg, item)),
        _ => Side::Register(zero()),
    }
}

/// Whether the left side of an operator, the items of which begin at one, stands in its word.
#[tactic(auto, unfolding(value_code::specs::Code::is_led))]
pub fn is_led(
    site: &Site,
    op: BinaryOp,
    asked: Asked,
    left: &Expr,
    right: &Expr,
    item: usize,
) -> bool
    requires { item + term_size (index_at site.now) (Operation op (term_of left.now) (term_of right.now)) < 2 ^ 32 }
    ensures led { result ≡ at site.now code.is_led op asked.extent asked.want item (term_of left.now)
        (term_of right.now) }
    ensures parts { code.HasParts result (term_of left.now) }
{
    let scope = &site.scope;
    let fused = is_commutative(op) && is_fused(scope, op, asked, left);
    if fused && stands_alone(scope, op, asked, left, right) {
        let side = part_side(site, asked.want, left, item);
        let after = item + expr_size(scope, left);
        side_lasts(&site.layout, after, expr_size(scope, right), side)
    } else {
        false
    }
}
