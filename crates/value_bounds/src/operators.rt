//! What operators do to bounds. A result past 128 bits is cut to 128, which lies in no type.

ghost use Rattle.std.specs.Prelude.{◌≡◌, ◌<◌, ◌^◌, pos, Some, true, false};
ghost use Rattle.std.specs.Int.{int_min, int_max};
ghost use Rattle.kernel_tree.specs.declared.ops.BinaryOp.TheVariants as binary;
ghost use Rattle.kernel_tree.specs.declared.ops.UnaryOp.TheVariants as unary;
ghost use Rattle.kernel_meaning.specs.Operators as operators;
ghost use Rattle.value_bounds.specs.ValueBounds as values;

use crate::bounds::Bounds;
use kernel_meaning::{greatest, least, shift_count};
use kernel_tree::{BinaryOp, Ty, UnaryOp};

/// The least and the greatest value of a type.
pub fn ends(want: Option<Ty>) -> Bounds
    ensures { result ≡ values.ends want }
{
    match want {
        None => Bounds { low: 0, high: 0 },
        Some(ty) => Bounds {
            low: least(ty),
            high: greatest(ty),
        },
    }
}

// Whether an integer is a value of a type.
fn is_value(ty: Ty, value: i128) -> bool
    ensures { result ≡ values.is_value ty value }
{
    least(ty) <= value && value <= greatest(ty)
}

/// Bounds, where they lie in the type.
pub fn in_type(want: Option<Ty>, bounds: Bounds) -> Option<Bounds>
    ensures { result ≡ values.in_type want (Some bounds) }
{
    match want {
        Some(ty) if is_value(ty, bounds.low) && is_value(ty, bounds.high) => Some(bounds),
        _ => None,
    }
}

fn negated(want: Option<Ty>, arg: Bounds) -> Option<Bounds>
    ensures { result ≡ values.in_type want (values.unary_bounds unary.Neg arg) }
{
    in_type(
        want,
        Bounds {
            low: 0_i128.saturating_sub(arg.high),
            high: 0_i128.saturating_sub(arg.low),
        },
    )
}

fn absolute(want: Option<Ty>, arg: Bounds) -> Option<Bounds>
    ensures { result ≡ values.in_type want (values.unary_bounds unary.Abs arg) }
{
    in_type(
        want,
        Bounds {
            low: 0,
            high: arg.high.max(0_i128.saturating_sub(arg.low)),
        },
    )
}

fn sum(want: Option<Ty>, left: Bounds, right: Bounds) -> Option<Bounds>
    ensures { result ≡ values.in_type want (values.binary_bounds binary.Add left right) }
{
    in_type(
        want,
        Bounds {
            low: left.low.saturating_add(right.low),
            high: left.high.saturating_add(right.high),
        },
    )
}

fn difference(want: Option<Ty>, left: Bounds, right: Bounds) -> Option<Bounds>
    ensures { result ≡ values.in_type want (values.binary_bounds binary.Sub left right) }
{
    in_type(
        want,
        Bounds {
            low: left.low.saturating_sub(right.high),
            high: left.high.saturating_sub(right.low),
        },
    )
}

fn least_of(p: i128, q: i128, r: i128, s: i128) -> i128
    ensures { result ≡ int_min (int_min p q) (int_min r s) }
{
    p.min(q).min(r.min(s))
}

fn greatest_of(p: i128, q: i128, r: i128, s: i128) -> i128
    ensures { result ≡ int_max (int_max p q) (int_max r s) }
{
    p.max(q).max(r.max(s))
}

fn product(want: Option<Ty>, left: Bounds, right: Bounds) -> Option<Bounds>
    ensures { result ≡ values.in_type want (values.binary_bounds binary.Mul left right) }
{
    let p = left.low.saturating_mul(right.low);
    let q = left.low.saturating_mul(right.high);
    let r = left.high.saturating_mul(right.low);
    let s = left.high.saturating_mul(right.high);
    in_type(
        want,
        Bounds {
            low: least_of(p, q, r, s),
            high: greatest_of(p, q, r, s),
        },
    )
}

fn lesser(want: Option<Ty>, left: Bounds, right: Bounds) -> Option<Bounds>
    ensures { result ≡ values.in_type want (values.binary_bounds binary.Min left right) }
{
    in_type(
        want,
        Bounds {
            low: left.low.min(right.low),
            high: left.high.min(right.high),
        },
    )
}

fn greater(want: Option<Ty>, left: Bounds, right: Bounds) -> Option<Bounds>
    ensures { result ≡ values.in_type want (values.binary_bounds binary.Max left right) }
{
    in_type(
        want,
        Bounds {
            low: left.low.max(right.low),
            high: left.high.max(right.high),
        },
    )
}

fn common(want: Option<Ty>, left: Bounds, right: Bounds) -> Option<Bounds>
    ensures { result ≡ values.in_type want (values.binary_bounds binary.And left right) }
{
    let high = match (left.low >= 0, right.low >= 0) {
        (true, true) => left.high.min(right.high),
        (true, false) => left.high,
        (false, true) => right.high,
        (false, false) => return None,
    };
    in_type(want, Bounds { low: 0, high })
}

/// The bounds of an operator's integer, where they lie in the type.
pub fn unary_in(want: Option<Ty>, op: UnaryOp, arg: Bounds) -> Option<Bounds>
    ensures { result ≡ values.in_type want (values.unary_bounds op arg) }
{
    match op {
        UnaryOp::Neg => negated(want, arg),
        UnaryOp::Abs => absolute(want, arg),
        UnaryOp::Flip => None,
    }
}

/// The same of an operator with two operands.
pub fn binary_in(want: Option<Ty>, op: BinaryOp, left: Bounds, right: Bounds) -> Option<Bounds>
    ensures { result ≡ values.in_type want (values.binary_bounds op left right) }
{
    match op {
        BinaryOp::Add => sum(want, left, right),
        BinaryOp::Sub => difference(want, left, right),
        BinaryOp::Mul => product(want, left, right),
        BinaryOp::Min => lesser(want, left, right),
        BinaryOp::Max => greater(want, left, right),
        BinaryOp::And => common(want, left, right),
        BinaryOp::Or | BinaryOp::Xor => None,
    }
}

// 2 to the count of a shift.
fn power(count: u32) -> i128
    requires { count < 64 }
    ensures { result ≡ pos (2 ^ count) }
{
    (1_u64 << count) as i128
}

fn raised(want: Option<Ty>, count: u32, arg: Bounds) -> Option<Bounds>
    requires { count < 64 }
    ensures { result ≡ values.in_type want (Some (values.shift_bounds true count arg)) }
{
    let unit = power(count);
    in_type(
        want,
        Bounds {
            low: arg.low.saturating_mul(unit),
            high: arg.high.saturating_mul(unit),
        },
    )
}

fn lowered(want: Option<Ty>, count: u32, arg: Bounds) -> Option<Bounds>
    requires { count < 64 }
    ensures { result ≡ values.in_type want (Some (values.shift_bounds false count arg)) }
{
    in_type(
        want,
        Bounds {
            low: arg.low >> count,
            high: arg.high >> count,
        },
    )
}

/// The same of a shift.
pub fn shift_in(want: Option<Ty>, left_shift: bool, count: i128, arg: Bounds) -> Option<Bounds>
    ensures { result ≡ values.in_type want
        (Some (values.shift_bounds left_shift (operators.shift_count count) arg)) }
{
    let count = shift_count(count);
    if left_shift {
        raised(want, count, arg)
    } else {
        lowered(want, count, arg)
    }
}

/// The bounds of one of two values.
pub fn joined(left: Bounds, right: Bounds) -> Bounds
    ensures { result ≡ values.joined left right }
{
    Bounds {
        low: left.low.min(right.low),
        high: left.high.max(right.high),
    }
}
