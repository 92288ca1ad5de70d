//! The operators.

ghost use Rattle.std.specs.Prelude.{◌≡◌, ◌<◌, option_map};
ghost use Rattle.kernel_tree.specs.Wrap as wraps;
ghost use Rattle.kernel_meaning.specs.Operators as operators;
ghost use Rattle.kernel_meaning.specs.Eval as eval;
ghost use Rattle.kernel_meaning.specs.Operators.{word};
ghost use Rattle.kernel_eval.specs.Slots as slots_of;

use kernel_meaning::{shift_count, word, wrap, wrapped};
use kernel_tree::{BinaryOp, CompareOp, Ty, UnaryOp};

// The result of an operator modulo 2^64.
#[inline(always)]
fn unary_on(op: UnaryOp, value: i128) -> i128
    ensures { word result ≡ word (operators.unary_on op value) }
{
    match op {
        UnaryOp::Neg => value.wrapping_neg(),
        UnaryOp::Flip => !value,
        UnaryOp::Abs => value.wrapping_abs(),
    }
}

#[inline(always)]
#[tactic(auto, using(kernel_meaning::proofs::Residues::word_rules))]
fn binary_on(op: BinaryOp, left: i128, right: i128) -> i128
    ensures { word result ≡ word (operators.binary_on op left right) }
{
    match op {
        BinaryOp::Add => left.wrapping_add(right),
        BinaryOp::Sub => left.wrapping_sub(right),
        BinaryOp::Mul => left.wrapping_mul(right),
        BinaryOp::And => (word(left) & word(right)) as i128,
        BinaryOp::Or => (word(left) | word(right)) as i128,
        BinaryOp::Xor => (word(left) ^ word(right)) as i128,
        BinaryOp::Min => left.min(right),
        BinaryOp::Max => left.max(right),
    }
}

#[inline(always)]
#[tactic(auto, using(kernel_meaning::proofs::Residues::word_rules))]
fn shift_on(left_shift: bool, count: u32, value: i128) -> i128
    requires { count < 64 }
    ensures { word result ≡ word (operators.shift_on left_shift count value) }
{
    if left_shift {
        (word(value) << count) as i128
    } else {
        value >> count
    }
}

#[inline(always)]
fn compare_on(op: CompareOp, left: i128, right: i128) -> bool
    ensures { result ≡ operators.compare_on op left right }
{
    match op {
        CompareOp::Eq => left <= right && right <= left,
        CompareOp::Ne => !(left <= right && right <= left),
        CompareOp::Lt => left < right,
        CompareOp::Le => left <= right,
        CompareOp::Gt => right < left,
        CompareOp::Ge => right <= left,
    }
}

/// The number of the element at an offset from the loop variable, modulo 2^64.
#[inline(always)]
pub fn stream_number(index: i128, offset: i128) -> i128
    ensures { result ≡ slots_of.stream_number index offset }
{
    wrap(Ty::U64, index.wrapping_add(offset))
}

/// What a unary operator gives at a type, unless its operand faults.
#[inline(always)]
pub fn unary(op: UnaryOp, ty: Option<Ty>, value: Option<i128>) -> Option<i128>
    ensures { result ≡ option_map (operators.unary_value op ty) value }
{
    match value {
        None => None,
        Some(value) => Some(wrapped(ty, unary_on(op, value))),
    }
}

/// What a binary operator gives at a type, unless an operand faults.
#[inline(always)]
pub fn binary(op: BinaryOp, ty: Option<Ty>, left: Option<i128>, right: Option<i128>) -> Option<i128>
    ensures { result ≡ eval.on_both (operators.binary_value op ty) left right }
{
    match (left, right) {
        (Some(left), Some(right)) => Some(wrapped(ty, binary_on(op, left, right))),
        _ => None,
    }
}

/// What a shift gives at a type, unless its operand faults.
#[inline(always)]
pub fn shift(left_shift: bool, count: i128, ty: Option<Ty>, value: Option<i128>) -> Option<i128>
    ensures { result ≡ option_map (operators.shift_value left_shift count ty) value }
{
    match value {
        None => None,
        Some(value) => Some(wrapped(ty, shift_on(left_shift, shift_count(count), value))),
    }
}

/// The value of a type that is congruent to a value, unless that faults.
#[inline(always)]
pub fn cast(ty: Ty, value: Option<i128>) -> Option<i128>
    ensures { result ≡ option_map (wraps.wrap ty) value }
{
    match value {
        None => None,
        Some(value) => Some(wrap(ty, value)),
    }
}

/// Whether a comparison holds, unless a side faults.
#[inline(always)]
pub fn compare(op: CompareOp, left: Option<i128>, right: Option<i128>) -> Option<bool>
    ensures { result ≡ eval.on_both (operators.compare_on op) left right }
{
    match (left, right) {
        (Some(left), Some(right)) => Some(compare_on(op, left, right)),
        _ => None,
    }
}

/// One of two values, unless one of them or the condition faults.
#[inline(always)]
pub fn select(cond: Option<bool>, yes: Option<i128>, no: Option<i128>) -> Option<i128>
    ensures { result ≡ eval.chosen yes no cond }
{
    match (cond, yes, no) {
        (Some(cond), Some(yes), Some(no)) => Some(if cond { yes } else { no }),
        _ => None,
    }
}
