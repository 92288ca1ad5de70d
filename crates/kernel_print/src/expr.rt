//! Prints expressions.

ghost use Rattle.std.specs.Prelude.{◌≡◌, ◌∷◌, ◌++◌, List, IfOk, string_bytes};
ghost use Rattle.kernel_tree.specs.TextToken.{TextToken, IsName, IsType, IsCompare, IsMark};
ghost use Rattle.kernel_tree.specs.Plain.{name_of, term_of};
ghost use Rattle.kernel_tree.specs.Printing.{spaced, opened, closed, print_count, print_term, print_unary, print_binary, print_between, print_call, mark_of_binary, mark_of_call, mark_of_shift};

use crate::token::{
    close, open, print_value, put_compare, put_count, put_mark, put_name, put_type,
};
use kernel_tree::mark::Mark;
use kernel_tree::place::Place;
use kernel_tree::{BinaryOp, CompareOp, Expr, Name, Ty, UnaryOp};
use std::alloc::AllocError;

// The mark between the operands of an operator, where it is no call.
fn symbol(op: BinaryOp) -> Option<Mark>
    ensures { result ≡ mark_of_binary op }
{
    match op {
        BinaryOp::Add => Some(Mark::Plus),
        BinaryOp::Sub => Some(Mark::Minus),
        BinaryOp::Mul => Some(Mark::Star),
        BinaryOp::And => Some(Mark::Ampersand),
        BinaryOp::Or => Some(Mark::Bar),
        BinaryOp::Xor => Some(Mark::Caret),
        BinaryOp::Min | BinaryOp::Max => None,
    }
}

// The mark of a call.
fn caller(op: BinaryOp) -> Mark
    ensures { result ≡ mark_of_call op }
{
    match op {
        BinaryOp::Max => Mark::Max,
        _ => Mark::Min,
    }
}

fn shift_mark(left_shift: bool) -> Mark
    ensures { result ≡ mark_of_shift left_shift }
{
    if left_shift {
        Mark::ShiftLeft
    } else {
        Mark::ShiftRight
    }
}

// What stands after the operand of a shift.
fn end_shift(
    out: &mut String,
    left_shift: bool,
    count: i128,
    place: Place,
) -> Result<(), AllocError>
    ensures { IfOk result (λ _. (rest : List TextToken)
        → string_bytes out.new ++ spaced rest
        ≡ string_bytes out.old ++ spaced (IsMark (mark_of_shift left_shift) ∷ print_count count (closed place rest))) }
{
    put_mark(out, shift_mark(left_shift))?;
    put_count(out, count)?;
    close(out, place)
}

// The word of a call and the parenthesis after it.
fn begin_call(out: &mut String, mark: Mark) -> Result<(), AllocError>
    ensures { IfOk result (λ _. (rest : List TextToken)
        → string_bytes out.new ++ spaced rest
        ≡ string_bytes out.old ++ spaced (IsMark mark ∷ IsMark Mark.OpenParen ∷ rest)) }
{
    put_mark(out, mark)?;
    put_mark(out, Mark::OpenParen)
}

// An expression in a place.
#[cycle(terms)]
pub fn print_expr(out: &mut String, expr: &Expr, place: Place) -> Result<(), AllocError>
    ensures { IfOk result (λ _. (rest : List TextToken)
        → string_bytes out.new ++ spaced rest
        ≡ string_bytes out.old ++ spaced (print_term (term_of expr.now) place rest)) }
{
    match expr {
        Expr::Lit(value) => print_value(out, *value, place),
        Expr::Var(name) => put_name(out, name),
        Expr::Read { array, index } => print_read(out, array, index),
        Expr::Unary { op, arg } => print_unary(out, *op, arg, place),
        Expr::Binary { op, left, right } => print_binary(out, *op, left, right, place),
        Expr::Shift {
            left_shift,
            arg,
            count,
        } => print_shift(out, *left_shift, arg, *count, place),
        Expr::Cast { arg, ty } => print_cast(out, arg, *ty, place),
        Expr::Select { cond, yes, no } => print_select(out, cond, yes, no),
        Expr::Compare { op, left, right } => print_compared(out, left, *op, right, place),
        Expr::And { left, right } => print_between(out, left, Mark::AndAnd, right, place),
        Expr::Or { left, right } => print_between(out, left, Mark::OrOr, right, place),
        Expr::Not { arg } => print_signed(out, Mark::Bang, arg, Place::Operand, place),
    }
}

// An expression that stands alone, and the mark after it.
#[cycle(terms)]
fn print_argument(out: &mut String, arg: &Expr, mark: Mark) -> Result<(), AllocError>
    ensures { IfOk result (λ _. (rest : List TextToken)
        → string_bytes out.new ++ spaced rest
        ≡ string_bytes out.old ++ spaced (print_term (term_of arg.now) Place.Alone (IsMark mark ∷ rest))) }
{
    print_expr(out, arg, Place::Alone)?;
    put_mark(out, mark)
}

#[cycle(terms)]
fn print_read(out: &mut String, array: &Name, index: &Expr) -> Result<(), AllocError>
    ensures { IfOk result (λ _. (rest : List TextToken)
        → string_bytes out.new ++ spaced rest
        ≡ string_bytes out.old ++ spaced (IsName (name_of array.now) ∷ IsMark Mark.OpenBracket
        ∷ print_term (term_of index.now) Place.Alone (IsMark Mark.CloseBracket ∷ rest))) }
{
    put_name(out, array)?;
    put_mark(out, Mark::OpenBracket)?;
    print_argument(out, index, Mark::CloseBracket)
}

// A sign and its operand.
#[cycle(terms)]
fn print_signed(
    out: &mut String,
    sign: Mark,
    arg: &Expr,
    inside: Place,
    place: Place,
) -> Result<(), AllocError>
    ensures { IfOk result (λ _. (rest : List TextToken)
        → string_bytes out.new ++ spaced rest
        ≡ string_bytes out.old ++ spaced (opened place
        (IsMark sign ∷ print_term (term_of arg.now) inside (closed place rest)))) }
{
    open(out, place)?;
    put_mark(out, sign)?;
    print_expr(out, arg, inside)?;
    close(out, place)
}

#[cycle(terms)]
fn print_absolute(out: &mut String, arg: &Expr) -> Result<(), AllocError>
    ensures { IfOk result (λ _. (rest : List TextToken)
        → string_bytes out.new ++ spaced rest
        ≡ string_bytes out.old ++ spaced (IsMark Mark.Abs ∷ IsMark Mark.OpenParen
        ∷ print_term (term_of arg.now) Place.Alone (IsMark Mark.CloseParen ∷ rest))) }
{
    begin_call(out, Mark::Abs)?;
    print_argument(out, arg, Mark::CloseParen)
}

#[cycle(terms)]
fn print_unary(out: &mut String, op: UnaryOp, arg: &Expr, place: Place) -> Result<(), AllocError>
    ensures { IfOk result (λ _. (rest : List TextToken)
        → string_bytes out.new ++ spaced rest
        ≡ string_bytes out.old ++ spaced (print_unary op (print_term (term_of arg.now)) place rest)) }
{
    match op {
        UnaryOp::Neg => print_signed(out, Mark::Minus, arg, Place::Negated, place),
        UnaryOp::Flip => print_signed(out, Mark::Tilde, arg, Place::Operand, place),
        UnaryOp::Abs => print_absolute(out, arg),
    }
}

#[cycle(terms)]
fn print_binary(
    out: &mut String,
    op: BinaryOp,
    left: &Expr,
    right: &Expr,
    place: Place,
) -> Result<(), AllocError>
    ensures { IfOk result (λ _. (rest : List TextToken)
        → string_bytes out.new ++ spaced rest
        ≡ string_bytes out.old ++ spaced (print_binary (mark_of_binary op) op (print_term (term_of left.now))
        (print_term (term_of right.now)) place rest)) }
{
    match symbol(op) {
        Some(mark) => print_between(out, left, mark, right, place),
        None => print_call(out, caller(op), left, right),
    }
}

#[cycle(terms)]
fn print_between(
    out: &mut String,
    left: &Expr,
    mark: Mark,
    right: &Expr,
    place: Place,
) -> Result<(), AllocError>
    ensures { IfOk result (λ _. (rest : List TextToken)
        → string_bytes out.new ++ spaced rest
        ≡ string_bytes out.old ++ spaced (print_between (print_term (term_of left.now)) (IsMark mark)
        (print_term (term_of right.now)) place rest)) }
{
    open(out, place)?;
    print_expr(out, left, Place::Operand)?;
    put_mark(out, mark)?;
    print_expr(out, right, Place::Operand)?;
    close(out, place)
}

#[cycle(terms)]
fn print_compared(
    out: &mut String,
    left: &Expr,
    op: CompareOp,
    right: &Expr,
    place: Place,
) -> Result<(), AllocError>
    ensures { IfOk result (λ _. (rest : List TextToken)
        → string_bytes out.new ++ spaced rest
        ≡ string_bytes out.old ++ spaced (print_between (print_term (term_of left.now)) (IsCompare op)
        (print_term (term_of right.now)) place rest)) }
{
    open(out, place)?;
    print_expr(out, left, Place::Operand)?;
    put_compare(out, op)?;
    print_expr(out, right, Place::Operand)?;
    close(out, place)
}

#[cycle(terms)]
fn print_call(out: &mut String, mark: Mark, left: &Expr, right: &Expr) -> Result<(), AllocError>
    ensures { IfOk result (λ _. (rest : List TextToken)
        → string_bytes out.new ++ spaced rest
        ≡ string_bytes out.old ++ spaced (print_call mark (print_term (term_of left.now))
        (print_term (term_of right.now)) rest)) }
{
    begin_call(out, mark)?;
    print_argument(out, left, Mark::Comma)?;
    print_argument(out, right, Mark::CloseParen)
}

#[cycle(terms)]
fn print_shift(
    out: &mut String,
    left_shift: bool,
    arg: &Expr,
    count: i128,
    place: Place,
) -> Result<(), AllocError>
    ensures { IfOk result (λ _. (rest : List TextToken)
        → string_bytes out.new ++ spaced rest
        ≡ string_bytes out.old ++ spaced (opened place
        (print_term (term_of arg.now) Place.Operand
        (IsMark (mark_of_shift left_shift) ∷ print_count count (closed place rest))))) }
{
    open(out, place)?;
    print_expr(out, arg, Place::Operand)?;
    end_shift(out, left_shift, count, place)
}

#[cycle(terms)]
fn print_cast(out: &mut String, arg: &Expr, ty: Ty, place: Place) -> Result<(), AllocError>
    ensures { IfOk result (λ _. (rest : List TextToken)
        → string_bytes out.new ++ spaced rest
        ≡ string_bytes out.old ++ spaced (opened place
        (print_term (term_of arg.now) Place.Operand (IsMark Mark.As ∷ IsType ty ∷ closed place rest)))) }
{
    open(out, place)?;
    print_expr(out, arg, Place::Operand)?;
    put_mark(out, Mark::As)?;
    put_type(out, ty)?;
    close(out, place)
}

#[cycle(terms)]
fn print_select(out: &mut String, cond: &Expr, yes: &Expr, no: &Expr) -> Result<(), AllocError>
    ensures { IfOk result (λ _. (rest : List TextToken)
        → string_bytes out.new ++ spaced rest
        ≡ string_bytes out.old ++ spaced (IsMark Mark.Select ∷ IsMark Mark.OpenParen
        ∷ print_term (term_of cond.now) Place.Alone
        (IsMark Mark.Comma ∷ print_term (term_of yes.now) Place.Alone
        (IsMark Mark.Comma ∷ print_term (term_of no.now) Place.Alone (IsMark Mark.CloseParen ∷ rest))))) }
{
    begin_call(out, Mark::Select)?;
    print_argument(out, cond, Mark::Comma)?;
    print_argument(out, yes, Mark::Comma)?;
    print_argument(out, no, Mark::CloseParen)
}
