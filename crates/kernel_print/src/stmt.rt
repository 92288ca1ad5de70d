//! Prints statements.

ghost use Rattle.std.specs.Prelude.{◌≡◌, ◌∷◌, ◌++◌, List, IfOk, string_bytes, Option};
ghost use Rattle.kernel_tree.specs.TextToken.{TextToken, IsName, IsUpdate, IsMark};
ghost use Rattle.kernel_tree.specs.Plain.{name_of, term_of, action_of, block_of};
ghost use Rattle.kernel_tree.specs.Printing.{spaced, print_term, print_type, print_action, print_block};

use crate::expr::print_expr;
use crate::token::{put_mark, put_name, put_type, put_update};
use kernel_tree::mark::Mark;
use kernel_tree::place::Place;
use kernel_tree::{Expr, Name, Stmt, Ty, UpdateOp};
use std::alloc::AllocError;

// The type that a definition may give.
fn put_shown_type(out: &mut String, ty: Option<Ty>) -> Result<(), AllocError>
    ensures { IfOk result (λ _. (rest : List TextToken)
        → string_bytes out.new ++ spaced rest ≡ string_bytes out.old ++ spaced (print_type ty rest)) }
{
    match ty {
        None => Ok(()),
        Some(ty) => {
            put_mark(out, Mark::Colon)?;
            put_type(out, ty)
        }
    }
}

// An expression and a mark after it.
pub fn print_before(out: &mut String, expr: &Expr, mark: Mark) -> Result<(), AllocError>
    ensures { IfOk result (λ _. (rest : List TextToken)
        → string_bytes out.new ++ spaced rest
        ≡ string_bytes out.old ++ spaced (print_term (term_of expr.now) Place.Alone (IsMark mark ∷ rest))) }
{
    print_expr(out, expr, Place::Alone)?;
    put_mark(out, mark)
}

fn print_let(out: &mut String, name: &Name, ty: Option<Ty>, value: &Expr) -> Result<(), AllocError>
    ensures { IfOk result (λ _. (rest : List TextToken)
        → string_bytes out.new ++ spaced rest
        ≡ string_bytes out.old ++ spaced (IsMark Mark.Let ∷ IsName (name_of name.now)
        ∷ print_type ty (IsMark Mark.Equals ∷ print_term (term_of value.now) Place.Alone
        (IsMark Mark.Semicolon ∷ rest)))) }
{
    put_mark(out, Mark::Let)?;
    put_name(out, name)?;
    put_shown_type(out, ty)?;
    put_mark(out, Mark::Equals)?;
    print_before(out, value, Mark::Semicolon)
}

fn print_store(out: &mut String, array: &Name, index: &Expr, value: &Expr) -> Result<(), AllocError>
    ensures { IfOk result (λ _. (rest : List TextToken)
        → string_bytes out.new ++ spaced rest
        ≡ string_bytes out.old ++ spaced (IsName (name_of array.now) ∷ IsMark Mark.OpenBracket
        ∷ print_term (term_of index.now) Place.Alone
        (IsMark Mark.CloseBracket ∷ IsMark Mark.Equals
        ∷ print_term (term_of value.now) Place.Alone (IsMark Mark.Semicolon ∷ rest)))) }
{
    put_name(out, array)?;
    put_mark(out, Mark::OpenBracket)?;
    print_before(out, index, Mark::CloseBracket)?;
    put_mark(out, Mark::Equals)?;
    print_before(out, value, Mark::Semicolon)
}

fn print_update(out: &mut String, name: &Name, op: UpdateOp, value: &Expr) -> Result<(), AllocError>
    ensures { IfOk result (λ _. (rest : List TextToken)
        → string_bytes out.new ++ spaced rest
        ≡ string_bytes out.old ++ spaced (IsName (name_of name.now) ∷ IsUpdate op
        ∷ print_term (term_of value.now) Place.Alone (IsMark Mark.Semicolon ∷ rest))) }
{
    put_name(out, name)?;
    put_update(out, op)?;
    print_before(out, value, Mark::Semicolon)
}

fn print_break(out: &mut String, cond: &Expr) -> Result<(), AllocError>
    ensures { IfOk result (λ _. (rest : List TextToken)
        → string_bytes out.new ++ spaced rest
        ≡ string_bytes out.old ++ spaced (IsMark Mark.Break ∷ IsMark Mark.If
        ∷ print_term (term_of cond.now) Place.Alone (IsMark Mark.Semicolon ∷ rest))) }
{
    put_mark(out, Mark::Break)?;
    put_mark(out, Mark::If)?;
    print_before(out, cond, Mark::Semicolon)
}

#[cycle(statements)]
fn print_stmt(out: &mut String, stmt: &Stmt) -> Result<(), AllocError>
    ensures { IfOk result (λ _. (rest : List TextToken)
        → string_bytes out.new ++ spaced rest
        ≡ string_bytes out.old ++ spaced (print_action (action_of stmt.now) rest)) }
{
    match stmt {
        Stmt::Let { name, ty, value } => print_let(out, name, *ty, value),
        Stmt::Store {
            array,
            index,
            value,
        } => print_store(out, array, index, value),
        Stmt::Update { name, op, value } => print_update(out, name, *op, value),
        Stmt::If {
            cond,
            then_part,
            else_part,
        } => {
            print_then(out, cond, then_part)?;
            match else_part {
                None => Ok(()),
                Some(other) => print_else(out, other),
            }
        }
        Stmt::Break { cond } => print_break(out, cond),
    }
}

#[cycle(statements)]
fn print_then(out: &mut String, cond: &Expr, block: &[Stmt]) -> Result<(), AllocError>
    ensures { IfOk result (λ _. (rest : List TextToken)
        → string_bytes out.new ++ spaced rest
        ≡ string_bytes out.old ++ spaced (IsMark Mark.If
        ∷ print_term (term_of cond.now) Place.Alone (IsMark Mark.OpenBrace ∷ print_block (block_of block.now) rest))) }
{
    put_mark(out, Mark::If)?;
    print_before(out, cond, Mark::OpenBrace)?;
    print_statements(out, block)
}

#[cycle(statements)]
fn print_else(out: &mut String, block: &[Stmt]) -> Result<(), AllocError>
    ensures { IfOk result (λ _. (rest : List TextToken)
        → string_bytes out.new ++ spaced rest
        ≡ string_bytes out.old ++ spaced (IsMark Mark.Else ∷ IsMark Mark.OpenBrace
        ∷ print_block (block_of block.now) rest)) }
{
    put_mark(out, Mark::Else)?;
    put_mark(out, Mark::OpenBrace)?;
    print_statements(out, block)
}

// Statements and the brace after them.
#[cycle(statements)]
pub fn print_statements(out: &mut String, block: &[Stmt]) -> Result<(), AllocError>
    ensures { IfOk result (λ _. (rest : List TextToken)
        → string_bytes out.new ++ spaced rest
        ≡ string_bytes out.old ++ spaced (print_block (block_of block.now) rest)) }
{
    for stmt in block {
        print_stmt(out, stmt)?;
    }
    put_mark(out, Mark::CloseBrace)
}
