//! Statements.

ghost use Rattle.std.specs.Prelude.{◌≡◌, false};
ghost use Rattle.kernel_tree.specs.Plain.{term_of, name_of, words_of, action_of, block_of};
ghost use Rattle.kernel_tree.specs.Grammar.{beginning_of_mark};
ghost use Rattle.expression_syntax.specs.Reading.{Gives};
ghost use Rattle.kernel_syntax.specs.Statements.{term_at, type_part, define_at, put_at, target_at, leave_at, choose_by, statement_by, block_at};

use expression_syntax::{Stop, accept, copy_name, expect, expect_name, expect_type, term_then};
use kernel_tree::mark::{Beginning, Mark};
use kernel_tree::token::Token;
use kernel_tree::{Expr, Name, Stmt, Ty, make};
use std::alloc::Global;

// What a mark begins at the front of a statement.
fn beginning(mark: Mark) -> Option<Beginning>
    ensures { result ≡ beginning_of_mark mark }
{
    match mark {
        Mark::Let => Some(Beginning::Definition),
        Mark::If => Some(Beginning::Choice),
        Mark::Break => Some(Beginning::Leaving),
        _ => None,
    }
}

// An expression and a mark after it.
#[tactic(auto, unfolding(crate::specs::Statements::term_at))]
pub fn term<'a>(
    alloc: Global,
    tokens: &'a [Token],
    mark: Mark,
) -> Result<(Box<Expr>, &'a [Token]), Stop>
    ensures { Gives (λ x. (term_of x.0.value, words_of x.1.now)) result (term_at mark (words_of tokens.now)) }
{
    term_then(alloc, tokens, mark, tokens.len())
}

// The type that a definition may give.
#[tactic(auto, unfolding(crate::specs::Statements::type_part))]
fn declared_type<'a>(tokens: &'a [Token]) -> Result<(Option<Ty>, &'a [Token]), Stop>
    ensures { Gives (λ x. (x.0, words_of x.1.now)) result (type_part (words_of tokens.now)) }
{
    match accept(tokens, Mark::Colon) {
        Some(from) => {
            let (ty, rest) = expect_type(from)?;
            Ok((Some(ty), rest))
        }
        None => Ok((None, tokens)),
    }
}

// What stands after a let.
#[tactic(auto, unfolding(crate::specs::Statements::define_at))]
fn definition<'a>(alloc: Global, tokens: &'a [Token]) -> Result<(Stmt, &'a [Token]), Stop>
    ensures { Gives (λ x. (action_of x.0, words_of x.1.now)) result (define_at (words_of tokens.now)) }
{
    let (name, following) = expect_name(tokens)?;
    let (ty, next) = declared_type(following)?;
    let from = expect(next, Mark::Equals)?;
    let name = copy_name(alloc, name)?;
    let (value, rest) = term(alloc, from, Mark::Semicolon)?;
    let value = Box::into_inner(value);
    Ok((Stmt::Let { name, ty, value }, rest))
}

// What stands after the bracket of the element that a store writes.
#[tactic(auto, unfolding(crate::specs::Statements::put_at))]
fn store<'a>(alloc: Global, array: &Name, tokens: &'a [Token]) -> Result<(Stmt, &'a [Token]), Stop>
    ensures { Gives (λ x. (action_of x.0, words_of x.1.now)) result
        (put_at (name_of array.now) (words_of tokens.now)) }
{
    let array = copy_name(alloc, array)?;
    let (index, following) = term(alloc, tokens, Mark::CloseBracket)?;
    let next = expect(following, Mark::Equals)?;
    let (value, rest) = term(alloc, next, Mark::Semicolon)?;
    Ok((
        Stmt::Store {
            array,
            index: Box::into_inner(index),
            value: Box::into_inner(value),
        },
        rest,
    ))
}

// What stands after the name of what a statement changes.
#[tactic(auto, unfolding(crate::specs::Statements::target_at, crate::specs::Statements::update_at))]
fn target<'a>(alloc: Global, name: &Name, tokens: &'a [Token]) -> Result<(Stmt, &'a [Token]), Stop>
    ensures { Gives (λ x. (action_of x.0, words_of x.1.now)) result
        (target_at (name_of name.now) (words_of tokens.now)) }
{
    if let Some(from) = accept(tokens, Mark::OpenBracket) {
        return store(alloc, name, from);
    }
    match tokens {
        [Token::Update(op), from @ ..] => {
            let name = copy_name(alloc, name)?;
            let (value, rest) = term(alloc, from, Mark::Semicolon)?;
            let value = Box::into_inner(value);
            let op = *op;
            Ok((Stmt::Update { name, op, value }, rest))
        }
        _ => Err(Stop::Syntax { left: tokens.len() }),
    }
}

// What stands after a break, in the loop's own block or in another.
#[tactic(auto, unfolding(crate::specs::Statements::leave_at))]
fn leaving<'a>(alloc: Global, tokens: &'a [Token], whole: bool) -> Result<(Stmt, &'a [Token]), Stop>
    ensures { Gives (λ x. (action_of x.0, words_of x.1.now)) result (leave_at whole (words_of tokens.now)) }
{
    if !whole {
        return Err(Stop::Syntax {
            left: tokens.len() + 1,
        });
    }
    let from = expect(tokens, Mark::If)?;
    let (cond, rest) = term(alloc, from, Mark::Semicolon)?;
    let cond = Box::into_inner(cond);
    Ok((Stmt::Break { cond }, rest))
}

// What stands after an if.
#[cycle(block)]
#[tactic(auto, unfolding(crate::specs::Statements::choose_by))]
fn choice<'a>(alloc: Global, tokens: &'a [Token], room: usize) -> Result<(Stmt, &'a [Token]), Stop>
    ensures { Gives (λ x. (action_of x.0, words_of x.1.now)) result
        (choose_by (block_at false room) (words_of tokens.now)) }
{
    let (cond, from) = term(alloc, tokens, Mark::OpenBrace)?;
    let (then_part, following) = block(alloc, from, false, room)?;
    match accept(following, Mark::Else) {
        Some(rest) => {
            let from = expect(rest, Mark::OpenBrace)?;
            let (other, rest) = block(alloc, from, false, room)?;
            Ok((
                make::choose_else(Box::into_inner(cond), then_part, other),
                rest,
            ))
        }
        None => Ok((make::choose(Box::into_inner(cond), then_part), following)),
    }
}

// A statement of the loop's own block or of another.
#[cycle(block)]
#[tactic(auto, unfolding(crate::specs::Statements::statement_by))]
fn statement<'a>(
    alloc: Global,
    tokens: &'a [Token],
    whole: bool,
    room: usize,
) -> Result<(Stmt, &'a [Token]), Stop>
    ensures { Gives (λ x. (action_of x.0, words_of x.1.now)) result
        (statement_by whole (block_at false room) (words_of tokens.now)) }
{
    match tokens {
        [Token::Name(name), rest @ ..] => target(alloc, name, rest),
        [Token::Mark(mark), rest @ ..] => match beginning(*mark) {
            Some(Beginning::Definition) => definition(alloc, rest),
            Some(Beginning::Choice) => choice(alloc, rest, room),
            Some(Beginning::Leaving) => leaving(alloc, rest, whole),
            None => Err(Stop::Syntax { left: tokens.len() }),
        },
        _ => Err(Stop::Syntax { left: tokens.len() }),
    }
}

/// The statements up to the brace after them, of the loop's own block where whole holds. No more than
/// room blocks stand inside one another.
#[cycle(block)]
pub fn block<'a>(
    alloc: Global,
    tokens: &'a [Token],
    whole: bool,
    room: usize,
) -> Result<(Vec<Stmt>, &'a [Token]), Stop>
    ensures { Gives (λ x. (block_of x.0.items, words_of x.1.now)) result
        (block_at whole room (words_of tokens.now)) }
{
    if room == 0 {
        return Err(Stop::Syntax { left: tokens.len() });
    }
    let mut stmts = Vec::new(alloc);
    let mut rest = tokens;
    'more: loop {
        match accept(rest, Mark::CloseBrace) {
            Some(following) => return Ok((stmts, following)),
            None => {
                let (stmt, next) = statement(alloc, rest, whole, room - 1)?;
                stmts.push(stmt)?;
                rest = next;
            }
        }
    }
}
