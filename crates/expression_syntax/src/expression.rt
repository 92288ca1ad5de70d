//! Expressions.

ghost use Rattle.std.specs.Prelude.{◌≡◌, ◌≤◌, ◌<◌, length, IfOk, IfSome, option_map};
ghost use Rattle.kernel_tree.specs.Plain.{term_of, name_of, words_of};
ghost use Rattle.expression_syntax.specs.Reading.{Gives, chain_at, unary_at, term_before, name_by, pair_by, absolute_by, choice_by, signed_by, sign_front};
ghost use Rattle.expression_syntax.specs.Operands.{extended_by};
ghost use Rattle.expression_syntax.specs.Signs.{all_signed};

use crate::front::{accept, copy_name, expect, expect_type, front_number, front_operator};
use crate::stop::Stop;
use crate::{build, class};
use kernel_tree::mark::{Mark, Opening, Operator, Sign};
use kernel_tree::token::Token;
use kernel_tree::{BinaryOp, Expr, Name, UnaryOp};
use std::alloc::{AllocError, Global};

// The loosest level, that of any expression.
const ANY: u8 = 10;

// What an operator and what stands after it make of a first operand.
#[cycle(expression)]
#[tactic(auto, unfolding(crate::specs::Operands::joined_by, crate::specs::Operands::compared_by, crate::specs::Operands::shifted_by, crate::specs::Operands::converted_by, crate::specs::Reading::count_at))]
fn extended<'a>(
    alloc: Global,
    operator: Operator,
    left: Box<Expr>,
    tokens: &'a [Token],
    level: u8,
    room: usize,
) -> Result<(Box<Expr>, &'a [Token]), Stop>
    requires { level ≤ 9 }
    ensures { Gives (λ x. (term_of x.0.value, words_of x.1.now)) result
        (extended_by (chain_at (unary_at room) level) operator (term_of left.value) (words_of tokens.now)) }
{
    match operator {
        Operator::Joined(joint) => {
            let (right, rest) = chain(alloc, tokens, level, room)?;
            build::read(alloc, build::join(joint, left, right), rest)
        }
        Operator::Compared(op) => {
            let (right, rest) = chain(alloc, tokens, level, room)?;
            build::read(alloc, Expr::Compare { op, left, right }, rest)
        }
        Operator::Shifted(to_left) => match front_number(tokens) {
            Some((count, rest)) => {
                let shift = Expr::Shift {
                    left_shift: to_left,
                    arg: left,
                    count: count.value as i128,
                };
                build::read(alloc, shift, rest)
            }
            None => Err(Stop::Syntax { left: tokens.len() }),
        },
        Operator::As => {
            let (ty, rest) = expect_type(tokens)?;
            build::read(alloc, Expr::Cast { arg: left, ty }, rest)
        }
    }
}

// An expression of a level.
#[cycle(expression)]
fn chain<'a>(
    alloc: Global,
    tokens: &'a [Token],
    level: u8,
    room: usize,
) -> Result<(Box<Expr>, &'a [Token]), Stop>
    requires { level ≤ 10 }
    ensures { Gives (λ x. (term_of x.0.value, words_of x.1.now)) result
        (chain_at (unary_at room) level (words_of tokens.now)) }
{
    if level == 0 {
        return unary(alloc, tokens, room);
    }
    let (first, following) = chain(alloc, tokens, level - 1, room)?;
    let mut left = first;
    let mut rest = following;
    'more: while let Some((operator, after)) = front_operator(rest, level) {
        let (whole, next) = extended(alloc, operator, left, after, level - 1, room)?;
        if class::compares(operator) {
            return Ok((whole, next));
        }
        left = whole;
        rest = next;
    }
    Ok((left, rest))
}

// A unary expression. No more than room of them stand inside one another.
#[cycle(expression)]
#[tactic(auto, unfolding(crate::specs::Reading::unary_at))]
fn unary<'a>(
    alloc: Global,
    tokens: &'a [Token],
    room: usize,
) -> Result<(Box<Expr>, &'a [Token]), Stop>
    ensures { Gives (λ x. (term_of x.0.value, words_of x.1.now)) result (unary_at room (words_of tokens.now)) }
{
    if room == 0 {
        return Err(Stop::Syntax { left: tokens.len() });
    }
    let inner = room - 1;
    match tokens {
        [Token::Number(n), rest @ ..] => build::read(alloc, Expr::Lit(n.value as i128), rest),
        [Token::Name(name), rest @ ..] => named(alloc, name, rest, inner),
        [Token::Mark(mark), rest @ ..] => match class::opening(*mark) {
            Some(Opening::Group) => term_then(alloc, rest, Mark::CloseParen, inner),
            Some(Opening::Pair(op)) => pair(alloc, op, rest, inner),
            Some(Opening::Absolute) => absolute(alloc, rest, inner),
            Some(Opening::Choice) => choice(alloc, rest, inner),
            Some(Opening::Signed(sign)) => signed(alloc, sign, rest, inner),
            None => Err(Stop::Syntax { left: tokens.len() }),
        },
        _ => Err(Stop::Syntax { left: tokens.len() }),
    }
}

/// An expression and a mark after it, both of which must stand at the front. No more than `room` unary expressions stand
/// inside one another: with one for each token there is always enough.
#[cycle(expression)]
#[tactic(auto, unfolding(crate::specs::Reading::term_before))]
pub fn term_then<'a>(
    alloc: Global,
    tokens: &'a [Token],
    mark: Mark,
    room: usize,
) -> Result<(Box<Expr>, &'a [Token]), Stop>
    ensures { Gives (λ x. (term_of x.0.value, words_of x.1.now)) result
        (term_before (chain_at (unary_at room) 10) mark (words_of tokens.now)) }
{
    let (e, following) = chain(alloc, tokens, ANY, room)?;
    Ok((e, expect(following, mark)?))
}

// What begins with a name.
#[cycle(expression)]
#[tactic(auto, unfolding(crate::specs::Reading::name_by))]
fn named<'a>(
    alloc: Global,
    name: &Name,
    tokens: &'a [Token],
    room: usize,
) -> Result<(Box<Expr>, &'a [Token]), Stop>
    ensures { Gives (λ x. (term_of x.0.value, words_of x.1.now)) result
        (name_by (chain_at (unary_at room) 10) (name_of name.now) (words_of tokens.now)) }
{
    let name = copy_name(alloc, name)?;
    match accept(tokens, Mark::OpenBracket) {
        Some(from) => {
            let (index, rest) = term_then(alloc, from, Mark::CloseBracket, room)?;
            build::read(alloc, Expr::Read { array: name, index }, rest)
        }
        None => build::read(alloc, Expr::Var(name), tokens),
    }
}

// The two arguments of a call.
#[cycle(expression)]
#[tactic(auto, unfolding(crate::specs::Reading::pair_by))]
fn pair<'a>(
    alloc: Global,
    op: BinaryOp,
    tokens: &'a [Token],
    room: usize,
) -> Result<(Box<Expr>, &'a [Token]), Stop>
    ensures { Gives (λ x. (term_of x.0.value, words_of x.1.now)) result
        (pair_by (chain_at (unary_at room) 10) op (words_of tokens.now)) }
{
    let from = expect(tokens, Mark::OpenParen)?;
    let (left, next) = term_then(alloc, from, Mark::Comma, room)?;
    let (right, rest) = term_then(alloc, next, Mark::CloseParen, room)?;
    build::read(alloc, Expr::Binary { op, left, right }, rest)
}

// The argument of an absolute value.
#[cycle(expression)]
#[tactic(auto, unfolding(crate::specs::Reading::absolute_by))]
fn absolute<'a>(
    alloc: Global,
    tokens: &'a [Token],
    room: usize,
) -> Result<(Box<Expr>, &'a [Token]), Stop>
    ensures { Gives (λ x. (term_of x.0.value, words_of x.1.now)) result
        (absolute_by (chain_at (unary_at room) 10) (words_of tokens.now)) }
{
    let from = expect(tokens, Mark::OpenParen)?;
    let (arg, rest) = term_then(alloc, from, Mark::CloseParen, room)?;
    let op = UnaryOp::Abs;
    build::read(alloc, Expr::Unary { op, arg }, rest)
}

// The three arguments of a choice.
#[cycle(expression)]
#[tactic(auto, unfolding(crate::specs::Reading::choice_by))]
fn choice<'a>(
    alloc: Global,
    tokens: &'a [Token],
    room: usize,
) -> Result<(Box<Expr>, &'a [Token]), Stop>
    ensures { Gives (λ x. (term_of x.0.value, words_of x.1.now)) result
        (choice_by (chain_at (unary_at room) 10) (words_of tokens.now)) }
{
    let from = expect(tokens, Mark::OpenParen)?;
    let (cond, next) = term_then(alloc, from, Mark::Comma, room)?;
    let (yes, last) = term_then(alloc, next, Mark::Comma, room)?;
    let (no, rest) = term_then(alloc, last, Mark::CloseParen, room)?;
    build::read(alloc, Expr::Select { cond, yes, no }, rest)
}

// The sign at the front, and the tokens after it.
#[tactic(auto, unfolding(crate::specs::Reading::sign_front))]
fn front_sign(tokens: &[Token]) -> Option<(Sign, &[Token])>
    ensures value { option_map (λ x. (x.0, words_of x.1.now)) result ≡ sign_front (words_of tokens.now) }
    ensures shorter { IfSome result (λ x. length x.1.now < length tokens.now) }
{
    match tokens {
        [Token::Mark(mark), rest @ ..] => match class::opening(*mark) {
            Some(Opening::Signed(sign)) => Some((sign, rest)),
            _ => None,
        },
        _ => None,
    }
}

// An expression after signs, of which the last one is the innermost.
fn following_signs(alloc: Global, signs: Vec<Sign>, arg: Box<Expr>) -> Result<Box<Expr>, AllocError>
    ensures { IfOk result (λ e. term_of e.value ≡ all_signed signs.items (term_of arg.value)) }
{
    let mut left = signs;
    let mut expr = arg;
    'more: while let Some(sign) = left.pop() {
        expr = Box::new(alloc, build::sign(sign, expr))?;
    }
    Ok(expr)
}

// What stands after the last of some signs.
#[cycle(expression)]
#[tactic(auto, unfolding(crate::specs::Reading::signed_by))]
fn operand<'a>(
    alloc: Global,
    sign: Sign,
    tokens: &'a [Token],
    room: usize,
) -> Result<(Box<Expr>, &'a [Token]), Stop>
    ensures { Gives (λ x. (term_of x.0.value, words_of x.1.now)) result
        (signed_by (unary_at room) sign (words_of tokens.now)) }
{
    match (sign, front_number(tokens)) {
        (Sign::Minus, Some((n, rest))) => {
            build::read(alloc, Expr::Lit(-(n.value as i128)), rest)
        }
        _ => {
            let (arg, rest) = unary(alloc, tokens, room)?;
            build::read(alloc, build::sign(sign, arg), rest)
        }
    }
}

// What stands after a sign. A row of signs is read with no recursion.
#[cycle(expression)]
fn signed<'a>(
    alloc: Global,
    sign: Sign,
    tokens: &'a [Token],
    room: usize,
) -> Result<(Box<Expr>, &'a [Token]), Stop>
    ensures { Gives (λ x. (term_of x.0.value, words_of x.1.now)) result
        (signed_by (unary_at room) sign (words_of tokens.now)) }
{
    let mut signs = Vec::new(alloc);
    let mut last = sign;
    let mut rest = tokens;
    let mut inner = room;
    'more: while let Some((next, following)) = front_sign(rest) {
        if inner == 0 {
            return Err(Stop::Syntax { left: rest.len() });
        }
        signs.push(last)?;
        last = next;
        rest = following;
        inner -= 1;
    }
    let (arg, end) = operand(alloc, last, rest, inner)?;
    Ok((following_signs(alloc, signs, arg)?, end))
}
