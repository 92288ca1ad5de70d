//! Parameters, accumulators, the loop and the returned value.

ghost use Rattle.std.specs.Prelude.{option_map};
ghost use Rattle.kernel_tree.specs.Plain.{words_of, parameter_of, parameters_of, accumulator_of, accumulators_of, for_loop_of, returned_of};
ghost use Rattle.expression_syntax.specs.Reading.{Gives};
ghost use Rattle.kernel_syntax.specs.Headers.{shape_at, param_at, params_at, var_at, vars_at, zero_at, loop_at, tail_at, answer_by};

use crate::statement::{block, term};
use expression_syntax::{Stop, accept, copy_name, expect, expect_type, name_then};
use kernel_tree::mark::Mark;
use kernel_tree::token::Token;
use kernel_tree::{Answer, Loop, Param, Shape, Ty, Var};
use std::alloc::Global;

// What stands after the colon of a parameter.
#[tactic(auto, unfolding(crate::specs::Headers::shape_at))]
fn read_shape<'a>(tokens: &'a [Token]) -> Result<(Shape, &'a [Token]), Stop>
    ensures { Gives (λ x. (x.0, words_of x.1.now)) result (shape_at (words_of tokens.now)) }
{
    match accept(tokens, Mark::OpenBracket) {
        Some(from) => {
            let (ty, following) = expect_type(from)?;
            let rest = expect(following, Mark::CloseBracket)?;
            Ok((Shape::Array(ty), rest))
        }
        None => {
            let (ty, rest) = expect_type(tokens)?;
            Ok((Shape::Scalar(ty), rest))
        }
    }
}

#[tactic(auto, unfolding(crate::specs::Headers::param_at))]
fn parameter<'a>(alloc: Global, tokens: &'a [Token]) -> Result<(Param, &'a [Token]), Stop>
    ensures { Gives (λ x. (parameter_of x.0, words_of x.1.now)) result (param_at (words_of tokens.now)) }
{
    let (name, from) = name_then(tokens, Mark::Colon)?;
    let (shape, rest) = read_shape(from)?;
    Ok((
        Param {
            name: copy_name(alloc, name)?,
            shape,
        },
        rest,
    ))
}

// The parameters, at most eight, and the parenthesis after them.
pub fn params<'a>(alloc: Global, tokens: &'a [Token]) -> Result<(Vec<Param>, &'a [Token]), Stop>
    ensures { Gives (λ x. (parameters_of x.0.items, words_of x.1.now)) result (params_at (words_of tokens.now)) }
{
    let mut params = Vec::new(alloc);
    if let Some(rest) = accept(tokens, Mark::CloseParen) {
        return Ok((params, rest));
    }
    let mut rest = tokens;
    // how many more may follow
    let mut others: usize = 7;
    'more: loop {
        let (param, following) = parameter(alloc, rest)?;
        params.push(param)?;
        if let Some(end) = accept(following, Mark::CloseParen) {
            return Ok((params, end));
        }
        if others == 0 {
            return Err(Stop::Syntax {
                left: following.len(),
            });
        }
        let next = expect(following, Mark::Comma)?;
        rest = next;
        others -= 1;
    }
}

// What stands after the word that begins an accumulator.
#[tactic(auto, unfolding(crate::specs::Headers::var_at))]
fn accumulator<'a>(alloc: Global, tokens: &'a [Token]) -> Result<(Var, &'a [Token]), Stop>
    ensures { Gives (λ x. (accumulator_of x.0, words_of x.1.now)) result (var_at (words_of tokens.now)) }
{
    let (name, from) = name_then(tokens, Mark::Colon)?;
    let (ty, next) = expect_type(from)?;
    let value = expect(next, Mark::Equals)?;
    let name = copy_name(alloc, name)?;
    let (init, rest) = term(alloc, value, Mark::Semicolon)?;
    let init = Box::into_inner(init);
    Ok((Var { name, ty, init }, rest))
}

// The accumulators at the front.
pub fn vars<'a>(alloc: Global, tokens: &'a [Token]) -> Result<(Vec<Var>, &'a [Token]), Stop>
    ensures { Gives (λ x. (accumulators_of x.0.items, words_of x.1.now)) result (vars_at (words_of tokens.now)) }
{
    let mut vars = Vec::new(alloc);
    let mut rest = tokens;
    'more: while let Some(from) = accept(rest, Mark::Var) {
        let (var, next) = accumulator(alloc, from)?;
        vars.push(var)?;
        rest = next;
    }
    Ok((vars, rest))
}

// The number 0 that must stand at the front.
#[tactic(auto, unfolding(crate::specs::Headers::zero_at))]
fn expect_zero<'a>(tokens: &'a [Token]) -> Result<&'a [Token], Stop>
    ensures { Gives (λ rest. words_of rest.now) result (zero_at (words_of tokens.now)) }
{
    match tokens {
        [Token::Number(number), rest @ ..] => {
            if number.value == 0 {
                Ok(rest)
            } else {
                Err(Stop::Syntax { left: tokens.len() })
            }
        }
        _ => Err(Stop::Syntax { left: tokens.len() }),
    }
}

// The loop at the front, if there is one.
#[tactic(auto, unfolding(crate::specs::Headers::loop_at, crate::specs::Headers::for_loop_at))]
pub fn body<'a>(alloc: Global, tokens: &'a [Token]) -> Result<(Option<Loop>, &'a [Token]), Stop>
    ensures { Gives (λ x. (option_map for_loop_of x.0, words_of x.1.now)) result (loop_at (words_of tokens.now)) }
{
    let Some(start) = accept(tokens, Mark::For) else {
        return Ok((None, tokens));
    };
    let (index, from) = name_then(start, Mark::In)?;
    let range = expect_zero(from)?;
    let end = expect(range, Mark::Range)?;
    let (bound, inside) = name_then(end, Mark::OpenBrace)?;
    let (body, rest) = block(alloc, inside, true, inside.len())?;
    let index = copy_name(alloc, index)?;
    let bound = copy_name(alloc, bound)?;
    Ok((Some(Loop { index, bound, body }), rest))
}

// What stands after the parameters: the type of what is returned, if anything is, and the brace.
#[tactic(auto, unfolding(crate::specs::Headers::tail_at))]
pub fn tail<'a>(tokens: &'a [Token]) -> Result<(Option<Ty>, &'a [Token]), Stop>
    ensures { Gives (λ x. (x.0, words_of x.1.now)) result (tail_at (words_of tokens.now)) }
{
    match accept(tokens, Mark::OpenBrace) {
        Some(rest) => Ok((None, rest)),
        None => {
            let from = expect(tokens, Mark::Arrow)?;
            let (ty, next) = expect_type(from)?;
            let rest = expect(next, Mark::OpenBrace)?;
            Ok((Some(ty), rest))
        }
    }
}

// The end of a kernel that returns nothing, or a value of a type.
#[tactic(auto, unfolding(crate::specs::Headers::answer_by))]
pub fn read_answer<'a>(
    alloc: Global,
    ty: Option<Ty>,
    tokens: &'a [Token],
) -> Result<(Option<Answer>, &'a [Token]), Stop>
    ensures { Gives (λ x. (option_map returned_of x.0, words_of x.1.now)) result
        (answer_by ty (words_of tokens.now)) }
{
    match ty {
        None => {
            let rest = expect(tokens, Mark::CloseBrace)?;
            Ok((None, rest))
        }
        Some(ty) => {
            let from = expect(tokens, Mark::Return)?;
            let (value, end) = term(alloc, from, Mark::Semicolon)?;
            let rest = expect(end, Mark::CloseBrace)?;
            let value = Box::into_inner(value);
            Ok((Some(Answer { ty, value }), rest))
        }
    }
}
