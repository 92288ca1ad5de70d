//! Single tokens at the front of some tokens.

ghost use Rattle.std.specs.Prelude.{◌≡◌, ◌<◌, length, IfOk, IfSome, option_map};
ghost use Rattle.kernel_tree.specs.Plain.{name_of, words_of};
ghost use Rattle.kernel_tree.specs.Grammar.{number_at};
ghost use Rattle.expression_syntax.specs.Reading.{Finds, following, past, name_at, name_before, type_at, operator_at};

use crate::class;
use crate::stop::Stop;
use kernel_tree::mark::{Mark, Operator};
use kernel_tree::token::{Number, Token};
use kernel_tree::{Name, Ty};
use std::alloc::{AllocError, Global};

// The number at the front, and the tokens after it.
pub fn front_number(tokens: &[Token]) -> Option<(Number, &[Token])>
    ensures { option_map (λ x. (x.0.value, words_of x.1.now)) result ≡ number_at (words_of tokens.now) }
{
    match tokens {
        [Token::Number(number), rest @ ..] => Some((*number, rest)),
        _ => None,
    }
}

/// The tokens after a mark, where it stands at the front.
#[tactic(auto, unfolding(crate::specs::Reading::following))]
pub fn accept<'a>(tokens: &'a [Token], mark: Mark) -> Option<&'a [Token]>
    ensures value { option_map (λ rest. words_of rest.now) result ≡ following mark (words_of tokens.now) }
    ensures shorter { IfSome result (λ rest. length rest.now < length tokens.now) }
{
    match tokens {
        [Token::Mark(found), rest @ ..] => { if *found == mark { Some(rest) } else { None } }
        _ => None,
    }
}

/// The tokens after a mark, which must stand at the front.
#[tactic(auto, unfolding(crate::specs::Reading::past))]
pub fn expect<'a>(tokens: &'a [Token], mark: Mark) -> Result<&'a [Token], Stop>
    ensures { Finds (λ rest. words_of rest.now) result (past mark (words_of tokens.now)) }
{
    match accept(tokens, mark) {
        Some(rest) => Ok(rest),
        None => Err(Stop::Syntax { left: tokens.len() }),
    }
}

/// The same name again.
pub fn copy_name(alloc: Global, name: &Name) -> Result<Name, AllocError>
    ensures { IfOk result (λ n. name_of n ≡ name_of name.now) }
{
    match Name::new(alloc, name.text())? {
        Some(copy) => Ok(copy),
        None => unreachable!(),
    }
}

/// The name that must stand at the front.
#[tactic(auto, unfolding(crate::specs::Reading::name_at))]
pub fn expect_name<'a>(tokens: &'a [Token]) -> Result<(&'a Name, &'a [Token]), Stop>
    ensures { Finds (λ x. (name_of x.0.now, words_of x.1.now)) result (name_at (words_of tokens.now)) }
{
    match tokens {
        [Token::Name(name), rest @ ..] => Ok((name, rest)),
        _ => Err(Stop::Syntax { left: tokens.len() }),
    }
}

/// The name that must stand at the front, and the tokens after a mark that must follow it.
#[tactic(auto, unfolding(crate::specs::Reading::name_before))]
pub fn name_then<'a>(tokens: &'a [Token], mark: Mark) -> Result<(&'a Name, &'a [Token]), Stop>
    ensures { Finds (λ x. (name_of x.0.now, words_of x.1.now)) result (name_before mark (words_of tokens.now)) }
{
    let (name, following) = expect_name(tokens)?;
    Ok((name, expect(following, mark)?))
}

/// The type that must stand at the front.
#[tactic(auto, unfolding(crate::specs::Reading::type_at))]
pub fn expect_type<'a>(tokens: &'a [Token]) -> Result<(Ty, &'a [Token]), Stop>
    ensures { Finds (λ x. (x.0, words_of x.1.now)) result (type_at (words_of tokens.now)) }
{
    match tokens {
        [Token::Type(ty), rest @ ..] => Ok((*ty, rest)),
        _ => Err(Stop::Syntax { left: tokens.len() }),
    }
}

// The operator at the front, where it is of a level, and the tokens after it.
#[tactic(auto, unfolding(crate::specs::Reading::operator_at))]
pub fn front_operator<'a>(tokens: &'a [Token], level: u8) -> Option<(Operator, &'a [Token])>
    ensures value { option_map (λ x. (x.0, words_of x.1.now)) result ≡ operator_at level (words_of tokens.now) }
    ensures shorter { IfSome result (λ x. length x.1.now < length tokens.now) }
{
    match tokens {
        [] => None,
        [first, rest @ ..] => match class::operator(first) {
            Some(operator) => {
                if class::level(operator) == level {
                    Some((operator, rest))
                } else {
                    None
                }
            }
            None => None,
        },
    }
}
