//! Kernels.

ghost use Rattle.std.specs.Prelude.{◌≡◌, ℕ, IfOk, Err, Some, None};
ghost use Rattle.kernel_tree.specs.Plain.{words_of, program_of};
ghost use Rattle.expression_syntax.specs.Reading.{Gives};
ghost use Rattle.kernel_syntax.specs.Headers.{kernel_at};
ghost use Rattle.kernel_syntax.specs.Refusals.{limit_fault, WordsGive, TextGives, IsReadFrom, HasNoTree, StopsAt};

use crate::fault::ReadFault;
use crate::header::{body, params, read_answer, tail, vars};
use crate::nesting::too_deep;
use expression_syntax::{Stop, copy_name, expect, name_then};
use kernel_tokens::{TokenFault, read_tokens};
use kernel_tree::Kernel;
use kernel_tree::mark::Mark;
use kernel_tree::token::Token;
use std::alloc::Global;

// The bytes and the tokens that a text may have.
const MOST_BYTES: usize = 65536;

const MOST_TOKENS: usize = 4096;

#[tactic(auto, unfolding(crate::specs::Headers::kernel_at))]
fn all(alloc: Global, tokens: &[Token]) -> Result<Kernel, Stop>
    ensures { Gives program_of result (kernel_at (words_of tokens.now)) }
{
    let from = expect(tokens, Mark::Kernel)?;
    let (name, inside) = name_then(from, Mark::OpenParen)?;
    let (params, next) = params(alloc, inside)?;
    let (ty, from) = tail(next)?;
    let (vars, next) = vars(alloc, from)?;
    let (body, end) = body(alloc, next)?;
    let name = copy_name(alloc, name)?;
    let (answer, rest) = read_answer(alloc, ty, end)?;
    match rest {
        [] => Ok(Kernel {
            name,
            params,
            vars,
            body,
            answer,
        }),
        [_, ..] => Err(Stop::Syntax { left: rest.len() }),
    }
}

// The kernel of some tokens.
fn read_words(alloc: Global, tokens: &[Token]) -> Result<Kernel, ReadFault>
    ensures { WordsGive (words_of tokens.now) result }
{
    if tokens.len() > MOST_TOKENS {
        return Err(ReadFault::TooLong);
    }
    if let Some(token) = too_deep(tokens) {
        return Err(ReadFault::TooDeep {
            token: token as u32,
        });
    }
    match all(alloc, tokens) {
        Ok(kernel) => Ok(kernel),
        Err(Stop::Memory) => Err(ReadFault::Memory),
        Err(Stop::Syntax { left }) => Err(ReadFault::Syntax {
            token: tokens.len().saturating_sub(left) as u32,
        }),
    }
}

fn read_text(alloc: Global, text: &[u8]) -> Result<Kernel, ReadFault>
    ensures { TextGives text.now result }
{
    if text.len() > MOST_BYTES {
        return Err(ReadFault::TooLong);
    }
    match read_tokens(alloc, text) {
        Ok(tokens) => read_words(alloc, tokens.as_slice()),
        Err(TokenFault::BadByte { at }) => Err(ReadFault::BadByte { at: at as u32 }),
        Err(TokenFault::Memory) => Err(ReadFault::Memory),
    }
}

/// The kernel that a text spells. What is refused for its length or for its nesting is refused before the
/// grammar is looked at, so hostile texts cost time that grows with their length and a bounded stack.
pub fn read_kernel(alloc: Global, text: &[u8]) -> Result<Kernel, ReadFault>
    // What is read is the tree of the text's tokens.
    ensures tree { IfOk result (λ k. IsReadFrom text.now (program_of k)) }
    ensures within { IfOk result (λ _. limit_fault text.now ≡ None) }

    // Why a text is refused before the grammar is looked at.
    ensures too_long { result ≡ Err ReadFault.TooLong → limit_fault text.now ≡ Some ReadFault.TooLong }
    ensures bad_byte { (at : ℕ) → result ≡ Err (ReadFault.BadByte at)
        → limit_fault text.now ≡ Some (ReadFault.BadByte at) }
    ensures too_deep { (token : ℕ) → result ≡ Err (ReadFault.TooDeep token)
        → limit_fault text.now ≡ Some (ReadFault.TooDeep token) }

    // Other texts are refused where no kernel is the tree of their tokens.
    ensures no_tree { (token : ℕ) → result ≡ Err (ReadFault.Syntax token) → HasNoTree text.now }
    ensures no_limit { (token : ℕ) → result ≡ Err (ReadFault.Syntax token) → limit_fault text.now ≡ None }
    // The token named is the one after the longest front of a kernel that the tokens begin with.
    ensures place { (token : ℕ) → result ≡ Err (ReadFault.Syntax token) → StopsAt text.now token }
{
    read_text(alloc, text)
}
