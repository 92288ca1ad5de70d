//! The reader of tokens.

ghost use Rattle.std.specs.Prelude.{◌≡◌, ◌<◌, ℕ, length, IfOk, Ok, Err};
ghost use Rattle.kernel_tree.specs.Plain.{words_of};
ghost use Rattle.kernel_tree.specs.Tokens.{tokens_of};

use crate::fault::TokenFault;
use crate::front::{Front, read_front};
use kernel_tree::token::Token;
use std::alloc::Global;

/// The tokens of a text, in time that grows with the text's length alone.
pub fn read_tokens(alloc: Global, text: &[u8]) -> Result<Vec<Token>, TokenFault>
    ensures tokens { IfOk result (λ tokens. tokens_of text.now ≡ Ok (words_of tokens.items)) }
    // the first byte that begins no token, or a number of 2^127 or more
    ensures bad_byte { (at : ℕ) → result ≡ Err (TokenFault.BadByte at) → tokens_of text.now ≡ Err at }
    ensures inside { (at : ℕ) → result ≡ Err (TokenFault.BadByte at) → at < length text.now }
{
    let mut tokens = Vec::new(alloc);
    let mut at = 0;
    while at < text.len() {
        match read_front(alloc, &text[at..])? {
            Front::Gap(more) => at += more + 1,
            Front::Token(token, more) => {
                tokens.push(token)?;
                at += more + 1;
            }
            Front::NoToken => return Err(TokenFault::BadByte { at }),
        }
    }
    Ok(tokens)
}
