//! Symbols.

ghost use Rattle.std.specs.Prelude.{◌≡◌, option_map};
ghost use Rattle.kernel_tree.specs.Plain.{word_of};
ghost use Rattle.kernel_tree.specs.Tokens.{pair, single, symbol_of, symbol_piece};
ghost use Rattle.kernel_tokens.specs.Fronts.{piece_of, at_front};

use crate::front::Front;
use kernel_tree::mark::Mark;
use kernel_tree::token::Token;
use kernel_tree::{CompareOp, UpdateOp};

// The symbol that two bytes are.
fn symbol_of_two(b: u8, c: u8) -> Option<Token>
    ensures { option_map word_of result ≡ pair b c }
{
    match (b, c) {
        (b'-', b'>') => Some(Token::Mark(Mark::Arrow)),
        (b'.', b'.') => Some(Token::Mark(Mark::Range)),
        (b'=', b'=') => Some(Token::Compare(CompareOp::Eq)),
        (b'!', b'=') => Some(Token::Compare(CompareOp::Ne)),
        (b'<', b'=') => Some(Token::Compare(CompareOp::Le)),
        (b'>', b'=') => Some(Token::Compare(CompareOp::Ge)),
        (b'<', b'<') => Some(Token::Mark(Mark::ShiftLeft)),
        (b'>', b'>') => Some(Token::Mark(Mark::ShiftRight)),
        (b'&', b'&') => Some(Token::Mark(Mark::AndAnd)),
        (b'|', b'|') => Some(Token::Mark(Mark::OrOr)),
        (b'+', b'=') => Some(Token::Update(UpdateOp::Add)),
        (b'&', b'=') => Some(Token::Update(UpdateOp::And)),
        (b'|', b'=') => Some(Token::Update(UpdateOp::Or)),
        (b'^', b'=') => Some(Token::Update(UpdateOp::Xor)),
        _ => None,
    }
}

// The symbol that a byte is.
fn symbol_of_one(b: u8) -> Option<Token>
    ensures { option_map word_of result ≡ single b }
{
    match b {
        b'(' => Some(Token::Mark(Mark::OpenParen)),
        b')' => Some(Token::Mark(Mark::CloseParen)),
        b'[' => Some(Token::Mark(Mark::OpenBracket)),
        b']' => Some(Token::Mark(Mark::CloseBracket)),
        b'{' => Some(Token::Mark(Mark::OpenBrace)),
        b'}' => Some(Token::Mark(Mark::CloseBrace)),
        b',' => Some(Token::Mark(Mark::Comma)),
        b';' => Some(Token::Mark(Mark::Semicolon)),
        b':' => Some(Token::Mark(Mark::Colon)),
        b'=' => Some(Token::Mark(Mark::Equals)),
        b'<' => Some(Token::Compare(CompareOp::Lt)),
        b'>' => Some(Token::Compare(CompareOp::Gt)),
        b'+' => Some(Token::Mark(Mark::Plus)),
        b'-' => Some(Token::Mark(Mark::Minus)),
        b'*' => Some(Token::Mark(Mark::Star)),
        b'&' => Some(Token::Mark(Mark::Ampersand)),
        b'^' => Some(Token::Mark(Mark::Caret)),
        b'|' => Some(Token::Mark(Mark::Bar)),
        b'~' => Some(Token::Mark(Mark::Tilde)),
        b'!' => Some(Token::Mark(Mark::Bang)),
        _ => None,
    }
}

fn by_symbols(two: Option<Token>, one: Option<Token>) -> Front
    ensures { piece_of result ≡ symbol_of (option_map word_of two) (option_map word_of one) }
{
    match (two, one) {
        (Some(token), _) => Front::Token(token, 1),
        (None, Some(token)) => Front::Token(token, 0),
        (None, None) => Front::NoToken,
    }
}

// The symbol at the front of a text.
pub fn symbol_front(text: &[u8]) -> Front
    ensures { piece_of result ≡ at_front symbol_piece text.now }
{
    match text {
        [] => Front::NoToken,
        [b] => by_symbols(None, symbol_of_one(*b)),
        [b, c, ..] => by_symbols(symbol_of_two(*b, *c), symbol_of_one(*b)),
    }
}
