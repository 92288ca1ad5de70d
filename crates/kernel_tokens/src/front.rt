//! What stands at the front of a text.

ghost use Rattle.std.specs.Prelude.{◌≡◌, ◌<◌, ◌≤◌, ◌-◌, IsTrue, IfOk, length};
ghost use Rattle.std.specs.List.{prefix_len};
ghost use Rattle.std.specs.Str.{IsAscii};
ghost use Rattle.kernel_tree.specs.Plain.{word_of};
ghost use Rattle.kernel_tree.specs.Tokens.{is_blank, is_in_line, is_name_byte, is_run, begins, run_word, run_piece, run_from, piece};
ghost use Rattle.kernel_tokens.specs.Fronts.{piece_of, at_front, run_front_of, at_letter};

use crate::number::number_front;
use crate::symbol::symbol_front;
use kernel_tree::lexeme::{continues_name, is_letter_byte, mark_word, type_word};
use kernel_tree::token::Token;
use kernel_tree::{Name, UpdateOp};
use number_text::is_digit_byte;
use std::alloc::{AllocError, Global};

/// A gap between tokens, or a token, each with the number of its bytes after the first one.
#[derive(Drop)]
pub enum Front {
    Gap(usize),
    Token(Token, usize),
    /// The first byte begins no token, or a number of 2^127 or more.
    NoToken,
}

fn is_blank_byte(b: u8) -> bool
    ensures { result ≡ is_blank b }
{
    matches!(b, b' ' | b'\t' | b'\n' | b'\r')
}

fn begins_with(bytes: &[u8], b: u8) -> bool
    ensures { result ≡ begins b bytes.now }
{
    match bytes {
        [] => false,
        [first, ..] => *first == b,
    }
}

#[tactic(auto, using(crate::proofs::Runs::run_within))]
fn rest_of_line(bytes: &[u8]) -> usize
    ensures value { result ≡ prefix_len is_in_line bytes.now }
    ensures within { result ≤ length bytes.now }
{
    bytes.iter().take_while(|b| **b != b'\n').count()
}

#[tactic(auto, using(crate::proofs::Runs::run_within))]
fn rest_of_name(bytes: &[u8]) -> usize
    ensures value { result ≡ prefix_len is_name_byte bytes.now }
    ensures within { result ≤ length bytes.now }
{
    bytes.iter().take_while(|b| continues_name(**b)).count()
}

fn ascii_text(bytes: &[u8]) -> &str
    requires { IsAscii bytes.now }
    ensures { result.now ≡ bytes.now }
{
    match str::from_utf8(bytes) {
        Ok(text) => text,
        Err(_) => unreachable!(),
    }
}

// What a letter and the letters and digits after it spell.
fn run_token(alloc: Global, run: &[u8]) -> Result<Token, AllocError>
    requires { IsTrue (is_run run.now) }
    ensures { IfOk result (λ t. word_of t ≡ run_word run.now) }
{
    if let Some(ty) = type_word(run) {
        return Ok(Token::Type(ty));
    }
    if let Some(mark) = mark_word(run) {
        return Ok(Token::Mark(mark));
    }
    match Name::new(alloc, ascii_text(run))? {
        Some(name) => Ok(Token::Name(name)),
        None => unreachable!(),
    }
}

// The same before the bytes after it: an equals sign makes `min` and `max` updates.
fn run_before(alloc: Global, run: &[u8], after: &[u8]) -> Result<Front, AllocError>
    requires { IsTrue (is_run run.now) }
    ensures { IfOk result (λ f. piece_of f ≡ run_piece run.now after.now (length run.now - 1)) }
{
    let more = run.len() - 1;
    let updates = begins_with(after, b'=');
    if updates && run == b"min".as_slice() {
        return Ok(Front::Token(Token::Update(UpdateOp::Min), more + 1));
    }
    if updates && run == b"max".as_slice() {
        return Ok(Front::Token(Token::Update(UpdateOp::Max), more + 1));
    }
    let token = run_token(alloc, run)?;
    Ok(Front::Token(token, more))
}

// The name or word at the front of a text that begins with a letter.
fn run_front(alloc: Global, text: &[u8]) -> Result<Front, AllocError>
    requires some { 0 < length text.now }
    requires letter { IsTrue (at_letter text.now) }
    ensures { IfOk result (λ f. piece_of f ≡ at_front run_front_of text.now) }
{
    let count = 1 + rest_of_name(&text[1..]);
    run_before(alloc, &text[..count], &text[count..])
}

/// What stands at the front of a text.
pub fn read_front(alloc: Global, text: &[u8]) -> Result<Front, AllocError>
    requires { 0 < length text.now }
    ensures { IfOk result (λ f. piece_of f ≡ at_front piece text.now) }
{
    let [first, rest @ ..] = text else {
        return Ok(Front::NoToken);
    };
    if is_blank_byte(*first) {
        Ok(Front::Gap(0))
    } else if *first == b'/' && begins_with(rest, b'/') {
        Ok(Front::Gap(rest_of_line(rest)))
    } else if is_letter_byte(*first) {
        run_front(alloc, text)
    } else if is_digit_byte(*first) {
        Ok(number_front(text))
    } else {
        Ok(symbol_front(text))
    }
}
