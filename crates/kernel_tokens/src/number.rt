//! Numbers.

ghost use Rattle.std.specs.Prelude.{◌≡◌, ◌<◌, ◌≤◌, ◌^◌, MatchOption, IsTrue, length};
ghost use Rattle.std.specs.List.{prefix_len};
ghost use Rattle.kernel_tree.specs.Tokens.{begins_hex, literal, number_piece};
ghost use Rattle.number_text.specs.Numbers.{is_digit, is_hex_digit, value_of};
ghost use Rattle.kernel_tokens.specs.Fronts.{piece_of, at_front};

use crate::front::Front;
use kernel_tree::token::{Number, Token};
use number_text::{digit, is_digit_byte, is_hex_byte};

const LIMIT: u128 = 170141183460469231731687303715884105728;

#[tactic(auto, using(crate::proofs::Runs::run_within))]
fn digit_count(bytes: &[u8]) -> usize
    ensures value { result ≡ prefix_len is_digit bytes.now }
    ensures within { result ≤ length bytes.now }
{
    bytes.iter().take_while(|b| is_digit_byte(**b)).count()
}

#[tactic(auto, using(crate::proofs::Runs::run_within))]
fn hex_count(bytes: &[u8]) -> usize
    ensures value { result ≡ prefix_len is_hex_digit bytes.now }
    ensures within { result ≤ length bytes.now }
{
    bytes.iter().take_while(|b| is_hex_byte(**b)).count()
}

// The number that digits spell in a base, where it is below the limit.
fn value(base: u128, digits: &[u8]) -> Option<u128>
    requires { 1 ≤ base }
    ensures { MatchOption result (2 ^ 127 ≤ value_of base digits.now)
        (λ n. (n ≡ value_of base digits.now) × (n < 2 ^ 127)) }
{
    let mut n: u128 = 0;
    for d in digits {
        let shifted = base.checked_mul(n)?;
        n = shifted.checked_add(u128::from(digit(*d)))?;
        if n >= LIMIT {
            return None;
        }
    }
    Some(n)
}

fn read_literal(base: u128, digits: &[u8], more: usize) -> Front
    requires { 1 ≤ base }
    ensures { piece_of result ≡ literal (value_of base digits.now) more }
{
    match value(base, digits) {
        Some(value) => Front::Token(Token::Number(Number { value }), more),
        None => Front::NoToken,
    }
}

fn is_hex_number(b: u8, rest: &[u8]) -> bool
    ensures value { result ≡ begins_hex b rest.now }
    ensures digit { IsTrue result → 1 ≤ length rest.now }
{
    match rest {
        [] => false,
        [_] => false,
        [x, d, ..] => b == b'0' && *x == b'x' && is_hex_byte(*d),
    }
}

// The number at the front of a text that begins with a digit.
pub fn number_front(text: &[u8]) -> Front
    requires { 0 < length text.now }
    ensures { piece_of result ≡ at_front number_piece text.now }
{
    let rest = &text[1..];
    if is_hex_number(text[0], rest) {
        let digits = &rest[1..];
        let count = hex_count(digits);
        return read_literal(16, &digits[..count], count + 1);
    }
    let count = digit_count(rest);
    read_literal(10, &text[..count + 1], count)
}
