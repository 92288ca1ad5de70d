//! What the words of a line ask for.

ghost use Rattle.std.specs.Prelude.{◌≡◌, ◌≤◌, IfSome};
ghost use Rattle.sve_debug.specs.Lines.{number_in, alone, with_number, bytes_from, with_range, command_of};
ghost use Rattle.sve_debug.specs.View.{IsWithin};

use crate::command::{Command, Part};
use number_text::number;
use text_parts::cut;

// How many steps `step` asks for at most.
const MOST_STEPS: u64 = 1_000_000;

// How many steps `go` and `back` ask for at most.
const MOST_FAR: u64 = 100_000_000;

// How many bytes `mem` asks for at most.
const MOST_BYTES: u64 = 4096;

// The number that a word spells, from one number to another.
fn number_in(least: u64, most: u64, word: &[u8]) -> Option<u64>
    ensures value { result ≡ number_in least most word.now }
    ensures least { IfSome result (λ n. least ≤ n) }
    ensures most { IfSome result (λ n. n ≤ most) }
{
    let n = number(word)?;
    if least <= n && n <= most {
        Some(n)
    } else {
        None
    }
}

// A command of one word.
fn alone(name: &[u8]) -> Option<Command>
    ensures value { result ≡ alone name.now }
    ensures within { IfSome result IsWithin }
{
    if name == b"pc".as_slice() {
        return Some(Command::Show(Part::Place));
    }
    if name == b"sp".as_slice() {
        return Some(Command::Show(Part::Stack));
    }
    if name == b"nzcv".as_slice() {
        return Some(Command::Show(Part::Flags));
    }
    if name == b"ffr".as_slice() {
        return Some(Command::Show(Part::FirstFault));
    }
    if name == b"past".as_slice() {
        return Some(Command::Show(Part::Past));
    }
    if name == b"quit".as_slice() {
        return Some(Command::Quit);
    }
    None
}

// A command with a number.
fn with_number(name: &[u8], word: &[u8]) -> Option<Command>
    ensures value { result ≡ with_number name.now word.now }
    ensures within { IfSome result IsWithin }
{
    if name == b"step".as_slice() {
        let count = number_in(1, MOST_STEPS, word)?;
        return Some(Command::Step(count));
    }
    if name == b"go".as_slice() {
        let count = number_in(1, MOST_FAR, word)?;
        return Some(Command::Go(count));
    }
    if name == b"back".as_slice() {
        let count = number_in(1, MOST_FAR, word)?;
        return Some(Command::Back(count));
    }
    if name == b"break".as_slice() {
        let address = number(word)?;
        return Some(Command::Break(address));
    }
    if name == b"x".as_slice() {
        let n = number_in(0, 30, word)?;
        return Some(Command::Show(Part::General(n)));
    }
    if name == b"z".as_slice() {
        let n = number_in(0, 31, word)?;
        return Some(Command::Show(Part::Vector(n)));
    }
    if name == b"p".as_slice() {
        let n = number_in(0, 15, word)?;
        return Some(Command::Show(Part::Predicate(n)));
    }
    None
}

// So many bytes from an address on.
fn bytes_from(address: u64, len: u64) -> Option<Command>
    requires { len ≤ 4096 }
    ensures value { result ≡ bytes_from address len }
    ensures within { IfSome result IsWithin }
{
    if u128::from(address) + u128::from(len) <= 1 << 64 {
        Some(Command::Show(Part::Memory { address, len }))
    } else {
        None
    }
}

// `mem ADDRESS LEN`
fn with_range(name: &[u8], address: &[u8], len: &[u8]) -> Option<Command>
    ensures value { result ≡ with_range name.now address.now len.now }
    ensures within { IfSome result IsWithin }
{
    if name == b"mem".as_slice() {
        let address = number(address)?;
        let len = number_in(1, MOST_BYTES, len)?;
        return bytes_from(address, len);
    }
    None
}

// What a line asks for, where it is a command.
#[tactic(auto, unfolding(crate::specs::Lines::command_of), using(crate::proofs::Words::four_words, text_parts::proofs::Parts::some_part))]
pub fn command_of(line: &[u8]) -> Option<Command>
    ensures value { result ≡ command_of line.now }
    ensures within { IfSome result IsWithin }
{
    let (name, rest) = cut(b' ', line);
    let Some(rest) = rest else {
        return alone(name);
    };
    let (first, rest) = cut(b' ', rest);
    let Some(rest) = rest else {
        return with_number(name, first);
    };
    let (second, None) = cut(b' ', rest) else {
        return None;
    };
    with_range(name, first, second)
}
