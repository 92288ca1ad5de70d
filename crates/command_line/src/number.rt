//! The numbers of arguments.

ghost use Rattle.std.specs.Prelude.{◌≡◌};
ghost use Rattle.command_line.specs.Numbers.{argument_of, negative};

use number_text::{decimal, following, number};

// The number -n, modulo 2^64.
fn negative(n: u64) -> Option<u64>
    ensures { result ≡ negative n }
{
    if n <= 1 << 63 {
        Some(0u64.wrapping_sub(n))
    } else {
        None
    }
}

/// The argument that a word spells: a number, or a minus and decimal digits.
#[tactic(auto, unfolding(crate::specs::Numbers::argument_of))]
pub fn argument(word: &[u8]) -> Option<u64>
    ensures { result ≡ argument_of word.now }
{
    match following(b"-".as_slice(), word) {
        Some(digits) => negative(decimal(digits)?),
        None => number(word),
    }
}
