//! Words.

ghost use Rattle.std.specs.Prelude.{◌≡◌};
ghost use Rattle.command_line.specs.Line.{is_end, is_positional};

pub fn is_end(word: &str) -> bool
    ensures { result ≡ is_end word.now }
{
    word == "--"
}

// Whether a word may be positional.
pub fn is_positional(literal: bool, word: &[u8]) -> bool
    ensures { result ≡ is_positional literal word.now }
{
    match word {
        [] => false,
        [first, ..] => literal || *first != b'-',
    }
}
