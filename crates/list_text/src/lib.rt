//! The text of instruction words, and the lines of a listing, in fixed buffers.
//!
//! Mnemonics and operands are those of the assembly syntax in the Arm Architecture Reference Manual
//! (Arm DDI 0487), with no alias, decimal numbers, and offsets of branches in bytes.
#![tactic(auto)]

ghost use Rattle.std.specs.Prelude.{◌≡◌, [], ◌∷◌, ◌≤◌, ◌<◌, ◌+◌, ◌++◌};
ghost use Rattle.arrayvec.specs.ArrayString.{array_string_len};
ghost use Rattle.list_text.specs.Text as text;
ghost use Rattle.number_text.specs.Hexadecimal.{hex_digit};

use arrayvec::ArrayString;
use word_rows::field;

mod a64;
mod parts;
mod sve;

/// The text of one word: at most 64 bytes.
pub type LineBuf = ArrayString<64>;

/// A line of a listing: at most 96 bytes.
pub type ListLine = ArrayString<96>;

/// Replaces what `into` holds by the text of a word. A word in no row of the tables is given as
/// `.word` with its eight digits.
pub fn word_text(word: u32, into: &mut LineBuf)
    ensures { into.new.bytes ≡ text.word_text word }
{
    if let Some(instruction) = a64_code::decode(word) {
        return a64::instruction_text(instruction, into);
    }
    if let Some(instruction) = sve_decode::decode(word) {
        return sve::instruction_text(instruction, into);
    }
    unlisted_text(word, into);
}

/// Replaces what `into` holds by a word's line in a listing: its address, the word and its text.
/// The line ends with LF.
pub fn line_text(address: u64, word: u32, into: &mut ListLine)
    ensures { into.new.bytes ≡ text.line_text address word }
{
    let mut line = LineBuf::new();
    word_text(word, &mut line);
    into.clear();
    push_hex_word(into, (address >> 32) as u32);
    push_hex_word(into, (address % 0x1_0000_0000) as u32);
    into.push_str(": ");
    push_hex_word(into, word);
    into.push_str(" ");
    into.push_str(line.as_str());
    into.push_str("\n");
}

/// Writes `.word 0x00000000`.
fn unlisted_text(word: u32, into: &mut LineBuf)
    ensures { into.new.bytes ≡ text.unlisted_text word }
{
    into.clear();
    into.push_str(".word 0x");
    push_hex_word(into, word);
}

fn push_hex_word<const N: usize>(into: &mut ArrayString<N>, word: u32)
    requires { array_string_len into.old + 8 ≤ N }
    ensures bytes { into.new.bytes ≡ into.old.bytes ++ text.hex_word word }
    ensures len { array_string_len into.new ≡ array_string_len into.old + 8 }
{
    push_hex_digit(into, field(word, 28, 4));
    push_hex_digit(into, field(word, 24, 4));
    push_hex_digit(into, field(word, 20, 4));
    push_hex_digit(into, field(word, 16, 4));
    push_hex_digit(into, field(word, 12, 4));
    push_hex_digit(into, field(word, 8, 4));
    push_hex_digit(into, field(word, 4, 4));
    push_hex_digit(into, field(word, 0, 4));
}

fn push_hex_digit<const N: usize>(into: &mut ArrayString<N>, digit: u32)
    requires room { array_string_len into.old < N }
    requires below { digit < 16 }
    ensures bytes { into.new.bytes ≡ into.old.bytes ++ hex_digit digit ∷ [] }
    ensures len { array_string_len into.new ≡ array_string_len into.old + 1 }
{
    into.push(b"0123456789abcdef"[digit as usize] as char);
}
