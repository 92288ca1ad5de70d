//! What a line says.

ghost use Rattle.std.specs.Prelude.{◌≡◌, ◌<◌, ◌≤◌, ◌^◌, ◌+◌, true, option_map, length, take, drop};
ghost use Rattle.std.specs.List.{list_all};
ghost use Rattle.sve_asm.specs.Lines.{is_low_hex, is_listing, found_in, text_in, beside, one_word, worded, asm_line_of};
ghost use Rattle.sve_asm.specs.View.{line_view};

use crate::word::read_word;
use asm_forms::candidate;

/// What a line says: nothing, a word, or a word beside the digits of another.
#[derive(Clone, Copy)]
pub enum Said {
    Blank,
    Word(u32),
    Unlike { want: u32, found: u32 },
}

fn is_low_hex(b: u8) -> bool
    ensures { result ≡ is_low_hex b }
{
    matches!(b, b'0'..=b'9' | b'a'..=b'f')
}

fn all_low_hex(bytes: &[u8]) -> bool
    ensures { result ≡ list_all is_low_hex bytes.now }
{
    bytes.iter().all(|b| is_low_hex(*b))
}

// So many bytes of a line from a place on.
fn part(line: &[u8], from: usize, len: usize) -> &[u8]
    requires { from + len ≤ length line.now }
    ensures value { result.now ≡ take len (drop from line.now) }
    ensures size { length result.now ≡ len }
{
    &line[from..from + len]
}

// Whether a line begins as one of a listing does.
fn is_listing(line: &[u8]) -> bool
    ensures value { result ≡ is_listing line.now }
    ensures long { result ≡ true → 28 ≤ length line.now }
{
    line.len() >= 28
        && all_low_hex(part(line, 0, 16))
        && part(line, 16, 2) == b": ".as_slice()
        && all_low_hex(part(line, 18, 8))
        && part(line, 26, 1) == b" ".as_slice()
}

// The word that the eight digits of a line of a listing spell.
#[tactic(auto, using(crate::proofs::Complete::digits_word))]
fn found_in(line: &[u8]) -> Option<u32>
    requires { 28 ≤ length line.now }
    ensures { result ≡ found_in line.now }
{
    let mut text = *b".word 0x00000000";
    text[8..16].copy_from_slice(part(line, 18, 8));
    candidate(&text)
}

fn text_in(line: &[u8]) -> &[u8]
    requires { 28 ≤ length line.now }
    ensures { result.now ≡ text_in line.now }
{
    let (_, text) = line.split_at(27);
    text
}

fn one_word(word: Option<u32>) -> Option<Said>
    ensures { option_map line_view result ≡ one_word word }
{
    let word = word?;
    Some(Said::Word(word))
}

fn beside(found: Option<u32>, want: Option<u32>) -> Option<Said>
    ensures { option_map line_view result ≡ beside found want }
{
    let found = found?;
    let want = want?;
    if want == found {
        Some(Said::Word(want))
    } else {
        Some(Said::Unlike { want, found })
    }
}

// What a line says that is not blank.
fn worded(line: &[u8]) -> Option<Said>
    ensures { option_map line_view result ≡ worded line.now }
{
    if is_listing(line) {
        beside(found_in(line), read_word(text_in(line)))
    } else {
        one_word(read_word(line))
    }
}

/// What a line says, where it has one of the forms.
#[tactic(auto, unfolding(crate::specs::Lines::asm_line_of))]
pub fn line_of(line: &[u8]) -> Option<Said>
    ensures { option_map line_view result ≡ asm_line_of line.now }
{
    match line {
        [] => Some(Said::Blank),
        [first, ..] => {
            if *first == b'#' {
                Some(Said::Blank)
            } else {
                worded(line)
            }
        }
    }
}
