//! Blanks in the place of numbers.

ghost use Rattle.std.specs.Prelude.{◌≡◌, ◌<◌, ◌≤◌, ◌+◌, ◌++◌, ◌⊎◌, [], ◌∷◌, true, false, map, option_map, length, take, drop, MatchOption, IfSome, Option, ℕ};
ghost use Rattle.std.specs.List.{prefix_len};
ghost use Rattle.asm_forms.specs.Blanks.{is_word_byte, meaning_in, meanings, register_blank, at_letter, blank_of, blanked, blanked_word, numbers_of, numbers_of_word};
ghost use Rattle.asm_forms.specs.View.{meaning_view};

use arrayvec::ArrayVec;
use number_text::decimal;

/// The text behind a mnemonic, with its blanks.
pub type Blanked = ArrayVec<u8, 32>;

/// The numbers of a text, in order.
pub type Numbers = ArrayVec<u64, 8>;

/// A word that stands for a number, the byte of its blank, and the number.
pub struct Meaning(pub &'static str, pub u8, pub u64);

static MEANINGS: [Meaning; 27] = [
    Meaning("xzr", b'x', 31),
    Meaning("sp", b'x', 31),
    Meaning("wzr", b'w', 31),
    Meaning("wsp", b'w', 31),
    Meaning("b", b'T', 0),
    Meaning("h", b'T', 1),
    Meaning("s", b'T', 2),
    Meaning("d", b'T', 3),
    Meaning("eq", b'c', 0),
    Meaning("ne", b'c', 1),
    Meaning("hs", b'c', 2),
    Meaning("lo", b'c', 3),
    Meaning("mi", b'c', 4),
    Meaning("pl", b'c', 5),
    Meaning("vs", b'c', 6),
    Meaning("vc", b'c', 7),
    Meaning("hi", b'c', 8),
    Meaning("ls", b'c', 9),
    Meaning("ge", b'c', 10),
    Meaning("lt", b'c', 11),
    Meaning("gt", b'c', 12),
    Meaning("le", b'c', 13),
    Meaning("al", b'c', 14),
    Meaning("lsl", b'l', 0),
    Meaning("lsr", b'l', 1),
    Meaning("asr", b'l', 2),
    Meaning("ror", b'l', 3),
];

#[tactic(auto, unfolding(crate::specs::Blanks::meanings))]
fn meanings() -> &'static [Meaning]
    ensures { map meaning_view result.now ≡ meanings }
{
    &MEANINGS
}

#[tactic(auto, unfolding(crate::specs::Blanks::meaning_in))]
fn meaning_in(meanings: &[Meaning], word: &[u8]) -> Option<(u8, u64)>
    ensures { result ≡ meaning_in (map meaning_view meanings.now) word.now }
{
    let [meaning, meanings @ ..] = meanings else {
        return None;
    };
    if meaning.0.as_bytes() == word {
        Some((meaning.1, meaning.2))
    } else {
        meaning_in(meanings, word)
    }
}

/// Whether a byte is of a word: a digit or a small letter.
pub fn is_of_word(b: u8) -> bool
    ensures { result ≡ is_word_byte b }
{
    matches!(b, b'0'..=b'9' | b'a'..=b'z')
}

/// How many bytes the word at the front has.
pub fn word_len(text: &[u8]) -> usize
    ensures value { result ≡ prefix_len is_word_byte text.now }
    ensures within { result ≤ length text.now }
{
    text.iter().take_while(|b| is_of_word(**b)).count()
}

fn blank_of_register(letter: u8) -> Option<u8>
    ensures { result ≡ register_blank letter }
{
    match letter {
        b'x' | b'w' | b'z' | b'p' => Some(letter),
        b'v' | b'b' | b'h' | b's' | b'd' => Some(b'v'),
        _ => None,
    }
}

fn at_letter(word: &[u8]) -> Option<(u8, u64)>
    ensures { result ≡ at_letter word.now }
{
    let [letter, digits @ ..] = word else {
        return None;
    };
    let blank = blank_of_register(*letter)?;
    let number = decimal(digits)?;
    Some((blank, number))
}

#[tactic(auto, unfolding(crate::specs::Blanks::blank_of))]
fn blank_of(word: &[u8]) -> Option<(u8, u64)>
    ensures { result ≡ blank_of word.now }
{
    if let Some(found) = meaning_in(meanings(), word) {
        return Some(found);
    }
    if let Some(number) = decimal(word) {
        return Some((b'0', number));
    }
    at_letter(word)
}

fn push_kept(word: &[u8], text: &mut Blanked) -> bool
    ensures held { result ≡ true → text.new.items ≡ text.old.items ++ word.now }
    ensures full { result ≡ false → 32 < length text.old.items + length word.now }
{
    text.try_extend_from_slice(word).is_ok()
}

fn push_word(word: &[u8], text: &mut Blanked, numbers: &mut Numbers) -> bool
    ensures held { result ≡ true → (text.new.items ≡ text.old.items ++ blanked_word word.now)
        × (numbers.new.items ≡ numbers.old.items ++ numbers_of_word word.now) }
    ensures full { result ≡ false → (32 < length text.old.items + length (blanked_word word.now))
        ⊎ (8 < length numbers.old.items + length (numbers_of_word word.now)) }
{
    match blank_of(word) {
        None => push_kept(word, text),
        Some((blank, number)) => text.try_push(blank).is_ok() && numbers.try_push(number).is_ok(),
    }
}

// The word at the front of a text.
fn front(text: &[u8]) -> &[u8]
    ensures { result.now ≡ take (prefix_len is_word_byte text.now) text.now }
{
    &text[..word_len(text)]
}

// The byte behind the word at the front, and what stands behind it.
fn behind(text: &[u8]) -> Option<(u8, &[u8])>
    ensures value { MatchOption result (drop (prefix_len is_word_byte text.now) text.now ≡ [])
        (λ p. drop (prefix_len is_word_byte text.now) text.now ≡ p.0 ∷ p.1.now) }
    ensures shorter { IfSome result (λ p. length p.1.now < length text.now) }
{
    let (_, rest) = text.split_at(word_len(text));
    match rest.split_first() {
        None => None,
        Some((byte, others)) => Some((*byte, others)),
    }
}

/// Appends a text with its blanks, and its numbers, where there is room for both.
pub fn read_blanks(bytes: &[u8], text: &mut Blanked, numbers: &mut Numbers) -> bool
    ensures held { result ≡ true → (text.new.items ≡ text.old.items ++ blanked bytes.now)
        × (numbers.new.items ≡ numbers.old.items ++ numbers_of bytes.now) }
    ensures full { result ≡ false → (32 < length text.old.items + length (blanked bytes.now))
        ⊎ (8 < length numbers.old.items + length (numbers_of bytes.now)) }
{
    let word = front(bytes);
    if !push_word(word, text, numbers) {
        return false;
    }
    match behind(bytes) {
        None => true,
        Some((byte, rest)) => text.try_push(byte).is_ok() && read_blanks(rest, text, numbers),
    }
}
