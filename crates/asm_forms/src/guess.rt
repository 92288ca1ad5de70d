//! The one word that may have a text.

ghost use Rattle.std.specs.Prelude.{◌≡◌, ◌<◌, ◌^◌};
ghost use Rattle.asm_forms.specs.Reading.{listed_candidate, unlisted_candidate, candidate};

use crate::blanks::{Blanked, Numbers, read_blanks, word_len};
use crate::rules::form_of;
use crate::sums::word_of;
use number_text::{following, number};

#[tactic(auto, unfolding(crate::specs::Reading::listed_candidate))]
fn listed_candidate(text: &[u8]) -> Option<u32>
    ensures { result ≡ listed_candidate text.now }
{
    let end = word_len(text);
    let mut blanked = Blanked::new();
    let mut numbers = Numbers::new();
    if !read_blanks(&text[end..], &mut blanked, &mut numbers) {
        return None;
    }
    let (places, base) = form_of(&text[..end], blanked.as_slice())?;
    Some(word_of(places, base, numbers.as_slice()))
}

#[tactic(auto, unfolding(crate::specs::Reading::unlisted_candidate))]
fn unlisted_candidate(digits: &[u8]) -> Option<u32>
    ensures { result ≡ unlisted_candidate digits.now }
{
    match number(digits) {
        Some(n) if n < 0x1_0000_0000 => Some(n as u32),
        _ => None,
    }
}

/// The one word that may have a text: no other has it.
#[tactic(auto, unfolding(crate::specs::Reading::candidate))]
pub fn candidate(text: &[u8]) -> Option<u32>
    ensures { result ≡ candidate text.now }
{
    match following(b".word ".as_slice(), text) {
        Some(digits) => unlisted_candidate(digits),
        None => listed_candidate(text),
    }
}
