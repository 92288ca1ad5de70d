//! The word of a text.

ghost use Rattle.std.specs.Prelude.{◌≡◌, ◌<◌, ◌^◌, ℕ, Some, IfSome};
ghost use Rattle.list_text.specs.Text.{word_text};
ghost use Rattle.sve_asm.specs.WordOf.{Spells, word_of};

use asm_forms::candidate;
use list_text::{LineBuf, word_text};

// What a text spells: the candidate, if it has this text.
#[tactic(auto, unfolding(crate::specs::WordOf::word_of))]
fn spelled_word(text: &[u8]) -> Option<u32>
    ensures { result ≡ word_of text.now }
{
    let word = candidate(text)?;
    let mut spelled = LineBuf::new();
    word_text(word, &mut spelled);
    if spelled.as_str().as_bytes() == text {
        Some(word)
    } else {
        None
    }
}

/// The word whose text is exactly these bytes, where there is one. It takes no memory.
pub fn read_word(text: &[u8]) -> Option<u32>
    ensures found { IfSome result (Spells text.now) }
    ensures only { (word : ℕ) → Spells text.now word → result ≡ Some word }
    ensures value { result ≡ word_of text.now }
{
    let word = spelled_word(text);
    word
}
