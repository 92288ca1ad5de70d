//! What holds of the texts of words.

ghost use Rattle.std.specs.Prelude.{◌≡◌, ◌<◌, ◌≤◌, ◌^◌, ℕ, List, length, Some, Ok};
ghost use Rattle.list_text.specs.Text.{word_text, list_text};
ghost use Rattle.std.specs.List.{AllByRecursion};
ghost use Rattle.sve_asm.specs.Lines.{words_of};
ghost use Rattle.sve_asm.specs.WordOf.{Spells, word_of};

/// Two words never have one text, and a word is what its text spells.
pub fn words_have_texts()
    ensures one { (v w : ℕ) → v < 2 ^ 32 → w < 2 ^ 32 → word_text v ≡ word_text w → v ≡ w }
    ensures read_back { (w : ℕ) → w < 2 ^ 32 → word_of (word_text w) ≡ Some w }
    ensures spelled { (text : List ℕ) (w : ℕ) → word_of text ≡ Some w → Spells text w }
{}

/// The lines of a listing, read back, give the words that are listed, from whatever address it counts.
pub fn listings_read_back()
    ensures { (address : ℕ) (words : List ℕ) → AllByRecursion (λ w. w < 2 ^ 32) words → length words ≤ 65536
        → words_of (list_text address words) ≡ Ok words }
{}
