//! The first part of a text.

ghost use Rattle.std.specs.Prelude.{◌≡◌, ◌<◌, ◌∷◌, length, IfSome};
ghost use Rattle.text_parts.specs.Parts.{parts_at, parts_after};

/// The part of a text before the first byte like the mark, and what stands after that byte, where there is one.
pub fn cut(mark: u8, text: &[u8]) -> (&[u8], Option<&[u8]>)
    ensures parts { parts_at mark text.now ≡ result.0.now ∷ parts_after mark result.1 }
    ensures shorter { IfSome result.1 (λ rest. length rest.now < length text.now) }
{
    for (i, byte) in text.iter().enumerate() {
        if *byte == mark {
            return (&text[..i], Some(&text[i + 1..]));
        }
    }
    (text, None)
}
