//! A law of tokens.

ghost use Rattle.std.specs.Prelude.{◌≡◌, ℕ, List, Ok, IsTrue};
ghost use Rattle.kernel_tree.specs.TextToken.{TextToken};
ghost use Rattle.kernel_tree.specs.Tokens.{tokens_of, are_tokens};

/// The tokens of a text are tokens: a name is no reserved word, and a number is below 2^127.
pub fn tokens_are_spelled()
    ensures { (text : List ℕ) (words : List TextToken) → tokens_of text ≡ Ok words → IsTrue (are_tokens words) }
{}
