//! Laws of reading.

ghost use Rattle.std.specs.Prelude.{◌≡◌, ◌⊎◌, ℕ, List, None};
ghost use Rattle.kernel_tree.specs.Plain.{Program};
ghost use Rattle.kernel_syntax.specs.Refusals.{limit_fault, IsReadFrom, HasNoTree, StopsAt};

/// A text within the limits is read as some kernel, or no kernel is the tree of its tokens.
pub fn read_or_no_tree()
    ensures { (text : List ℕ) → limit_fault text ≡ None → ((k : Program) × IsReadFrom text k) ⊎ HasNoTree text }
{}

/// A text whose tokens are no kernel's stops at some token.
pub fn stops_somewhere()
    ensures { (text : List ℕ) → HasNoTree text → (token : ℕ) × StopsAt text token }
{}

/// A text stops at one token.
pub fn stops_once()
    ensures { (text : List ℕ) (a b : ℕ) → StopsAt text a → StopsAt text b → a ≡ b }
{}
