//! Names.

ghost use Rattle.std.specs.Prelude.{IsTrue, string_bytes};
ghost use Rattle.kernel_tree.specs.Tokens.{is_name};

use crate::lexeme::is_name_of;
use std::alloc::{AllocError, Global};

/// A name: a letter or `_` and then letters, digits and `_`, all ASCII, and no reserved word.
#[derive(Drop)]
pub struct Name {
    text: String,
    pub ghost is_name: { IsTrue (is_name (string_bytes text)) },
}

impl Name {
    ghost use Rattle.std.specs.Prelude.{◌≡◌, IfOk, IfSome, is_some};
    ghost use Rattle.kernel_tree.specs.Plain.{name_of};

    /// The name that a text spells, if it is one.
    pub fn new(alloc: Global, text: &str) -> Result<Option<Name>, AllocError>
        ensures some { IfOk result (λ o. is_some o ≡ is_name text.now) }
        ensures text { IfOk result (λ o. IfSome o (λ n. name_of n ≡ text.now)) }
    {
        if !is_name_of(text.as_bytes()) {
            return Ok(None);
        }
        let text = String::from_str(alloc, text)?;
        Ok(Some(Name { text }))
    }

    /// The text of the name.
    pub fn text(&self) -> &str
        ensures { result.now ≡ name_of self.now }
    {
        self.text.as_str()
    }
}
