//! Where the values of names are kept.

ghost use Rattle.std.specs.Prelude.{◌≡◌};
ghost use Rattle.kernel_tree.specs.Plain.{name_of};
ghost use Rattle.scalar_words.specs.View.{homes_of};
ghost use Rattle.scalar_words.specs.Layout as layout;

use a64_code::{Reg, zero};
use kernel_tree::Name;

/// A name that is visible, the register of its value, and the item until which it is kept there, if not throughout.
#[derive(Drop)]
pub struct Home<'a> {
    pub name: &'a str,
    pub register: Reg,
    pub last_use: Option<usize>,
}

/// The register of a name, by its text.
pub fn register_named(homes: &[Home], text: &str) -> Reg
    ensures { result.number ≡ layout.register_at (homes_of homes.now) text.now }
{
    for home in homes {
        if home.name == text {
            return home.register;
        }
    }
    zero()
}

/// The register of a name.
pub fn register_at(homes: &[Home], name: &Name) -> Reg
    ensures { result.number ≡ layout.register_at (homes_of homes.now) (name_of name.now) }
{
    register_named(homes, name.text())
}
