//! Names whose registers do not hold the value itself.

ghost use Rattle.std.specs.Prelude.{◌≡◌, option_map};
ghost use Rattle.kernel_tree.specs.Plain.{name_of};
ghost use Rattle.scalar_words.specs.Layout.{loose_in};
ghost use Rattle.scalar_words.specs.View.{looses_of, form_of};

use kernel_tree::{Name, Ty};

/// What stands in a name's register in place of its value: an integer with the low bits of the value of a type, an array's address
/// ahead by as many elements of a type as the loop has iterations, or a number behind by as many.
#[derive(Clone, Copy)]
pub enum Form {
    LowBits(Ty),
    Ahead(Ty),
    Behind,
}

/// A name whose register does not hold the value itself while iterations last.
#[derive(Drop)]
pub struct Loose<'a> {
    pub name: &'a str,
    pub form: Form,
}

/// What stands in a name's register, by the text of the name; None where the value itself does.
pub fn loose_form_named(loose: &[Loose], text: &str) -> Option<Form>
    ensures { option_map form_of result ≡ loose_in (looses_of loose.now) text.now }
{
    for it in loose {
        if it.name == text {
            return Some(it.form);
        }
    }
    None
}

/// What stands in a name's register; None where the value itself does.
pub fn loose_form(loose: &[Loose], name: &Name) -> Option<Form>
    ensures { option_map form_of result ≡ loose_in (looses_of loose.now) (name_of name.now) }
{
    loose_form_named(loose, name.text())
}
