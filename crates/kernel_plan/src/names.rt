//! The slots of names.

ghost use Rattle.std.specs.Prelude.{◌≡◌, map};
ghost use Rattle.kernel_tree.specs.Plain.{name_of};
ghost use Rattle.kernel_scope.specs.Scopes.{scope_of, local_of};
ghost use Rattle.kernel_plan.specs.Resolve.{place, slot_of, index_slot};

use kernel_scope::{Local, Scope};
use kernel_tree::Name;

/// More slots than a checked kernel has names.
pub const MOST_SLOTS: usize = 1000;

/// The place of a name among others, and past the last slot for a name that is none of them.
pub fn place_among(locals: &[Local], text: &str) -> usize
    ensures { result ≡ place (map local_of locals.now) text.now }
{
    for (i, local) in locals.iter().enumerate() {
        if local.name == text {
            return i;
        }
    }
    locals.len() + MOST_SLOTS
}

/// The slot of a name.
pub fn slot(scope: &Scope, name: &Name) -> usize
    ensures { result ≡ slot_of (scope_of scope.now) (name_of name.now) }
{
    place_among(&scope.visible, name.text())
}

/// The slot of the loop variable.
pub fn index_slot(scope: &Scope) -> usize
    ensures { result ≡ index_slot (scope_of scope.now).visible (scope_of scope.now).index }
{
    match scope.index {
        None => MOST_SLOTS,
        Some(index) => place_among(&scope.visible, index),
    }
}
