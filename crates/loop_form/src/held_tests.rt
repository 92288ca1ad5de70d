//! Whether an item is what is held.

ghost use Rattle.std.specs.Prelude.{◌≡◌};
ghost use Rattle.loop_form.specs.Needs.{updates};
ghost use Rattle.loop_form.specs.View.{entry_of};

use crate::entry::{Content, Entry};

/// Whether an item is an update of the accumulator.
pub fn is_update_of(entry: &Entry<'_>, name: &str) -> bool
    ensures { result ≡ updates name.now (entry_of entry.now) }
{
    match entry.content {
        Content::Update { name: text, .. } => text == name,
        _ => false,
    }
}
