//! Reads and updates of accumulators.

ghost use Rattle.std.specs.Prelude.{◌≡◌};
ghost use Rattle.std.specs.List.{list_any};
ghost use Rattle.kernel_tree.specs.Plain.{accumulators_of};
ghost use Rattle.loop_form.specs.View.{entry_of, entries_view};
ghost use Rattle.dependence.specs.Classes.{accumulator_read, updates_otherwise, is_mixed, mixed_update, is_write, is_break, before_break};

use kernel_tree::{UpdateOp, Var};
use loop_form::{Content, Entry, ItemKind};
use loop_lists::is_named;

/// Whether some accumulator is read.
pub fn reads_accumulator(entries: &[Entry<'_>], vars: &[Var]) -> bool
    ensures { result ≡ accumulator_read (entries_view entries.now) (accumulators_of vars.now) }
{
    for var in vars {
        if is_named(entries, var.name.text()) {
            return true;
        }
    }
    false
}

// Whether an item is an update of the accumulator by another operator.
fn is_other_update(entry: &Entry<'_>, name: &str, op: UpdateOp) -> bool
    ensures { result ≡ updates_otherwise name.now op (entry_of entry.now) }
{
    match entry.content {
        Content::Update {
            name: text,
            op: other,
        } => text == name && other != op,
        _ => false,
    }
}

fn has_other_update(entries: &[Entry<'_>], name: &str, op: UpdateOp) -> bool
    ensures { result ≡ list_any (updates_otherwise name.now op) (entries_view entries.now) }
{
    for entry in entries {
        if is_other_update(entry, name, op) {
            return true;
        }
    }
    false
}

fn is_mixed_update(entries: &[Entry<'_>], entry: &Entry<'_>) -> bool
    ensures { result ≡ is_mixed (entries_view entries.now) (entry_of entry.now) }
{
    match entry.content {
        Content::Update { name, op } => has_other_update(entries, name, op),
        _ => false,
    }
}

/// Whether two updates of one accumulator have different operators.
pub fn mixes_updates(entries: &[Entry<'_>]) -> bool
    ensures { result ≡ mixed_update (entries_view entries.now) }
{
    for entry in entries {
        if is_mixed_update(entries, entry) {
            return true;
        }
    }
    false
}

fn is_writing(entry: &Entry<'_>) -> bool
    ensures { result ≡ is_write (entry_of entry.now) }
{
    matches!(
        entry.content,
        Content::Store { .. } | Content::Update { .. }
    )
}

fn is_leaving(entry: &Entry<'_>) -> bool
    ensures { result ≡ is_break (entry_of entry.now) }
{
    matches!(entry.content, Content::Plain(ItemKind::Break))
}

/// Whether an item leaves the loop.
pub fn has_break(entries: &[Entry<'_>]) -> bool
    ensures { result ≡ list_any is_break (entries_view entries.now) }
{
    for entry in entries {
        if is_leaving(entry) {
            return true;
        }
    }
    false
}

/// Whether a store or an update stands before some `break`.
#[tactic(auto, unfolding(dependence::specs::Classes::before_break))]
pub fn writes_before_break(entries: &[Entry<'_>]) -> bool
    ensures { result ≡ before_break (entries_view entries.now) }
{
    let mut following = 0;
    for entry in entries {
        following += 1;
        if is_writing(entry) && has_break(&entries[following..]) {
            return true;
        }
    }
    false
}
