//! The items of a kernel with the values that they make.

ghost use Rattle.std.specs.Prelude.{◌≡◌, map, IfOk};
ghost use Rattle.kernel_tree.specs.Plain.{program_of};
ghost use Rattle.kernel_tree.specs.Checked.{kernel_of};
ghost use Rattle.loop_form.specs.Entries.{kind_of, entries_of};
ghost use Rattle.loop_form.specs.Listing.{names, has_x, has_z, has_p, has_value, last_use_from, last_use_at, last_use_in, item_of, listing_of, held};
ghost use Rattle.loop_form.specs.View.{program, content_of, entry_of, entries_view};

use crate::entry_list::entries;
use kernel_tree::Checked;
use loop_form::{Content, Entry, Item, ItemKind};
use reg_assign::RegClass;
use std::alloc::{AllocError, Global};

fn has_z_value(kind: ItemKind) -> bool
    ensures { result ≡ has_z kind }
{
    matches!(
        kind,
        ItemKind::Read
            | ItemKind::Unary
            | ItemKind::Binary
            | ItemKind::Shift
            | ItemKind::Cast
            | ItemKind::Select
            | ItemKind::Let
    )
}

fn has_p_value(kind: ItemKind) -> bool
    ensures { result ≡ has_p kind }
{
    matches!(
        kind,
        ItemKind::Compare
            | ItemKind::Not
            | ItemKind::And
            | ItemKind::Or
            | ItemKind::Mark
            | ItemKind::Else
    )
}

// Whether an item of a kind makes a value in a class of registers.
fn makes(class: RegClass, kind: ItemKind) -> bool
    ensures { result ≡ has_value class kind }
{
    match class {
        RegClass::Z => has_z_value(kind),
        RegClass::P => has_p_value(kind),
        RegClass::X => kind == ItemKind::Literal || has_z_value(kind),
    }
}

fn kind(entry: &Entry<'_>) -> ItemKind
    ensures { result ≡ kind_of (content_of entry.now.content) }
{
    match entry.content {
        Content::Literal(_) => ItemKind::Literal,
        Content::Name(_) => ItemKind::Name,
        Content::Read { .. } => ItemKind::Read,
        Content::Let(_) => ItemKind::Let,
        Content::Store { .. } => ItemKind::Store,
        Content::Update { .. } => ItemKind::Update,
        Content::Plain(kind) => kind,
    }
}

/// Whether an item is the name.
pub fn is_name(entry: &Entry<'_>, name: &str) -> bool
    ensures { result ≡ names name.now (entry_of entry.now) }
{
    match entry.content {
        Content::Name(text) => text == name,
        _ => false,
    }
}

// The greatest of an item and the users of the name's items.
#[tactic(auto, unfolding(loop_form::specs::Listing::last_use_from))]
fn last_use_of(entries: &[Entry<'_>], name: &str, item: u32) -> u32
    ensures { result ≡ last_use_from name.now item (entries_view entries.now) }
{
    let mut last = item;
    for entry in entries {
        if is_name(entry, name) {
            last = last.max(entry.last_use);
        }
    }
    last
}

// The item that uses an item's value last.
fn last_use(all: &[Entry<'_>], entry: &Entry<'_>) -> u32
    ensures { result ≡ last_use_at (entries_view all.now) (entry_of entry.now) }
{
    match entry.content {
        Content::Let(name) => last_use_of(all, name, entry.last_use),
        _ => entry.last_use,
    }
}

/// The item that uses an item's value of a class last, where it makes one.
pub fn last_use_if_made(class: RegClass, all: &[Entry<'_>], entry: &Entry<'_>) -> Option<u32>
    ensures { result ≡ last_use_in class (entries_view all.now) (entry_of entry.now) }
{
    if makes(class, kind(entry)) {
        Some(last_use(all, entry))
    } else {
        None
    }
}

// An item with its values.
fn item(all: &[Entry<'_>], entry: &Entry<'_>) -> Item
    ensures { result ≡ item_of (entries_view all.now) (entry_of entry.now) }
{
    Item {
        kind: kind(entry),
        ty: entry.ty,
        x_last_use: last_use_if_made(RegClass::X, all, entry),
        z_last_use: last_use_if_made(RegClass::Z, all, entry),
        p_last_use: last_use_if_made(RegClass::P, all, entry),
    }
}

/// Items with their values.
pub fn items(alloc: Global, all: &[Entry<'_>]) -> Result<Vec<Item>, AllocError>
    ensures { IfOk result (λ items. items.items ≡ map (item_of (entries_view all.now)) (entries_view all.now)) }
{
    let mut items = Vec::new(alloc);
    for entry in all {
        items.push(item(all, entry))?;
    }
    Ok(items)
}

/// The items of a kernel, in their order. For each class of registers the item that uses an item's value last stands
/// there; a literal and a name have none for the class Z, since their values are held throughout the loop.
#[tactic(auto, unfolding(loop_form::specs::View::program))]
pub fn listing(alloc: Global, kernel: &Checked) -> Result<Vec<Item>, AllocError>
    ensures { IfOk result (λ items. items.items ≡ listing_of (program_of (kernel_of kernel.now))) }
{
    listing_by(alloc, kernel, &entries(kernel))
}

/// The same by all items of the kernel.
pub fn listing_by(
    alloc: Global,
    kernel: &Checked,
    all: &[Entry<'_>],
) -> Result<Vec<Item>, AllocError>
    requires items { entries_view all.now ≡ entries_of (program kernel.now) }
    ensures { IfOk result (λ items. items.items ≡ listing_of (program kernel.now)) }
{
    items(alloc, all)
}
