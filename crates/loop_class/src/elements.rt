//! Accesses of elements.

ghost use Rattle.std.specs.Prelude.{◌≡◌, ◌/◌, pos, is_none};
ghost use Rattle.std.specs.List.{list_any};
ghost use Rattle.guest_types.specs.Length.{width_bits};
ghost use Rattle.loop_form.specs.Lanes.{lane_width_of};
ghost use Rattle.loop_form.specs.Reaches.{reach_of};
ghost use Rattle.loop_form.specs.View.{program, entry_of, entries_view};
ghost use Rattle.dependence.specs.Classes.{is_storing, stores_to, is_narrow, is_barred_read, is_barred, computed_index, conflict, distance, is_near, is_carried, carried};

use crate::updates::has_break;
use guest_types::length::Width;
use kernel_tree::Checked;
use loop_form::{Content, Entry, Stream, is_stream};
use loop_lists::entry_reach;

fn is_store_to(entry: &Entry<'_>, array: &str) -> bool
    ensures { result ≡ stores_to array.now (entry_of entry.now) }
{
    match entry.content {
        Content::Store { array: other, .. } => other == array,
        _ => false,
    }
}

// Whether an item stores to an array.
fn is_stored_to(entries: &[Entry<'_>], array: &str) -> bool
    ensures { result ≡ list_any (stores_to array.now) (entries_view entries.now) }
{
    for entry in entries {
        if is_store_to(entry, array) {
            return true;
        }
    }
    false
}

fn is_store(entry: &Entry<'_>) -> bool
    ensures { result ≡ is_storing (entry_of entry.now) }
{
    matches!(entry.content, Content::Store { .. })
}

fn stores(entries: &[Entry<'_>]) -> bool
    ensures { result ≡ list_any is_storing (entries_view entries.now) }
{
    for entry in entries {
        if is_store(entry) {
            return true;
        }
    }
    false
}

// Whether lanes are narrower than an address.
fn has_narrow_lanes(width: Width) -> bool
    ensures { result ≡ is_narrow width }
{
    width.bits() < 64
}

fn is_endless(kernel: &Checked, entry: &Entry<'_>) -> bool
    ensures { result ≡ is_none (reach_of (program kernel.now) (entry_of entry.now)) }
{
    entry_reach(kernel, entry).is_none()
}

// What stands against a read of an array by a computed index.
fn is_barred_from(
    kernel: &Checked,
    width: Width,
    all: &[Entry<'_>],
    following: &[Entry<'_>],
    array: &str,
    entry: &Entry<'_>,
) -> bool
    requires { width ≡ lane_width_of (program kernel.now) }
    ensures { result ≡ is_barred_read (program kernel.now) (entries_view all.now) (entries_view following.now) array.now
        (entry_of entry.now) }
{
    if has_narrow_lanes(width) {
        return true;
    }
    if has_break(following) {
        return true;
    }
    if is_stored_to(all, array) {
        return true;
    }
    stores(all) && is_endless(kernel, entry)
}

fn is_barred_entry(
    kernel: &Checked,
    width: Width,
    all: &[Entry<'_>],
    following: &[Entry<'_>],
    entry: &Entry<'_>,
) -> bool
    requires { width ≡ lane_width_of (program kernel.now) }
    ensures { result ≡ is_barred (program kernel.now) (entries_view all.now) (entries_view following.now)
        (entry_of entry.now) }
{
    match entry.content {
        Content::Read { array, index } => {
            !is_stream(kernel, index) && is_barred_from(kernel, width, all, following, array, entry)
        }
        _ => false,
    }
}

/// Whether an element is read by a computed index where that is no gather: in lanes narrower than an address, before a
/// `break`, from an array that the loop stores to, or from anywhere while it stores.
#[tactic(auto, unfolding(dependence::specs::Classes::computed_index))]
pub fn reads_computed(kernel: &Checked, width: Width, entries: &[Entry<'_>]) -> bool
    requires { width ≡ lane_width_of (program kernel.now) }
    ensures { let es = entries_view entries.now in result ≡ computed_index (program kernel.now) es es }
{
    let mut following = 0;
    for entry in entries {
        following += 1;
        if is_barred_entry(kernel, width, entries, &entries[following..], entry) {
            return true;
        }
    }
    false
}

// The lanes of the longest vector.
fn most_lanes(width: Width) -> i64
    ensures { result ≡ pos (2048 / width_bits width) }
{
    width.all_lanes() as i64
}

// Whether two accesses are of one parameter, and at least one of them a store.
fn are_in_conflict(earlier: Stream, later: Stream) -> bool
    ensures { result ≡ conflict earlier later }
{
    earlier.param == later.param && (earlier.store || later.store)
}

// How far the later access stands ahead of the earlier one.
fn distance_of(earlier: Stream, later: Stream) -> i64
    ensures { result ≡ distance earlier later }
{
    i64::from(later.offset) - i64::from(earlier.offset)
}

// Whether two lanes of one vector can be so far apart.
fn is_within_vector(width: Width, distance: i64) -> bool
    ensures { result ≡ is_near width distance }
{
    0 < distance && distance < most_lanes(width)
}

fn is_carried_to(width: Width, earlier: Stream, later: Stream) -> bool
    ensures { result ≡ is_carried width earlier later }
{
    are_in_conflict(earlier, later) && is_within_vector(width, distance_of(earlier, later))
}

fn is_carried_on(width: Width, earlier: Stream, later: &[Stream]) -> bool
    ensures { result ≡ list_any (is_carried width earlier) later.now }
{
    for stream in later {
        if is_carried_to(width, earlier, *stream) {
            return true;
        }
    }
    false
}

/// Whether an iteration reads or writes what another iteration of the same chunk writes, in the other order.
#[tactic(auto, unfolding(dependence::specs::Classes::carried))]
pub fn carries(width: Width, streams: &[Stream]) -> bool
    ensures { result ≡ carried width streams.now }
{
    let mut following = 0;
    for stream in streams {
        following += 1;
        if is_carried_on(width, *stream, &streams[following..]) {
            return true;
        }
    }
    false
}
