//! The accesses of a loop by stream index.

ghost use Rattle.std.specs.Prelude.{◌≡◌, ◌≤◌, length, filter_map, IfOk};
ghost use Rattle.arrayvec.specs.ArrayVec.{array_vec_len};
ghost use Rattle.kernel_tree.specs.Plain.{term_of, program_of};
ghost use Rattle.kernel_tree.specs.Items.{stream_offset, loop_index};
ghost use Rattle.kernel_tree.specs.Checked.{kernel_of};
ghost use Rattle.loop_form.specs.Entries.{loop_entries};
ghost use Rattle.loop_form.specs.Near.{IsNear, HasNear, AreNear};
ghost use Rattle.loop_form.specs.View.{program, content_of, entry_of, entries_view};
ghost use Rattle.loop_form.specs.Streams.{place_of, access, stream_of, streams_of};

use crate::entry_list::{few_looped, loop_entries};
use kernel_tree::{Checked, Expr};
use loop_form::stream::Streams;
use loop_form::{Content, Entry, Stream, offset, param_place};
use std::alloc::{AllocError, Global};

// The access of an array with an index, where it is a stream index.
#[tactic(auto, unfolding(loop_form::specs::View::program))]
fn access(kernel: &Checked, array: &str, index: &Expr, store: bool, item: u32) -> Option<Stream>
    requires { IsNear (stream_offset (loop_index (program kernel.now)) (term_of index.now)) }
    ensures { let k = program kernel.now in result
        ≡ access (place_of array.now k.params) (stream_offset (loop_index k) (term_of index.now)) store item }
{
    let param = param_place(&kernel.kernel().params, array)?;
    let offset = offset(kernel, index)?;
    Some(Stream {
        param,
        offset,
        store,
        item,
    })
}

// The access that an item is.
fn stream(kernel: &Checked, entry: &Entry<'_>) -> Option<Stream>
    requires { HasNear (loop_index (program kernel.now)) (content_of entry.now.content) }
    ensures { result ≡ stream_of (program kernel.now) (entry_of entry.now) }
{
    match entry.content {
        Content::Read { array, index } => access(kernel, array, index, false, entry.item),
        Content::Store { array, index } => access(kernel, array, index, true, entry.item),
        _ => None,
    }
}

fn streams_among(kernel: &Checked, entries: &[Entry<'_>]) -> Streams
    requires small { length entries.now ≤ 1000 }
    requires near { AreNear (loop_index (program kernel.now)) (entries_view entries.now) }
    ensures { result.items ≡ filter_map (stream_of (program kernel.now)) (entries_view entries.now) }
{
    let mut streams = Streams::new();
    for entry in entries {
        if let Some(stream) = stream(kernel, entry) {
            streams.push(stream);
        }
    }
    streams
}

/// The accesses of the loop by stream index, in their order, by the loop's items, without taking memory.
pub fn accesses(kernel: &Checked, looped: &[Entry<'_>]) -> Streams
    requires items { entries_view looped.now ≡ loop_entries (program kernel.now) }
    ensures { result.items ≡ streams_of (program kernel.now) }
{
    few_looped(kernel, looped);
    streams_among(kernel, looped)
}

/// The accesses of the loop by stream index, in the order of the listing.
#[tactic(auto, unfolding(loop_form::specs::View::program))]
pub fn streams(alloc: Global, kernel: &Checked) -> Result<Vec<Stream>, AllocError>
    ensures { IfOk result (λ streams. streams.items ≡ streams_of (program_of (kernel_of kernel.now))) }
{
    Vec::from_slice(alloc, &accesses(kernel, &loop_entries(kernel)))
}
