//! Decides the class of a kernel.

ghost use Rattle.std.specs.Prelude.{◌≡◌};
ghost use Rattle.kernel_tree.specs.Plain.{program_of};
ghost use Rattle.kernel_tree.specs.Checked.{kernel_of};
ghost use Rattle.loop_form.specs.Entries.{loop_entries};
ghost use Rattle.loop_form.specs.View.{program, entries_view};
ghost use Rattle.dependence.specs.Classes.{reason, class_of};

use crate::elements::{carries, reads_computed};
use crate::updates::{mixes_updates, reads_accumulator, writes_before_break};
use dependence::reason::{Class, Why};
use kernel_tree::Checked;
use loop_form::Entry;
use loop_lists::{accesses, lane_width_by, loop_entries};

// The first reason that applies to the items of the loop.
#[tactic(auto, unfolding(loop_form::specs::View::program))]
fn first_reason(kernel: &Checked, entries: &[Entry<'_>]) -> Option<Why>
    requires { entries_view entries.now ≡ loop_entries (program kernel.now) }
    ensures { result ≡ reason (program kernel.now) (entries_view entries.now) }
{
    let width = lane_width_by(kernel, entries);
    if reads_accumulator(entries, &kernel.kernel().vars) {
        Some(Why::AccumulatorRead)
    } else if mixes_updates(entries) {
        Some(Why::MixedUpdate)
    } else if writes_before_break(entries) {
        Some(Why::BeforeBreak)
    } else if reads_computed(kernel, width, entries) {
        Some(Why::ComputedIndex)
    } else if carries(width, &accesses(kernel, entries)) {
        Some(Why::Carried)
    } else {
        None
    }
}

/// Whether the iterations of the loop may be done many at once, statement by statement; where not, the first reason
/// against it.
#[tactic(auto, unfolding(loop_form::specs::View::program))]
pub fn class(kernel: &Checked) -> Class
    ensures { result ≡ class_of (program_of (kernel_of kernel.now)) }
{
    class_by(kernel, &loop_entries(kernel))
}

/// The same by the items of the loop.
#[tactic(auto, unfolding(loop_form::specs::View::program))]
pub fn class_by(kernel: &Checked, looped: &[Entry<'_>]) -> Class
    requires items { entries_view looped.now ≡ loop_entries (program kernel.now) }
    ensures { result ≡ class_of (program kernel.now) }
{
    if kernel.kernel().body.is_none() {
        return Class::Scalar { why: Why::NoLoop };
    }
    match first_reason(kernel, looped) {
        None => Class::Vector,
        Some(why) => Class::Scalar { why },
    }
}
