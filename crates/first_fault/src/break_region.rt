//! Where the break region ends.

ghost use Rattle.std.specs.Prelude.{◌≡◌, ◌+◌, ◌^◌, ◌<◌, if◌then◌else◌};
ghost use Rattle.std.specs.List.{list_any};
ghost use Rattle.loop_form.specs.LoopView.{op_of, view};
ghost use Rattle.first_fault.specs.BreakRegion as regions;
ghost use Rattle.first_fault.specs.View.{region_size};

use loop_form::{LoopItem, LoopOp};

fn is_loop_break(op: &LoopOp<'_>) -> bool
    ensures { result ≡ regions.breaks_loop (op_of op.now) }
{
    matches!(*op, LoopOp::Break(_))
}

// The size of the items so far, with one more at a place.
fn with_item(size: usize, place: usize, op: &LoopOp<'_>) -> usize
    requires { place < 2 ^ 63 }
    ensures { result ≡ (if regions.breaks_loop (op_of op.now) then place + 1 else size) }
{
    if is_loop_break(op) { place + 1 } else { size }
}

// How many items the break region has: those up to the last break.
#[tactic(auto, using(crate::proofs::Sizes::none_before))]
fn break_region(items: &[LoopItem<'_>]) -> usize
    ensures { result ≡ region_size (view items.now) }
{
    let mut size = 0;
    let mut place = 0;
    for item in items {
        size = with_item(size, place, &item.op);
        place += 1;
    }
    size
}

/// The items of the break region.
#[tactic(auto, using(crate::proofs::Sizes::region_view, crate::proofs::Sizes::region_within))]
pub fn region<'s, 'a>(items: &'s [LoopItem<'a>]) -> &'s [LoopItem<'a>]
    ensures { view result.now ≡ regions.region_of (view items.now) }
{
    &items[..break_region(items)]
}

/// The items after the break region.
#[tactic(auto, using(crate::proofs::Sizes::rest_view, crate::proofs::Sizes::region_within))]
pub fn rest<'s, 'a>(items: &'s [LoopItem<'a>]) -> &'s [LoopItem<'a>]
    ensures { view result.now ≡ regions.rest_of (view items.now) }
{
    &items[break_region(items)..]
}

/// Whether the loop has a break.
pub fn has_break(items: &[LoopItem<'_>]) -> bool
    ensures { result ≡ list_any regions.is_loop_break (view items.now) }
{
    for item in items {
        if is_loop_break(&item.op) {
            return true;
        }
    }
    false
}
