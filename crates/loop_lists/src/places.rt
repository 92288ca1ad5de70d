//! Which interval of a class an item has.

ghost use Rattle.std.specs.Prelude.{◌≡◌, ◌+◌, ◌^◌, ◌<◌, ◌++◌, length, IfOk};
ghost use Rattle.loop_form.specs.Places.{places_from};
ghost use Rattle.loop_form.specs.View.{entries_view};

use crate::item_list::last_use_if_made;
use loop_form::Entry;
use reg_assign::RegClass;
use std::alloc::{AllocError, Global};

/// The places of the intervals of some items' values, where the first interval has this place.
pub fn places_from(
    alloc: Global,
    class: RegClass,
    all: &[Entry<'_>],
    first: u32,
    some: &[Entry<'_>],
) -> Result<Vec<Option<u32>>, AllocError>
    requires { first + length some.now < 2 ^ 32 }
    ensures { IfOk result (λ places. places.items
        ≡ places_from class (entries_view all.now) first (entries_view some.now)) }
{
    let mut places = Vec::new(alloc);
    let mut next = first;
    for entry in some {
        let is_made = last_use_if_made(class, all, entry).is_some();
        places.push(is_made.then_some(next))?;
        next += u32::from(is_made);
    }
    Ok(places)
}
