//! Steps of a machine that is kept at some counts.

ghost use Rattle.std.specs.Prelude.{◌≡◌, [], ℕ, ◌+◌, ◌^◌, ◌<◌, ◌≤◌, All, List, IsTrue, false, length};
ghost use Rattle.machine_model.specs.Machine.{State};
ghost use Rattle.sve_debug.specs.DebuggerState.{Stands, IsTwin, held_by};
ghost use Rattle.sve_debug.specs.Replies.{Session, counted_steps};

use crate::run::{BATCH, Places, advance_far};
use debug_history::history::{GAP, note};
use debug_history::keepable::Keepable;

/// Up to so many steps, none after the end or a stop, and none after a step that comes to one of these places, of which there
/// are none without `STOPS`, by the loop `L`. The machine is noted where it may be kept. No steps lead past such a count before it is.
pub fn run_kept<D: Keepable, L, const STOPS: bool>(
    machine: &mut D,
    places: &mut Places,
    stops: &[u64],
    most: u64,
)
    requires few { (D.view_of machine.old).steps + most < 2 ^ 64 }
    requires stops { STOPS ≡ false → stops.now ≡ [] }
    requires room { places.old.capacity ≡ 64 }
    requires quiet { IsTrue (D.view_of machine.old).quiet }
    requires some { 1 ≤ length (D.view_of machine.old).past }
    requires twins { All (IsTwin (D.view_of machine.old)) (D.view_of machine.old).past }
    ensures session { (breaks : List ℕ) (start : State) (d : Session)
        → Stands (held_by (D.view_of machine.old) breaks places.old.items) start d
        → Stands (held_by (D.view_of machine.new) breaks places.new.items) start
        (counted_steps stops.now most d) }
    ensures steps { (D.view_of machine.new).steps ≤ (D.view_of machine.old).steps + most }
    ensures room { places.new.capacity ≡ 64 }
    ensures quiet { IsTrue (D.view_of machine.new).quiet }
    ensures some { 1 ≤ length (D.view_of machine.new).past }
    ensures twins { All (IsTwin (D.view_of machine.new)) (D.view_of machine.new).past }
{
    if machine.over().is_some() {
        return;
    }
    let mut recent = [0; BATCH];
    let mut left = most;
    while left > 0 {
        let gap = GAP - machine.steps_done() % GAP;
        let (done, rest) = advance_far::<D, L, STOPS>(machine, &mut recent, stops, left, gap);
        places.extend_from_slice(&recent[..done]);
        note(machine);
        left = rest;
    }
}
