//! Steps of a machine that is looked at between them.

ghost use Rattle.std.specs.Prelude.{◌≡◌, [], ◌∷◌, ℕ, ◌+◌, ◌-◌, ◌++◌, ◌^◌, ◌<◌, ◌≤◌, List, None, IsTrue, false, take};
ghost use Rattle.circular_buffer.specs.Buffer.{keep_last};
ghost use Rattle.machine_model.specs.Machine.{State};
ghost use Rattle.sve_debug.specs.DebuggerState.{Shows, held_by};
ghost use Rattle.sve_debug.specs.Reaches.{Reaches};
ghost use Rattle.sve_debug.specs.Replies.{Session, is_break, stepped, steps_to};

use circular_buffer::HeapCircularBuffer;
use debug_history::keepable::Keepable;

/// The loop of steps without breakpoints.
pub struct Free;

/// The loop of steps up to a breakpoint.
pub struct Stopping;

/// So many steps are done at most before their places go to the ring.
pub const BATCH: usize = 256;

/// The places of the last steps.
pub type Places = HeapCircularBuffer<u64>;

// Whether a place is one of some. Without `STOPS` there are none, and a loop of steps has no test for them.
#[inline(always)]
fn is_stop<const STOPS: bool>(stops: &[u64], pc: u64) -> bool
    requires { STOPS ≡ false → stops.now ≡ [] }
    ensures { result ≡ is_break stops.now pc }
{
    if !STOPS {
        return false;
    }
    stops.contains(&pc)
}

// Up to a batch of so many steps by the loop `L`, and no more than to a limit, and their places: how many were done, and
// how many are left to do, which is none after the end or a stop and after a step that comes to one of these places. The
// places go to the ring only after them, since a push at each step would take as long as the step.
pub fn advance_far<D: Keepable, L, const STOPS: bool>(
    machine: &mut D,
    recent: &mut [u64; BATCH],
    stops: &[u64],
    left: u64,
    limit: u64,
) -> (usize, u64)
    requires running { (D.view_of machine.old).over ≡ None }
    requires few { (D.view_of machine.old).steps + left < 2 ^ 64 }
    requires some { 0 < left }
    requires near { 0 < limit }
    requires stops { STOPS ≡ false → stops.now ≡ [] }
    ensures session { (breaks last : List ℕ) (start : State) (d : Session)
        → Shows (held_by (D.view_of machine.old) breaks last) start d
        → Reaches (held_by (D.view_of machine.new) breaks (keep_last 64 (last ++ take result.0 recent.new)))
        start d stops.now left result.1 }
    ensures running { 0 < result.1 → (D.view_of machine.new).over ≡ None }
    ensures count { result.0 ≤ 256 }
    ensures some { 0 < result.0 }
    ensures near { result.0 ≤ limit }
    ensures exact { (D.view_of machine.new).steps ≡ (D.view_of machine.old).steps + result.0 }
    ensures quiet { IsTrue (D.view_of machine.old).quiet → IsTrue (D.view_of machine.new).quiet }
    ensures past { (D.view_of machine.new).past ≡ (D.view_of machine.old).past }
    ensures less { result.1 < left }
    ensures steps { (D.view_of machine.new).steps + result.1 ≤ (D.view_of machine.old).steps + left }
{
    let near = left.min(limit);
    let most = near.min(BATCH as u64) as usize;
    for done in 0..most {
        if !machine.goes_on::<L>(&mut recent[done]) {
            machine.count(done as u64 + 1);
            return (done + 1, 0);
        }
        if is_stop::<STOPS>(stops, machine.pc()) {
            machine.count(done as u64 + 1);
            return (done + 1, 0);
        }
    }
    machine.count(most as u64);
    (most, left - most as u64)
}

/// Up to so many steps, none after the end or a stop.
pub fn run<D: Keepable>(machine: &mut D, places: &mut Places, most: u64)
    requires few { (D.view_of machine.old).steps + most < 2 ^ 64 }
    requires room { places.old.capacity ≡ 64 }
    ensures session { (breaks : List ℕ) (start : State) (d : Session)
        → Shows (held_by (D.view_of machine.old) breaks places.old.items) start d
        → Shows (held_by (D.view_of machine.new) breaks places.new.items) start (steps_to [] most d) }
    ensures steps { (D.view_of machine.new).steps ≤ (D.view_of machine.old).steps + most }
    ensures room { places.new.capacity ≡ 64 }
    ensures quiet { IsTrue (D.view_of machine.old).quiet → IsTrue (D.view_of machine.new).quiet }
    ensures past { (D.view_of machine.new).past ≡ (D.view_of machine.old).past }
{
    if machine.over().is_some() {
        return;
    }
    let mut recent = [0; BATCH];
    let mut left = most;
    while left > 0 {
        let (done, rest) = advance_far::<D, Free, false>(
            machine,
            &mut recent,
            &[],
            left,
            BATCH as u64,
        );
        places.extend_from_slice(&recent[..done]);
        left = rest;
    }
}
