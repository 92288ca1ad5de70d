//! The counts of steps that a machine keeps, and the way back to one of them.

ghost use Rattle.std.specs.Prelude.{◌≡◌, ◌≤◌, length, true, false};
ghost use Rattle.std.specs.List.{prefix_len};
ghost use Rattle.machine_model.specs.Debugged.{now};
ghost use Rattle.debug_history.specs.Kept.{IsLast, counts_of, first_of, last_of, noted, up_to, is_reached, can_go_back};

use crate::keepable::Keepable;

/// The steps from one count that is kept to the next.
pub const GAP: u64 = 10_000;

/// The first count that is kept.
pub fn first<D: Keepable>(machine: &D) -> u64
    requires { 1 ≤ length (D.view_of machine.now).past }
    ensures { result ≡ first_of (counts_of (D.view_of machine.now).past) }
{
    machine.kept_steps(0)
}

// The last count that is kept.
fn last<D: Keepable>(machine: &D) -> u64
    requires { 1 ≤ length (D.view_of machine.now).past }
    ensures { result ≡ last_of (counts_of (D.view_of machine.now).past) }
{
    machine.kept_steps(machine.kept() - 1)
}

/// Keeps the machine as it is now where its count of steps is a multiple of `GAP` that is greater than the last one.
pub fn note<D: Keepable>(machine: &mut D)
    requires { 1 ≤ length (D.view_of machine.old).past }
    ensures now { now (D.view_of machine.new) ≡ now (D.view_of machine.old) }
    ensures past { (D.view_of machine.new).past ≡ noted (now (D.view_of machine.old)) (D.view_of machine.old).past }
{
    let steps = machine.steps_done();
    if steps % GAP == 0 && last(machine) < steps {
        machine.keep();
    }
}

// How many of what is kept had done at most so many steps.
fn reached<D: Keepable>(machine: &D, target: u64) -> usize
    ensures { result ≡ prefix_len (is_reached target) (D.view_of machine.now).past }
{
    let count = machine.kept();
    let mut n = 0;
    while n < count && machine.kept_steps(n) <= target {
        n += 1;
    }
    n
}

/// Goes back to a count that is neither less than the first one nor greater than the machine's: the machine becomes
/// what it was at the last count up to there, and those after it are kept no longer. Otherwise nothing changes.
pub fn back<D: Keepable>(machine: &mut D, target: u64) -> bool
    requires { 1 ≤ length (D.view_of machine.old).past }
    ensures can { result ≡ can_go_back target (D.view_of machine.old).steps (D.view_of machine.old).past }
    ensures kept { result ≡ true → (D.view_of machine.new).past ≡ up_to target (D.view_of machine.old).past }
    ensures machine { result ≡ true → IsLast (now (D.view_of machine.new)) (D.view_of machine.new).past }
    ensures unchanged { result ≡ false → D.view_of machine.new ≡ D.view_of machine.old }
{
    if target < first(machine) || machine.steps_done() < target {
        return false;
    }
    let count = reached(machine, target);
    machine.go_back(count - 1);
    true
}
