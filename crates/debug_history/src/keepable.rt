//! Machines that know what they were.

ghost use Rattle.std.specs.Prelude.{◌≡◌, ◌+◌, ◌-◌, ◌^◌, ◌<◌, ◌≤◌, [], ◌∷◌, None, IsTrue, is_none, take, length, slice_index_or, OnOk, OnErr};
ghost use Rattle.machine_model.specs.Answers.{IsAnswer};
ghost use Rattle.machine_model.specs.Debugged.{Past, now};
ghost use Rattle.machine_model.specs.OneStep.{step as model_step};
ghost use Rattle.guest_types.specs.Kept.{kept_more};
ghost use Rattle.debug_history.specs.Answered.{answer_of};

use machine_model::debuggee::Debuggee;
use machine_model::outcome::Ending;
use std::alloc::{AllocError, Global};

/// A machine that can be kept as it is, eight times at most, and can go back to what it was then.
pub trait Keepable: Debuggee {
    /// One step of a machine that has not come to an end or a stop: whether it goes on, with the place of its instruction.
    /// How it came to its end is in `over`: an answer of many bytes that is handed back would be filled at each step. The
    /// step is not counted; many are at once, by `count`. `L` names the loop that takes the step: each loop has a copy of a
    /// step for itself.
    fn goes_on<L>(&mut self, place: &mut u64) -> bool
        requires { (Self.view_of self.old).over ≡ None }
        ensures answer { IsTrue (Self.view_of self.old).quiet →
            IsAnswer (model_step (Self.view_of self.old).state) (answer_of (Self.view_of self.new).over)
            (Self.view_of self.old).state (Self.view_of self.new).state }
        ensures steps { (Self.view_of self.new).steps ≡ (Self.view_of self.old).steps }
        ensures place { place.new ≡ (Self.view_of self.old).state.pc }
        ensures goes_on { result ≡ is_none (Self.view_of self.new).over }
        ensures quiet { IsTrue (Self.view_of self.old).quiet → IsTrue (Self.view_of self.new).quiet }
        ensures past { (Self.view_of self.new).past ≡ (Self.view_of self.old).past };

    /// Counts steps that were done.
    fn count(&mut self, steps: u64)
        requires { (Self.view_of self.old).steps + steps < 2 ^ 64 }
        ensures state { (Self.view_of self.new).state ≡ (Self.view_of self.old).state }
        ensures steps { (Self.view_of self.new).steps ≡ (Self.view_of self.old).steps + steps }
        ensures over { (Self.view_of self.new).over ≡ (Self.view_of self.old).over }
        ensures quiet { (Self.view_of self.new).quiet ≡ (Self.view_of self.old).quiet }
        ensures past { (Self.view_of self.new).past ≡ (Self.view_of self.old).past };

    /// How the machine came to an end or a stop, where it did.
    fn over(&self) -> Option<Ending>
        ensures { result ≡ (Self.view_of self.now).over };

    /// Takes the memory of a past of eight, and begins it: the machine is kept as it is now.
    ///
    /// # Errors
    /// `AllocError` where there is not that much memory. The machine is then as it was.
    fn begin(&mut self, alloc: Global) -> Result<(), AllocError>
        ensures now { now (Self.view_of self.new) ≡ now (Self.view_of self.old) }
        ensures begun { OnOk result ((Self.view_of self.new).past ≡ now (Self.view_of self.old) ∷ []) }
        ensures unchanged { OnErr result ((Self.view_of self.new).past ≡ (Self.view_of self.old).past) };

    /// Keeps the machine as it is now, in place of the oldest one where eight are kept. It takes no memory.
    fn keep(&mut self)
        requires { 1 ≤ length (Self.view_of self.old).past }
        ensures now { now (Self.view_of self.new) ≡ now (Self.view_of self.old) }
        ensures past { (Self.view_of self.new).past
            ≡ kept_more (now (Self.view_of self.old)) (Self.view_of self.old).past };

    /// Goes back to one of those that were kept, oldest first. Those after it are kept no longer. It takes no memory.
    fn go_back(&mut self, n: usize)
        requires { n < length (Self.view_of self.old).past }
        ensures now { (d : Past) → slice_index_or (Self.view_of self.old).past n d ≡ now (Self.view_of self.new) }
        ensures past { (Self.view_of self.new).past ≡ take (n + 1) (Self.view_of self.old).past };

    /// How many are kept.
    fn kept(&self) -> usize
        ensures { result ≡ length (Self.view_of self.now).past };

    /// How many steps one of those that are kept had done, oldest first.
    fn kept_steps(&self, n: usize) -> u64
        requires { n < length (Self.view_of self.now).past }
        ensures { (d : Past) → (slice_index_or (Self.view_of self.now).past n d).steps ≡ result };
}
