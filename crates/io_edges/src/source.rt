//! Sources that bytes come from.

ghost use Rattle.std.specs.Prelude.{◌≡◌, ◌↔◌, ◌<◌, ◌≤◌, ℕ, List, [], length, drop, Option, IfSome, IfOk, OnErr};
ghost use Rattle.io_edges.specs.Sink.{HasCause};
ghost use Rattle.io_edges.specs.Source.{Takes};

use crate::sink::Failed;

/// A source of bytes: an input, or a list of bytes in memory.
pub trait Source {
    /// The bytes that are left, where they are told.
    ghost left: { Self → Option (List ℕ) };

    /// How often a call has failed, in a number of 64 bits that stays at its last value.
    ghost faults: { Self → ℕ };

    /// The next bytes may be asked for. Whoever hands the source in says when: one that waits for the answers to what it
    /// gave may be asked only after them. It says nothing where an `impl` leaves it out.
    ghost may_take: { Self → Type 0 } = { λ _. Unit {0} };

    /// Moves the next bytes to the front of the buffer and answers how many. The answer 0 is the
    /// end of input.
    fn take(&mut self, into: &mut [u8]) -> Result<usize, Failed>
        requires room { 0 < length into.old }
        requires ready { may_take self.old }
        ensures fits { IfOk result (λ n. n ≤ length into.old) }
        ensures bytes { Takes (left self.old) (left self.new) into.new result }
        ensures end { IfSome (left self.old) (λ bytes. IfOk result (λ n. (n ≡ 0) ↔ (bytes ≡ []))) }
        ensures rest { IfOk result (λ n. drop n into.new ≡ drop n into.old) }
        ensures err { OnErr result (into.new ≡ into.old) }
        ensures cause { HasCause (faults self.old) (faults self.new) result };
}
