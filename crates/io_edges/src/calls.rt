//! The count of calls, of which some are to fail.

ghost use Rattle.std.specs.Prelude.{◌≡◌, ℕ, ◌≤◌, ◌||◌, IsTrue};
ghost use Rattle.io_edges.specs.Files.{Rose};
ghost use Rattle.io_edges.specs.Calls.{CallCount, no_calls, fails_next, fails_no_more, after_call};

use std::marker::Model;

// The calls of a file system, a sink or a source in memory: the numbers of those that are to fail,
// how many were made and how many failed. A count stays at its last value.
#[derive(Drop)]
pub(crate) struct Calls {
    fail: Vec<u64>,
    made: u64,
    faults: u64,
}

impl Model for Calls {
    ghost use Rattle.io_edges.specs.Calls.{CallCount};

    ghost Value = { CallCount };

    ghost view = { λ c. record { fail = c.fail.items; made = c.made; faults = c.faults } };
}

impl Calls {
    pub(crate) fn new(fail: Vec<u64>) -> Calls
        ensures { result ≡ no_calls fail.items }
    {
        Calls {
            fail,
            made: 0,
            faults: 0,
        }
    }

    // Counts a call, and answers whether it fails: where it is refused or its number is to fail.
    pub(crate) fn count(&mut self, refused: bool) -> bool
        ensures fails { result ≡ (fails_next self.old || refused) }
        ensures after { self.new ≡ after_call result self.old }
        ensures later { self.old.faults ≤ self.new.faults }
        ensures rose { IsTrue result → Rose self.old.faults self.new.faults }
        ensures steady { IsTrue (fails_no_more self.old) → IsTrue (fails_no_more self.new) × (result ≡ refused) }
    {
        let planned = self.fail.contains(&self.made);
        let failed = planned | refused;
        self.made = self.made.saturating_add(1);
        if failed {
            self.faults = self.faults.saturating_add(1);
        }
        failed
    }
}
