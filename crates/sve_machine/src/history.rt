//! What a machine was, but for its memory.

ghost use Rattle.std.specs.Prelude.{◌≡◌, ◌+◌, ◌-◌, ◌<◌, ◌≤◌, [], ◌∷◌, length, take, slice_index_or, IfOk};
ghost use Rattle.guest_types.specs.Kept.{kept_more};
ghost use Rattle.sve_machine.specs.declared.snapshot.Snapshot.{Snapshot as SnapshotOf};

use crate::snapshot::Snapshot;
use circular_buffer::HeapCircularBuffer;
use std::alloc::{AllocError, Global};
use std::marker::Model;

/// How many are kept at most.
const MOST: usize = 8;

/// What a machine was each time that it was kept, oldest first. It takes the memory of eight when it is made.
#[derive(Drop)]
pub struct History {
    snapshots: HeapCircularBuffer<Snapshot>,
}

impl Model for History {
    ghost use Rattle.std.specs.Prelude.{◌≡◌, List};
    ghost use Rattle.sve_machine.specs.declared.snapshot.Snapshot.{Snapshot as SnapshotOf};

    ghost Value = { List SnapshotOf };

    ghost view = { λ history. history.snapshots.items };

    ghost invariant = { λ history. history.snapshots.capacity ≡ 8 };
}

impl History {
    /// The history of a machine that is kept for the first time.
    pub fn begun(alloc: Global, first: Snapshot) -> Result<History, AllocError>
        ensures { IfOk result (λ history. history ≡ first ∷ []) }
    {
        let mut snapshots = HeapCircularBuffer::with_capacity(alloc, MOST)?;
        let _ = snapshots.push_back(first);
        Ok(History { snapshots })
    }

    /// Keeps one more, in place of the oldest one where eight are kept. It takes no memory.
    pub fn keep(&mut self, snapshot: Snapshot)
        ensures { self.new ≡ kept_more snapshot self.old }
    {
        let _ = self.snapshots.push_back(snapshot);
    }

    /// Drops those after one.
    pub fn cut(&mut self, n: usize)
        requires { n < length self.old }
        ensures { self.new ≡ take (n + 1) self.old }
    {
        // This call tells the proof that there are few enough for `n + 1`.
        let _count = self.snapshots.len();
        self.snapshots.truncate_back(n + 1);
    }

    /// One of them.
    pub fn at(&self, n: usize) -> &Snapshot
        requires { n < length self.now }
        ensures { (d : SnapshotOf) → slice_index_or self.now n d ≡ result.now }
    {
        match self.snapshots.get(n) {
            Some(snapshot) => snapshot,
            None => unreachable!(),
        }
    }

    /// How many there are.
    pub fn len(&self) -> usize
        ensures { result ≡ length self.now }
    {
        self.snapshots.len()
    }
}
