//! A sink in memory.

ghost use Rattle.std.specs.Prelude.{◌≡◌, ◌<◌, ◌≤◌, ◌+◌, ◌||◌, ℕ, Some, min, nat_eq, is_err, [], length, IfOk, MatchResult};
ghost use Rattle.io_edges.specs.Sink.{Puts, HasCause};
ghost use Rattle.io_edges.specs.Calls.{no_calls, fails_next, after_call};

use crate::calls::Calls;
use crate::sink::{Failed, Sink};
use std::alloc::{AllocError, Global};
use std::marker::Model;

/// A sink that keeps the bytes that it takes, as many as it was given room for.
#[derive(Drop)]
pub struct MemorySink {
    bytes: Vec<u8>,
    room: usize,
    calls: Calls,
}

impl Model for MemorySink {
    ghost use Rattle.std.specs.Prelude.{◌≤◌, ◌+◌, vec_len, vec_capacity};
    ghost use Rattle.io_edges.specs.Memory.{SinkInMemory};

    ghost Value = { SinkInMemory };

    ghost view = { λ s. record { taken = s.bytes.items; room = s.room; calls = s.calls } };

    ghost invariant = { λ s. vec_len s.bytes + s.room ≤ vec_capacity s.bytes };
}

impl MemorySink {
    /// An empty sink with room for `room` bytes, for which it takes the memory. `fail` has the
    /// numbers of the calls of `put` that are to fail, counted from 0.
    pub fn new(alloc: Global, room: usize, fail: Vec<u64>) -> Result<MemorySink, AllocError>
        ensures empty { IfOk result (λ sink. sink.taken ≡ []) }
        ensures room { IfOk result (λ sink. sink.room ≡ room) }
        ensures calls { IfOk result (λ sink. sink.calls ≡ no_calls fail.items) }
    {
        let bytes = Vec::with_capacity(alloc, room)?;
        Ok(MemorySink {
            bytes,
            room,
            calls: Calls::new(fail),
        })
    }

    /// The bytes that it took.
    pub fn bytes(&self) -> &[u8]
        ensures { result.now ≡ self.now.taken }
    {
        self.bytes.as_slice()
    }
}

impl Sink for MemorySink {
    ghost taken = { λ s. Some s.taken };

    ghost faults = { λ s. s.calls.faults };

    fn put(&mut self, bytes: &[u8]) -> Result<usize, Failed>
        requires { 0 < length bytes.now }
        ensures some { IfOk result (λ n. (0 < n) × (n ≤ length bytes.now)) }
        ensures bytes { Puts (Some self.old.taken) (Some self.new.taken) bytes.now result }
        ensures cause { HasCause self.old.calls.faults self.new.calls.faults result }

        // It fails where that was asked for or no room is left, and else takes what it has room for.
        ensures fails { is_err result ≡ (fails_next self.old.calls || nat_eq self.old.room 0) }
        ensures most { IfOk result (λ n. n ≡ min (length bytes.now) self.old.room) }
        ensures room { MatchResult result (λ n. self.new.room + n ≡ self.old.room)
            (λ _. self.new.room ≡ self.old.room) }
        ensures calls { self.new.calls ≡ after_call (is_err result) self.old.calls }
    {
        let full = self.room == 0;
        if self.calls.count(full) {
            return Err(Failed);
        }
        let n = bytes.len().min(self.room);
        self.bytes.extend_from_slice(&bytes[..n]).unwrap();
        self.room -= n;
        Ok(n)
    }
}
