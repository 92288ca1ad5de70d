//! A source in memory.

ghost use Rattle.std.specs.Prelude.{◌≡◌, ◌↔◌, ◌<◌, ◌≤◌, ℕ, Some, min, is_err, [], length, drop, IfSome, IfOk, OnErr};
ghost use Rattle.io_edges.specs.Sink.{HasCause};
ghost use Rattle.io_edges.specs.Source.{Takes};
ghost use Rattle.io_edges.specs.Calls.{no_calls, fails_next, after_call};

use crate::calls::Calls;
use crate::sink::Failed;
use crate::source::Source;
use std::marker::Model;

/// A source that gives the bytes of a list.
#[derive(Drop)]
pub struct MemorySource {
    bytes: Vec<u8>,
    at: usize,
    calls: Calls,
}

impl Model for MemorySource {
    ghost use Rattle.std.specs.Prelude.{◌≤◌, length, drop};
    ghost use Rattle.io_edges.specs.Memory.{SourceInMemory};

    ghost Value = { SourceInMemory };

    ghost view = { λ s. record { left = drop s.at s.bytes.items; calls = s.calls } };

    ghost invariant = { λ s. s.at ≤ length s.bytes.items };
}

impl MemorySource {
    /// A source of these bytes. `fail` has the numbers of the calls of `take` that are to fail,
    /// counted from 0.
    pub fn new(bytes: Vec<u8>, fail: Vec<u64>) -> MemorySource
        ensures left { result.left ≡ bytes.items }
        ensures calls { result.calls ≡ no_calls fail.items }
    {
        MemorySource {
            bytes,
            at: 0,
            calls: Calls::new(fail),
        }
    }
}

impl Source for MemorySource {
    ghost left = { λ s. Some s.left };

    ghost faults = { λ s. s.calls.faults };

    fn take(&mut self, into: &mut [u8]) -> Result<usize, Failed>
        requires { 0 < length into.old }
        ensures fits { IfOk result (λ n. n ≤ length into.old) }
        ensures bytes { Takes (Some self.old.left) (Some self.new.left) into.new result }
        ensures end { IfOk result (λ n. (n ≡ 0) ↔ (self.old.left ≡ [])) }
        ensures rest { IfOk result (λ n. drop n into.new ≡ drop n into.old) }
        ensures err { OnErr result (into.new ≡ into.old) }
        ensures cause { HasCause self.old.calls.faults self.new.calls.faults result }

        // It fails where that was asked for, and else gives what the buffer holds of what is left.
        ensures fails { is_err result ≡ fails_next self.old.calls }
        ensures most { IfOk result (λ n. n ≡ min (length into.old) (length self.old.left)) }
        ensures calls { self.new.calls ≡ after_call (is_err result) self.old.calls }
    {
        if self.calls.count(false) {
            return Err(Failed);
        }
        let n = into.len().min(self.bytes.len() - self.at);
        into[..n].copy_from_slice(&self.bytes[self.at..self.at + n]);
        self.at += n;
        Ok(n)
    }
}
