//! An input of the system.

ghost use Rattle.std.specs.Prelude.{◌≡◌, ◌<◌, ◌≤◌, None, take, drop, length, IfOk, OnErr};
ghost use Rattle.std.specs.Io.KnownBytes.{Consumes, IsAtEnd};
ghost use Rattle.io_edges.specs.Sink.{HasCause};
ghost use Rattle.io_edges.specs.Source.{Takes};

use crate::sink::Failed;
use crate::source::Source;
use std::io::Read;
use std::marker::Model;

// How many bytes are read at once, at most: few, since each read clears as many first, and a session takes one byte at a
// time.
const PIECE: usize = 64;

/// An input. As a source it tells nothing of what is left. It counts the errors of the reader.
#[derive(Drop)]
pub struct StdSource<R: Read> {
    input: R,
    faults: u64,
}

impl<R: Read> Model for StdSource<R> {
    ghost use Rattle.io_edges.specs.Real.{Input};

    ghost Value = { Input };

    ghost view = { λ s. record { remaining = R.remaining s.input; faults = s.faults } };
}

impl<R: Read> StdSource<R> {
    /// A source that reads from `input`.
    pub fn new(input: R) -> StdSource<R>
        ensures remaining { result.remaining ≡ R.remaining input }
        ensures faults { result.faults ≡ 0 }
    {
        StdSource { input, faults: 0 }
    }
}

impl<R: Read> Source for StdSource<R> {
    ghost left = { λ _. None };

    ghost faults = { λ s. s.faults };

    fn take(&mut self, into: &mut [u8]) -> Result<usize, Failed>
        requires { 0 < length into.old }
        ensures fits { IfOk result (λ n. n ≤ length into.old) }
        ensures bytes { Takes None None into.new result }
        ensures rest { IfOk result (λ n. drop n into.new ≡ drop n into.old) }
        ensures err { OnErr result (into.new ≡ into.old) }
        ensures cause { HasCause self.old.faults self.new.faults result }

        // What the reader is known to have left begins with the bytes that were moved, and is empty
        // where none were.
        ensures moved { IfOk result (λ n. Consumes self.old.remaining self.new.remaining (take n into.new)) }
        ensures end { IfOk result (λ n. n ≡ 0 → IsAtEnd self.new.remaining) }
    {
        // A reader that fails may have written to the buffer that it was given.
        let mut piece = [0u8; PIECE];
        let most = into.len().min(PIECE);
        match self.input.read(&mut piece[..most]) {
            Ok(n) => {
                into[..n].copy_from_slice(&piece[..n]);
                Ok(n)
            }
            Err(_) => {
                self.faults = self.faults.saturating_add(1);
                Err(Failed)
            }
        }
    }
}
