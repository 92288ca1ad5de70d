//! An output of the system.

ghost use Rattle.std.specs.Prelude.{◌≡◌, ◌<◌, ◌≤◌, None, take, length, IfOk};
ghost use Rattle.std.specs.Io.KnownBytes.{Appends};
ghost use Rattle.io_edges.specs.Sink.{Puts, HasCause};

use crate::sink::{Failed, Sink};
use std::io::Write;
use std::marker::Model;

/// An output. As a sink it tells nothing of what it has taken. It counts its failures: the errors
/// of the writer, and the writes that took nothing.
#[derive(Drop)]
pub struct StdSink<W: Write> {
    out: W,
    faults: u64,
}

impl<W: Write> Model for StdSink<W> {
    ghost use Rattle.io_edges.specs.Real.{Output};

    ghost Value = { Output };

    ghost view = { λ s. record { contents = W.contents s.out; faults = s.faults } };
}

impl<W: Write> StdSink<W> {
    /// A sink that writes to `out`, and does not flush it.
    pub fn new(out: W) -> StdSink<W>
        ensures contents { result.contents ≡ W.contents out }
        ensures faults { result.faults ≡ 0 }
    {
        StdSink { out, faults: 0 }
    }
}

impl<W: Write> Sink for StdSink<W> {
    ghost taken = { λ _. None };

    ghost faults = { λ s. s.faults };

    fn put(&mut self, bytes: &[u8]) -> Result<usize, Failed>
        requires { 0 < length bytes.now }
        ensures some { IfOk result (λ n. (0 < n) × (n ≤ length bytes.now)) }
        ensures bytes { Puts None None bytes.now result }
        ensures cause { HasCause self.old.faults self.new.faults result }

        // What the writer is known to hold grows by what was taken.
        ensures written { IfOk result (λ n. Appends self.old.contents self.new.contents (take n bytes.now)) }
    {
        match self.out.write(bytes) {
            Ok(0) | Err(_) => {
                self.faults = self.faults.saturating_add(1);
                Err(Failed)
            }
            Ok(n) => Ok(n),
        }
    }
}
