//! Files by name.

ghost use Rattle.std.specs.Prelude.{◌≡◌, ◌≢◌, ℕ, Bool, List, Option, None, IsTrue, IsSome, OnErr};
ghost use Rattle.io_edges.specs.Files.{HasCause, Reads, Writes, ReadsSteadily, WritesSteadily};
ghost use Rattle.io_edges.specs.Requests.{ReadOf, Request, Requested, WriteOf, failed_in};

use std::alloc::Global;
use thiserror::Error;

/// The longest file that is read, in bytes (64 MiB).
pub const MAX_FILE: usize = 67_108_864;

/// Why a file was not read or written.
#[derive(Clone, Copy, Debug, PartialEq, Eq, Error)]
pub enum FileError {
    /// The files failed, or no file has the name that was to be read.
    #[error("file failed")]
    Failed,

    /// The file that was to be read is longer than `MAX_FILE`.
    #[error("file too long")]
    TooLong,

    /// There was no memory for the bytes.
    #[error("out of memory")]
    Memory,
}

/// Files by name: the directory that a command works on, or one in memory. A name is text, and
/// clauses see it as its UTF-8 bytes.
pub trait Files {
    /// The names and the bytes of the files, where they are told.
    ghost held: { Self → Option (List (List ℕ × List ℕ)) };

    /// How often a call has failed, in a number of 64 bits that stays at its last value.
    ghost faults: { Self → ℕ };

    /// No call fails from here on, but a read of a name that is not held.
    ghost steady: { Self → Bool };

    /// The calls so far, in order, with how each came out, where they are told. Whoever hands files in can tell them by a type of
    /// its own; nothing is told where an `impl` leaves it out.
    ghost requests: { Self → Option (List Request) } = { λ _. None };

    /// Appends the bytes of the file to `into`. The memory for them comes from the allocator of
    /// `into`, and what an implementation needs besides comes from `alloc`.
    fn read(&mut self, alloc: Global, name: &str, into: &mut Vec<u8>) -> Result<(), FileError>
        ensures bytes { Reads (held self.old) name.now into.old.items into.new.items result }
        ensures err { OnErr result (into.new.items ≡ into.old.items) }
        ensures same { held self.new ≡ held self.old }
        ensures cause { HasCause (faults self.old) (faults self.new) result }
        ensures steady { ReadsSteadily (steady self.old) (steady self.new) (held self.old) name.now result }
        ensures asked { Requested (requests self.old) (requests self.new) (ReadOf name.now (failed_in result)) };

    /// Makes the file hold exactly these bytes. A refusal may leave any bytes under that name, or
    /// none.
    fn write(&mut self, alloc: Global, name: &str, bytes: &[u8]) -> Result<(), FileError>
        ensures bytes { Writes (held self.old) (held self.new) name.now bytes.now result }
        ensures not_long { result ≢ Err FileError.TooLong }
        ensures cause { HasCause (faults self.old) (faults self.new) result }
        ensures steady { WritesSteadily (steady self.old) (steady self.new) result }
        ensures asked { Requested (requests self.old) (requests self.new) (WriteOf name.now bytes.now (failed_in result)) };

    // Steady files tell what they hold.
    ghost told: { (files : Self) → IsTrue (steady files) → IsSome (held files) };
}
