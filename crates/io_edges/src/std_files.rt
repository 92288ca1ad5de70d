//! The files of the system.

ghost use Rattle.std.specs.Prelude.{◌≡◌, ◌≢◌, None, false};
ghost use Rattle.std.specs.Io.{StartsWith};
ghost use Rattle.std.proofs.lemmas.Bool.{false≢true};

use crate::files::{FileError, Files, MAX_FILE};
use std::alloc::Global;
use std::io::{ErrorKind, Read};
use std::marker::Model;
use std::{fs, io, rt};

/// The files of the system by their paths. They tell nothing of what they hold, and clauses see
/// them as the count of the errors that the system gave.
#[derive(Drop)]
pub struct StdFiles<R: rt::Files + Drop = HostRuntime> {
    rt: R,
    faults: u64,
}

impl<R: rt::Files + Drop> Model for StdFiles<R> {
    ghost use Rattle.std.specs.Prelude.{ℕ};

    ghost Value = { ℕ };

    ghost view = { λ f. f.faults };
}

impl<R: rt::Files + Drop> StdFiles<R> {
    /// The files of this runtime.
    pub fn new(rt: R) -> StdFiles<R>
        ensures { result ≡ 0 }
    {
        StdFiles { rt, faults: 0 }
    }
}

// What stands for an error of the system.
fn answer_of(error: &io::Error) -> FileError
    ensures { result ≢ FileError.TooLong }
{
    match error.kind() {
        ErrorKind::OutOfMemory => FileError::Memory,
        _ => FileError::Failed,
    }
}

// Appends the bytes of a file, but at most one more than are read, and answers how many.
fn append_file<R: rt::Files>(rt: &R, name: &str, into: &mut Vec<u8>) -> io::Result<usize>
    ensures { StartsWith into.new.items into.old.items }
{
    let file = fs::open(rt, name)?;
    file.take(MAX_FILE as u64 + 1).read_to_end(into)
}

impl<R: rt::Files + Drop> Files for StdFiles<R> {
    ghost held = { λ _. None };

    ghost faults = { λ f. f };

    ghost steady = { λ _. false };

    ghost told = { λ f steady. absurd (false≢true steady) };

    fn read(&mut self, _alloc: Global, name: &str, into: &mut Vec<u8>) -> Result<(), FileError> {
        let before = into.len();
        let outcome = append_file(&self.rt, name, into);
        let answer = match &outcome {
            Ok(read) if *read <= MAX_FILE => return Ok(()),
            Ok(_) => FileError::TooLong,
            Err(error) => {
                self.faults = self.faults.saturating_add(1);
                answer_of(error)
            }
        };
        into.truncate(before);
        Err(answer)
    }

    fn write(&mut self, _alloc: Global, name: &str, bytes: &[u8]) -> Result<(), FileError> {
        match fs::write(&self.rt, name, bytes) {
            Ok(()) => Ok(()),
            Err(error) => {
                self.faults = self.faults.saturating_add(1);
                Err(answer_of(&error))
            }
        }
    }
}
