//! Files in memory.

ghost use Rattle.std.specs.Prelude.{◌≡◌, ◌≢◌, ◌↔◌, ◌<◌, ◌||◌, ℕ, List, [], Some, None, length, is_none, IsTrue, IsFalse, IfSome, OnErr, MatchOption, position, refl};
ghost use Rattle.std.specs.Option.{option_copied};
ghost use Rattle.io_edges.specs.Files.{content, names_differ, HasCause, Reads, ReadsFrom, Replaces, Writes, ReadsSteadily, WritesSteadily};
ghost use Rattle.io_edges.specs.Calls.{no_calls, fails_next, fails_no_more, after_call};
ghost use Rattle.io_edges.specs.NamedFile.{entries, has_name};

use crate::calls::Calls;
use crate::files::{FileError, Files, MAX_FILE};
use std::alloc::{AllocError, Global};
use std::marker::Model;

/// A file of `MemoryFiles`.
#[derive(Drop)]
pub struct NamedFile {
    pub name: String,
    pub bytes: Vec<u8>,
}

/// Files in memory.
#[derive(Drop)]
pub struct MemoryFiles {
    files: Vec<NamedFile>,
    calls: Calls,
}

impl Model for MemoryFiles {
    ghost use Rattle.io_edges.specs.Memory.{FilesInMemory};

    ghost Value = { FilesInMemory };

    ghost use Rattle.io_edges.specs.NamedFile.{entries};

    ghost view = { λ f. record { held = entries f.files.items; calls = f.calls } };
}

/// Whether no two of the files have one name.
pub fn have_different_names(files: &[NamedFile]) -> bool
    ensures { result ≡ names_differ (entries files.now) }
{
    let Some((file, others)) = files.split_first() else {
        return true;
    };
    let alone = place_of(others, file.name.as_str()).is_none();
    alone & have_different_names(others)
}

// The place of the first file with the name.
fn place_of(files: &[NamedFile], name: &str) -> Option<usize>
    ensures within { IfSome result (λ place. place < length files.now) }
    ensures place { result ≡ position (has_name name.now) files.now }
{
    files.iter().position(|file| file.name.as_str() == name)
}

// The bytes of the first file with the name.
fn bytes_of<'a>(files: &'a [NamedFile], name: &str) -> Option<&'a [u8]>
    ensures { MatchOption result (content (entries files.now) name.now ≡ None)
        (λ bytes. content (entries files.now) name.now ≡ Some bytes.now) }
{
    match place_of(files, name) {
        Some(place) => Some(files[place].bytes.as_slice()),
        None => None,
    }
}

// Reads a file with these bytes.
fn read_bytes(bytes: &[u8], into: &mut Vec<u8>) -> Result<(), FileError>
    ensures bytes { ReadsFrom (Some bytes.now) into.old.items into.new.items result }
    ensures err { OnErr result (into.new.items ≡ into.old.items) }
    ensures not_failed { result ≢ Err FileError.Failed }
    ensures long { MAX_FILE < length bytes.now → result ≡ Err FileError.TooLong }
{
    if bytes.len() > MAX_FILE {
        return Err(FileError::TooLong);
    }
    match into.extend_from_slice(bytes) {
        Ok(()) => Ok(()),
        Err(_) => Err(FileError::Memory),
    }
}

// Gives the name these bytes.
fn set_bytes(
    alloc: Global,
    files: &mut Vec<NamedFile>,
    name: &str,
    bytes: &[u8],
) -> Result<(), AllocError>
    ensures bytes { Replaces name.now bytes.now (entries files.old.items) (entries files.new.items) result }
    ensures err { OnErr result (entries files.new.items ≡ entries files.old.items) }
{
    let bytes = Vec::from_slice(alloc, bytes)?;
    match place_of(files, name) {
        Some(place) => files[place].bytes = bytes,
        None => {
            let name = String::from_str(alloc, name)?;
            files.push(NamedFile { name, bytes })?;
        }
    }
    Ok(())
}

impl MemoryFiles {
    /// These files, whose names differ (`have_different_names`). `fail` has the numbers of the
    /// calls of `read` and `write` that are to fail, counted from 0.
    pub fn new(files: Vec<NamedFile>, fail: Vec<u64>) -> MemoryFiles
        requires { IsTrue (names_differ (entries files.items)) }
        ensures held { result.held ≡ entries files.items }
        ensures calls { result.calls ≡ no_calls fail.items }
        ensures steady { IsTrue (fails_no_more result.calls) ↔ (fail.items ≡ []) }
    {
        MemoryFiles {
            files,
            calls: Calls::new(fail),
        }
    }

    /// The bytes of the file with the name, where there is one.
    pub fn bytes(&self, name: &str) -> Option<&[u8]>
        ensures { option_copied result ≡ content self.now.held name.now }
    {
        bytes_of(&self.files, name)
    }
}

impl Files for MemoryFiles {
    ghost held = { λ f. Some f.held };

    ghost faults = { λ f. f.calls.faults };

    ghost steady = { λ f. fails_no_more f.calls };

    ghost told = { λ f steady. refl };

    fn read(&mut self, _alloc: Global, name: &str, into: &mut Vec<u8>) -> Result<(), FileError>
        ensures bytes { Reads (Some self.old.held) name.now into.old.items into.new.items result }
        ensures err { OnErr result (into.new.items ≡ into.old.items) }
        ensures same { self.new.held ≡ self.old.held }
        ensures cause { HasCause self.old.calls.faults self.new.calls.faults result }
        ensures steady { ReadsSteadily (fails_no_more self.old.calls) (fails_no_more self.new.calls)
            (Some self.old.held) name.now result }

        // It fails where that was asked for or the name is not held, and refuses each file that is
        // too long otherwise.
        ensures fails { result ≡ Err FileError.Failed ↔ IsTrue
            (fails_next self.old.calls || is_none (content self.old.held name.now)) }
        ensures long { IsFalse (fails_next self.old.calls)
            → IfSome (content self.old.held name.now)
            (λ bytes. MAX_FILE < length bytes → result ≡ Err FileError.TooLong) }
        ensures calls { self.new.calls ≡ after_call
            (fails_next self.old.calls || is_none (content self.old.held name.now)) self.old.calls }
    {
        match bytes_of(&self.files, name) {
            None => {
                self.calls.count(true);
                Err(FileError::Failed)
            }
            Some(bytes) => {
                if self.calls.count(false) {
                    return Err(FileError::Failed);
                }
                read_bytes(bytes, into)
            }
        }
    }

    fn write(&mut self, alloc: Global, name: &str, bytes: &[u8]) -> Result<(), FileError>
        ensures bytes { Writes (Some self.old.held) (Some self.new.held) name.now bytes.now result }
        ensures not_long { result ≢ Err FileError.TooLong }
        ensures cause { HasCause self.old.calls.faults self.new.calls.faults result }
        ensures steady { WritesSteadily (fails_no_more self.old.calls) (fails_no_more self.new.calls) result }

        // It fails where that was asked for, and leaves the files as they were where it refuses.
        ensures fails { result ≡ Err FileError.Failed ↔ IsTrue (fails_next self.old.calls) }
        ensures err { OnErr result (self.new.held ≡ self.old.held) }
        ensures calls { self.new.calls ≡ after_call (fails_next self.old.calls) self.old.calls }
    {
        if self.calls.count(false) {
            return Err(FileError::Failed);
        }
        match set_bytes(alloc, &mut self.files, name, bytes) {
            Ok(()) => Ok(()),
            Err(_) => Err(FileError::Memory),
        }
    }
}
