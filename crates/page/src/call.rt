//! The call of `top` over files, an input and outputs in memory.

ghost use Rattle.std.specs.Prelude.{◌≡◌, [], Some, IfOk, IfSome, IsTrue};
ghost use Rattle.io_edges.specs.Files.{names_differ};
ghost use Rattle.io_edges.specs.NamedFile.{entries};
ghost use Rattle.sve_top.specs.Asked.{asked};
ghost use Rattle.sve_top.specs.Commands.{Expects, IsSettled, Compiled, OthersKept, IsHeld, NoneRose};
ghost use Rattle.command_answers.specs.Works.{SomeExpected};
ghost use Rattle.sve_top.specs.Complete.{Completes};
ghost use Rattle.sve_top.specs.Does.{Does, outside};

use crate::request::Request;
use io_edges::memory_files::MemoryFiles;
use io_edges::memory_sink::MemorySink;
use io_edges::memory_source::MemorySource;
use std::alloc::{AllocError, Global};
use sve_top::top::top;

// The longest line of the error output takes fewer bytes.
const ERROR_ROOM: usize = 4096;

/// What a command came to.
#[derive(Drop)]
pub struct Done {
    pub status: u8,
    pub files: MemoryFiles,
    pub input: MemorySource,
    pub out: MemorySink,
    pub err: MemorySink,

    /// The name of the file that the answer is to hold.
    pub wanted: String,
}

/// Does a command, with so much room for its output, and says of it what `top` says.
pub fn call(alloc: Global, request: Request, room: usize) -> Result<Done, AllocError>
    requires { IsTrue (names_differ (entries request.files.items)) }
    ensures does { IsSettled (asked request.words.items) → IfOk result (λ done.
        SomeExpected (Expects (entries request.files.items) request.input.items (asked request.words.items))
        (λ work. Does (asked request.words.items) work
        (outside (Some (entries request.files.items)) 0 (Some []) 0 (Some []) 0 0)
        (outside (Some done.files.held) done.files.calls.faults (Some done.out.taken) done.out.calls.faults
        (Some done.err.taken) done.err.calls.faults done.input.calls.faults)
        done.status)) }
    ensures complete { IfOk result (λ done.
        NoneRose (asked request.words.items) 0 done.out.calls.faults 0 done.input.calls.faults
        → IfSome (asked request.words.items) (λ line. IsHeld (entries request.files.items) line)
        → Completes (entries request.files.items) request.input.items (asked request.words.items)
        (Some []) (Some done.out.taken) done.status) }
    ensures file { IfOk result (λ done. done.status ≡ 0 → IfSome (asked request.words.items)
        (λ line. Compiled (entries request.files.items) done.files.held line)) }
    ensures others { IfOk result (λ done. OthersKept (entries request.files.items) done.files.held
        (asked request.words.items)) }
    ensures wanted { IfOk result (λ done. done.wanted ≡ request.wanted) }
{
    let Request {
        words,
        files,
        input,
        wanted,
    } = request;
    let mut files = MemoryFiles::new(files, Vec::new(alloc));
    let mut input = MemorySource::new(input, Vec::new(alloc));
    let mut out = MemorySink::new(alloc, room, Vec::new(alloc))?;
    let mut err = MemorySink::new(alloc, ERROR_ROOM, Vec::new(alloc))?;
    let status = top(alloc, &words, &mut files, &mut input, &mut out, &mut err);
    Ok(Done {
        status,
        files,
        input,
        out,
        err,
        wanted,
    })
}
