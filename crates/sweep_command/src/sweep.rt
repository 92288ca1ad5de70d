//! The command `sweep NUMBER OUT`.

ghost use Rattle.command_answers.specs.Requests.{Asks, IsNotOfFiles, Write};
ghost use Rattle.std.specs.Prelude.{[], ◌∷◌, ◌≡◌, ◌≢◌, Some, Err, IfSome, IsTrue, OnOk};
ghost use Rattle.io_edges.specs.Files.{Rose};
ghost use Rattle.command_answers.specs.Answer.{IsKept, IsQuiet, status_of};
ghost use Rattle.command_answers.specs.Reads.{ChangesOnly};
ghost use Rattle.sweep_command.specs.Swept.{IsSwept, SweptBy, IsOfSweep};

use io_edges::files::Files;
use io_edges::sink::{Sink, put_all};
use refusals::refusal::{Done, Refusal};
use std::alloc::Global;
use sweep_run::{sweep_file, sweep_text};

/// Compiles the kernel of a number to an executable under a name, runs that at every vector length, and puts a line of each run on
/// the output. All runs are done before the first line is put.
pub fn sweep<F: Files, S: Sink>(
    alloc: Global,
    number: u64,
    to: &str,
    files: &mut F,
    out: &mut S,
) -> Result<Done, Refusal>
    ensures file { OnOk result (IfSome (F.held files.old)
        (λ old. IfSome (F.held files.new) (λ new. IsSwept number new to.now))) }
    ensures others { IfSome (F.held files.old)
        (λ old. IfSome (F.held files.new) (λ new. ChangesOnly old new to.now)) }
    ensures kept { IsKept result → F.held files.new ≡ F.held files.old }
    ensures swept { SweptBy number to.now (F.held files.new) (S.taken out.old) (S.taken out.new)
        (status_of result) }
    ensures quiet { IsQuiet result → out.new ≡ out.old }
    ensures failed { result ≡ Err Refusal.File → Rose (F.faults files.old) (F.faults files.new) }
    ensures output { result ≡ Err Refusal.Output → Rose (S.faults out.old) (S.faults out.new) }
    ensures steady { IsTrue (F.steady files.old) → result ≢ Err Refusal.File }
    ensures of_sweep { IsOfSweep result }
    ensures asked { Asks IsNotOfFiles (F.requests files.old) (F.requests files.new) (Write to.now ∷ []) result }
{
    let file = sweep_file(alloc, number)?;
    files.write(alloc, to, &file)?;
    let text = sweep_text(alloc, number, &file)?;
    put_all(out, &text)?;
    Ok(Done::Ended)
}
