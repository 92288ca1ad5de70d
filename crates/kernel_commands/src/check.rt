//! The command `check IN`.

ghost use Rattle.command_answers.specs.Requests.{Asks, IsNotOfFiles, Read};
ghost use Rattle.std.specs.Prelude.{◌∷◌, ◌≡◌, ◌≢◌, Some, Err, IfSome, IsSome, IfOk, IfErr, IsTrue, []};
ghost use Rattle.io_edges.specs.Files.{Rose, content};
ghost use Rattle.command_answers.specs.Answer.{answer_of, expected_text, IsAnswer, IsQuiet};
ghost use Rattle.kernel_commands.specs.Commands.{CheckExpects, ExpectsCheck, RefusesText, IsOfCheck};
ghost use Rattle.command_answers.specs.Works.{WhereExpected, ended};
ghost use Rattle.command_answers.specs.Outputs.{Prints};

use check_text::check_text;
use command_answers::files::read_file;
use io_edges::files::Files;
use io_edges::sink::{Sink, put_all};
use kernel_front::accept;
use refusals::refusal::{Done, Refusal};
use std::alloc::Global;

// What is told of the kernel of a text.
fn check_kernel(alloc: Global, text: &[u8]) -> Result<Vec<u8>, Refusal>
    ensures wanted { IfOk result (λ report. CheckExpects text.now (ended report.items)) }
    ensures refusal { IfErr result (λ refusal. RefusesText (CheckExpects text.now) refusal) }
    ensures of_check { IfErr result (λ refusal. IsOfCheck (Err refusal)) }
{
    let kernel = accept(alloc, text)?;
    let report = check_text(alloc, &kernel)?;
    Ok(report)
}

/// Puts the canonical text of the kernel in a file on the output, and then its size, its class and its needs, a line each.
pub fn check<F: Files, S: Sink>(
    alloc: Global,
    from: &str,
    files: &mut F,
    out: &mut S,
) -> Result<Done, Refusal>
    ensures answer { IfSome (F.held files.old)
        (λ held. WhereExpected (ExpectsCheck held from.now)
        (λ work. IsAnswer (F.faults files.old) (F.faults files.new) (Rose (S.faults out.old) (S.faults out.new))
        (answer_of work) result)) }
    ensures held { F.held files.new ≡ F.held files.old }
    ensures printed { IfSome (F.held files.old)
        (λ held. WhereExpected (ExpectsCheck held from.now)
        (λ work. Prints (S.taken out.old) (S.taken out.new) (expected_text work) result)) }
    ensures quiet { IsQuiet result → out.new ≡ out.old }
    ensures failed { result ≡ Err Refusal.File → Rose (F.faults files.old) (F.faults files.new) }
    ensures output { result ≡ Err Refusal.Output → Rose (S.faults out.old) (S.faults out.new) }
    ensures steady { IsTrue (F.steady files.old)
        → IfSome (F.held files.old) (λ held. IsSome (content held from.now) → result ≢ Err Refusal.File) }
    ensures of_check { IsOfCheck result }
    ensures asked { Asks IsNotOfFiles (F.requests files.old) (F.requests files.new) (Read from.now ∷ []) result }
{
    let text = read_file(alloc, from, files)?;
    let report = check_kernel(alloc, &text)?;
    put_all(out, &report)?;
    Ok(Done::Ended)
}
