//! The command `asm IN OUT`.

ghost use Rattle.command_answers.specs.Requests.{Asks, IsOk, Read, Write};
ghost use Rattle.std.specs.Prelude.{◌∷◌, ◌≡◌, ◌≢◌, Some, Err, IfSome, IsSome, IfOk, IfErr, OnOk, IsTrue, []};
ghost use Rattle.io_edges.specs.Files.{Rose, content};
ghost use Rattle.command_answers.specs.Answer.{answer_of, IsFileAnswer, IsKept, Unwritten};
ghost use Rattle.program_commands.specs.Commands.{assemble_text, expected_of_asm, AssemblesTo, RefusesAsm, IsOfAsm, IsAssembled};
ghost use Rattle.command_answers.specs.Reads.{ChangesOnly};
ghost use Rattle.command_answers.specs.Works.{ended};

use command_answers::files::read_file;
use elf_image::write_elf;
use io_edges::files::Files;
use refusals::refusal::{Done, Refusal};
use std::alloc::Global;
use sve_asm::assemble;

// The program of the words of a text.
fn assembled(alloc: Global, text: &[u8]) -> Result<Vec<u8>, Refusal>
    ensures file { IfOk result (λ file. AssemblesTo text.now file.items) }
    ensures wanted { OnOk result (assemble_text text.now ≡ ended []) }
    ensures refusal { IfErr result (RefusesAsm (assemble_text text.now)) }
{
    let words = assemble(alloc, text)?;
    let file = write_elf(alloc, &words)?;
    Ok(file)
}

/// Writes the program of the words whose texts stand under one name under another.
pub fn asm<F: Files>(alloc: Global, from: &str, to: &str, files: &mut F) -> Result<Done, Refusal>
    ensures answer { IfSome (F.held files.old)
        (λ held. IsFileAnswer (F.faults files.old) (F.faults files.new)
        (answer_of (expected_of_asm held from.now)) result) }
    ensures file { OnOk result (IfSome (F.held files.old)
        (λ old. IfSome (F.held files.new) (λ new. IsAssembled old new from.now to.now))) }
    ensures others { IfSome (F.held files.old)
        (λ old. IfSome (F.held files.new) (λ new. ChangesOnly old new to.now)) }
    ensures kept { IsKept result → F.held files.new ≡ F.held files.old }
    ensures failed { result ≡ Err Refusal.File → Rose (F.faults files.old) (F.faults files.new) }
    ensures steady { IsTrue (F.steady files.old)
        → IfSome (F.held files.old) (λ held. IsSome (content held from.now) → result ≢ Err Refusal.File) }
    ensures unwritten { IfSome (F.held files.old)
        (λ held. Unwritten (expected_of_asm held from.now) (F.held files.old) (F.held files.new)) }
    ensures of_asm { IsOfAsm result }
    ensures asked { Asks IsOk (F.requests files.old) (F.requests files.new) (Read from.now ∷ Write to.now ∷ []) result }
{
    let text = read_file(alloc, from, files)?;
    let file = assembled(alloc, &text)?;
    files.write(alloc, to, &file)?;
    Ok(Done::Ended)
}
