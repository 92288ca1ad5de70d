//! The command `object IN OUT`.

ghost use Rattle.command_answers.specs.Requests.{Asks, IsOk, Read, Write};
ghost use Rattle.command_answers.specs.Answer.{IsFileAnswer, IsKept, Unwritten, answer_of};
ghost use Rattle.command_answers.specs.Reads.{ChangesOnly};
ghost use Rattle.command_answers.specs.Works.{WhereExpected, ended};
ghost use Rattle.compile_command.specs.Compiles.{CompileExpects, ExpectsCompile, IsOfCompile, RefusesCompile, compiled};
ghost use Rattle.io_edges.specs.Files.{Rose, content};
ghost use Rattle.kernel_commands.specs.Commands.{RefusesText};
ghost use Rattle.kernel_tree.specs.Checked.{kernel_of};
ghost use Rattle.kernel_tree.specs.Plain.{program_of};
ghost use Rattle.object_command.specs.Objects.{HoldsFunction, IsObjectOf, ObjectsTo};
ghost use Rattle.std.specs.Prelude.{◌≡◌, ◌≢◌, ◌∷◌, [], Err, IfErr, IfOk, IfSome, IsSome, IsTrue, OnOk};

use command_answers::files::read_file;
use compile_command::compile::of_compile;
use io_edges::files::Files;
use kernel_call::kernel_function;
use kernel_front::accept;
use kernel_tree::Checked;
use loop_form::laws::few_items;
use object_file::write_object;
use refusals::refusal::{Done, Refusal};
use std::alloc::Global;

// The object of a kernel.
fn made(alloc: Global, kernel: &Checked) -> Result<Vec<u8>, Refusal>
    ensures object { IfOk result (λ file. HoldsFunction (program_of (kernel_of kernel.now)) file.items) }
    ensures wanted { OnOk result (compiled (program_of (kernel_of kernel.now)) ≡ ended []) }
    ensures refusal { IfErr result (RefusesCompile (program_of (kernel_of kernel.now))) }
{
    few_items(kernel);
    let code = match kernel_function(alloc, kernel) {
        Ok(code) => code,
        Err(fault) => return Err(of_compile(fault)),
    };
    let file = write_object(alloc, kernel.kernel().name.text().as_bytes(), &code.words)?;
    Ok(file)
}

// The object of a text.
fn object_text(alloc: Global, text: &[u8]) -> Result<Vec<u8>, Refusal>
    ensures file { IfOk result (λ file. ObjectsTo text.now file.items) }
    ensures wanted { OnOk result (CompileExpects text.now (ended [])) }
    ensures refusal { IfErr result (λ refusal. RefusesText (CompileExpects text.now) refusal) }
{
    let kernel = accept(alloc, text)?;
    made(alloc, &kernel)
}

/// Makes an object of the kernel under one name, under another.
pub fn object<F: Files>(alloc: Global, from: &str, to: &str, files: &mut F) -> Result<Done, Refusal>
    ensures answer { IfSome (F.held files.old)
        (λ held. WhereExpected (ExpectsCompile held from.now)
        (λ work. IsFileAnswer (F.faults files.old) (F.faults files.new) (answer_of work) result)) }
    ensures file { OnOk result (IfSome (F.held files.old)
        (λ old. IfSome (F.held files.new) (λ new. IsObjectOf old new from.now to.now))) }
    ensures others { IfSome (F.held files.old)
        (λ old. IfSome (F.held files.new) (λ new. ChangesOnly old new to.now)) }
    ensures kept { IsKept result → F.held files.new ≡ F.held files.old }
    ensures failed { result ≡ Err Refusal.File → Rose (F.faults files.old) (F.faults files.new) }
    ensures steady { IsTrue (F.steady files.old)
        → IfSome (F.held files.old) (λ held. IsSome (content held from.now) → result ≢ Err Refusal.File) }
    ensures unwritten { IfSome (F.held files.old)
        (λ held. WhereExpected (ExpectsCompile held from.now)
        (λ work. Unwritten work (F.held files.old) (F.held files.new))) }
    ensures of_compile { IsOfCompile result }
    ensures asked { Asks IsOk (F.requests files.old) (F.requests files.new) (Read from.now ∷ Write to.now ∷ []) result }
{
    let text = read_file(alloc, from, files)?;
    let file = object_text(alloc, &text)?;
    files.write(alloc, to, &file)?;
    Ok(Done::Ended)
}
