//! The command `compile IN OUT`.

ghost use Rattle.command_answers.specs.Requests.{Asks, IsOk, Read, Write};
ghost use Rattle.std.specs.Prelude.{◌∷◌, ◌≡◌, ◌≢◌, ◌≤◌, ◌+◌, ◌*◌, Some, Err, IfSome, IsSome, IfOk, IfErr, OnOk, IsTrue, []};
ghost use Rattle.io_edges.specs.Files.{Rose, content};
ghost use Rattle.kernel_tree.specs.Plain.{program_of};
ghost use Rattle.kernel_tree.specs.Checked.{kernel_of};
ghost use Rattle.kernel_tree.specs.Items.{size_of};
ghost use Rattle.promises.specs.Faithful.{FreeFaithful, FreeEnds, CloseFaithful};
ghost use Rattle.command_answers.specs.Answer.{answer_of, IsFileAnswer, IsKept, Unwritten};
ghost use Rattle.kernel_commands.specs.Commands.{RefusesText};
ghost use Rattle.compile_command.specs.Compiles.{of_compile, compiled, CompileExpects, ExpectsCompile, CompilesTo, HasWords, IsCompiled, RefusesCompile, IsOfCompile};
ghost use Rattle.command_answers.specs.Reads.{ChangesOnly};
ghost use Rattle.command_answers.specs.Works.{WhereExpected, ended};

use command_answers::files::read_file;
use elf_image::write_elf;
use io_edges::files::Files;
use kernel_compile::compile_kernel;
use kernel_front::accept;
use kernel_tree::Checked;
use loop_form::laws::few_items;
use promises::CompileFault;
use refusals::refusal::{Done, Refusal};
use std::alloc::Global;

/// The refusal that a fault of the compiler is.
pub fn of_compile(fault: CompileFault) -> Refusal
    ensures { result ≡ of_compile fault }
{
    match fault {
        CompileFault::TooManyLive { class, need } => Refusal::TooManyLive { class, need },
        CompileFault::Memory => Refusal::Memory,
    }
}

// The executable of a kernel.
fn executable(alloc: Global, kernel: &Checked) -> Result<Vec<u8>, Refusal>
    ensures faithful { IfOk result (λ file. FreeFaithful (program_of (kernel_of kernel.now)) file.items) }
    ensures close { IfOk result (λ file. CloseFaithful (program_of (kernel_of kernel.now)) file.items) }
    ensures ends { IfOk result (λ file. FreeEnds (program_of (kernel_of kernel.now)) file.items) }
    ensures code { IfOk result (λ file.
        HasWords (1000 + 60 * size_of (program_of (kernel_of kernel.now))) file.items) }
    ensures small { size_of (program_of (kernel_of kernel.now)) ≤ 1000 }
    ensures wanted { OnOk result (compiled (program_of (kernel_of kernel.now)) ≡ ended []) }
    ensures refusal { IfErr result (RefusesCompile (program_of (kernel_of kernel.now))) }
{
    few_items(kernel);
    let code = match compile_kernel(alloc, kernel) {
        Ok(code) => code,
        Err(fault) => return Err(of_compile(fault)),
    };
    let file = write_elf(alloc, &code.words)?;
    Ok(file)
}

// The executable of a text.
fn compile_text(alloc: Global, text: &[u8]) -> Result<Vec<u8>, Refusal>
    ensures file { IfOk result (λ file. CompilesTo text.now file.items) }
    ensures wanted { OnOk result (CompileExpects text.now (ended [])) }
    ensures refusal { IfErr result (λ refusal. RefusesText (CompileExpects text.now) refusal) }
{
    let kernel = accept(alloc, text)?;
    executable(alloc, &kernel)
}

/// Compiles the kernel under one name to an executable under another.
pub fn compile<F: Files>(
    alloc: Global,
    from: &str,
    to: &str,
    files: &mut F,
) -> Result<Done, Refusal>
    ensures answer { IfSome (F.held files.old)
        (λ held. WhereExpected (ExpectsCompile held from.now)
        (λ work. IsFileAnswer (F.faults files.old) (F.faults files.new) (answer_of work) result)) }
    ensures file { OnOk result (IfSome (F.held files.old)
        (λ old. IfSome (F.held files.new) (λ new. IsCompiled old new from.now to.now))) }
    ensures others { IfSome (F.held files.old)
        (λ old. IfSome (F.held files.new) (λ new. ChangesOnly old new to.now)) }
    ensures kept { IsKept result → F.held files.new ≡ F.held files.old }
    ensures failed { result ≡ Err Refusal.File → Rose (F.faults files.old) (F.faults files.new) }
    ensures steady { IsTrue (F.steady files.old)
        → IfSome (F.held files.old) (λ held. IsSome (content held from.now) → result ≢ Err Refusal.File) }
    ensures unwritten { IfSome (F.held files.old)
        (λ held. WhereExpected (ExpectsCompile held from.now)
        (λ work. Unwritten work (F.held files.old) (F.held files.new))) }
    ensures of_compile { IsOfCompile result }
    ensures asked { Asks IsOk (F.requests files.old) (F.requests files.new) (Read from.now ∷ Write to.now ∷ []) result }
{
    let text = read_file(alloc, from, files)?;
    let file = compile_text(alloc, &text)?;
    files.write(alloc, to, &file)?;
    Ok(Done::Ended)
}
