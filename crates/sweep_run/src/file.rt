//! The file of a sweep.

ghost use Rattle.std.specs.Prelude.{◌≡◌, IfOk};
ghost use Rattle.loop_form.specs.View.{program};
ghost use Rattle.kernel_front.specs.Verdict.{Verdict, IsVerdict, Explains};
ghost use Rattle.promises.specs.Refusals.{IsRefusal};
ghost use Rattle.sweep_kernel.specs.KernelText.{kernel_text};
ghost use Rattle.sweep_kernel.specs.Tree.{kernel_of};
ghost use Rattle.sweep_run.specs.SweepText.{IsSweepFile};

use elf_image::write_elf;
use kernel_compile::compile_kernel;
use kernel_front::{KernelFault, accept};
use kernel_syntax::ReadFault;
use kernel_tree::Checked;
use kernel_types::TypeFault;
use loop_form::laws::few_items;
use promises::CompileFault;
use std::alloc::{AllocError, Global};
use sweep_kernel::input::kernel_text;
use sweep_kernel::laws::accepts_sweep;

// The text is a sound kernel, so it is refused for want of memory alone.
fn reading_failed(number: u64, fault: KernelFault) -> AllocError
    requires { (v : Verdict) → IsVerdict (kernel_text number) v → Explains v fault }
{
    accepts_sweep();
    match fault {
        KernelFault::Unread(cause) => match cause {
            ReadFault::Memory => AllocError,
            _ => unreachable!(),
        },
        KernelFault::Broken(cause) => match cause {
            TypeFault::Memory => AllocError,
            _ => unreachable!(),
        },
    }
}

// The kernel that a number generates.
#[tactic(auto, unfolding(loop_form::specs::View::program))]
fn generated(alloc: Global, number: u64) -> Result<Checked, AllocError>
    ensures { IfOk result (λ kernel. program kernel ≡ kernel_of number) }
{
    accepts_sweep();
    let text = kernel_text(alloc, number)?;
    match accept(alloc, &text) {
        Ok(kernel) => Ok(kernel),
        Err(fault) => Err(reading_failed(number, fault)),
    }
}

// No more values are live than there are registers, so the kernel is refused for want of memory alone.
#[tactic(auto, using(crate::proofs::Causes::enough))]
fn compiling_failed(number: u64, fault: CompileFault) -> AllocError
    requires { IsRefusal (kernel_of number) fault }
{
    accepts_sweep();
    match fault {
        CompileFault::Memory => AllocError,
        CompileFault::TooManyLive { .. } => unreachable!(),
    }
}

/// The executable of the kernel that a number generates.
pub fn sweep_file(alloc: Global, number: u64) -> Result<Vec<u8>, AllocError>
    ensures { IfOk result (λ file. IsSweepFile number file.items) }
{
    let kernel = generated(alloc, number)?;
    few_items(&kernel);
    let code = match compile_kernel(alloc, &kernel) {
        Ok(code) => code,
        Err(fault) => return Err(compiling_failed(number, fault)),
    };
    let file = write_elf(alloc, &code.words)?;
    Ok(file)
}
