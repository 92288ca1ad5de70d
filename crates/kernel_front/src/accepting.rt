//! Reads and checks a text.

ghost use Rattle.std.specs.Prelude.{◌≡◌, ℕ, List, None, IfOk, IfErr};
ghost use Rattle.kernel_tree.specs.Plain.{program_of};
ghost use Rattle.kernel_tree.specs.Typing.{check_fault};
ghost use Rattle.kernel_tree.specs.Checked.{kernel_of};
ghost use Rattle.kernel_types.specs.Short.{IsShort};
ghost use Rattle.kernel_front.specs.Verdict.{Verdict, Sound, IsVerdict, Explains, IsBroken};

use crate::fault::KernelFault;
use kernel_syntax::read_kernel;
use kernel_tree::{Checked, Kernel};
use kernel_types::check;
use std::alloc::Global;

// Checks a kernel that was read.
fn checked(alloc: Global, kernel: Kernel) -> Result<Checked, KernelFault>
    requires short { IsShort (program_of kernel) }
    ensures ok { IfOk result (λ c. check_fault (program_of kernel) ≡ None) }
    ensures kernel { IfOk result (λ c. kernel_of c ≡ kernel) }
    ensures refused { IfErr result (λ fault. IsBroken (check_fault (program_of kernel)) fault) }
{
    match check(alloc, kernel) {
        Ok(checked) => Ok(checked),
        Err(fault) => Err(KernelFault::Broken(fault)),
    }
}

/// The checked kernel that a text spells. A text is read first, and what was read is checked then.
pub fn accept(alloc: Global, text: &[u8]) -> Result<Checked, KernelFault>
    ensures sound { IfOk result (λ c. IsVerdict text.now (Sound (program_of (kernel_of c)))) }
    ensures refused { IfErr result (λ fault. (v : Verdict) → IsVerdict text.now v → Explains v fault) }
{
    let kernel = read_kernel(alloc, text)?;
    checked(alloc, kernel)
}

/// A text has one verdict at most.
pub fn one_verdict()
    ensures { (text : List ℕ) (v w : Verdict) → IsVerdict text v → IsVerdict text w → v ≡ w }
{}

/// Each text has a verdict.
pub fn some_verdict()
    ensures { (text : List ℕ) → (v : Verdict) × IsVerdict text v }
{}
