//! Checks kernels.

ghost use Rattle.std.specs.Prelude.{◌≡◌, None, Some, IfOk, IfErr};
ghost use Rattle.kernel_tree.specs.Plain.{program_of};
ghost use Rattle.kernel_tree.specs.Typing.{Fails, check_fault, types_of};
ghost use Rattle.kernel_tree.specs.Checked.{kernel_of};
ghost use Rattle.kernel_types.specs.Short.{IsShort};
ghost use Rattle.kernel_types.specs.Causes.{IsCause};

use crate::fault::TypeFault;
use crate::kernels::walk_kernel;
use kernel_size::{kernel_depth, kernel_size};
use kernel_tree::fault::{Fault, Found};
use kernel_tree::{Checked, Kernel, Ty};
use std::alloc::Global;

// The items and the depth that a kernel may have.
const MOST_ITEMS: u32 = 1000;

const MOST_DEPTH: u32 = 64;

fn type_fault(found: Found) -> TypeFault
    ensures { IsCause (Some (Fails found)) result }
{
    let item = found.item;
    match found.fault {
        Fault::Unknown => TypeFault::Unknown { item },
        Fault::Twice => TypeFault::Twice { item },
        Fault::WrongKind => TypeFault::WrongKind { item },
        Fault::Mismatch { want, found } => TypeFault::Mismatch { item, want, found },
        Fault::Untyped => TypeFault::Untyped { item },
        Fault::LiteralRange => TypeFault::LiteralRange { item },
        Fault::ShiftRange => TypeFault::ShiftRange { item },
        Fault::OffsetRange => TypeFault::OffsetRange { item },
    }
}

// The wanted type of each item of a kernel, or why it is refused.
fn item_types(alloc: Global, kernel: &Kernel) -> Result<Vec<Option<Ty>>, TypeFault>
    requires short { IsShort (program_of kernel.now) }
    ensures ok { IfOk result (λ types. check_fault (program_of kernel.now) ≡ None) }
    ensures types { IfOk result (λ types. types.items ≡ types_of (program_of kernel.now)) }
    ensures refused { IfErr result (λ fault. IsCause (check_fault (program_of kernel.now)) fault) }
{
    let size = kernel_size(kernel);
    if size > MOST_ITEMS {
        return Err(TypeFault::TooLarge { size });
    }
    let depth = kernel_depth(kernel);
    if depth > MOST_DEPTH {
        return Err(TypeFault::TooDeep { depth });
    }
    let notes = walk_kernel(alloc, kernel)?;
    match notes.found {
        Some(found) => Err(type_fault(found)),
        None => Ok(notes.types),
    }
}

/// Checks the types of a kernel, its size and its depth. It is refused for its size first, then for its depth, and
/// then for the fault at the least item of its listing, and of those at one item for the first in the order of
/// `TypeFault`.
pub fn check(alloc: Global, kernel: Kernel) -> Result<Checked, TypeFault>
    // The kernel is the tree of at most 4,096 tokens, as every kernel that was read is.
    requires short { IsShort (program_of kernel) }
    ensures ok { IfOk result (λ c. check_fault (program_of kernel) ≡ None) }
    ensures kernel { IfOk result (λ c. kernel_of c ≡ kernel) }
    ensures refused { IfErr result (λ fault. IsCause (check_fault (program_of kernel)) fault) }
{
    match item_types(alloc, &kernel) {
        Ok(types) => Ok(Checked::new(kernel, types)),
        Err(fault) => Err(fault),
    }
}
