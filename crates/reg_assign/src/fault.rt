//! Why registers are not assigned.

ghost use Rattle.std.specs.Prelude.{◌≡◌};
ghost use Rattle.reg_assign.specs.declared.fault.AssignFault.TheVariants as faults;

use crate::interval::RegClass;
use std::alloc::{AllocError, AllocFailed};
use thiserror::Error;

/// Why intervals have no registers.
#[derive(Clone, Copy, Debug, PartialEq, Eq, Error)]
pub enum AssignFault {
    /// So many registers of the class are needed at once, and there are fewer.
    #[error("too many live {} {need}", class_name(.class))]
    TooMany { class: RegClass, need: u32 },
    #[error("out of memory")]
    Memory,
}

impl From<AllocError> for AssignFault {
    ghost from_gives = { λ _ e. e ≡ faults.Memory };

    fn from(_e: AllocError) -> AssignFault {
        AssignFault::Memory
    }
}

impl<T: Drop> From<AllocFailed<T>> for AssignFault {
    ghost from_gives = { λ _ e. e ≡ faults.Memory };

    fn from(_e: AllocFailed<T>) -> AssignFault {
        AssignFault::Memory
    }
}

// The letter of a class.
fn class_name(class: &RegClass) -> &'static str {
    match *class {
        RegClass::Z => "z",
        RegClass::P => "p",
        RegClass::X => "x",
    }
}

/// The fault that so many registers of a class are needed, for the errors of other crates that have its text.
pub fn too_many(class: &RegClass, need: &u32) -> AssignFault
    ensures { result ≡ faults.TooMany class.now need.now }
{
    AssignFault::TooMany {
        class: *class,
        need: *need,
    }
}
