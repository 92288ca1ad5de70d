//! Why a text is refused.

ghost use Rattle.std.specs.Prelude.{◌≡◌};
ghost use Rattle.kernel_front.specs.declared.fault.KernelFault.TheVariants as faults;

use kernel_syntax::ReadFault;
use kernel_types::TypeFault;
use thiserror::Error;

/// Why a text is no kernel that can be compiled or run.
#[derive(Clone, Copy, Debug, PartialEq, Eq, Error)]
pub enum KernelFault {
    /// It could not be read.
    #[error("{0}")]
    Unread(ReadFault),
    /// The kernel breaks a rule of names, types or sizes.
    #[error("{0}")]
    Broken(TypeFault),
}

impl From<ReadFault> for KernelFault {
    ghost from_gives = { λ fault e. e ≡ faults.Unread fault };

    fn from(fault: ReadFault) -> KernelFault {
        KernelFault::Unread(fault)
    }
}
