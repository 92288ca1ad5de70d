//! Why a kernel is not compiled.

ghost use Rattle.std.specs.Prelude.{◌≡◌};
ghost use Rattle.promises.specs.declared.fault.CompileFault.TheVariants as faults;

use reg_assign::{RegClass, too_many};
use std::alloc::AllocError;
use thiserror::Error;

/// Why a kernel is not compiled.
#[derive(Clone, Copy, Debug, PartialEq, Eq, Error)]
pub enum CompileFault {
    /// So many values of the class are live at once, and there are fewer registers for them.
    #[error("{}", too_many(.class, .need))]
    TooManyLive { class: RegClass, need: u32 },
    #[error("out of memory")]
    Memory,
}

impl From<AllocError> for CompileFault {
    ghost from_gives = { λ _ e. e ≡ faults.Memory };

    fn from(_e: AllocError) -> CompileFault {
        CompileFault::Memory
    }
}
