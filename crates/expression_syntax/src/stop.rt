//! Where the reading of tokens stops.

ghost use Rattle.std.specs.Prelude.{◌≡◌};
ghost use Rattle.expression_syntax.specs.declared.stop.Stop.TheVariants as stop;

use std::alloc::{AllocError, AllocFailed};

/// Why the reading of tokens stopped.
#[derive(Clone, Copy)]
pub enum Stop {
    Memory,
    /// So many tokens were left where no kernel goes on.
    Syntax { left: usize },
}

impl From<AllocError> for Stop {
    ghost from_gives = { λ _ e. e ≡ stop.Memory };

    fn from(_e: AllocError) -> Stop {
        Stop::Memory
    }
}

impl<T: Drop> From<AllocFailed<T>> for Stop {
    ghost from_gives = { λ _ e. e ≡ stop.Memory };

    fn from(_e: AllocFailed<T>) -> Stop {
        Stop::Memory
    }
}
