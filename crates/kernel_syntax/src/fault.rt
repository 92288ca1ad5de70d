//! Why a text is no kernel.

ghost use Rattle.std.specs.Prelude.{◌≡◌};
ghost use Rattle.kernel_syntax.specs.declared.fault.ReadFault.TheVariants as faults;

use std::alloc::AllocError;
use std::error::Error;
use std::fmt;

/// Why a text could not be read. Bytes and tokens count from 0.
#[derive(Clone, Copy, PartialEq, Eq)]
pub enum ReadFault {
    /// The text has more than 65,536 bytes or more than 4,096 tokens.
    TooLong,
    /// The byte at this place begins no token, or a number of 2^127 or more.
    BadByte { at: u32 },
    /// At this token more than 64 brackets are open, or it is the 65th of a row of `-`, `~` and `!`.
    TooDeep { token: u32 },
    /// The tokens are those of no kernel, and no kernel's tokens begin with those up to this one.
    Syntax { token: u32 },
    Memory,
}

// Writes what is wrong at a byte or a token.
fn write_at<W: fmt::Write>(f: &mut fmt::Formatter<W>, text: &str, at: u32) -> fmt::Result {
    write!(f, "{text} {at}")
}

impl fmt::Display for ReadFault {
    fn fmt<W: fmt::Write>(&self, f: &mut fmt::Formatter<W>) -> fmt::Result {
        match *self {
            ReadFault::TooLong => f.write_str("too long"),
            ReadFault::BadByte { at } => write_at(f, "bad byte at", at),
            ReadFault::TooDeep { token } => write_at(f, "too deep at token", token),
            ReadFault::Syntax { token } => write_at(f, "syntax at token", token),
            ReadFault::Memory => f.write_str("out of memory"),
        }
    }
}

// Writes a variant with one field.
fn debug_at<W: fmt::Write>(
    f: &mut fmt::Formatter<W>,
    variant: &str,
    field: &str,
    at: u32,
) -> fmt::Result {
    f.debug_struct(variant).field(field, &at).finish()
}

impl fmt::Debug for ReadFault {
    fn fmt<W: fmt::Write>(&self, f: &mut fmt::Formatter<W>) -> fmt::Result {
        match *self {
            ReadFault::TooLong => f.write_str("TooLong"),
            ReadFault::BadByte { at } => debug_at(f, "BadByte", "at", at),
            ReadFault::TooDeep { token } => debug_at(f, "TooDeep", "token", token),
            ReadFault::Syntax { token } => debug_at(f, "Syntax", "token", token),
            ReadFault::Memory => f.write_str("Memory"),
        }
    }
}

impl Error for ReadFault {}

impl From<AllocError> for ReadFault {
    ghost from_gives = { λ _ e. e ≡ faults.Memory };

    fn from(_e: AllocError) -> ReadFault {
        ReadFault::Memory
    }
}
