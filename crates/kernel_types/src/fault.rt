//! Why a kernel is refused.

ghost use Rattle.std.specs.Prelude.{◌≡◌};
ghost use Rattle.kernel_types.specs.declared.fault.TypeFault.TheVariants as faults;

use kernel_tree::Ty;
use std::alloc::AllocError;
use std::error::Error;
use std::fmt;

/// Why a kernel is refused. Items count from 0, in the order of the kernel's listing.
#[derive(Clone, Copy, PartialEq, Eq)]
pub enum TypeFault {
    /// A name is not visible here.
    Unknown { item: u32 },
    /// A name is declared again.
    Twice { item: u32 },
    /// A name of the wrong kind, a condition in place of a value, or a value in place of a condition.
    WrongKind { item: u32 },
    /// A value of another type than is wanted.
    Mismatch { item: u32, want: Ty, found: Ty },
    /// Nothing gives a type that is needed.
    Untyped { item: u32 },
    /// A literal is outside the range of its type.
    LiteralRange { item: u32 },
    /// The count of a shift is not below the width of its type.
    ShiftRange { item: u32 },
    /// The offset of a stream index is outside -1,024..=1,024.
    OffsetRange { item: u32 },
    /// The kernel has more than 1,000 items.
    TooLarge { size: u32 },
    /// The kernel is deeper than 64.
    TooDeep { depth: u32 },
    Memory,
}

fn write_mismatch<W: fmt::Write>(
    f: &mut fmt::Formatter<W>,
    item: u32,
    want: Ty,
    found: Ty,
) -> fmt::Result {
    let want = want.word();
    let found = found.word();
    write!(f, "want {want} found {found} at item {item}")
}

impl fmt::Display for TypeFault {
    fn fmt<W: fmt::Write>(&self, f: &mut fmt::Formatter<W>) -> fmt::Result {
        // what is wrong, and the number of the item where it is, or the number that is too great
        let (text, number) = match *self {
            TypeFault::Unknown { item } => ("unknown name at item", item),
            TypeFault::Twice { item } => ("name declared twice at item", item),
            TypeFault::WrongKind { item } => ("wrong kind at item", item),
            TypeFault::Mismatch { item, want, found } => {
                return write_mismatch(f, item, want, found);
            }
            TypeFault::Untyped { item } => ("no type at item", item),
            TypeFault::LiteralRange { item } => ("literal out of range at item", item),
            TypeFault::ShiftRange { item } => ("shift out of range at item", item),
            TypeFault::OffsetRange { item } => ("offset out of range at item", item),
            TypeFault::TooLarge { size } => ("too large", size),
            TypeFault::TooDeep { depth } => ("too deep", depth),
            TypeFault::Memory => return f.write_str("out of memory"),
        };
        write!(f, "{text} {number}")
    }
}

impl fmt::Debug for TypeFault {
    fn fmt<W: fmt::Write>(&self, f: &mut fmt::Formatter<W>) -> fmt::Result {
        fmt::Display::fmt(self, f)
    }
}

impl Error for TypeFault {}

impl From<AllocError> for TypeFault {
    ghost from_gives = { λ _ e. e ≡ faults.Memory };

    fn from(_e: AllocError) -> TypeFault {
        TypeFault::Memory
    }
}
