//! The values of types, and which operators stay among them.

ghost use Rattle.std.specs.Prelude.{◌≡◌};
ghost use Rattle.kernel_meaning.specs.TypeValues as values;

use kernel_tree::{BinaryOp, Ty, UnaryOp};

/// The least value of a type.
pub fn least(ty: Ty) -> i128
    ensures { result ≡ values.least ty }
{
    match ty {
        Ty::I8 => -0x80,
        Ty::I16 => -0x8000,
        Ty::I32 => -0x8000_0000,
        Ty::I64 => -0x8000_0000_0000_0000,
        Ty::U8 | Ty::U16 | Ty::U32 | Ty::U64 => 0,
    }
}

/// The greatest value of a type.
pub fn greatest(ty: Ty) -> i128
    ensures { result ≡ values.greatest ty }
{
    match ty {
        Ty::I8 => 0x7f,
        Ty::I16 => 0x7fff,
        Ty::I32 => 0x7fff_ffff,
        Ty::I64 => 0x7fff_ffff_ffff_ffff,
        Ty::U8 => 0xff,
        Ty::U16 => 0xffff,
        Ty::U32 => 0xffff_ffff,
        Ty::U64 => 0xffff_ffff_ffff_ffff,
    }
}

/// Whether each value of the one type is a value of the other.
pub fn fits(from: Ty, to: Ty) -> bool
    ensures { result ≡ values.fits from to }
{
    let low = least(to) <= least(from);
    let high = greatest(from) <= greatest(to);
    low && high
}

/// Whether an operator, done in a wider register on an operand that is extended by the type, may give what is not.
pub fn unary_leaves(op: UnaryOp, ty: Ty) -> bool
    ensures { result ≡ values.unary_leaves op ty }
{
    match op {
        UnaryOp::Neg => true,
        UnaryOp::Flip => !ty.is_signed(),
        UnaryOp::Abs => ty.is_signed(),
    }
}

/// The same of an operator with two operands.
pub fn binary_leaves(op: BinaryOp) -> bool
    ensures { result ≡ values.binary_leaves op }
{
    matches!(op, BinaryOp::Add | BinaryOp::Sub | BinaryOp::Mul)
}
