//! How much of a value is asked for.

ghost use Rattle.std.specs.Prelude.{◌≡◌};
ghost use Rattle.value_code.specs.Extents as extents;
ghost use Rattle.scalar_words.specs.Operands as operands;

use kernel_meaning::{binary_leaves, fits};
use kernel_tree::{BinaryOp, Ty, UnaryOp};

/// The low bits of a value, or the value itself.
#[derive(Clone, Copy)]
pub enum Extent {
    Low8,
    Low16,
    Low32,
    Whole,
}

/// What is asked of a value: how much of it, and the type that is wanted.
#[derive(Clone, Copy)]
pub struct Asked {
    pub extent: Extent,
    pub want: Option<Ty>,
}

/// The low bits that tell a value of a type.
pub fn extent_of(ty: Ty) -> Extent
    ensures { result ≡ extents.extent_of ty }
{
    match ty {
        Ty::I8 | Ty::U8 => Extent::Low8,
        Ty::I16 | Ty::U16 => Extent::Low16,
        Ty::I32 | Ty::U32 => Extent::Low32,
        Ty::I64 | Ty::U64 => Extent::Whole,
    }
}

/// The same where there is a type.
pub fn extent_at(want: Option<Ty>) -> Extent
    ensures { result ≡ extents.extent_at want }
{
    match want {
        None => Extent::Whole,
        Some(ty) => extent_of(ty),
    }
}

/// Whether low bits are asked for, and none above a type.
pub fn within_type(extent: Extent, ty: Ty) -> bool
    ensures { result ≡ extents.within_type extent ty }
{
    match extent {
        Extent::Low8 => true,
        Extent::Low16 => 16 <= ty.bits(),
        Extent::Low32 => 32 <= ty.bits(),
        Extent::Whole => false,
    }
}

/// The same where there is a type.
pub fn within(extent: Extent, want: Option<Ty>) -> bool
    ensures { result ≡ extents.within extent want }
{
    match want {
        None => false,
        Some(ty) => within_type(extent, ty),
    }
}

/// Whether low bits of the result come of low bits of the operands.
pub fn binary_joins(op: BinaryOp) -> bool
    ensures { result ≡ operands.binary_joins op }
{
    !matches!(op, BinaryOp::Min | BinaryOp::Max)
}

/// The same of an operator on one value.
pub fn unary_joins(op: UnaryOp) -> bool
    ensures { result ≡ extents.unary_joins op }
{
    !matches!(op, UnaryOp::Abs)
}

// What an operator asks of its operands.
fn operand_extent(low: bool, joins: bool, leaves: bool, extent: Extent, want: Option<Ty>) -> Extent
    ensures { result ≡ extents.operand_extent low joins leaves extent want }
{
    if !joins {
        Extent::Whole
    } else if low {
        extent
    } else if leaves {
        extent_at(want)
    } else {
        Extent::Whole
    }
}

/// What an operator asks of its operands, by whether it joins low bits and whether its result may have to be extended.
pub fn asked_extent(joins: bool, leaves: bool, extent: Extent, want: Option<Ty>) -> Extent
    ensures { result ≡ extents.asked_extent joins leaves extent want }
{
    operand_extent(within(extent, want), joins, leaves, extent, want)
}

/// The same of an operator of whose operands nothing is known but their type.
pub fn binary_extent(op: BinaryOp, extent: Extent, want: Option<Ty>) -> Extent
    ensures { result ≡ extents.binary_extent op extent want }
{
    asked_extent(binary_joins(op), binary_leaves(op), extent, want)
}

/// Whether a type has each value of another one.
pub fn fits_at(from: Option<Ty>, ty: Ty) -> bool
    ensures { result ≡ extents.fits_at from ty }
{
    match from {
        None => false,
        Some(from) => fits(from, ty),
    }
}

/// What a cast asks of its operand.
pub fn converted_extent(extent: Extent, from: Option<Ty>, ty: Ty) -> Extent
    ensures { result ≡ extents.converted_extent extent from ty }
{
    if within_type(extent, ty) {
        extent
    } else if fits_at(from, ty) {
        Extent::Whole
    } else {
        extent_of(ty)
    }
}

/// Whether a result is extended.
pub fn settles(low: bool, joins: bool, leaves: bool) -> bool
    ensures { result ≡ extents.settles low joins leaves }
{
    if low && joins { false } else { leaves }
}
