//! The update of an accumulator in the lanes.

ghost use Rattle.std.specs.Prelude.{◌≡◌, [], ◌∷◌};
ghost use Rattle.sve_code.specs.View.{instruction_view};
ghost use Rattle.sve_code.specs.View as sve;
ghost use Rattle.lane_emit.specs.AccumulatorLanes.{update_name, update_code};

use crate::words::size;
use guest_types::length::Width;
use kernel_tree::{Ty, UpdateOp};
use sve_code::{BinaryPredicatedOp, GoverningReg, Sve, VectorReg};

// The operation that takes a value into an accumulator.
fn update_op(op: UpdateOp, ty: Ty) -> BinaryPredicatedOp
    ensures { sve.merging_name result ≡ update_name op ty }
{
    match op {
        UpdateOp::Add => BinaryPredicatedOp::Add,
        UpdateOp::And => BinaryPredicatedOp::And,
        UpdateOp::Or => BinaryPredicatedOp::Orr,
        UpdateOp::Xor => BinaryPredicatedOp::Eor,
        UpdateOp::Min if ty.is_signed() => BinaryPredicatedOp::Smin,
        UpdateOp::Min => BinaryPredicatedOp::Umin,
        UpdateOp::Max if ty.is_signed() => BinaryPredicatedOp::Smax,
        UpdateOp::Max => BinaryPredicatedOp::Umax,
    }
}

/// An update of an accumulator by a value under a mask: the merging form of ADD, AND, ORR, EOR, SMIN, UMIN, SMAX or UMAX.
pub fn update_word(
    width: Width,
    op: UpdateOp,
    ty: Ty,
    acc: VectorReg,
    mask: GoverningReg,
    value: VectorReg,
) -> Sve
    ensures { update_code width op ty acc.number mask.number value.number ≡ instruction_view result ∷ [] }
{
    Sve::BinaryPredicated {
        op: update_op(op, ty),
        zdn: acc,
        zm: value,
        pg: mask,
        size: size(width),
    }
}
