//! The instructions that start and reduce an accumulator in the lanes.

ghost use Rattle.std.specs.Prelude.{◌≡◌, [], ◌∷◌};
ghost use Rattle.sve_code.specs.View.{instruction_view};
ghost use Rattle.sve_code.specs.View as sve;
ghost use Rattle.lane_emit.specs.LaneCode.{dup_code};
ghost use Rattle.reductions.specs.Reductions.{reduce_name, reduce_code};

use guest_types::length::Width;
use kernel_tree::{Ty, UpdateOp};
use label_fix::registers::ALL_TRUE;
use lane_emit::size;
use sve_code::{ReductionOp, Reg, Sve, VectorReg};

// The operation that joins all lanes of an accumulator.
fn reduce_op(op: UpdateOp, ty: Ty) -> ReductionOp
    ensures { sve.reduce_name result ≡ reduce_name op ty }
{
    match op {
        UpdateOp::Add => ReductionOp::Uaddv,
        UpdateOp::And => ReductionOp::Andv,
        UpdateOp::Or => ReductionOp::Orv,
        UpdateOp::Xor => ReductionOp::Eorv,
        UpdateOp::Min if ty.is_signed() => ReductionOp::Sminv,
        UpdateOp::Min => ReductionOp::Uminv,
        UpdateOp::Max if ty.is_signed() => ReductionOp::Smaxv,
        UpdateOp::Max => ReductionOp::Umaxv,
    }
}

/// The start of an accumulator from a general register that holds the identity: "DUP (scalar)".
pub fn start_word(width: Width, acc: VectorReg, identity: Reg) -> Sve
    ensures { dup_code width acc.number identity.number ≡ instruction_view result ∷ [] }
{
    Sve::DupScalar {
        zd: acc,
        rn: identity,
        size: size(width),
    }
}

/// The reduction of all lanes of an accumulator to the lowest element of a vector register, under P1, which is all true.
pub fn reduce_word(width: Width, op: UpdateOp, ty: Ty, d: VectorReg, acc: VectorReg) -> Sve
    ensures { reduce_code width op ty d.number acc.number ≡ instruction_view result ∷ [] }
{
    Sve::Reduction {
        op: reduce_op(op, ty),
        zd: d,
        zn: acc,
        pg: ALL_TRUE,
        size: size(width),
    }
}
