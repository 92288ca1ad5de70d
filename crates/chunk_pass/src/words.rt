//! The instructions of a pass.

ghost use Rattle.std.specs.Prelude.{◌≡◌, [], ◌∷◌};
ghost use Rattle.a64_code.specs.Table as a64;
ghost use Rattle.sve_code.specs.Table as sve;
ghost use Rattle.sve_code.specs.View.{instruction_view};
ghost use Rattle.machine_model.specs.InstructionTable.{Scalar, Vector};
ghost use Rattle.label_fix.specs.Draft.{word_view};
ghost use Rattle.label_fix.specs.Registers.{iteration, lanes_left, scratch, xzr};
ghost use Rattle.lane_emit.specs.Stretch.{word};
ghost use Rattle.lane_emit.specs.LaneCode.{size_of, index_code};
ghost use Rattle.chunk_pass.specs.PassCode as pass;

use a64_code::{A64, MoveWideOp, Reg, zero};
use guest_types::length::Width;
use label_fix::Word;
use label_fix::registers::{ITERATION, LANES_LEFT, SCRATCH};
use lane_emit::{size, wide};
use sve_code::{Size, Sve, VectorReg};
use word_rows::Bits;

/// The lanes of a chunk in P0: those whose iterations are below the bound.
pub fn lanes(width: Width, bound: Reg) -> Word
    ensures { word_view result ≡ pass.lanes_word width bound.number }
{
    Word::V(Sve::Whilelo {
        pd: wide(LANES_LEFT),
        rn: ITERATION,
        rm: bound,
        size: size(width),
    })
}

/// X26 = 1.
pub fn one() -> Word
    ensures { word_view result ≡ Scalar (record { name = a64.movz; numbers = scratch ∷ 1 ∷ 0 ∷ [] }) }
{
    Word::A(A64::MoveWide {
        op: MoveWideOp::Movz,
        rd: SCRATCH,
        imm16: Bits { number: 1 },
        hw: Bits { number: 0 },
    })
}

/// Lane 0 alone in P0, by X26.
pub fn first_lane(width: Width) -> Word
    ensures { word_view result ≡ Vector (word sve.whilelo (lanes_left ∷ xzr ∷ scratch ∷ size_of width ∷ [])) }
{
    Word::V(Sve::Whilelo {
        pd: wide(LANES_LEFT),
        rn: zero(),
        rm: SCRATCH,
        size: size(width),
    })
}

/// The loop variable of each lane.
pub fn index(d: VectorReg) -> Sve
    ensures { index_code d.number iteration ≡ instruction_view result ∷ [] }
{
    Sve::IndexScalarImmediate {
        zd: d,
        rn: ITERATION,
        imm5: Bits { number: 1 },
        size: Size::D,
    }
}

/// X9 goes on by the number of lanes in P0.
pub fn advance(width: Width) -> Word
    ensures { word_view result ≡ pass.advance_word width }
{
    Word::V(Sve::Incp {
        rd: ITERATION,
        pm: wide(LANES_LEFT),
        size: size(width),
    })
}
