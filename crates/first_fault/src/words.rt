//! The instructions of the break region.

ghost use Rattle.std.specs.Prelude.{◌≡◌, [], ◌∷◌};
ghost use Rattle.sve_code.specs.Table as sve;
ghost use Rattle.machine_model.specs.InstructionTable.{Vector};
ghost use Rattle.label_fix.specs.Draft.{word_view};
ghost use Rattle.label_fix.specs.Registers.{lanes_left};
ghost use Rattle.lane_emit.specs.Stretch.{word};
ghost use Rattle.chunk_emit.specs.ChunkCode as code;
ghost use Rattle.first_fault.specs.RegionCode as region;

use a64_code::{A64, AddSubOp, AddSubShift, Reg};
use chunk_emit::load_type;
use guest_types::length::Width;
use kernel_tree::Ty;
use label_fix::Word;
use label_fix::registers::{LANES_LEFT, SCRATCH};
use lane_emit::wide;
use sve_code::{BreakOp, GoverningReg, OffsetReg, PredicateLogicalOp, Sve, VectorReg};
use word_rows::Bits;

// The register of an offset as any general register.
fn general(index: OffsetReg) -> Reg
    ensures { result.number ≡ index.number }
{
    Bits {
        number: index.number,
    }
}

/// A mask loses the lanes that P0 has lost.
pub fn narrow(m: GoverningReg) -> Word
    ensures { word_view result ≡ Vector (word sve.p_and (m.number ∷ m.number ∷ lanes_left ∷ m.number ∷ [])) }
{
    Word::V(Sve::PredicateLogical {
        op: PredicateLogicalOp::And,
        pd: wide(m),
        pn: wide(m),
        pg: wide(LANES_LEFT),
        pm: wide(m),
    })
}

/// A read in the lanes of P0 that may stop early.
pub fn first_fault(width: Width, ty: Ty, d: VectorReg, base: Reg, index: OffsetReg) -> Word
    ensures { word_view result ≡ Vector (region.first_fault_word width ty d.number base.number index.number) }
{
    Word::V(Sve::FirstFaultLoad {
        zt: d,
        rn: base,
        pg: LANES_LEFT,
        rm: general(index),
        dtype: load_type(ty, width),
    })
}

/// A read under a mask, at X26, that may stop early.
pub fn non_fault(width: Width, ty: Ty, d: VectorReg, m: GoverningReg) -> Word
    ensures { word_view result ≡ Vector (region.non_fault_word width ty d.number m.number) }
{
    Word::V(Sve::NonFaultLoad {
        zt: d,
        rn: SCRATCH,
        pg: m,
        dtype: load_type(ty, width),
    })
}

/// X26 = the address of an element.
pub fn address(ty: Ty, base: Reg, index: OffsetReg) -> Word
    ensures { word_view result ≡ region.address_word ty base.number index.number }
{
    Word::A(A64::AddSubShifted {
        op: AddSubOp::Add,
        rd: SCRATCH,
        rn: base,
        imm6: Bits {
            number: ty.log_bytes(),
        },
        rm: general(index),
        shift: AddSubShift::Lsl,
    })
}

/// P0 loses the lanes from the first suppressed one on.
pub fn read_faults() -> Word
    ensures { word_view result ≡ region.read_faults }
{
    Word::V(Sve::RdffrPredicated {
        pd: wide(LANES_LEFT),
        pg: wide(LANES_LEFT),
    })
}

/// All lanes may fault.
pub fn set_faults() -> Word
    ensures { word_view result ≡ region.set_faults }
{
    Word::V(Sve::Setffr)
}

/// P0 keeps the lanes before the first in which a condition holds.
pub fn leave(c: GoverningReg) -> Word
    ensures { word_view result ≡ Vector (word sve.brkb (lanes_left ∷ c.number ∷ lanes_left ∷ [])) }
{
    Word::V(Sve::Break {
        op: BreakOp::Brkb,
        pd: wide(LANES_LEFT),
        pn: wide(c),
        pg: wide(LANES_LEFT),
    })
}
