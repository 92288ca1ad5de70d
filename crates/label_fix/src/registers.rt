//! The registers that all compiled code uses, by what they hold.

ghost use Rattle.std.specs.Prelude.{◌≡◌, ◌∷◌, []};
ghost use Rattle.a64_code.specs.Table.{subs};
ghost use Rattle.label_fix.specs.Draft.{word_view};
ghost use Rattle.label_fix.specs.DraftRun.{word_of};
ghost use Rattle.label_fix.specs.Registers.{iteration, xzr};

use crate::entry::Word;
use a64_code::{A64, AddSubOp, AddSubShift, Reg, zero};
use sve_code::{GoverningReg, VectorReg};
use word_rows::Bits;

/// X9: the iteration; in vector code that of the first lane.
pub const ITERATION: Reg = Bits { number: 9 };

/// X8, in vector code: the last iteration from which a whole turn of passes is left.
pub const TURN_LIMIT: Reg = Bits { number: 8 };

/// X8, in scalar code: the first of the registers of what a loop holds throughout; the others are below it.
pub const HIGHEST_HELD: Reg = Bits { number: 8 };

/// X8, at SVC: the number of the call.
pub const CALL_NUMBER: Reg = Bits { number: 8 };

/// X26, which holds nothing from one item to the next.
pub const SCRATCH: Reg = Bits { number: 26 };

/// X27, which holds nothing from one item to the next.
pub const SECOND_SCRATCH: Reg = Bits { number: 27 };

/// P0: the lanes that are left.
pub const LANES_LEFT: GoverningReg = Bits { number: 0 };

/// P1, which is all true.
pub const ALL_TRUE: GoverningReg = Bits { number: 1 };

/// P2: the first of those that hold conditions.
pub const FIRST_CONDITION_REGISTER: GoverningReg = Bits { number: 2 };

/// Z31, which holds nothing from one item to the next.
pub const SCRATCH_VECTOR: VectorReg = Bits { number: 31 };

/// The comparison of the iteration with a bound.
pub fn compare_iteration(bound: Reg) -> Word
    ensures { word_view result ≡ word_of subs (xzr ∷ iteration ∷ 0 ∷ bound.number ∷ 0 ∷ []) }
{
    Word::A(A64::AddSubShifted {
        op: AddSubOp::Subs,
        rd: zero(),
        rn: ITERATION,
        imm6: Bits { number: 0 },
        rm: bound,
        shift: AddSubShift::Lsl,
    })
}
