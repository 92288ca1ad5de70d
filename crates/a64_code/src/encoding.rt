//! From instructions to words.
ghost use Rattle.std.specs.Prelude.{◌≡◌, [], ◌∷◌};
ghost use Rattle.word_rows.specs.Field.{rd, rn, rm};
ghost use Rattle.word_rows.specs.Row.{free, spells};
ghost use Rattle.a64_code.specs.Table.{row, below, imm12, sh, imm6, shift, imm16, hw, ra, imms, immr, cond, imm19, rt, scaled};
ghost use Rattle.a64_code.specs.View.{instruction_view, add_sub_imm_name, add_sub_shifted_name, logical_name, move_wide_name, multiply_add_name, shift_variable_name, bitfield_name, select_name, branch_zero_name, exception_name, byte_imm_name, wide_imm_name, byte_register_name, wide_register_name};

use crate::bases::{
    ADD, ADD_IMM, ASRV, B, B_COND, BRK, CBNZ, CBZ, CSEL, CSINC, EOR, LAND, LDR_W, LDR_W_REGISTER,
    LDR_X, LDR_X_REGISTER, LDRB, LDRB_REGISTER, LDRH, LDRH_REGISTER, LDRSB, LDRSB_REGISTER, LDRSH,
    LDRSH_REGISTER, LDRSW, LDRSW_REGISTER, LSLV, LSRV, MADD, MOVK, MOVN, MOVZ, MSUB, NOP, ORN, ORR,
    RET, SBFM, STR_W, STR_W_REGISTER, STR_X, STR_X_REGISTER, STRB, STRB_REGISTER, STRH,
    STRH_REGISTER, SUB, SUB_IMM, SUBS, SUBS_IMM, SVC, UBFM, UMOV,
};
use crate::{
    A64, AddSubOp, BitfieldOp, CompareBranchOp, ExceptionOp, LoadStoreByteOp, LoadStoreOp,
    LogicalOp, MoveWideOp, MultiplyOp, SelectOp, ShiftVariableOp,
};
use word_rows::{flag_at, shifted};

/// The word of an instruction.
pub fn encode(word: A64) -> u32
    ensures { result ≡ spells row (instruction_view word) }
{
    match word {
        A64::AddSubImmediate {
            op,
            rd,
            rn,
            imm12,
            sh,
        } => op.immediate_base() | rd.put(0) | rn.put(5) | imm12.put(10) | flag_at(sh, 22),
        A64::AddSubShifted {
            op,
            rd,
            rn,
            imm6,
            rm,
            shift,
        } => op.shifted_base()
            | rd.put(0)
            | rn.put(5)
            | imm6.put(10)
            | rm.put(16)
            | shifted(shift as u32, 22, 2),
        A64::LogicalShifted {
            op,
            rd,
            rn,
            imm6,
            rm,
            shift,
        } => op.base()
            | rd.put(0)
            | rn.put(5)
            | imm6.put(10)
            | rm.put(16)
            | shifted(shift as u32, 22, 2),
        A64::MoveWide { op, rd, imm16, hw } => op.base() | rd.put(0) | imm16.put(5) | hw.put(21),
        A64::MultiplyAdd { op, rd, rn, ra, rm } => op.base()
            | rd.put(0)
            | rn.put(5)
            | ra.put(10)
            | rm.put(16),
        A64::ShiftVariable { op, rd, rn, rm } => op.base() | rd.put(0) | rn.put(5) | rm.put(16),
        A64::Bitfield {
            op,
            rd,
            rn,
            imms,
            immr,
        } => op.base() | rd.put(0) | rn.put(5) | imms.put(10) | immr.put(16),
        A64::ConditionalSelect {
            op,
            rd,
            rn,
            cond,
            rm,
        } => op.base() | rd.put(0) | rn.put(5) | shifted(cond as u32, 12, 4) | rm.put(16),
        A64::Branch { imm26 } => B | imm26.put(0),
        A64::BranchConditional { cond, imm19 } => B_COND
            | shifted(cond as u32, 0, 4)
            | imm19.put(5),
        A64::CompareBranch { op, rt, imm19 } => op.base() | rt.put(0) | imm19.put(5),
        A64::Ret { rn } => RET | rn.put(5),
        A64::Exception { op, imm16 } => op.base() | imm16.put(5),
        A64::Nop => NOP,
        A64::Umov { rd, vn } => UMOV | rd.put(0) | vn.put(5),
        A64::LoadStoreByteImmediate { op, rt, rn, imm12 } => op.immediate_base()
            | rt.put(0)
            | rn.put(5)
            | imm12.put(10),
        A64::LoadStoreImmediate { op, rt, rn, imm12 } => op.immediate_base()
            | rt.put(0)
            | rn.put(5)
            | imm12.put(10),
        A64::LoadStoreByteRegister { op, rt, rn, rm } => op.register_base()
            | rt.put(0)
            | rn.put(5)
            | rm.put(16),
        A64::LoadStoreRegister {
            op,
            rt,
            rn,
            scaled,
            rm,
        } => op.register_base() | rt.put(0) | rn.put(5) | flag_at(scaled, 12) | rm.put(16),
    }
}

// ---- the base words of the rows that share an encoding

impl AddSubOp {
    fn immediate_base(self) -> u32
        ensures { row (add_sub_imm_name self) ≡ free result (rd ∷ rn ∷ imm12 ∷ sh ∷ []) }
    {
        match self {
            AddSubOp::Add => ADD_IMM,
            AddSubOp::Sub => SUB_IMM,
            AddSubOp::Subs => SUBS_IMM,
        }
    }

    fn shifted_base(self) -> u32
        ensures { row (add_sub_shifted_name self) ≡ below result (rd ∷ rn ∷ imm6 ∷ rm ∷ shift ∷ []) 4 3 }
    {
        match self {
            AddSubOp::Add => ADD,
            AddSubOp::Sub => SUB,
            AddSubOp::Subs => SUBS,
        }
    }
}

impl LogicalOp {
    fn base(self) -> u32
        ensures { row (logical_name self) ≡ free result (rd ∷ rn ∷ imm6 ∷ rm ∷ shift ∷ []) }
    {
        match self {
            LogicalOp::And => LAND,
            LogicalOp::Orr => ORR,
            LogicalOp::Eor => EOR,
            LogicalOp::Orn => ORN,
        }
    }
}

impl MoveWideOp {
    fn base(self) -> u32
        ensures { row (move_wide_name self) ≡ free result (rd ∷ imm16 ∷ hw ∷ []) }
    {
        match self {
            MoveWideOp::Movz => MOVZ,
            MoveWideOp::Movk => MOVK,
            MoveWideOp::Movn => MOVN,
        }
    }
}

impl MultiplyOp {
    fn base(self) -> u32
        ensures { row (multiply_add_name self) ≡ free result (rd ∷ rn ∷ ra ∷ rm ∷ []) }
    {
        match self {
            MultiplyOp::Madd => MADD,
            MultiplyOp::Msub => MSUB,
        }
    }
}

impl ShiftVariableOp {
    fn base(self) -> u32
        ensures { row (shift_variable_name self) ≡ free result (rd ∷ rn ∷ rm ∷ []) }
    {
        match self {
            ShiftVariableOp::Lslv => LSLV,
            ShiftVariableOp::Lsrv => LSRV,
            ShiftVariableOp::Asrv => ASRV,
        }
    }
}

impl BitfieldOp {
    fn base(self) -> u32
        ensures { row (bitfield_name self) ≡ free result (rd ∷ rn ∷ imms ∷ immr ∷ []) }
    {
        match self {
            BitfieldOp::Sbfm => SBFM,
            BitfieldOp::Ubfm => UBFM,
        }
    }
}

impl SelectOp {
    fn base(self) -> u32
        ensures { row (select_name self) ≡ below result (rd ∷ rn ∷ cond ∷ rm ∷ []) 2 15 }
    {
        match self {
            SelectOp::Csel => CSEL,
            SelectOp::Csinc => CSINC,
        }
    }
}

impl CompareBranchOp {
    fn base(self) -> u32
        ensures { row (branch_zero_name self) ≡ free result (rt ∷ imm19 ∷ []) }
    {
        match self {
            CompareBranchOp::Cbz => CBZ,
            CompareBranchOp::Cbnz => CBNZ,
        }
    }
}

impl ExceptionOp {
    fn base(self) -> u32
        ensures { row (exception_name self) ≡ free result (imm16 ∷ []) }
    {
        match self {
            ExceptionOp::Svc => SVC,
            ExceptionOp::Brk => BRK,
        }
    }
}

impl LoadStoreByteOp {
    fn immediate_base(self) -> u32
        ensures { row (byte_imm_name self) ≡ free result (rt ∷ rn ∷ imm12 ∷ []) }
    {
        match self {
            LoadStoreByteOp::Ldrb => LDRB,
            LoadStoreByteOp::Ldrsb => LDRSB,
            LoadStoreByteOp::Strb => STRB,
        }
    }

    fn register_base(self) -> u32
        ensures { row (byte_register_name self) ≡ free result (rt ∷ rn ∷ rm ∷ []) }
    {
        match self {
            LoadStoreByteOp::Ldrb => LDRB_REGISTER,
            LoadStoreByteOp::Ldrsb => LDRSB_REGISTER,
            LoadStoreByteOp::Strb => STRB_REGISTER,
        }
    }
}

impl LoadStoreOp {
    fn immediate_base(self) -> u32
        ensures { row (wide_imm_name self) ≡ free result (rt ∷ rn ∷ imm12 ∷ []) }
    {
        match self {
            LoadStoreOp::Ldrh => LDRH,
            LoadStoreOp::LdrW => LDR_W,
            LoadStoreOp::LdrX => LDR_X,
            LoadStoreOp::Ldrsh => LDRSH,
            LoadStoreOp::Ldrsw => LDRSW,
            LoadStoreOp::Strh => STRH,
            LoadStoreOp::StrW => STR_W,
            LoadStoreOp::StrX => STR_X,
        }
    }

    fn register_base(self) -> u32
        ensures { row (wide_register_name self) ≡ free result (rt ∷ rn ∷ scaled ∷ rm ∷ []) }
    {
        match self {
            LoadStoreOp::Ldrh => LDRH_REGISTER,
            LoadStoreOp::LdrW => LDR_W_REGISTER,
            LoadStoreOp::LdrX => LDR_X_REGISTER,
            LoadStoreOp::Ldrsh => LDRSH_REGISTER,
            LoadStoreOp::Ldrsw => LDRSW_REGISTER,
            LoadStoreOp::Strh => STRH_REGISTER,
            LoadStoreOp::StrW => STR_W_REGISTER,
            LoadStoreOp::StrX => STR_X_REGISTER,
        }
    }
}
