//! From instructions to words.
ghost use Rattle.std.specs.Prelude.{◌≡◌, [], ◌∷◌};
ghost use Rattle.word_rows.specs.Field.{rd, rn};
ghost use Rattle.word_rows.specs.Row.{free, spells};
ghost use Rattle.sve_code.specs.Table.{row, where_listed, shift_from_8, only_from, pd, pn, pg4, pm, zd, zn, zm, size, imm3, tszl, tszh, zdn, zm_low, pg, zt};
ghost use Rattle.sve_code.specs.View.{instruction_view, pred_logic_name, break_form_name, count_name, add_sub_name, logic_name, shift_imm_name, merging_name, unary_name, extend_byte_name, extend_half_name, extend_word_name, reduce_name, compare_name, load_gather_name};

use crate::bases::{
    ANDV, ASR_IMM, BRKA, BRKB, CMPEQ, CMPGE, CMPGT, CMPHI, CMPHS, CMPNE, CNTB, CNTD, CNTH, CNTP,
    CNTW, DUP, EORV, GLD1B, GLD1D, GLD1H, GLD1SB, GLD1SH, GLD1SW, GLD1W, INCP, INDEX_ROW, LD1,
    LDFF1, LDNF1, LSL_IMM, LSR_IMM, M_ABS, M_ADD, M_AND, M_EOR, M_MUL, M_NEG, M_NOT, M_ORR, M_SMAX,
    M_SMIN, M_SUB, M_UMAX, M_UMIN, ORV, P_AND, P_ANDS, P_BIC, P_EOR, P_ORR, PFALSE, PTEST, PTRUE,
    RDFFR, RDFFR_Z, SEL, SETFFR, SMAXV, SMINV, ST1, SXTB, SXTH, SXTW, UADDV, UMAXV, UMINV, UXTB,
    UXTH, UXTW, WHILELO, WRFFR, Z_ADD, Z_AND, Z_BIC, Z_EOR, Z_ORR, Z_SUB,
};
use crate::{
    AddSubOp, BinaryPredicatedOp, BitwiseOp, BreakOp, ElementCountOp, ExtendOp, GatherOp,
    PredicateLogicalOp, ReductionOp, ShiftImmediateOp, Sve, UnaryPredicatedOp, VectorCompareOp,
};
use word_rows::shifted;

/// The word of an instruction.
pub fn encode(word: Sve) -> u32
    ensures { result ≡ spells row (instruction_view word) }
{
    match word {
        Sve::Ptrue { pd, size } => PTRUE | pd.put(0) | shifted(size as u32, 22, 2),
        Sve::Pfalse { pd } => PFALSE | pd.put(0),
        Sve::Whilelo { pd, rn, rm, size } => WHILELO
            | pd.put(0)
            | rn.put(5)
            | rm.put(16)
            | shifted(size as u32, 22, 2),
        Sve::Ptest { pn, pg } => PTEST | pn.put(5) | pg.put(10),
        Sve::PredicateLogical { op, pd, pn, pg, pm } => op.base()
            | pd.put(0)
            | pn.put(5)
            | pg.put(10)
            | pm.put(16),
        Sve::Break { op, pd, pn, pg } => op.base() | pd.put(0) | pn.put(5) | pg.put(10),
        Sve::Rdffr { pd } => RDFFR | pd.put(0),
        Sve::RdffrPredicated { pd, pg } => RDFFR_Z | pd.put(0) | pg.put(5),
        Sve::Setffr => SETFFR,
        Sve::Wrffr { pn } => WRFFR | pn.put(5),
        Sve::ElementCount { op, rd } => op.base() | rd.put(0),
        Sve::Incp { rd, pm, size } => INCP | rd.put(0) | pm.put(5) | shifted(size as u32, 22, 2),
        Sve::Cntp { rd, pn, pg, size } => CNTP
            | rd.put(0)
            | pn.put(5)
            | pg.put(10)
            | shifted(size as u32, 22, 2),
        Sve::DupScalar { zd, rn, size } => DUP
            | zd.put(0)
            | rn.put(5)
            | shifted(size as u32, 22, 2),
        Sve::IndexScalarImmediate { zd, rn, imm5, size } => INDEX_ROW
            | zd.put(0)
            | rn.put(5)
            | imm5.put(16)
            | shifted(size as u32, 22, 2),
        Sve::Sel {
            zd,
            zn,
            pg,
            zm,
            size,
        } => SEL | zd.put(0) | zn.put(5) | pg.put(10) | zm.put(16) | shifted(size as u32, 22, 2),
        Sve::AddSub {
            op,
            zd,
            zn,
            zm,
            size,
        } => op.base() | zd.put(0) | zn.put(5) | zm.put(16) | shifted(size as u32, 22, 2),
        Sve::Bitwise { op, zd, zn, zm } => op.base() | zd.put(0) | zn.put(5) | zm.put(16),
        Sve::ShiftImmediate { op, zd, zn, amount } => op.base()
            | zd.put(0)
            | zn.put(5)
            | shifted(amount.value % 8, 16, 3)
            | shifted(amount.value / 8 % 4, 19, 2)
            | shifted(amount.value / 32, 22, 2),
        Sve::BinaryPredicated {
            op,
            zdn,
            zm,
            pg,
            size,
        } => op.base() | zdn.put(0) | zm.put(5) | pg.put(10) | shifted(size as u32, 22, 2),
        Sve::UnaryPredicated {
            op,
            zd,
            zn,
            pg,
            size,
        } => op.base() | zd.put(0) | zn.put(5) | pg.put(10) | shifted(size as u32, 22, 2),
        Sve::ExtendByte {
            op,
            zd,
            zn,
            pg,
            size,
        } => op.byte_base() | zd.put(0) | zn.put(5) | pg.put(10) | shifted(size as u32, 22, 2),
        Sve::ExtendHalfword {
            op,
            zd,
            zn,
            pg,
            size,
        } => op.halfword_base() | zd.put(0) | zn.put(5) | pg.put(10) | shifted(size as u32, 22, 2),
        Sve::ExtendWord { op, zd, zn, pg } => op.word_base() | zd.put(0) | zn.put(5) | pg.put(10),
        Sve::Reduction {
            op,
            zd,
            zn,
            pg,
            size,
        } => op.base() | zd.put(0) | zn.put(5) | pg.put(10) | shifted(size as u32, 22, 2),
        Sve::CompareVectors {
            op,
            pd,
            zn,
            pg,
            zm,
            size,
        } => op.base()
            | pd.put(0)
            | zn.put(5)
            | pg.put(10)
            | zm.put(16)
            | shifted(size as u32, 22, 2),
        Sve::ContiguousLoad {
            zt,
            rn,
            pg,
            offset,
            dtype,
        } => LD1
            | zt.put(0)
            | rn.put(5)
            | pg.put(10)
            | shifted(offset.number, 16, 5)
            | shifted(dtype as u32, 21, 4),
        Sve::FirstFaultLoad {
            zt,
            rn,
            pg,
            rm,
            dtype,
        } => LDFF1 | zt.put(0) | rn.put(5) | pg.put(10) | rm.put(16) | shifted(dtype as u32, 21, 4),
        Sve::NonFaultLoad { zt, rn, pg, dtype } => LDNF1
            | zt.put(0)
            | rn.put(5)
            | pg.put(10)
            | shifted(dtype as u32, 21, 4),
        Sve::GatherLoad { op, zt, rn, pg, zm } => op.base()
            | zt.put(0)
            | rn.put(5)
            | pg.put(10)
            | zm.put(16),
        Sve::ContiguousStore {
            zt,
            rn,
            pg,
            offset,
            sizes,
        } => ST1
            | zt.put(0)
            | rn.put(5)
            | pg.put(10)
            | shifted(offset.number, 16, 5)
            | shifted(sizes.size as u32, 21, 2)
            | shifted(sizes.msz as u32, 23, 2),
    }
}

// ---- the base words of the rows that share an encoding

impl PredicateLogicalOp {
    fn base(self) -> u32
        ensures { row (pred_logic_name self) ≡ free result (pd ∷ pn ∷ pg4 ∷ pm ∷ []) }
    {
        match self {
            PredicateLogicalOp::And => P_AND,
            PredicateLogicalOp::Bic => P_BIC,
            PredicateLogicalOp::Eor => P_EOR,
            PredicateLogicalOp::Orr => P_ORR,
            PredicateLogicalOp::Ands => P_ANDS,
        }
    }
}

impl BreakOp {
    fn base(self) -> u32
        ensures { row (break_form_name self) ≡ free result (pd ∷ pn ∷ pg4 ∷ []) }
    {
        match self {
            BreakOp::Brka => BRKA,
            BreakOp::Brkb => BRKB,
        }
    }
}

impl ElementCountOp {
    fn base(self) -> u32
        ensures { row (count_name self) ≡ free result (rd ∷ []) }
    {
        match self {
            ElementCountOp::Cntb => CNTB,
            ElementCountOp::Cnth => CNTH,
            ElementCountOp::Cntw => CNTW,
            ElementCountOp::Cntd => CNTD,
        }
    }
}

impl AddSubOp {
    fn base(self) -> u32
        ensures { row (add_sub_name self) ≡ free result (zd ∷ zn ∷ zm ∷ size ∷ []) }
    {
        match self {
            AddSubOp::Add => Z_ADD,
            AddSubOp::Sub => Z_SUB,
        }
    }
}

impl BitwiseOp {
    fn base(self) -> u32
        ensures { row (logic_name self) ≡ free result (zd ∷ zn ∷ zm ∷ []) }
    {
        match self {
            BitwiseOp::And => Z_AND,
            BitwiseOp::Orr => Z_ORR,
            BitwiseOp::Eor => Z_EOR,
            BitwiseOp::Bic => Z_BIC,
        }
    }
}

impl ShiftImmediateOp {
    fn base(self) -> u32
        ensures { row (shift_imm_name self) ≡ where_listed result (zd ∷ zn ∷ imm3 ∷ tszl ∷ tszh ∷ []) shift_from_8 }
    {
        match self {
            ShiftImmediateOp::Lsl => LSL_IMM,
            ShiftImmediateOp::Lsr => LSR_IMM,
            ShiftImmediateOp::Asr => ASR_IMM,
        }
    }
}

impl BinaryPredicatedOp {
    fn base(self) -> u32
        ensures { row (merging_name self) ≡ free result (zdn ∷ zm_low ∷ pg ∷ size ∷ []) }
    {
        match self {
            BinaryPredicatedOp::Add => M_ADD,
            BinaryPredicatedOp::Sub => M_SUB,
            BinaryPredicatedOp::Smax => M_SMAX,
            BinaryPredicatedOp::Umax => M_UMAX,
            BinaryPredicatedOp::Smin => M_SMIN,
            BinaryPredicatedOp::Umin => M_UMIN,
            BinaryPredicatedOp::Mul => M_MUL,
            BinaryPredicatedOp::Orr => M_ORR,
            BinaryPredicatedOp::Eor => M_EOR,
            BinaryPredicatedOp::And => M_AND,
        }
    }
}

impl UnaryPredicatedOp {
    fn base(self) -> u32
        ensures { row (unary_name self) ≡ free result (zd ∷ zn ∷ pg ∷ size ∷ []) }
    {
        match self {
            UnaryPredicatedOp::Abs => M_ABS,
            UnaryPredicatedOp::Neg => M_NEG,
            UnaryPredicatedOp::Not => M_NOT,
        }
    }
}

impl ExtendOp {
    fn byte_base(self) -> u32
        ensures { row (extend_byte_name self) ≡ where_listed result (zd ∷ zn ∷ pg ∷ size ∷ []) (only_from 3 1) }
    {
        match self {
            ExtendOp::Signed => SXTB,
            ExtendOp::Unsigned => UXTB,
        }
    }

    fn halfword_base(self) -> u32
        ensures { row (extend_half_name self) ≡ where_listed result (zd ∷ zn ∷ pg ∷ size ∷ []) (only_from 3 2) }
    {
        match self {
            ExtendOp::Signed => SXTH,
            ExtendOp::Unsigned => UXTH,
        }
    }

    fn word_base(self) -> u32
        ensures { row (extend_word_name self) ≡ free result (zd ∷ zn ∷ pg ∷ []) }
    {
        match self {
            ExtendOp::Signed => SXTW,
            ExtendOp::Unsigned => UXTW,
        }
    }
}

impl ReductionOp {
    fn base(self) -> u32
        ensures { row (reduce_name self) ≡ free result (zd ∷ zn ∷ pg ∷ size ∷ []) }
    {
        match self {
            ReductionOp::Uaddv => UADDV,
            ReductionOp::Smaxv => SMAXV,
            ReductionOp::Umaxv => UMAXV,
            ReductionOp::Sminv => SMINV,
            ReductionOp::Uminv => UMINV,
            ReductionOp::Orv => ORV,
            ReductionOp::Eorv => EORV,
            ReductionOp::Andv => ANDV,
        }
    }
}

impl VectorCompareOp {
    fn base(self) -> u32
        ensures { row (compare_name self) ≡ free result (pd ∷ zn ∷ pg ∷ zm ∷ size ∷ []) }
    {
        match self {
            VectorCompareOp::Hs => CMPHS,
            VectorCompareOp::Hi => CMPHI,
            VectorCompareOp::Ge => CMPGE,
            VectorCompareOp::Gt => CMPGT,
            VectorCompareOp::Eq => CMPEQ,
            VectorCompareOp::Ne => CMPNE,
        }
    }
}

impl GatherOp {
    fn base(self) -> u32
        ensures { row (load_gather_name self) ≡ free result (zt ∷ rn ∷ pg ∷ zm ∷ []) }
    {
        match self {
            GatherOp::Ld1b => GLD1B,
            GatherOp::Ld1h => GLD1H,
            GatherOp::Ld1w => GLD1W,
            GatherOp::Ld1d => GLD1D,
            GatherOp::Ld1sb => GLD1SB,
            GatherOp::Ld1sh => GLD1SH,
            GatherOp::Ld1sw => GLD1SW,
        }
    }
}
