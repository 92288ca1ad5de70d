//! The SVE instructions that svec writes and runs, and their words. `sve_decode` has the way back.
//!
//! Names are those of the Arm Architecture Reference Manual for A-profile (Arm DDI 0487), chapter
//! C8, "SVE Instruction Descriptions". One variant of [`Sve`] is one encoding; its `op` says which
//! of the instructions that share the encoding it is.
#![tactic(auto)]

use word_rows::Bits;

pub mod bases;
mod encoding;
mod laws;
mod parts;

pub use encoding::encode;
pub use laws::{table_laws, word_in_one_row};
pub use parts::{Dtype, OffsetReg, ShiftAmount, Size, SizeFromH, SizeFromS, StoreSizes};

/// The number of a general-purpose register. 31 is the zero register, or SP where the instruction
/// says so.
pub type Reg = Bits<5>;

/// The number of a vector register.
pub type VectorReg = Bits<5>;

/// The number of a predicate register.
pub type PredicateReg = Bits<4>;

/// The number of a governing predicate register, P0 to P7.
pub type GoverningReg = Bits<3>;

/// AND, BIC, EOR, ORR and ANDS on predicates, with zeroing ("AND (predicates)" and its like).
#[derive(Clone, Copy)]
pub enum PredicateLogicalOp {
    And,
    Bic,
    Eor,
    Orr,
    Ands,
}

/// BRKA and BRKB, with zeroing.
#[derive(Clone, Copy)]
pub enum BreakOp {
    Brka,
    Brkb,
}

/// CNTB, CNTH, CNTW and CNTD, with pattern ALL and a multiplier of 1.
#[derive(Clone, Copy)]
pub enum ElementCountOp {
    Cntb,
    Cnth,
    Cntw,
    Cntd,
}

/// ADD and SUB of whole vectors ("ADD (vectors, unpredicated)" and its like).
#[derive(Clone, Copy)]
pub enum AddSubOp {
    Add,
    Sub,
}

/// AND, ORR, EOR and BIC of whole vectors ("AND (vectors, unpredicated)" and its like).
#[derive(Clone, Copy)]
pub enum BitwiseOp {
    And,
    Orr,
    Eor,
    Bic,
}

/// LSL, LSR and ASR by a constant ("LSL (immediate, unpredicated)" and its like).
#[derive(Clone, Copy)]
pub enum ShiftImmediateOp {
    Lsl,
    Lsr,
    Asr,
}

/// Operations on the active elements of two vectors, the first of which they change ("ADD (vectors,
/// predicated)" and its like).
#[derive(Clone, Copy)]
pub enum BinaryPredicatedOp {
    Add,
    Sub,
    Smax,
    Umax,
    Smin,
    Umin,
    Mul,
    Orr,
    Eor,
    And,
}

/// ABS, NEG and NOT of the active elements of a vector.
#[derive(Clone, Copy)]
pub enum UnaryPredicatedOp {
    Abs,
    Neg,
    Not,
}

/// Whether elements are sign-extended (SXTB, SXTH, SXTW) or zero-extended (UXTB, UXTH, UXTW).
#[derive(Clone, Copy)]
pub enum ExtendOp {
    Signed,
    Unsigned,
}

/// Reductions of the active elements to one scalar in a vector register.
#[derive(Clone, Copy)]
pub enum ReductionOp {
    Uaddv,
    Smaxv,
    Umaxv,
    Sminv,
    Uminv,
    Orv,
    Eorv,
    Andv,
}

/// The conditions of "CMP<cc> (vectors)": HS and HI unsigned, GE and GT signed.
#[derive(Clone, Copy)]
pub enum VectorCompareOp {
    Hs,
    Hi,
    Ge,
    Gt,
    Eq,
    Ne,
}

/// Loads of doublewords from a base and the offsets in a vector ("LD1B (scalar plus vector)" and its like): the element
/// in memory, and whether its sign is extended.
#[derive(Clone, Copy)]
pub enum GatherOp {
    Ld1b,
    Ld1h,
    Ld1w,
    Ld1d,
    Ld1sb,
    Ld1sh,
    Ld1sw,
}

/// An SVE instruction. Each value has a word, and is the only one that has it.
#[derive(Clone, Copy)]
pub enum Sve {
    /// "PTRUE", with pattern ALL.
    Ptrue {
        pd: PredicateReg,
        size: Size,
    },
    /// "PFALSE".
    Pfalse {
        pd: PredicateReg,
    },
    /// "WHILELO", of X registers.
    Whilelo {
        pd: PredicateReg,
        rn: Reg,
        rm: Reg,
        size: Size,
    },
    /// "PTEST".
    Ptest {
        pn: PredicateReg,
        pg: PredicateReg,
    },
    /// "AND (predicates)", "BIC (predicates)", "EOR (predicates)", "ORR (predicates)", "ANDS".
    PredicateLogical {
        op: PredicateLogicalOp,
        pd: PredicateReg,
        pn: PredicateReg,
        pg: PredicateReg,
        pm: PredicateReg,
    },
    /// "BRKA", "BRKB".
    Break {
        op: BreakOp,
        pd: PredicateReg,
        pn: PredicateReg,
        pg: PredicateReg,
    },
    /// "RDFFR (unpredicated)".
    Rdffr {
        pd: PredicateReg,
    },
    /// "RDFFR (predicated)".
    RdffrPredicated {
        pd: PredicateReg,
        pg: PredicateReg,
    },
    /// "SETFFR".
    Setffr,
    /// "WRFFR".
    Wrffr {
        pn: PredicateReg,
    },
    /// "CNTB, CNTD, CNTH, CNTW".
    ElementCount {
        op: ElementCountOp,
        rd: Reg,
    },
    /// "INCP (scalar)".
    Incp {
        rd: Reg,
        pm: PredicateReg,
        size: Size,
    },
    /// "CNTP".
    Cntp {
        rd: Reg,
        pn: PredicateReg,
        pg: PredicateReg,
        size: Size,
    },
    /// "DUP (scalar)". Rn 31 is SP.
    DupScalar {
        zd: VectorReg,
        rn: Reg,
        size: Size,
    },
    /// "INDEX (scalar, immediate)": `imm5` is a signed number in two's complement.
    IndexScalarImmediate {
        zd: VectorReg,
        rn: Reg,
        imm5: Bits<5>,
        size: Size,
    },
    /// "SEL (vectors)".
    Sel {
        zd: VectorReg,
        zn: VectorReg,
        pg: PredicateReg,
        zm: VectorReg,
        size: Size,
    },
    /// "ADD (vectors, unpredicated)", "SUB (vectors, unpredicated)".
    AddSub {
        op: AddSubOp,
        zd: VectorReg,
        zn: VectorReg,
        zm: VectorReg,
        size: Size,
    },
    /// "AND (vectors, unpredicated)", "ORR (vectors, unpredicated)", "EOR (vectors, unpredicated)",
    /// "BIC (vectors, unpredicated)".
    Bitwise {
        op: BitwiseOp,
        zd: VectorReg,
        zn: VectorReg,
        zm: VectorReg,
    },
    /// "LSL (immediate, unpredicated)", "LSR (immediate, unpredicated)", "ASR (immediate,
    /// unpredicated)".
    ShiftImmediate {
        op: ShiftImmediateOp,
        zd: VectorReg,
        zn: VectorReg,
        amount: ShiftAmount,
    },
    /// "ADD (vectors, predicated)", "SUB (vectors, predicated)", "SMAX (vectors)", "UMAX (vectors)",
    /// "SMIN (vectors)", "UMIN (vectors)", "MUL (vectors, predicated)", "ORR (vectors, predicated)",
    /// "EOR (vectors, predicated)", "AND (vectors, predicated)".
    BinaryPredicated {
        op: BinaryPredicatedOp,
        zdn: VectorReg,
        zm: VectorReg,
        pg: GoverningReg,
        size: Size,
    },
    /// "ABS", "NEG", "NOT (vector)".
    UnaryPredicated {
        op: UnaryPredicatedOp,
        zd: VectorReg,
        zn: VectorReg,
        pg: GoverningReg,
        size: Size,
    },
    /// "SXTB, SXTH, SXTW", "UXTB, UXTH, UXTW": of bytes.
    ExtendByte {
        op: ExtendOp,
        zd: VectorReg,
        zn: VectorReg,
        pg: GoverningReg,
        size: SizeFromH,
    },
    /// "SXTB, SXTH, SXTW", "UXTB, UXTH, UXTW": of halfwords.
    ExtendHalfword {
        op: ExtendOp,
        zd: VectorReg,
        zn: VectorReg,
        pg: GoverningReg,
        size: SizeFromS,
    },
    /// "SXTB, SXTH, SXTW", "UXTB, UXTH, UXTW": of words, to doublewords.
    ExtendWord {
        op: ExtendOp,
        zd: VectorReg,
        zn: VectorReg,
        pg: GoverningReg,
    },
    /// "UADDV", "SMAXV", "UMAXV", "SMINV", "UMINV", "ORV", "EORV", "ANDV".
    Reduction {
        op: ReductionOp,
        zd: VectorReg,
        zn: VectorReg,
        pg: GoverningReg,
        size: Size,
    },
    /// "CMP<cc> (vectors)".
    CompareVectors {
        op: VectorCompareOp,
        pd: PredicateReg,
        zn: VectorReg,
        pg: GoverningReg,
        zm: VectorReg,
        size: Size,
    },
    /// "LD1B (scalar plus scalar)" and its like for all memory accesses. Rn 31 is SP.
    ContiguousLoad {
        zt: VectorReg,
        rn: Reg,
        pg: GoverningReg,
        offset: OffsetReg,
        dtype: Dtype,
    },
    /// "LDFF1B (scalar plus scalar)" and its like. Rn 31 is SP, Rm 31 the zero register.
    FirstFaultLoad {
        zt: VectorReg,
        rn: Reg,
        pg: GoverningReg,
        rm: Reg,
        dtype: Dtype,
    },
    /// "LDNF1B" and its like, with an offset of 0. Rn 31 is SP.
    NonFaultLoad {
        zt: VectorReg,
        rn: Reg,
        pg: GoverningReg,
        dtype: Dtype,
    },
    /// "LD1B (scalar plus vector)" and its like, with unscaled offsets of 64 bits. Rn 31 is SP.
    GatherLoad {
        op: GatherOp,
        zt: VectorReg,
        rn: Reg,
        pg: GoverningReg,
        zm: VectorReg,
    },
    /// "ST1B (scalar plus scalar)" and its like. Rn 31 is SP.
    ContiguousStore {
        zt: VectorReg,
        rn: Reg,
        pg: GoverningReg,
        offset: OffsetReg,
        sizes: StoreSizes,
    },
}
