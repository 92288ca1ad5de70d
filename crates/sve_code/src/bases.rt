//! The base word of each row of the SVE table, by the name of its row: its bits outside the fields,
//! as `specs/Table.antt` has them.

pub const PTRUE: u32 = 0x2518_e3e0;

pub const PFALSE: u32 = 0x2518_e400;

pub const WHILELO: u32 = 0x2520_1c00;

pub const PTEST: u32 = 0x2550_c000;

pub const P_AND: u32 = 0x2500_4000;

pub const P_BIC: u32 = 0x2500_4010;

pub const P_EOR: u32 = 0x2500_4200;

pub const P_ORR: u32 = 0x2580_4000;

pub const P_ANDS: u32 = 0x2540_4000;

pub const BRKA: u32 = 0x2510_4000;

pub const BRKB: u32 = 0x2590_4000;

pub const RDFFR: u32 = 0x2519_f000;

pub const RDFFR_Z: u32 = 0x2518_f000;

pub const SETFFR: u32 = 0x252c_9000;

pub const WRFFR: u32 = 0x2528_9000;

pub const CNTB: u32 = 0x0420_e3e0;

pub const CNTH: u32 = 0x0460_e3e0;

pub const CNTW: u32 = 0x04a0_e3e0;

pub const CNTD: u32 = 0x04e0_e3e0;

pub const INCP: u32 = 0x252c_8800;

pub const CNTP: u32 = 0x2520_8000;

pub const DUP: u32 = 0x0520_3800;

pub const INDEX_ROW: u32 = 0x0420_4400;

pub const SEL: u32 = 0x0520_c000;

pub const Z_ADD: u32 = 0x0420_0000;

pub const Z_SUB: u32 = 0x0420_0400;

pub const Z_AND: u32 = 0x0420_3000;

pub const Z_ORR: u32 = 0x0460_3000;

pub const Z_EOR: u32 = 0x04a0_3000;

pub const Z_BIC: u32 = 0x04e0_3000;

pub const LSL_IMM: u32 = 0x0420_9c00;

pub const LSR_IMM: u32 = 0x0420_9400;

pub const ASR_IMM: u32 = 0x0420_9000;

pub const M_ADD: u32 = 0x0400_0000;

pub const M_SUB: u32 = 0x0401_0000;

pub const M_SMAX: u32 = 0x0408_0000;

pub const M_UMAX: u32 = 0x0409_0000;

pub const M_SMIN: u32 = 0x040a_0000;

pub const M_UMIN: u32 = 0x040b_0000;

pub const M_MUL: u32 = 0x0410_0000;

pub const M_ORR: u32 = 0x0418_0000;

pub const M_EOR: u32 = 0x0419_0000;

pub const M_AND: u32 = 0x041a_0000;

pub const M_ABS: u32 = 0x0416_a000;

pub const M_NEG: u32 = 0x0417_a000;

pub const M_NOT: u32 = 0x041e_a000;

pub const SXTB: u32 = 0x0410_a000;

pub const UXTB: u32 = 0x0411_a000;

pub const SXTH: u32 = 0x0412_a000;

pub const UXTH: u32 = 0x0413_a000;

pub const SXTW: u32 = 0x04d4_a000;

pub const UXTW: u32 = 0x04d5_a000;

pub const UADDV: u32 = 0x0401_2000;

pub const SMAXV: u32 = 0x0408_2000;

pub const UMAXV: u32 = 0x0409_2000;

pub const SMINV: u32 = 0x040a_2000;

pub const UMINV: u32 = 0x040b_2000;

pub const ORV: u32 = 0x0418_2000;

pub const EORV: u32 = 0x0419_2000;

pub const ANDV: u32 = 0x041a_2000;

pub const CMPHS: u32 = 0x2400_0000;

pub const CMPHI: u32 = 0x2400_0010;

pub const CMPGE: u32 = 0x2400_8000;

pub const CMPGT: u32 = 0x2400_8010;

pub const CMPEQ: u32 = 0x2400_a000;

pub const CMPNE: u32 = 0x2400_a010;

pub const LD1: u32 = 0xa400_4000;

pub const LDFF1: u32 = 0xa400_6000;

pub const LDNF1: u32 = 0xa410_a000;

pub const GLD1B: u32 = 0xc440_c000;

pub const GLD1H: u32 = 0xc4c0_c000;

pub const GLD1W: u32 = 0xc540_c000;

pub const GLD1D: u32 = 0xc5c0_c000;

pub const GLD1SB: u32 = 0xc440_8000;

pub const GLD1SH: u32 = 0xc4c0_8000;

pub const GLD1SW: u32 = 0xc540_8000;

pub const ST1: u32 = 0xe400_4000;
