//! The base word of each row of the A64 table, by the name of its row: its bits outside the fields,
//! as `specs/Table.antt` has them.

pub const ADD_IMM: u32 = 0x9100_0000;

pub const SUB_IMM: u32 = 0xd100_0000;

pub const SUBS_IMM: u32 = 0xf100_0000;

pub const ADD: u32 = 0x8b00_0000;

pub const SUB: u32 = 0xcb00_0000;

pub const SUBS: u32 = 0xeb00_0000;

pub const LAND: u32 = 0x8a00_0000;

pub const ORR: u32 = 0xaa00_0000;

pub const EOR: u32 = 0xca00_0000;

pub const ORN: u32 = 0xaa20_0000;

pub const MOVZ: u32 = 0xd280_0000;

pub const MOVK: u32 = 0xf280_0000;

pub const MOVN: u32 = 0x9280_0000;

pub const MADD: u32 = 0x9b00_0000;

pub const MSUB: u32 = 0x9b00_8000;

pub const LSLV: u32 = 0x9ac0_2000;

pub const LSRV: u32 = 0x9ac0_2400;

pub const ASRV: u32 = 0x9ac0_2800;

pub const SBFM: u32 = 0x9340_0000;

pub const UBFM: u32 = 0xd340_0000;

pub const CSEL: u32 = 0x9a80_0000;

pub const CSINC: u32 = 0x9a80_0400;

pub const B: u32 = 0x1400_0000;

pub const B_COND: u32 = 0x5400_0000;

pub const CBZ: u32 = 0xb400_0000;

pub const CBNZ: u32 = 0xb500_0000;

pub const RET: u32 = 0xd65f_0000;

pub const SVC: u32 = 0xd400_0001;

pub const BRK: u32 = 0xd420_0000;

pub const NOP: u32 = 0xd503_201f;

pub const UMOV: u32 = 0x4e08_3c00;

pub const LDRB: u32 = 0x3940_0000;

pub const LDRSB: u32 = 0x3980_0000;

pub const STRB: u32 = 0x3900_0000;

pub const LDRH: u32 = 0x7940_0000;

pub const LDR_W: u32 = 0xb940_0000;

pub const LDR_X: u32 = 0xf940_0000;

pub const LDRSH: u32 = 0x7980_0000;

pub const LDRSW: u32 = 0xb980_0000;

pub const STRH: u32 = 0x7900_0000;

pub const STR_W: u32 = 0xb900_0000;

pub const STR_X: u32 = 0xf900_0000;

pub const LDRB_REGISTER: u32 = 0x3860_6800;

pub const LDRSB_REGISTER: u32 = 0x38a0_6800;

pub const STRB_REGISTER: u32 = 0x3820_6800;

pub const LDRH_REGISTER: u32 = 0x7860_6800;

pub const LDR_W_REGISTER: u32 = 0xb860_6800;

pub const LDR_X_REGISTER: u32 = 0xf860_6800;

pub const LDRSH_REGISTER: u32 = 0x78a0_6800;

pub const LDRSW_REGISTER: u32 = 0xb8a0_6800;

pub const STRH_REGISTER: u32 = 0x7820_6800;

pub const STR_W_REGISTER: u32 = 0xb820_6800;

pub const STR_X_REGISTER: u32 = 0xf820_6800;
