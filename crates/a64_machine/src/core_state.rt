//! The registers that A64 instructions use.

/// The flags as they are kept: a comparison leaves its two numbers, from which the flags are computed where they are read.
#[derive(Clone, Copy, Debug, PartialEq, Eq)]
pub enum FlagState {
    /// Bits 3 to 0 are N, Z, C and V.
    Bits(u8),
    /// The flags of one number less another.
    Compared { left: u64, right: u64 },
}

/// The registers that A64 instructions use: X0 to X30, SP, PC and the flags. `vzero` is doubleword 0 of the vector register
/// that UMOV reads; the caller sets it before such an instruction.
#[derive(Clone, Copy, Debug, PartialEq, Eq)]
pub struct Core {
    pub x: [u64; 31],
    pub sp: u64,
    pub pc: u64,
    pub nzcv: FlagState,
    pub vzero: u64,
}
