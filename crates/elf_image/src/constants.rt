//! Numbers of the ELF object file format (System V ABI, "Object Files"; ELF for the Arm 64-bit Architecture), by their names there.

/// `e_type` of an executable file.
pub const ET_EXEC: u16 = 2;

/// `e_machine` of AArch64.
pub const EM_AARCH64: u16 = 183;

/// `e_version`.
pub const EV_CURRENT: u32 = 1;

/// `p_type` of a segment that is loaded.
pub const PT_LOAD: u32 = 1;

/// `p_type` of dynamic linking information.
pub const PT_DYNAMIC: u32 = 2;

/// `p_type` of the path of an interpreter.
pub const PT_INTERP: u32 = 3;

/// The size of the file header, in bytes.
pub const HEADER_SIZE: u16 = 64;

/// The size of a program header, in bytes.
pub const PROGRAM_HEADER_SIZE: u16 = 56;
