//! Why a file is refused.

use thiserror::Error;

/// Why a file is no static AArch64 executable that can be loaded. Offsets and lengths are in bytes.
#[derive(Clone, Copy, Debug, PartialEq, Eq, Error)]
pub enum ElfFault {
    /// The file has `have` bytes, and its header asks for `need`.
    #[error("short {need} {have}")]
    Short { need: u128, have: u64 },
    #[error("not elf")]
    NotElf,
    #[error("not aarch64")]
    NotAarch64,
    #[error("not static")]
    NotStatic,
    /// The program header of this index, from 0, cannot be loaded.
    #[error("bad segment {index}")]
    BadSegment { index: u32 },
    #[error("segments clash")]
    SegmentsClash,
    #[error("too many pages")]
    TooManyPages,
    #[error("out of memory")]
    Memory,
}
