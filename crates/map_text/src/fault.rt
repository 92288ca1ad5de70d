//! Why a map is refused.

use thiserror::Error;

/// Why a text is no page map that may stand beside an image. Lines count from 1.
#[derive(Clone, Copy, Debug, PartialEq, Eq, Error)]
pub enum MapFault {
    /// The line has none of the forms.
    #[error("bad line {line}")]
    BadLine { line: u64 },
    /// The line maps a page that an earlier line or the image has.
    #[error("clash at line {line}")]
    Clash { line: u64 },
    /// The line sets a byte in no page of an earlier line.
    #[error("unmapped at line {line}")]
    Unmapped { line: u64 },
    #[error("too many pages")]
    TooManyPages,
    #[error("out of memory")]
    Memory,
}
