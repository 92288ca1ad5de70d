//! Why a text is refused.

use thiserror::Error;

/// Why lines of texts of words are refused. Lines count from 1.
#[derive(Clone, Copy, Debug, PartialEq, Eq, Error)]
pub enum AsmFault {
    #[error("too long")]
    TooLong,
    /// The line has none of the forms.
    #[error("bad line {line}")]
    BadLine { line: u32 },
    /// The digits of a line of a listing are not the word of its text: `want` is the word, `found` the digits.
    #[error("word differs at line {line}")]
    Differs { line: u32, want: u32, found: u32 },
    #[error("too many words")]
    TooManyWords,
    #[error("out of memory")]
    Memory,
}
