//! Why a command is refused: the status that tells so, and the line.
#![tactic(auto)]

mod error_line;
pub mod refusal;

pub use error_line::put_refusal;
