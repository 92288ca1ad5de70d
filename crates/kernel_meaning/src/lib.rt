//! What a kernel means: its run, one iteration after another.
#![tactic(auto)]

pub mod laws;
mod outcome;
mod types;
mod words;

pub use outcome::ScalarOutcome;
pub use types::{binary_leaves, fits, greatest, least, unary_leaves};
pub use words::{shift_count, word, wrap, wrapped};
