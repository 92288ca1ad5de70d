//! Runs over the pages of one map: whether the map fits beside an image, and one run.
#![tactic(auto)]

mod fit;
pub mod line;

pub use fit::fits;
pub use line::{LineOutcome, run_line};
