//! The code of statements and of a kernel's loop by definition, what it does, and what a loop holds in registers.
#![tactic(auto)]

mod arrays;
pub mod laws;
pub mod loosening;
pub mod numbers;

pub use laws::{begin_runs, scalar_runs};
