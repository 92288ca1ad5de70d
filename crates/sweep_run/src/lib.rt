//! The file of a sweep, and what is printed of its runs.
#![tactic(auto)]

mod file;
pub mod laws;
mod lines;

pub use file::sweep_file;
pub use lines::sweep_text;
