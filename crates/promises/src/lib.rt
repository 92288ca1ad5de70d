//! What a compiled file owes its kernel, and why a kernel is not compiled.
#![tactic(auto)]

mod fault;
mod laws;

pub use fault::CompileFault;
pub use laws::{faithful_files, runs_without_stops, scalar_files};
