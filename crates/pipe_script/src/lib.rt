//! Scripts of several runs: their lines, and why one is refused.
#![tactic(auto)]

pub mod fault;
pub mod pipe_line;
mod script;
mod script_line;

pub use fault::PipeFault;
pub use pipe_line::PipeLine;
pub use script::read_script;
