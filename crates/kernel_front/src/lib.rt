//! From a text to a checked kernel.
#![tactic(auto)]

mod accepting;
mod fault;

pub use accepting::{accept, one_verdict, some_verdict};
pub use fault::KernelFault;
