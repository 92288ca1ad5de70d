//! The reader of the kernel language.
#![tactic(auto)]

mod fault;
mod header;
mod kernel;
mod laws;
mod nesting;
mod statement;

pub use fault::ReadFault;
pub use kernel::read_kernel;
pub use laws::{read_or_no_tree, stops_once, stops_somewhere};
