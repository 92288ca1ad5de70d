//! Relocatable objects of one function.
#![tactic(auto)]

mod laws;
mod write;

pub use laws::objects_are_read;
pub use write::write_object;
