//! The words of a function, around those of a kernel.
#![tactic(auto)]

mod class;
mod frame;
mod saved;
mod words;
mod written;

pub use words::function_words;
