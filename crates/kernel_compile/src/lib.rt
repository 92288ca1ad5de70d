//! The whole code of a kernel: registers, the code before the loop, the loop, and the words that they come to.
#![tactic(auto)]

mod compile;
mod emit;
mod laws;
mod registers;

pub use compile::{Code, compile_kernel};
