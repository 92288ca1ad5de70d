//! Appends the code of expressions and conditions.
#![tactic(auto)]

pub mod emit;
mod fusion;
mod literal;
pub mod operations;
mod registers;
mod side;
mod value;

pub use emit::{emit_jump, emit_loose, emit_side};
pub use side::Side;
pub use value::emit_value;
