//! The machine that runs A64 and SVE instructions, at every vector length.
#![tactic(auto)]

mod advance;
mod debugged;
mod decoded;
mod decoding;
mod history;
mod instruction;
mod keeping;
mod lanes;
mod look_up;
mod machine;
mod memory;
mod operations;
mod predicates;
mod ready;
mod scalars;
mod snapshot;
mod vector_step;
mod vectors;

pub use machine::Machine;
