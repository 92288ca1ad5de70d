//! The machine: its instructions, its state, its files and its runs, as definitions that all other crates cite.
#![tactic(auto)]

pub mod debuggee;
pub mod elf_fault;
pub mod laws;
pub mod outcome;
