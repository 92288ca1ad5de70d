//! The commands on programs: `list`, `run`, `debug` and `asm`.
#![tactic(auto)]

pub mod asm;
pub mod debug;
pub mod laws;
pub mod list;
mod listing;
mod program;
pub mod run;
