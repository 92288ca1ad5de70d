//! The command `sweep`.
#![tactic(auto)]

pub mod sweep;
