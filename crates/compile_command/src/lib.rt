//! The command `compile`.
#![tactic(auto)]

pub mod compile;
