//! The command `object`.
#![tactic(auto)]

pub mod object;
