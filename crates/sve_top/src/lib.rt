//! The commands of svec.
#![tactic(auto)]

pub mod top;
