//! The history of a machine that is run step by step: what it was at some counts of steps.
#![tactic(auto)]

pub mod history;
pub mod keepable;
