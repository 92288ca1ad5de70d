//! What commands answer: the files that they read, and how a run is told.
#![tactic(auto)]

pub mod files;
pub mod run_report;
