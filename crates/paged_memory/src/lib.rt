//! The memory of a guest as pages, found by number in a few steps.
#![tactic(auto)]

mod epoch;
mod head;
mod log;
mod merge;
pub mod number;
pub mod pages;
mod place;
pub mod run;
pub mod span_writer;
mod store;
