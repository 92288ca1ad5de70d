//! Runs a kernel one iteration at a time.
#![tactic(auto)]

mod block_end;
mod element;
mod evaluator;
mod loop_state;
mod operate;
mod perform;
mod run;
mod start;
mod value;

pub use evaluator::scalar_run;
