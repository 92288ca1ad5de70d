//! A debugger: a machine that is run step by step, and looked at between steps, by the lines of a session.
#![tactic(auto)]

pub mod command;
pub mod debugger;
mod digits;
mod kept_run;
mod line;
mod put;
mod run;
pub mod session;
mod show;
