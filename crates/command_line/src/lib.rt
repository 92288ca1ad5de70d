//! The words of a command line, read with `clap`.
#![tactic(auto)]

mod check;
pub mod command;
pub mod number;
mod options;
mod place;
pub mod read;
mod taken;
mod word;
