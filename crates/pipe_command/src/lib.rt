//! The command `pipe`: the lines of a script, each over the pages of one map as those before left them.
#![tactic(auto)]

mod lines;
mod loaded;
pub mod pipe;
mod runs;
mod script;
