//! Tests of the commands over files, inputs and outputs in memory, calls of which fail. They stand in a crate of their own, so that sve_top is not proved again with them.
#![tactic(auto)]

#[cfg(test)]
mod failing;
#[cfg(test)]
mod program;
