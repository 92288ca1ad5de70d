//! The outside as values that a caller hands in: files by name, places for bytes to go to and
//! sources that they come from, in memory and over the real thing.
#![tactic(auto)]

mod calls;
pub mod files;
pub mod memory_files;
pub mod memory_sink;
pub mod memory_source;
pub mod sink;
pub mod source;
pub mod std_files;
pub mod std_sink;
pub mod std_source;
