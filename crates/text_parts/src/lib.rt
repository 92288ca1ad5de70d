//! The parts of a text of bytes: its lines, and the words of a line.
#![tactic(auto)]

mod first_part;

pub use first_part::cut;
