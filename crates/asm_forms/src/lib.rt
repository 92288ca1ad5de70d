//! The forms of the texts of instruction words, and the one word that may have a text.
#![tactic(auto)]

mod a64_forms;
mod blanks;
mod forms;
mod guess;
mod rules;
mod sums;
mod sve_forms;

pub use guess::candidate;
