//! The kernel that a sweep compiles, with its pages, its arguments and its lines.
#![tactic(auto)]

mod draw;
pub mod input;
pub mod laws;
pub mod line;
pub mod pages;
mod text;
