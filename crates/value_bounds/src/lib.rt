//! Bounds of values, from the tree alone.
#![tactic(auto)]

mod bounds;
pub mod laws;
mod operators;
mod terms;

pub use bounds::Bounds;
pub use terms::{binary_stays, bounds_of, shift_stays, unary_stays};
