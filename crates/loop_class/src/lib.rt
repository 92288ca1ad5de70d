//! The class of a kernel: whether the iterations of its loop may be done many at once, statement by statement.
#![tactic(auto)]

mod decide;
mod elements;
mod updates;

pub use decide::{class, class_by};
