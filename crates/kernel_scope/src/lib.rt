//! The names at a place of a kernel, and the type that an expression has of its own there.
#![tactic(auto)]

pub mod names;
pub mod own;
pub mod scope;

pub use names::{
    close, declare, declared_count, define, empty, is_taken, leave, lookup, reserve, visible_count,
};
pub use own::{
    accumulator_type, array_type, element_type, first, is_index, is_index_term, literal_value,
    loop_index, own_type, side_type, value_type,
};
pub use scope::{Local, Scope};
