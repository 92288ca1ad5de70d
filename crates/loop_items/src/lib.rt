//! What the items of a loop do.
#![tactic(auto)]

mod context;
mod listed;
mod loop_list;
mod loop_names;
mod loop_statements;
mod loop_values;
mod operands;
mod visible;

pub use loop_list::loop_items;
