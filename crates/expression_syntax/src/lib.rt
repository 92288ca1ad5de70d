//! The reader of expressions, and of single tokens, from left to right.
#![tactic(auto)]

mod build;
mod class;
mod expression;
mod front;
mod stop;

pub use expression::term_then;
pub use front::{accept, copy_name, expect, expect_name, expect_type, name_then};
pub use stop::Stop;
