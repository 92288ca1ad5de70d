//! The types of a kernel's expressions.
#![tactic(auto)]

mod checker;
mod fault;
mod kernels;
mod notes;
mod rules;
mod statements;
mod terms;

pub use checker::check;
pub use fault::TypeFault;
