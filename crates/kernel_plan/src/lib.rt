//! Resolves a checked kernel: each name is a slot, each type and each offset from the loop variable is known.
#![tactic(auto)]

mod kernels;
mod names;
mod node;
mod offset;
mod plan;
mod resolve;
mod statements;
mod step;

pub use kernels::resolve_kernel;
pub use names::MOST_SLOTS;
pub use node::Node;
pub use plan::{Plan, ResolvedLoop};
pub use step::Step;
