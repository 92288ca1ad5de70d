//! Resolved kernels.

use crate::node::Node;
use crate::step::Step;

/// A resolved loop.
#[derive(Drop)]
pub struct ResolvedLoop {
    /// The slot of the loop's bound.
    pub bound: usize,
    /// The slot of the loop's variable.
    pub index: usize,
    pub body: Vec<Step>,
}

/// A resolved kernel.
#[derive(Drop)]
pub struct Plan {
    /// What sets the accumulators.
    pub start: Vec<Step>,
    pub for_loop: Option<ResolvedLoop>,
    pub answer: Option<Node>,
}
