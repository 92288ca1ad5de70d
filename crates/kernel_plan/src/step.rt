//! Resolved statements.

use crate::node::Node;
use kernel_tree::Ty;

/// A resolved statement.
#[derive(Drop)]
pub enum Step {
    /// A slot takes a value.
    Set {
        slot: usize,
        value: Node,
    },
    /// The element, at an offset from the loop variable, of the array whose address is in a slot takes a value.
    Put {
        base: usize,
        ty: Option<Ty>,
        index: usize,
        offset: i128,
        value: Node,
    },
    /// The element with a computed number of such an array does.
    Store {
        base: usize,
        ty: Option<Ty>,
        number: Node,
        value: Node,
    },
    If {
        cond: Node,
        yes: Vec<Step>,
        no: Vec<Step>,
    },
    Break {
        cond: Node,
    },
}
