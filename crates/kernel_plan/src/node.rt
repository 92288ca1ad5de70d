//! Expressions with their types, in which each name is a slot.

use kernel_tree::{BinaryOp, CompareOp, Ty, UnaryOp};

/// A resolved expression: a value or a condition.
#[derive(Drop)]
pub enum Node {
    Constant(i128),
    Slot(usize),
    /// The element, at an offset from the loop variable, of the array whose address is in a slot.
    Stream {
        base: usize,
        ty: Option<Ty>,
        index: usize,
        offset: i128,
    },
    /// The element with a computed number of such an array.
    Element {
        base: usize,
        ty: Option<Ty>,
        number: Box<Node>,
    },
    Unary {
        op: UnaryOp,
        ty: Option<Ty>,
        arg: Box<Node>,
    },
    Binary {
        op: BinaryOp,
        ty: Option<Ty>,
        left: Box<Node>,
        right: Box<Node>,
    },
    Shift {
        left_shift: bool,
        count: i128,
        ty: Option<Ty>,
        arg: Box<Node>,
    },
    Cast {
        ty: Ty,
        arg: Box<Node>,
    },
    Select {
        cond: Box<Node>,
        yes: Box<Node>,
        no: Box<Node>,
    },
    Compare {
        op: CompareOp,
        left: Box<Node>,
        right: Box<Node>,
    },
    And {
        left: Box<Node>,
        right: Box<Node>,
    },
    Or {
        left: Box<Node>,
        right: Box<Node>,
    },
    Not {
        arg: Box<Node>,
    },
}
