//! What the items of a loop do.

use kernel_tree::{BinaryOp, CompareOp, Ty, UnaryOp, UpdateOp};

/// Where an operand is held.
#[derive(Clone, Copy)]
pub enum Operand {
    /// In a literal of a type, as it is written.
    Constant(Option<Ty>, i128),
    /// In the parameter or the accumulator at a place: the parameters come first, in their order, and then the
    /// accumulators.
    Outer(u32),
    /// In the loop variable.
    LoopIndex,
    /// In what the item of this number makes.
    Made(u32),
}

/// What an item does, with its operands and their types. A condition is named by the number of its item.
#[derive(Clone, Copy)]
pub enum LoopOp<'a> {
    /// Reads the element at an offset from the loop variable.
    Load {
        array: &'a str,
        base: Operand,
        ty: Option<Ty>,
        offset: i32,
    },
    /// Reads the element at an index, which is below the reach where it has one.
    Gather {
        array: &'a str,
        base: Operand,
        ty: Option<Ty>,
        reach: Option<u32>,
        index_ty: Option<Ty>,
        index: Operand,
    },
    Unary {
        op: UnaryOp,
        ty: Option<Ty>,
        arg: Operand,
    },
    Binary {
        op: BinaryOp,
        ty: Option<Ty>,
        left: Operand,
        right: Operand,
    },
    /// Shifts by a count, to the left where `left` is true.
    Shift {
        left: bool,
        count: i128,
        ty: Option<Ty>,
        arg: Operand,
    },
    Cast {
        from: Option<Ty>,
        to: Ty,
        arg: Operand,
    },
    /// The value of a `let`.
    Let {
        ty: Option<Ty>,
        arg: Operand,
    },
    /// The one value where the condition holds, and else the other.
    Select {
        ty: Option<Ty>,
        cond: u32,
        yes: Operand,
        no: Operand,
    },
    /// Writes the element at an offset from the loop variable.
    Store {
        array: &'a str,
        base: Operand,
        ty: Option<Ty>,
        offset: i32,
        value: Operand,
    },
    /// Updates an accumulator.
    Update {
        name: &'a str,
        op: UpdateOp,
        ty: Option<Ty>,
        value: Operand,
    },
    /// Compares two values of a type.
    Compare {
        op: CompareOp,
        ty: Option<Ty>,
        left: Operand,
        right: Operand,
    },
    /// Holds where the condition does not: `!`, the mark of `||`, and `else`.
    Not(u32),
    /// Holds where the condition does: `&&`, whose right side is made where the left one holds.
    And(u32),
    /// Holds where one of two conditions does.
    Or(u32, u32),
    /// Leaves the loop where the condition holds.
    Break(u32),
}

/// An item of a loop that does something: its number in the listing, the item whose condition it is done under, and
/// what it does. A literal, a name, `then` and `end` do nothing.
#[derive(Clone, Copy)]
pub struct LoopItem<'a> {
    pub item: u32,
    pub mask: Option<u32>,
    pub op: LoopOp<'a>,
}
