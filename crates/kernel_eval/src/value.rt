//! Values of resolved expressions.

ghost use Rattle.std.specs.Prelude.{◌≡◌};
ghost use Rattle.kernel_plan.specs.Trees.{tree_of};
ghost use Rattle.kernel_eval.specs.Slots as meaning;

use crate::element::read;
use crate::operate::{binary, cast, compare, select, shift, stream_number, unary};
use guest_types::guest::GuestMemory;
use kernel_plan::Node;

/// The value of a slot, and 0 past the last one.
#[inline(always)]
pub fn slot_at(slots: &[i128], slot: usize) -> i128
    ensures { result ≡ meaning.slot_at slots.now slot }
{
    if slot < slots.len() { slots[slot] } else { 0 }
}

// An element of an array, 0 where the expression is none, and None where a read faults.
#[inline(always)]
#[cycle(values)]
fn element<M: GuestMemory>(node: &Node, memory: &M, slots: &[i128]) -> Option<i128>
    ensures { result ≡ meaning.element_value (tree_of node.now) (M.memory memory.now) slots.now }
{
    match node {
        Node::Stream {
            base,
            ty,
            index,
            offset,
        } => {
            let number = stream_number(slot_at(slots, *index), *offset);
            read(memory, *ty, slot_at(slots, *base), Some(number))
        }
        Node::Element { base, ty, number } => {
            let number = value(number, memory, slots);
            read(memory, *ty, slot_at(slots, *base), number)
        }
        _ => Some(0),
    }
}

/// The value of an expression, and None where a read faults.
#[cycle(values)]
pub fn value<M: GuestMemory>(node: &Node, memory: &M, slots: &[i128]) -> Option<i128>
    ensures { result ≡ meaning.tree_value (tree_of node.now) (M.memory memory.now) slots.now }
{
    match node {
        Node::Constant(value) => Some(*value),
        Node::Slot(slot) => Some(slot_at(slots, *slot)),
        Node::Unary { op, ty, arg } => unary(*op, *ty, value(arg, memory, slots)),
        Node::Binary {
            op,
            ty,
            left,
            right,
        } => binary(
            *op,
            *ty,
            value(left, memory, slots),
            value(right, memory, slots),
        ),
        Node::Shift {
            left_shift,
            count,
            ty,
            arg,
        } => shift(*left_shift, *count, *ty, value(arg, memory, slots)),
        Node::Cast { ty, arg } => cast(*ty, value(arg, memory, slots)),
        Node::Select { cond, yes, no } => select(
            holds(cond, memory, slots),
            value(yes, memory, slots),
            value(no, memory, slots),
        ),
        _ => element(node, memory, slots),
    }
}

/// Whether a condition holds, and None where a read faults.
#[cycle(values)]
pub fn holds<M: GuestMemory>(node: &Node, memory: &M, slots: &[i128]) -> Option<bool>
    ensures { result ≡ meaning.tree_holds (tree_of node.now) (M.memory memory.now) slots.now }
{
    match node {
        Node::Compare { op, left, right } => compare(
            *op,
            value(left, memory, slots),
            value(right, memory, slots),
        ),
        Node::And { left, right } => match holds(left, memory, slots) {
            None => None,
            Some(true) => holds(right, memory, slots),
            Some(false) => Some(false),
        },
        Node::Or { left, right } => match holds(left, memory, slots) {
            None => None,
            Some(true) => Some(true),
            Some(false) => holds(right, memory, slots),
        },
        Node::Not { arg } => match holds(arg, memory, slots) {
            None => None,
            Some(truth) => Some(!truth),
        },
        _ => Some(false),
    }
}
