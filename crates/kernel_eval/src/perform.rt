//! Does resolved statements.

ghost use Rattle.std.specs.Prelude.{◌≡◌};
ghost use Rattle.kernel_plan.specs.Trees.{task_of, tasks_of};
ghost use Rattle.kernel_eval.specs.Slots as meaning;
ghost use Rattle.kernel_eval.specs.Slots.{block_end_of};
ghost use Rattle.guest_types.specs.Memory.{Memory};

use crate::block_end::BlockEnd;
use crate::element::write;
use crate::operate::stream_number;
use crate::value::{holds, slot_at, value};
use guest_types::guest::GuestMemory;
use kernel_plan::Step;

fn set_slot(slots: &mut [i128], slot: usize, value: Option<i128>) -> BlockEnd
    ensures { (memory : Memory) → block_end_of result memory slots.new ≡ meaning.set_slot slot memory slots.old value }
{
    match value {
        None => BlockEnd::Faulted,
        Some(value) => {
            if slot < slots.len() {
                slots[slot] = value;
            }
            BlockEnd::Next
        }
    }
}

fn leave(cond: Option<bool>) -> BlockEnd
    ensures { (memory : Memory) (slots : meaning.Slots)
        → block_end_of result memory slots ≡ meaning.quit memory slots cond }
{
    match cond {
        None => BlockEnd::Faulted,
        Some(true) => BlockEnd::Broke,
        Some(false) => BlockEnd::Next,
    }
}

#[cycle(steps)]
fn perform_step<M: GuestMemory>(step: &Step, memory: &mut M, slots: &mut [i128]) -> BlockEnd
    ensures { block_end_of result (M.memory memory.new) slots.new
        ≡ meaning.do_task (task_of step.now) (M.memory memory.old) slots.old }
{
    match step {
        Step::Set { slot, value: node } => {
            let found = value(node, &*memory, &*slots);
            set_slot(slots, *slot, found)
        }
        Step::Put {
            base,
            ty,
            index,
            offset,
            value: node,
        } => {
            let found = value(node, &*memory, &*slots);
            let at = stream_number(slot_at(slots, *index), *offset);
            write(memory, *ty, slot_at(slots, *base), Some(at), found)
        }
        Step::Store {
            base,
            ty,
            number,
            value: node,
        } => {
            let found = value(node, &*memory, &*slots);
            let at = value(number, &*memory, &*slots);
            write(memory, *ty, slot_at(slots, *base), at, found)
        }
        Step::If { cond, yes, no } => match holds(cond, &*memory, &*slots) {
            None => BlockEnd::Faulted,
            Some(true) => perform(yes, memory, slots),
            Some(false) => perform(no, memory, slots),
        },
        Step::Break { cond } => leave(holds(cond, &*memory, &*slots)),
    }
}

/// Does statements in order.
#[cycle(steps)]
pub fn perform<M: GuestMemory>(steps: &[Step], memory: &mut M, slots: &mut [i128]) -> BlockEnd
    ensures { block_end_of result (M.memory memory.new) slots.new
        ≡ meaning.do_tasks (tasks_of steps.now) (M.memory memory.old) slots.old }
{
    for step in steps {
        match perform_step(step, memory, slots) {
            BlockEnd::Next => {}
            BlockEnd::Broke => return BlockEnd::Broke,
            BlockEnd::Faulted => return BlockEnd::Faulted,
        }
    }
    BlockEnd::Next
}
