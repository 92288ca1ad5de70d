//! Runs resolved kernels.

ghost use Rattle.std.specs.Prelude.{◌≡◌, option_map, slice_set};
ghost use Rattle.kernel_meaning.specs.Operators as operators;
ghost use Rattle.kernel_meaning.specs.ScalarRun as running;
ghost use Rattle.kernel_plan.specs.Trees.{tree_of};
ghost use Rattle.kernel_eval.specs.Slots as slots_of;
ghost use Rattle.kernel_eval.specs.SlotRuns as runs;
ghost use Rattle.kernel_plan.specs.Plans.{loop_plan_of, planned_of};
ghost use Rattle.kernel_eval.specs.SlotRuns.{limited_of, loop_state_of};

use crate::block_end::BlockEnd;
use crate::loop_state::{At, LoopState};
use crate::perform::perform;
use crate::value::{slot_at, value};
use guest_types::guest::GuestMemory;
use kernel_meaning::{ScalarOutcome, word};
use kernel_plan::{Node, Plan, ResolvedLoop};

fn put(slots: &mut [i128], slot: usize, value: i128)
    ensures { slots.new ≡ slice_set slots.old slot value }
{
    if slot < slots.len() {
        slots[slot] = value;
    }
}

// So many iterations.
fn follow<M: GuestMemory>(
    resolved: &ResolvedLoop,
    count: u64,
    memory: &mut M,
    slots: &mut [i128],
) -> LoopState
    ensures { loop_state_of result (M.memory memory.new) slots.new
        ≡ runs.slot_iterations (loop_plan_of resolved.now) count 0 (M.memory memory.old) slots.old }
{
    for at in 0..count {
        put(slots, resolved.index, at as i128);
        match perform(&resolved.body, memory, slots) {
            BlockEnd::Next => {}
            BlockEnd::Broke => return LoopState::Left(At { number: at }),
            BlockEnd::Faulted => return LoopState::Failed(At { number: at }),
        }
    }
    LoopState::Going
}

// The end of a run: the result, or a fault in its expression.
fn ended<M: GuestMemory>(
    answer: &Option<Node>,
    memory: &M,
    slots: &[i128],
    begun: u64,
) -> ScalarOutcome
    ensures { limited_of result (M.memory memory.now) ≡ runs.Ended (running.ended (M.memory memory.now) begun
        (runs.slot_answer (option_map tree_of answer.now) (M.memory memory.now) slots.now)) }
{
    match answer {
        None => ScalarOutcome::End { result: 0, begun },
        Some(node) => match value(node, memory, slots) {
            None => ScalarOutcome::Fault { begun },
            Some(value) => ScalarOutcome::End {
                result: word(value),
                begun,
            },
        },
    }
}

// The end of a loop.
fn close<M: GuestMemory>(
    answer: &Option<Node>,
    index: usize,
    memory: &M,
    slots: &mut [i128],
    done: u64,
    begun: u64,
) -> ScalarOutcome
    ensures { limited_of result (M.memory memory.now)
        ≡ runs.Ended (runs.slot_closed (option_map tree_of answer.now) index
        (M.memory memory.now) slots.old done begun) }
{
    put(slots, index, done as i128);
    ended(answer, memory, slots, begun)
}

fn run_loop<M: GuestMemory>(
    resolved: &ResolvedLoop,
    answer: &Option<Node>,
    limit: u64,
    memory: &mut M,
    slots: &mut [i128],
) -> ScalarOutcome
    ensures { limited_of result (M.memory memory.new)
        ≡ runs.slot_loop (option_map tree_of answer.now) (loop_plan_of resolved.now) limit
        (operators.word (slots_of.slot_at slots.old resolved.now.bound)) (M.memory memory.old) slots.old }
{
    let count = word(slot_at(slots, resolved.bound));
    match follow(resolved, count.min(limit), memory, slots) {
        LoopState::Going => {
            if limit < count {
                ScalarOutcome::Spent
            } else {
                close(answer, resolved.index, &*memory, slots, count, count)
            }
        }
        LoopState::Left(at) => close(
            answer,
            resolved.index,
            &*memory,
            slots,
            at.number,
            at.number + 1,
        ),
        LoopState::Failed(at) => ScalarOutcome::Fault {
            begun: at.number + 1,
        },
    }
}

/// A run of at most `limit` iterations.
pub fn run<M: GuestMemory>(
    plan: &Plan,
    limit: u64,
    memory: &mut M,
    slots: &mut [i128],
) -> ScalarOutcome
    ensures { limited_of result (M.memory memory.new)
        ≡ runs.slot_run (planned_of plan.now) limit (M.memory memory.old) slots.old }
{
    match perform(&plan.start, memory, slots) {
        BlockEnd::Next => match &plan.for_loop {
            None => ended(&plan.answer, &*memory, slots, 0),
            Some(resolved) => run_loop(resolved, &plan.answer, limit, memory, slots),
        },
        BlockEnd::Broke | BlockEnd::Faulted => ScalarOutcome::Fault { begun: 0 },
    }
}
