//! The evaluator.

ghost use Rattle.std.specs.Prelude.{◌≡◌, ◌≤◌, length, IfOk, OnErr};
ghost use Rattle.kernel_tree.specs.Plain.{program_of};
ghost use Rattle.kernel_tree.specs.Checked.{kernel_of};
ghost use Rattle.kernel_meaning.specs.ScalarRun.{scalar_run, first_leave};
ghost use Rattle.kernel_meaning.specs.Answers.{IsOutcome};

use crate::run::run;
use crate::start::start;
use guest_types::guest::GuestMemory;
use kernel_meaning::ScalarOutcome;
use kernel_plan::resolve_kernel;
use kernel_tree::Checked;
use std::alloc::{AllocError, Global};

/// Runs a kernel one iteration at a time, at most `limit` of them.
///
/// Arguments are words: a scalar one is wrapped to its type, an array one is an address, and missing ones are zero.
/// All memory of the evaluator's own is taken before the first iteration.
pub fn scalar_run<M: GuestMemory>(
    alloc: Global,
    kernel: &Checked,
    args: &[u64],
    memory: &mut M,
    limit: u64,
) -> Result<ScalarOutcome, AllocError>
    requires few { length args.now ≤ 8 }
    // It is the outcome of ScalarRun with its memory, and Spent exactly where more than `limit` iterations begin.
    ensures outcome { let k = program_of (kernel_of kernel.now) in
        IfOk result (λ outcome. IsOutcome outcome limit (scalar_run k args.now (M.memory memory.old))
        (M.memory memory.new) (first_leave k args.now limit (M.memory memory.old))) }
    ensures unchanged { OnErr result (M.memory memory.new ≡ M.memory memory.old) }
{
    let kernel = kernel.kernel();
    let mut slots = start(alloc, &kernel.params, args)?;
    let plan = resolve_kernel(alloc, kernel)?;
    let outcome = run(&plan, limit, memory, &mut slots);
    Ok(outcome)
}
