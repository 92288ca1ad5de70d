//! The slots at the start of a run.

ghost use Rattle.std.specs.Prelude.{◌≡◌, IfOk, map, slice_index};
ghost use Rattle.kernel_tree.specs.Plain.{parameters_of};
ghost use Rattle.kernel_meaning.specs.Eval.{value_of};
ghost use Rattle.kernel_meaning.specs.ScalarRun as running;
ghost use Rattle.kernel_eval.specs.SlotRuns.{filled};

use kernel_meaning::wrap;
use kernel_plan::MOST_SLOTS;
use kernel_tree::{Param, Shape};
use std::alloc::{AllocError, Global};

// The value of a parameter whose argument is a word.
fn argument(shape: Shape, word: u64) -> i128
    ensures { result ≡ running.argument shape word }
{
    match shape {
        Shape::Scalar(ty) => wrap(ty, word as i128),
        Shape::Array(_) => word as i128,
    }
}

// An argument; missing ones are zero.
fn argument_at(args: &[u64], i: usize) -> u64
    ensures { result ≡ slice_index args.now i }
{
    if i < args.len() { args[i] } else { 0 }
}

// The values of the parameters.
fn argument_names(alloc: Global, params: &[Param], args: &[u64]) -> Result<Vec<i128>, AllocError>
    ensures { IfOk result (λ v. v.items ≡ map value_of (running.argument_names (parameters_of params.now) args.now)) }
{
    let mut slots = Vec::new(alloc);
    for (i, param) in params.iter().enumerate() {
        slots.push(argument(param.shape, argument_at(args, i)))?;
    }
    Ok(slots)
}

/// The slots at the start: the values of the parameters, and zeros.
pub fn start(alloc: Global, params: &[Param], args: &[u64]) -> Result<Vec<i128>, AllocError>
    ensures { IfOk result (λ v. v.items ≡ filled (running.argument_names (parameters_of params.now) args.now)) }
{
    let mut slots = argument_names(alloc, params, args)?;
    let missing = MOST_SLOTS.saturating_sub(slots.len());
    for _at in 0..missing {
        slots.push(0)?;
    }
    Ok(slots)
}
