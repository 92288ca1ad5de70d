//! Accumulators over a loop of chunks: the code before it and after it, with the values that are held throughout.
#![tactic(auto)]

mod accumulators;
mod fold;
mod start;
mod words;

ghost use Rattle.reductions.specs.Edges.{StartRuns, FoldRuns, FewHeld};
ghost use Rattle.reductions.specs.Reductions.{ReductionIsTogether};

pub use fold::emit_fold;
pub use start::emit_start;
pub use words::{reduce_word, start_word};

/// The code before the loop leads to the state before the first pass: the values from before the loop are in all elements of
/// their registers, and the lanes of accumulators hold what changes nothing. It takes at most as many words as the
/// bound counts steps of laying them, and one.
pub fn start_runs()
    ensures { StartRuns }
{}

/// The code after the loop joins the elements of each accumulator that the loop updates with its general register: it
/// leads to the state before an iteration of the scalar loop, with the names as the passes left them. It takes at most as
/// many words as the bound counts steps of joining them.
pub fn fold_runs()
    ensures { FoldRuns }
{}

/// No more values are held throughout a loop than its kernel has items.
pub fn few_held()
    ensures { FewHeld }
{}

/// The reduction of all lanes is what they took in, joined together, in the bits of the accumulator's type.
pub fn reduction_is_together()
    ensures { ReductionIsTogether }
{}
