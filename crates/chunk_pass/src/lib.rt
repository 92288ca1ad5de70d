//! The loop of chunks: what the lanes of a chunk do is what the scalar loop does in their iterations.
#![tactic(auto)]

mod emit;
mod words;

ghost use Rattle.chunk_pass.specs.Chunks.{FineIsDone, FailIsFault, NextHalts};
ghost use Rattle.chunk_pass.specs.Passes.{ChunkPasses, IterationPasses, PlainPasses};

pub use emit::{emit_chunk, emit_iteration, emit_plain};
pub use words::lanes;

/// Where the items end well over the lanes of a chunk, the scalar loop goes on through their iterations, with the same
/// memory, and the elements of the accumulators' registers have taken in what these iterations gave.
pub fn fine_is_done()
    ensures { FineIsDone }
{}

/// Where lanes come through the break region and their items then fail, the scalar loop faults in one of their iterations,
/// and no byte differs but those of elements that these iterations store.
pub fn fail_is_fault()
    ensures { FailIsFault }
{}

/// After lanes that end well, an iteration that breaks or faults in the break region on the first memory of the chunk does
/// so in the scalar loop.
pub fn next_halts()
    ensures { NextHalts }
{}

/// A pass over a chunk of a loop with a break: the state before the next pass, as many iterations of the scalar loop later as
/// lanes came through, or a stop where the scalar loop faults in one of the chunk's iterations, at a byte of an element that one
/// of them comes to. Where a lane is left out, the scalar loop's next iteration breaks or faults, or a free element of its own
/// lane was suppressed.
pub fn chunk_passes()
    ensures { ChunkPasses }
{}

/// A pass over one iteration of such a loop, which breaks where its lane does not come through.
pub fn iteration_passes()
    ensures { IterationPasses }
{}

/// A pass over a chunk of a loop without a break: all its lanes come through, or it stops where the scalar loop faults.
pub fn plain_passes()
    ensures { PlainPasses }
{}
