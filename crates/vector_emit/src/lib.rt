//! The vector code of a kernel's loop: the start, the passes, the fold, and the branch to scalar code.
#![tactic(auto)]

mod passes;
mod vector;

ghost use Rattle.vector_emit.specs.VectorRuns.{VectorRuns};

pub use passes::emit_passes;
pub use vector::emit_vector;

/// The vector code does what the scalar loop does: it ends with the same memory and result, and where the scalar loop faults it
/// stops at a read or a write, at a byte of an element that an iteration of a chunk around that one comes to, and no byte differs
/// but those of elements that this chunk stores. Each is within a pace: so many steps for each chunk of the iterations begun, and
/// for each free element that was suppressed on the way.
pub fn vector_runs()
    ensures { VectorRuns }
{}
