//! A machine without its memory.

use crate::vectors::Vectors;
use a64_machine::Core;
use machine_model::outcome::Ending;

/// All of a machine but its memory, as it was at one time.
#[derive(Drop)]
pub struct Snapshot {
    pub core: Core,
    pub vectors: Vectors,
    pub steps: u64,
    pub over: Option<Ending>,
}
