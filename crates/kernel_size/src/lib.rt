//! How many items a kernel makes, how deep it is, and how far an index is from the loop variable.
#![tactic(auto)]

mod depth;
mod distance;
mod size;

pub use depth::kernel_depth;
pub use distance::stream_distance;
pub use size::{kernel_size, term_size};
