//! A kernel as a function that other code calls.
#![tactic(auto)]

mod function;
mod laws;

pub use function::kernel_function;
pub use laws::{
    anywhere, calls_exist, functions, small_frames, untouched_arrays, untouched_frames,
};
