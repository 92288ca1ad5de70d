//! The code of kernels leaves X18, X29, X30 and SP alone, and has one exit call.
#![tactic(auto)]

mod laws;

pub use laws::{
    guard_leaves, scalar_code_leaves, step_keeps, vector_code_leaves, words_exit, words_leave,
};
