//! The commands on kernels that need no compiler: `check` and `eval`.
#![tactic(auto)]

pub mod check;
pub mod eval;
