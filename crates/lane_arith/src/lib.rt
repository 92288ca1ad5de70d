//! The kernels of vector arithmetic: each gives the elements of a whole register, 32 bytes at a
//! time.
#![tactic(auto)]

pub mod bank;
pub mod binary;
pub mod fill;
pub mod merge;
pub mod reduce;
pub mod shift;
pub mod unary;
