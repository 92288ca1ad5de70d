//! Blocks of 32 bytes of a vector register as vectors of `std::simd`, and the predicates that
//! govern them. The kernels of lanes stand on these.
#![tactic(auto)]

pub mod block;
pub mod mask;
pub mod shape;
