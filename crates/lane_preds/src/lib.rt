//! The kernels of predicates: each gives a whole predicate register, a count or the flags.
#![tactic(auto)]

pub mod bits;
pub mod compare;
pub mod logic;
pub mod make;
pub mod test;
