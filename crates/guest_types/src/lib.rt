//! The values of the guest machine: vector lengths, pages and memory, vector and predicate
//! registers, and what each lane operation does to one element.
#![tactic(auto)]

pub mod bytes;
pub mod guest;
pub mod image;
pub mod laws;
pub mod length;
pub mod memory;
pub mod operation;
pub mod predicate;
pub mod register;
pub mod row;
