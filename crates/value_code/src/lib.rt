//! The code of expressions by definition, what it does, and the choices that are made before it is emitted.
#![tactic(auto)]

pub mod covers;
pub mod extent;
pub mod hold;
pub mod instructions;
pub mod leaving;
pub mod place;

pub use extent::{Asked, Extent};
