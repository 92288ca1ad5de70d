//! Whether the iterations of a kernel's loop may be done many at once, statement by statement: the definitions, and their laws.
#![tactic(auto)]

mod bound;
mod laws;
pub mod reason;
pub mod used;

pub use bound::bound_place;
pub use laws::{apart_is_tested, bounds_in_order};
pub use used::{Extent, Used};
