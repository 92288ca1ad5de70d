//! Assigns registers to the intervals in which values are needed.
#![tactic(auto)]

pub mod assigned;
pub mod fault;
pub mod interval;
pub mod laws;
mod linear_scan;
mod live;

pub use assigned::{Assigned, VectorRegs};
pub use fault::{AssignFault, too_many};
pub use interval::{Interval, RegClass};
pub use linear_scan::assign;
pub use live::need;
