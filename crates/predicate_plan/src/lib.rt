//! The masks under which the items of a loop are evaluated.
#![tactic(auto)]

mod laws;
mod mask;
mod part;
mod walk;

pub use laws::owners_stand_for_masks;
pub use mask::Plan;
pub use part::MaskPart;
pub use walk::plan;
