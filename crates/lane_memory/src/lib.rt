//! Loads and stores of lanes (Arm DDI 0584, the contiguous forms of LD1, LDFF1, LDNF1 and ST1) over
//! the pages of a guest.
#![tactic(auto)]

mod copy;
mod early;
mod ffr;
mod fill;
mod full;
pub mod gather;
mod keep;
pub mod load;
mod part;
mod range;
mod reading;
mod refusal;
pub mod store;
pub mod suppress;
mod write;
mod writing;
