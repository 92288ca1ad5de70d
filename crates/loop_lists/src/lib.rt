//! The listing of a kernel, what is counted over it, and the accesses of its loop.
#![tactic(auto)]

mod access;
mod entry_list;
mod facts;
mod held_throughout;
mod item_list;
mod items;
mod need_count;
mod places;
mod reached;
mod values;
mod walk;
mod widest_type;

pub use access::{accesses, streams};
pub use entry_list::{entries, list_items, loop_entries};
pub use facts::{loop_facts, loop_facts_by};
pub use held_throughout::is_named;
pub use item_list::{listing, listing_by};
pub use items::Items;
pub use need_count::needs;
pub use reached::{entry_reach, index_reach, reaches};
pub use values::{intervals, intervals_by};
pub use widest_type::{lane_width, lane_width_by, type_width};
