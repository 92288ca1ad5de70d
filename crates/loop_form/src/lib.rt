//! The listing of a kernel as definitions: its items in their order, the values that they make and how long these are
//! needed, the accesses of the loop, and the width of its lanes; what the code holds of them, and their laws.
#![tactic(auto)]

pub mod entry;
pub mod facts;
mod held_tests;
pub mod held_throughout;
mod index_type;
pub mod item;
pub mod laws;
pub mod loop_item;
mod names;
pub mod need;
pub mod reach;
mod registers;
pub mod size;
pub mod stream;
mod stream_index;
pub mod visible;

pub use entry::{Content, Entry};
pub use facts::LoopFacts;
pub use held_tests::is_update_of;
pub use held_throughout::Held;
pub use index_type::{type_reach, widens};
pub use item::{Item, ItemKind};
pub use loop_item::{LoopItem, LoopOp, Operand};
pub use names::{param_place, var_type};
pub use reach::Reach;
pub use registers::counted_registers;
pub use size::{is_stream, vars_size_of};
pub use stream::Stream;
pub use stream_index::offset;
