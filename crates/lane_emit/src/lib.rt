//! The vector code of one item of a loop, and an accumulator in the lanes.
#![tactic(auto)]

mod accumulators;
mod code;
mod emit;
mod held_place;
pub mod registers;
mod words;

ghost use Rattle.lane_emit.specs.ItemCode.{LanesRight};
ghost use Rattle.lane_emit.specs.AccumulatorLanes.{StartIsIdentity, UpdateIsTaken};
ghost use Rattle.lane_emit.specs.Folds.{FoldIsOrdered, ChunkIsTaken, AccumulatorIsFold};

pub use accumulators::update_word;
pub use emit::emit_item;
pub use registers::{LaneRegisters, lane_registers};
pub use words::{extend_byte, extend_halfword, shift_left, size, wide};

/// The code of an item, done in order from a state in which P1 is all true and the item's operands and its mask are
/// right in the lanes of a chunk, leaves the item's own register right in these lanes; a condition is false in all
/// others. Nothing else changes but the flags.
pub fn lanes_right()
    ensures { LanesRight }
{}

/// Updates of an accumulator, applied in iteration order, are what the lanes took in, joined together and then with the
/// accumulator.
pub fn fold_is_ordered()
    ensures { FoldIsOrdered }
{}

/// Lanes after a chunk hold together what they held before it and what the chunk gave.
pub fn chunk_is_taken()
    ensures { ChunkIsTaken }
{}

/// An accumulator after the shares of some lanes, applied in iteration order, is what the lanes took in for it, joined
/// together and then with its value before.
pub fn accumulator_is_fold()
    ensures { AccumulatorIsFold }
{}

/// A lane that no update touched holds the identity.
pub fn start_is_identity()
    ensures { StartIsIdentity }
{}

/// An update under a mask: each lane in which the mask is true takes in its value, and the others stay.
pub fn update_is_taken()
    ensures { UpdateIsTaken }
{}
