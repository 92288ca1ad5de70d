//! The vector code of a loop's items over the lanes of a chunk.
#![tactic(auto)]

mod emit;
mod items;
pub mod layout;
mod words;

ghost use Rattle.chunk_emit.specs.ItemsRun.{ItemsRun, FewWords};
ghost use Rattle.chunk_emit.specs.LoopFits.{LayoutAssigned};

pub use emit::{emit_index, emit_one, is_used, mask_of, put_all};
pub use items::emit_items;
pub use layout::{LoopLayout, loop_layout};
pub use words::{base_register, index_register, load, load_type};

/// The code of a loop's items without a break, from a state that holds the lanes of a chunk, does what the items do one after
/// another over these lanes: it comes to the entries after it with the memory and the lanes that they leave, or stops at a
/// read or a write with the memory that the first lane that faults left. It takes at most as many steps as it has words.
pub fn items_run()
    ensures { ItemsRun }
{}

/// The code of a loop's items has at most as many words as the bound counts steps of these items.
pub fn few_words()
    ensures { FewWords }
{}

/// Registers that fit a kernel's intervals make a layout of its loop in which no two things that are needed at once share one:
/// `layout_of_loop` of `specs/KernelLayout`.
pub fn layout_assigned()
    ensures { LayoutAssigned }
{}
