//! The laws that the code is proved by: calls that do nothing.

ghost use Rattle.std.specs.Prelude.{◌^◌, ◌<◌, All};

pub use kernel_tree::laws::few_params;
pub use loop_code::{begin_runs, scalar_runs};
pub use loop_form::laws::{few_items, ordered_intervals};
pub use overlap_guard::meets_apart;
pub use promises::{faithful_files, scalar_files};
pub use reserved_registers::{
    guard_leaves, scalar_code_leaves, vector_code_leaves, words_exit, words_leave,
};
pub use vector_emit::vector_runs;

/// Words have 32 bits.
pub fn have_32_bits(words: &[u32])
    ensures { All (λ word. word < 2 ^ 32) words.now }
{}
