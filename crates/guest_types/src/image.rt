//! The pages of a program, and pages that are mapped beside it.

ghost use Rattle.std.specs.Prelude.{◌≡◌, []};
ghost use Rattle.guest_types.specs.Memory.{IsMemory};

use crate::memory::PageSpec;
use std::alloc::Global;

/// A program as it stands in memory before its first step.
///
/// `entry` is the address of its first instruction. The words of the code that a listing shows
/// stand from `code_from` up to but not including `code_end`.
#[derive(Drop)]
pub struct Image {
    pub entry: u64,
    pub code_from: u64,
    pub code_end: u64,
    pub pages: Vec<PageSpec>,
    pub ghost in_order: { IsMemory pages.items },
}

impl Image {
    /// The image with no pages and zeros. It keeps the allocator and takes no memory.
    #[tactic(auto, using(crate::proofs::Merges::empty_memory))]
    pub fn empty(alloc: Global) -> Self
        ensures pages { result.pages.items ≡ [] }
        ensures entry { result.entry ≡ 0 }
        ensures code_from { result.code_from ≡ 0 }
        ensures code_end { result.code_end ≡ 0 }
    {
        Image {
            entry: 0,
            code_from: 0,
            code_end: 0,
            pages: Vec::new(alloc),
        }
    }
}

/// Pages that are mapped beside an image.
#[derive(Drop)]
pub struct PageMap {
    pub pages: Vec<PageSpec>,
    pub ghost in_order: { IsMemory pages.items },
}
