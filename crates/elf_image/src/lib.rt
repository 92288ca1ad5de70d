//! The ELF64 files of programs for the guest machine: writing the file of some words, and loading a file as an image.
#![tactic(auto)]

mod constants;
mod fields;
mod header;
pub mod laws;
pub mod load;
mod order;
mod pages;
mod program_header;
mod segments;
pub mod write;

pub use fields::{put_u32, put_u64};
pub use load::load_elf;
pub use machine_model::elf_fault::ElfFault;
pub use write::write_elf;
