//! The text of a page map, and the pages that it maps beside an image.
#![tactic(auto)]

pub mod fault;
mod insert;
pub mod laws;
mod line;
mod map_line;
mod place;
mod put;
mod read;
mod words;

pub use fault::MapFault;
pub use read::read_map;
