//! The listing read back: from the text of a word to the word, and from lines of such texts to words.
#![tactic(auto)]

mod assembling;
pub mod fault;
pub mod laws;
mod line;
mod word;

pub use assembling::assemble;
pub use fault::AsmFault;
pub use word::read_word;
