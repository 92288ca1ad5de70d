//! The tokens of a text of the kernel language.
#![tactic(auto)]

mod fault;
mod front;
mod laws;
mod number;
mod reader;
mod symbol;

pub use fault::TokenFault;
pub use laws::tokens_are_spelled;
pub use reader::read_tokens;
