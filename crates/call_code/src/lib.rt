//! Code that is called: what stands around the words of a draft so that they make a function, and what a call of it does.
#![tactic(auto)]

mod laws;

pub use laws::calls;
