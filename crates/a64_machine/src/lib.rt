//! One A64 instruction of the machine.
#![tactic(auto)]

mod accesses;
mod arithmetic;
mod at_once;
mod bit_fields;
mod conditions;
mod control;
mod core_state;
mod data;
mod laws;
mod load_store;
mod low_bytes;
mod one_step;
mod prepared_form;
mod prepared_step;
mod preparing;
mod registers;
mod writes;

pub use accesses::refused;
pub use conditions::flag_bits;
pub use core_state::{Core, FlagState};
pub use laws::flags_are_kept;
pub use one_step::{a64_goes, a64_step};
pub use prepared_form::{General, Prepared};
pub use prepared_step::prepared_goes;
pub use preparing::{prepare, with_branch};
