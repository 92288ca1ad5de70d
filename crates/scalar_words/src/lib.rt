//! The registers of a kernel's values and names, and the words of constants and of operators with two operands.
#![tactic(auto)]

mod constant;
mod home;
pub mod instructions;
pub mod kernel_layout;
pub mod laws;
mod loose;
pub mod names;
pub mod operations;
mod site;

pub use constant::{Constant, Key, constant_in, is_same_number};
pub use home::{Home, register_at, register_named};
pub use kernel_layout::KernelLayout;
pub use loose::{Form, Loose, loose_form, loose_form_named};
pub use names::kernel_homes;
pub use operations::{emit_binary, emit_const, emit_settle, update_operator};
pub use site::Site;
