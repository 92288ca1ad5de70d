//! Tests of the base layer, values of the guest, the outside, numbers, the parts of a text, and of the words of a command. They stand in a crate of their own, so that the crates that they call are not proved again with them.
#![tactic(auto)]

#[cfg(test)]
mod command_line_calls;
#[cfg(test)]
mod guest_types_calls;
#[cfg(test)]
mod io_edges_calls;
#[cfg(test)]
mod number_text_calls;
#[cfg(test)]
mod reg_assign_calls;
#[cfg(test)]
mod text_parts_calls;
