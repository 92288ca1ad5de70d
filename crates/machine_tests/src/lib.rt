//! Tests of the machine: memory, files, maps and lanes. They stand in a crate of their own, so that the crates that they call are not proved again with them.
#![tactic(auto)]

#[cfg(test)]
mod debugger_calls;
#[cfg(test)]
mod elf_image_calls;
#[cfg(test)]
mod lane_arith_calls;
#[cfg(test)]
mod lane_blocks_calls;
#[cfg(test)]
mod lane_memory_calls;
#[cfg(test)]
mod lane_preds_calls;
#[cfg(test)]
mod map_text_calls;
#[cfg(test)]
mod paged_memory_calls;
