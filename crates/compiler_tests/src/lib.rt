//! Tests of the compiler: from a kernel to a file. They stand in a crate of their own, so that the crates that they call are not proved again with them.
#![tactic(auto)]

#[cfg(test)]
mod kernel_compile_calls;
#[cfg(test)]
mod reductions_calls;
#[cfg(test)]
mod registers;
#[cfg(test)]
mod scalar_emit_calls;
#[cfg(test)]
mod sweep_kernel_calls;
#[cfg(test)]
mod sweep_run_calls;
#[cfg(test)]
mod vector_emit_calls;
