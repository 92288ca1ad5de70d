//! Tests of the language: trees, texts, rules and meaning. They stand in a crate of their own, so that the crates that they call are not proved again with them.
#![tactic(auto)]

#[cfg(test)]
mod check_text_calls;
#[cfg(test)]
mod kernel_eval_calls;
#[cfg(test)]
mod kernel_front_calls;
#[cfg(test)]
mod kernel_scope_calls;
#[cfg(test)]
mod kernel_syntax_calls;
#[cfg(test)]
mod kernel_tokens_calls;
#[cfg(test)]
mod kernel_tree_calls;
#[cfg(test)]
mod kernel_types_calls;
#[cfg(test)]
mod scalar_text_calls;
