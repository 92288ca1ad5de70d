//! Tests of the instruction set: words both ways, and their texts. They stand in a crate of their own, so that the crates that they call are not proved again with them.
#![tactic(auto)]

#[cfg(test)]
mod a64_code_calls;
#[cfg(test)]
mod label_fix_calls;
#[cfg(test)]
mod list_text_calls;
#[cfg(test)]
mod listed_words;
#[cfg(test)]
mod sve_asm_calls;
#[cfg(test)]
mod sve_code_calls;
#[cfg(test)]
mod sve_decode_calls;
#[cfg(test)]
mod word_rows_calls;
