//! Decodes ten million words drawn at random by both tables and says on the error output how many each of them takes.
//! `bench/decode` times it.
#![tactic(auto)]

use std::io;

/// The words that are decoded.
const WORDS: u32 = 10_000_000;

/// The next state of a linear congruential generator modulo 2^64, whose upper half is the word that is drawn.
fn next(state: u64) -> u64 {
    state
        .wrapping_mul(6364136223846793005)
        .wrapping_add(1442695040888963407)
}

fn main(rt: HostRuntime) -> io::Result<()> {
    let mut state = 1;
    let mut scalar: u64 = 0;
    let mut vector: u64 = 0;
    for _ in 0..WORDS {
        state = next(state);
        let word = (state >> 32) as u32;
        if a64_code::decode(word).is_some() {
            scalar = scalar.wrapping_add(1);
        }
        if sve_decode::decode(word).is_some() {
            vector = vector.wrapping_add(1);
        }
    }
    eprintln!(rt; "{scalar} A64 and {vector} SVE words of {WORDS}")?;
    Ok(())
}
