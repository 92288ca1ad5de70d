//! From the words of a kernel to those of a function.

ghost use Rattle.call_code.specs.Called.{function_words};
ghost use Rattle.call_code.specs.Returning.{returning, returning_word};
ghost use Rattle.call_code.specs.Frame.{enter, leave};
ghost use Rattle.call_words.specs.Classes.{numbers_of};
ghost use Rattle.machine_model.specs.CodeInMemory.{words_of};
ghost use Rattle.std.specs.Prelude.{◌≡◌, ◌+◌, ◌*◌, ◌/◌, ◌≤◌, ◌++◌, IfOk, length};

use crate::class::Class;
use crate::frame::{put_loads, put_low_loads, put_low_stores, put_move, put_return, put_stores};
use crate::saved::saved;
use a64_code::{AddSubOp, Reg};
use std::alloc::{AllocError, Global};

// SVC #0, by which a program ends; B, forward by a number of words; BRK #0.
const EXIT: u32 = 0xD400_0001;

const BRANCH: u32 = 0x1400_0000;

const TRAP: u32 = 0xD420_0000;

// The registers that a caller finds as they were.
const GENERAL: [u32; 10] = [19, 20, 21, 22, 23, 24, 25, 26, 27, 28];

const VECTOR: [u32; 8] = [8, 9, 10, 11, 12, 13, 14, 15];

// The word in the place of one with so many words after it.
fn returned(word: u32, after: usize) -> u32
    requires { after ≤ 65536 }
    ensures { result ≡ returning_word word after }
{
    if word == EXIT {
        BRANCH | (after as u32 + 2)
    } else {
        word
    }
}

// Appends the words that return in place of ending.
fn put_returning(all: &mut Vec<u32>, words: &[u32]) -> Result<(), AllocError>
    requires { length words.now ≤ 65536 }
    ensures { IfOk result (λ _. all.new.items ≡ all.old.items ++ returning words.now) }
{
    for (index, word) in words.iter().enumerate() {
        all.push(returned(*word, words.len() - 1 - index))?;
    }
    all.push(TRAP)?;
    Ok(())
}

// The bytes of a frame for so many general and vector registers.
fn frame_size(general: usize, vector: usize) -> u32
    requires general { general ≤ 10 }
    requires vector { vector ≤ 8 }
    ensures { result ≡ 16 * ((general + vector + 1) / 2) }
{
    16 * ((general + vector + 1) as u32 / 2)
}

// Appends the words before the code.
fn put_enter(all: &mut Vec<u32>, general: &[Reg], vector: &[Reg]) -> Result<(), AllocError>
    requires general { length general.now ≤ 10 }
    requires vector { length vector.now ≤ 8 }
    ensures { IfOk result (λ _. all.new.items ≡ all.old.items
        ++ words_of (enter (record { x = numbers_of general.now; z = numbers_of vector.now }))) }
{
    put_move(all, AddSubOp::Sub, frame_size(general.len(), vector.len()))?;
    put_stores(all, general)?;
    put_low_stores(all, general.len(), vector)
}

// Appends the words behind it.
fn put_leave(all: &mut Vec<u32>, general: &[Reg], vector: &[Reg]) -> Result<(), AllocError>
    requires general { length general.now ≤ 10 }
    requires vector { length vector.now ≤ 8 }
    ensures { IfOk result (λ _. all.new.items ≡ all.old.items
        ++ words_of (leave (record { x = numbers_of general.now; z = numbers_of vector.now }))) }
{
    put_low_loads(all, general.len(), vector)?;
    put_loads(all, general)?;
    put_move(all, AddSubOp::Add, frame_size(general.len(), vector.len()))?;
    put_return(all)
}

/// The words of a function around some of a kernel.
pub fn function_words(alloc: Global, words: &[u32]) -> Result<Vec<u32>, AllocError>
    requires { length words.now ≤ 65536 }
    ensures { IfOk result (λ all. all.items ≡ function_words words.now) }
{
    let general = saved(alloc, Class::General, words, &GENERAL)?;
    let vector = saved(alloc, Class::Vector, words, &VECTOR)?;
    let mut all = Vec::with_capacity(alloc, words.len() + 56)?;
    put_enter(&mut all, &general, &vector)?;
    put_returning(&mut all, words)?;
    put_leave(&mut all, &general, &vector)?;
    Ok(all)
}
