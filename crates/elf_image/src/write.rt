//! Writing the file of some words.

ghost use Rattle.std.specs.Prelude.{◌≡◌, ℕ, ◌+◌, ◌*◌, ◌≤◌, ◌++◌, List, [], take, length, IfOk, Ok};
ghost use Rattle.machine_model.specs.Load.{load};
ghost use Rattle.machine_model.specs.Written.{file_of, image_of_words, word_bytes};

use crate::constants::{
    EM_AARCH64, ET_EXEC, EV_CURRENT, HEADER_SIZE, PROGRAM_HEADER_SIZE, PT_LOAD,
};
use crate::fields::{put_u16, put_u32, put_u64};
use guest_types::memory::PAGE_BYTES;
use std::alloc::{AllocError, Global};

// e_ident: the magic number, the class of 64 bits, little-endian data, the version, and padding.
const IDENT: [u8; 16] = [0x7f, 0x45, 0x4c, 0x46, 2, 1, 1, 0, 0, 0, 0, 0, 0, 0, 0, 0];

// p_flags of a segment that is read and executed.
const READ_EXECUTE: u32 = 5;

// The address at which the file stands in memory, and that of its first word.
const BASE: u64 = 0x400000;

const ENTRY: u64 = 0x400078;

// Puts what the file is into an empty one: its identification, type, machine, version and entry.
fn put_kind(file: &mut Vec<u8>) -> Result<(), AllocError>
    requires { file.old.items ≡ [] }
    ensures { IfOk result (λ _. file.new.items ≡ take 32 (file_of [])) }
{
    file.extend_from_slice(&IDENT)?;
    put_u16(file, ET_EXEC)?;
    put_u16(file, EM_AARCH64)?;
    put_u32(file, EV_CURRENT)?;
    put_u64(file, ENTRY)
}

// Appends the rest of the file header: where the headers stand, and their sizes and numbers.
fn put_layout(file: &mut Vec<u8>) -> Result<(), AllocError>
    requires { file.old.items ≡ take 32 (file_of []) }
    ensures { IfOk result (λ _. file.new.items ≡ take 64 (file_of [])) }
{
    put_u64(file, u64::from(HEADER_SIZE))?;
    put_u64(file, 0)?;
    put_u32(file, 0)?;
    put_u16(file, HEADER_SIZE)?;
    put_u16(file, PROGRAM_HEADER_SIZE)?;
    put_u16(file, 1)?;
    file.extend_from_slice(&[0; 6])
}

// The file header of a program with one segment, in a vector with this much room.
fn file_header(alloc: Global, room: usize) -> Result<Vec<u8>, AllocError>
    ensures { IfOk result (λ file. file.items ≡ take 64 (file_of [])) }
{
    let mut file = Vec::with_capacity(alloc, room)?;
    put_kind(&mut file)?;
    put_layout(&mut file)?;
    Ok(file)
}

// Appends the first half of the program header: what the segment is, and where it begins.
fn put_place(file: &mut Vec<u8>) -> Result<(), AllocError>
    requires { file.old.items ≡ take 64 (file_of []) }
    ensures { IfOk result (λ _. file.new.items ≡ take 88 (file_of [])) }
{
    put_u32(file, PT_LOAD)?;
    put_u32(file, READ_EXECUTE)?;
    put_u64(file, 0)?;
    put_u64(file, BASE)
}

// Appends the program header of a segment that is the whole file, of this size in bytes.
fn put_program_header(file: &mut Vec<u8>, size: u64) -> Result<(), AllocError>
    requires { file.old.items ≡ take 64 (file_of []) }
    ensures { IfOk result (λ _. (words : List ℕ) → size ≡ 120 + 4 * length words
        → file.new.items ++ word_bytes words ≡ file_of words) }
{
    put_place(file)?;
    put_u64(file, BASE)?;
    put_u64(file, size)?;
    put_u64(file, size)?;
    put_u64(file, PAGE_BYTES)
}

/// The file of these words, the first of which stands at 0x400078 in memory.
pub fn write_elf(alloc: Global, words: &[u32]) -> Result<Vec<u8>, AllocError>
    requires { length words.now ≤ 65536 }
    ensures file { IfOk result (λ file. file.items ≡ file_of words.now) }
    ensures loads { IfOk result (λ file. load file.items ≡ Ok (image_of_words words.now)) }
{
    let size = 120 + 4 * words.len();
    let mut file = file_header(alloc, size)?;
    put_program_header(&mut file, size as u64)?;
    for word in words {
        put_u32(&mut file, *word)?;
    }
    Ok(file)
}
