//! Writing an object.

ghost use Rattle.object_file.specs.Object.{IsObject};
ghost use Rattle.object_file.specs.Written.{behind, object_of};
ghost use Rattle.std.specs.Prelude.{◌≡◌, ◌*◌, ◌^◌, ◌<◌, ◌≤◌, ◌++◌, List, ℕ, IfOk, length};

use crate::laws::objects_are_read;
use elf_image::{put_u32, put_u64};
use std::alloc::{AllocError, Global};

// The header, the section of number 0, and the one of the code up to its size.
const FRONT: [u8; 160] = [
    127, 69, 76, 70, 2, 1, 1, 0, 0, 0, 0, 0, 0, 0, 0, 0, 1, 0, 183, 0, 1, 0, 0, 0, 0, 0, 0, 0, 0,
    0, 0, 0, 0, 0, 0, 0, 0, 0, 0, 0, 64, 0, 0, 0, 0, 0, 0, 0, 0, 0, 0, 0, 64, 0, 0, 0, 0, 0, 64, 0,
    6, 0, 4, 0, 0, 0, 0, 0, 0, 0, 0, 0, 0, 0, 0, 0, 0, 0, 0, 0, 0, 0, 0, 0, 0, 0, 0, 0, 0, 0, 0, 0,
    0, 0, 0, 0, 0, 0, 0, 0, 0, 0, 0, 0, 0, 0, 0, 0, 0, 0, 0, 0, 0, 0, 0, 0, 0, 0, 0, 0, 0, 0, 0, 0,
    0, 0, 0, 0, 1, 0, 0, 0, 1, 0, 0, 0, 6, 0, 0, 0, 0, 0, 0, 0, 0, 0, 0, 0, 0, 0, 0, 0, 60, 2, 0,
    0, 0, 0, 0, 0,
];

// What follows up to the place of the names of symbols.
const TABLES: [u8; 112] = [
    0, 0, 0, 0, 0, 0, 0, 0, 4, 0, 0, 0, 0, 0, 0, 0, 0, 0, 0, 0, 0, 0, 0, 0, 7, 0, 0, 0, 2, 0, 0, 0,
    0, 0, 0, 0, 0, 0, 0, 0, 0, 0, 0, 0, 0, 0, 0, 0, 192, 1, 0, 0, 0, 0, 0, 0, 72, 0, 0, 0, 0, 0, 0,
    0, 3, 0, 0, 0, 2, 0, 0, 0, 8, 0, 0, 0, 0, 0, 0, 0, 24, 0, 0, 0, 0, 0, 0, 0, 15, 0, 0, 0, 3, 0,
    0, 0, 0, 0, 0, 0, 0, 0, 0, 0, 0, 0, 0, 0, 0, 0, 0, 0,
];

// What follows up to the size of the function.
const SYMBOLS: [u8; 216] = [
    0, 0, 0, 0, 0, 0, 0, 0, 1, 0, 0, 0, 0, 0, 0, 0, 0, 0, 0, 0, 0, 0, 0, 0, 23, 0, 0, 0, 3, 0, 0,
    0, 0, 0, 0, 0, 0, 0, 0, 0, 0, 0, 0, 0, 0, 0, 0, 0, 8, 2, 0, 0, 0, 0, 0, 0, 49, 0, 0, 0, 0, 0,
    0, 0, 0, 0, 0, 0, 0, 0, 0, 0, 1, 0, 0, 0, 0, 0, 0, 0, 0, 0, 0, 0, 0, 0, 0, 0, 33, 0, 0, 0, 1,
    0, 0, 0, 0, 0, 0, 0, 0, 0, 0, 0, 0, 0, 0, 0, 0, 0, 0, 0, 60, 2, 0, 0, 0, 0, 0, 0, 0, 0, 0, 0,
    0, 0, 0, 0, 0, 0, 0, 0, 0, 0, 0, 0, 1, 0, 0, 0, 0, 0, 0, 0, 0, 0, 0, 0, 0, 0, 0, 0, 0, 0, 0, 0,
    0, 0, 0, 0, 0, 0, 0, 0, 0, 0, 0, 0, 0, 0, 0, 0, 0, 0, 0, 0, 1, 0, 0, 0, 0, 0, 1, 0, 0, 0, 0, 0,
    0, 0, 0, 0, 0, 0, 0, 0, 0, 0, 0, 0, 4, 0, 0, 0, 18, 0, 1, 0, 0, 0, 0, 0, 0, 0, 0, 0,
];

// The names of sections, and three zeros.
const NAMES: [u8; 52] = [
    0, 46, 116, 101, 120, 116, 0, 46, 115, 121, 109, 116, 97, 98, 0, 46, 115, 116, 114, 116, 97,
    98, 0, 46, 115, 104, 115, 116, 114, 116, 97, 98, 0, 46, 110, 111, 116, 101, 46, 71, 78, 85, 45,
    115, 116, 97, 99, 107, 0, 0, 0, 0,
];

// The names of symbols before that of the function.
const MAPPING: [u8; 4] = [0, 0x24, 0x78, 0];

// Appends some bytes.
fn put_bytes(file: &mut Vec<u8>, bytes: &[u8]) -> Result<(), AllocError>
    ensures { IfOk result (λ _. file.new.items ≡ file.old.items ++ bytes.now) }
{
    file.extend_from_slice(bytes)
}

// All before the words, of which there are so many bytes, where the name has so many.
fn front(alloc: Global, bytes: u64, name: u64) -> Result<Vec<u8>, AllocError>
    requires few { bytes ≤ 280000 }
    requires short { name < 2 ^ 63 }
    ensures { IfOk result (λ file. (n w : List ℕ) → bytes ≡ 4 * length w → name ≡ length n
        → file.items ++ behind n w ≡ object_of n w) }
{
    let mut file = Vec::with_capacity(alloc, 1024)?;
    put_bytes(&mut file, &FRONT)?;
    put_u64(&mut file, bytes)?;
    put_bytes(&mut file, &TABLES)?;
    put_u64(&mut file, 572 + bytes)?;
    put_u64(&mut file, 5 + name)?;
    put_bytes(&mut file, &SYMBOLS)?;
    put_u64(&mut file, bytes)?;
    put_bytes(&mut file, &NAMES)?;
    Ok(file)
}

/// The object that holds some words as the function of a name.
pub fn write_object(alloc: Global, name: &[u8], words: &[u32]) -> Result<Vec<u8>, AllocError>
    requires few { length words.now ≤ 70000 }
    ensures file { IfOk result (λ file. file.items ≡ object_of name.now words.now) }
    ensures object { IfOk result (λ file. IsObject name.now words.now file.items) }
{
    objects_are_read();
    let mut file = front(alloc, 4 * words.len() as u64, name.len() as u64)?;
    for word in words {
        put_u32(&mut file, *word)?;
    }
    put_bytes(&mut file, &MAPPING)?;
    put_bytes(&mut file, name)?;
    put_bytes(&mut file, &[0])?;
    Ok(file)
}
