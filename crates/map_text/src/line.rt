//! What the words of a line spell.

ghost use Rattle.std.specs.Prelude.{◌≡◌, IfOk, option_map};
ghost use Rattle.map_text.specs.Lines.{are_pages, are_bytes, maps_of, sets_of, perm_of, bytes_of};
ghost use Rattle.map_text.specs.View.{range_view, patch_view};
ghost use Rattle.number_text.specs.View.{items_in};

use crate::map_line::{MappedRange, Patch};
use guest_types::memory::{PAGE_BYTES, Perm};
use hex::FromHexError;
use number_text::number;
use std::alloc::{AllocError, Global};

fn perm(word: &[u8]) -> Option<Perm>
    ensures { result ≡ perm_of word.now }
{
    if word == b"r".as_slice() {
        return Some(Perm::Read);
    }
    if word == b"rw".as_slice() {
        return Some(Perm::ReadWrite);
    }
    None
}

fn are_pages(address: u64, count: u64) -> bool
    ensures { result ≡ are_pages address count }
{
    address % PAGE_BYTES == 0
        && 1 <= count
        && u128::from(address) + u128::from(PAGE_BYTES) * u128::from(count) <= 1 << 48
}

// The pages that a line of these words maps.
#[tactic(auto, unfolding(crate::specs::Lines::maps_of))]
pub fn span(address: &[u8], count: &[u8], perm_word: &[u8]) -> Option<MappedRange>
    ensures { option_map range_view result ≡ maps_of address.now count.now perm_word.now }
{
    let address = number(address)?;
    let count = number(count)?;
    let perm = perm(perm_word)?;
    if are_pages(address, count) {
        Some(MappedRange {
            address,
            count,
            perm,
        })
    } else {
        None
    }
}

// The bytes that hexadecimal digits spell.
fn decoded(alloc: Global, digits: &[u8]) -> Result<Option<Vec<u8>>, AllocError>
    ensures { IfOk result (λ o. option_map items_in o ≡ bytes_of digits.now) }
{
    match hex::decode(alloc, digits) {
        Ok(bytes) => Ok(Some(bytes)),
        Err(FromHexError::OutOfMemory) => Err(AllocError),
        Err(_) => Ok(None),
    }
}

fn are_bytes(address: u64, size: usize) -> bool
    ensures { result ≡ are_bytes address size }
{
    0 < size && u128::from(address) + size as u128 <= 1 << 64
}

// The bytes that a line of these words sets.
#[tactic(auto, unfolding(crate::specs::Lines::sets_of))]
pub fn patch(alloc: Global, address: &[u8], digits: &[u8]) -> Result<Option<Patch>, AllocError>
    ensures { IfOk result (λ o. option_map patch_view o ≡ sets_of address.now digits.now) }
{
    let Some(address) = number(address) else {
        return Ok(None);
    };
    let Some(bytes) = decoded(alloc, digits)? else {
        return Ok(None);
    };
    if are_bytes(address, bytes.len()) {
        Ok(Some(Patch { address, bytes }))
    } else {
        Ok(None)
    }
}
