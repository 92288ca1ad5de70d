//! Bytes of pages.

ghost use Rattle.std.specs.Prelude.{◌≡◌, Ok, Err, IfErr, OnOk, Some, None, true, false};
ghost use Rattle.guest_types.specs.Memory.{Memory, IsMemory, can_read, put_byte};
ghost use Rattle.map_text.specs.Mapping.{put_bytes, put_or_fault};
ghost use Rattle.map_text.specs.View.{IsBeside, Refuses};

use crate::fault::MapFault;
use crate::map_line::Patch;
use crate::place::place_of;
use guest_types::memory::{PAGE_BYTES, PageSpec};

// Replaces the byte at an address, and answers whether it is mapped.
fn put_byte(pages: &mut [PageSpec], address: u64, byte: u8) -> bool
    requires { IsMemory pages.old }
    ensures mapped { result ≡ can_read pages.old address }
    ensures put { pages.new ≡ put_byte pages.old address byte }
{
    let number = address / PAGE_BYTES;
    let place = place_of(pages, number);
    if place < pages.len() && pages[place].page.number() == number {
        pages[place]
            .bytes
            .put((address % PAGE_BYTES) as usize, byte);
        true
    } else {
        false
    }
}

// Replaces bytes from an address on, up to the first address that is not mapped, and answers whether all are mapped.
#[tactic(auto, unfolding(crate::specs::Mapping::put_bytes))]
fn put_bytes(pages: &mut [PageSpec], address: u64, bytes: &[u8]) -> bool
    requires { IsMemory pages.old }
    ensures put { result ≡ true → put_bytes pages.old address bytes.now ≡ Some pages.new }
    ensures unmapped { result ≡ false → put_bytes pages.old address bytes.now ≡ None }
    ensures beside { (image : Memory) → IsBeside image pages.old → IsBeside image pages.new }
{
    let mut at = address;
    for byte in bytes {
        if !put_byte(pages, at, *byte) {
            return false;
        }
        at = at.wrapping_add(1);
    }
    true
}

// Sets the bytes of a line.
pub fn set_bytes(pages: &mut Vec<PageSpec>, line: u64, patch: &Patch) -> Result<(), MapFault>
    requires { IsMemory pages.old.items }
    ensures set { OnOk result (put_or_fault line (put_bytes pages.old.items patch.now.address patch.now.bytes.items)
        ≡ Ok pages.new.items) }
    ensures beside { (image : Memory) → IsBeside image pages.old.items → IsBeside image pages.new.items }
    ensures refused { IfErr result (λ fault. put_or_fault line
        (put_bytes pages.old.items patch.now.address patch.now.bytes.items) ≡ Err fault) }
{
    if put_bytes(pages, patch.address, &patch.bytes) {
        Ok(())
    } else {
        Err(MapFault::Unmapped { line })
    }
}
