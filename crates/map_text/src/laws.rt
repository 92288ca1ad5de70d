//! Laws of the definitions: what the lines of a map leave in memory, byte by byte, and that a map gives the same pages alone.

ghost use Rattle.std.specs.Prelude.{◌≡◌, ℕ, ◌+◌, ◌*◌, ◌^◌, ◌<◌, ◌≤◌, ◌⊎◌, ◌↔◌, true, List, [], length, slice_index, Some, IsSome, Ok, All};
ghost use Rattle.guest_types.specs.declared.memory.Perm.{Perm};
ghost use Rattle.guest_types.specs.Memory.{Memory, IsMemory, DoNotMeet, byte_at, can_read, merged};
ghost use Rattle.guest_types.specs.declared.memory.TheConstants.{PAGE_BYTES};
ghost use Rattle.map_text.specs.Mapping.{put_bytes, zero_pages, map_of};

/// Bytes are put exactly where each of their addresses is mapped; each then stands at its own, and no other byte changes.
pub fn bytes_are_put()
    ensures mapped { (memory : Memory) (address : ℕ) (bytes : List ℕ) → address + length bytes ≤ 2 ^ 64
        → IsSome (put_bytes memory address bytes) ↔
        ((i : ℕ) → i < length bytes → can_read memory (address + i) ≡ true) }
    ensures put { (memory after : Memory) (address i : ℕ) (bytes : List ℕ) → IsMemory memory → All (λ b. b < 256) bytes
        → address + length bytes ≤ 2 ^ 64
        → put_bytes memory address bytes ≡ Some after → i < length bytes
        → byte_at after (address + i) ≡ Some (slice_index bytes i) }
    ensures kept { (memory after : Memory) (address other : ℕ) (bytes : List ℕ) → address + length bytes ≤ 2 ^ 64
        → put_bytes memory address bytes ≡ Some after → (other < address) ⊎ (address + length bytes ≤ other)
        → byte_at after other ≡ byte_at memory other }
{}

/// Each byte of pages that are mapped is 0, and no other byte changes.
pub fn pages_are_zeros()
    ensures zero { (pages : Memory) (perm : Perm) (first count address : ℕ) → first + count ≤ 2 ^ 36
        → DoNotMeet pages (zero_pages perm first count)
        → PAGE_BYTES * first ≤ address → address < PAGE_BYTES * (first + count)
        → byte_at (merged pages (zero_pages perm first count)) address ≡ Some 0 }
    ensures kept { (pages : Memory) (perm : Perm) (first count other : ℕ)
        → DoNotMeet pages (zero_pages perm first count)
        → (other < PAGE_BYTES * first) ⊎ (PAGE_BYTES * (first + count) ≤ other)
        → byte_at (merged pages (zero_pages perm first count)) other ≡ byte_at pages other }
{}

/// A map that may be read beside an image gives the same pages where it is read alone.
pub fn map_read_alone()
    ensures { (text : List ℕ) (image pages : Memory) → map_of text image ≡ Ok pages → map_of text [] ≡ Ok pages }
{}
