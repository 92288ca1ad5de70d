//! What a loaded file has in memory, address by address.

ghost use Rattle.std.specs.Prelude.{◌≡◌, ℕ, ◌+◌, ◌-◌, ◌<◌, ◌≤◌, ◌⊎◌, List, Contains, slice_index, Some, None, Ok};
ghost use Rattle.guest_types.specs.Memory.{byte_at};
ghost use Rattle.machine_model.specs.Load.{Image, Segment, load, perm_of};
ghost use Rattle.elf_image.specs.Mapped.{IsInPages, perm_at, segments_of};

/// Where the file has a byte for an address of a loaded segment, that byte stands there; in the rest of the segment's pages
/// stands 0. All of them have the segment's permission, and no other address is mapped.
pub fn segments_are_mapped()
    ensures file { (bytes : List ℕ) (image : Image) (segment : Segment) (address : ℕ) → load bytes ≡ Ok image
        → Contains (segments_of bytes) segment
        → segment.vaddr ≤ address → address < segment.vaddr + segment.filesz
        → byte_at image.pages address ≡ Some (slice_index bytes (segment.offset + (address - segment.vaddr))) }
    ensures zero { (bytes : List ℕ) (image : Image) (segment : Segment) (address : ℕ) → load bytes ≡ Ok image
        → Contains (segments_of bytes) segment → IsInPages segment address
        → (address < segment.vaddr) ⊎ (segment.vaddr + segment.filesz ≤ address)
        → byte_at image.pages address ≡ Some 0 }
    ensures perm { (bytes : List ℕ) (image : Image) (segment : Segment) (address : ℕ) → load bytes ≡ Ok image
        → Contains (segments_of bytes) segment → IsInPages segment address
        → perm_at image.pages address ≡ Some (perm_of segment) }
    ensures none { (bytes : List ℕ) (image : Image) (address : ℕ) → load bytes ≡ Ok image
        → ((segment : Segment) → Contains (segments_of bytes) segment → IsInPages segment address → ⊥)
        → byte_at image.pages address ≡ None }
{}
