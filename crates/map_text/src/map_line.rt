//! What a line may say.

ghost use Rattle.std.specs.Prelude.{◌≡◌, true};
ghost use Rattle.map_text.specs.Lines.{are_pages};

use guest_types::memory::Perm;

// Whole pages, by the address of the first of them.
#[derive(Clone, Copy)]
pub struct MappedRange {
    pub address: u64,
    pub count: u64,
    pub perm: Perm,
    pub ghost in_range: { are_pages address count ≡ true },
}

// Bytes, and the address of the first of them.
#[derive(Drop)]
pub struct Patch {
    pub address: u64,
    pub bytes: Vec<u8>,
}

// A line: a blank one or a comment, `map` or `set`.
#[derive(Drop)]
pub enum MapLine {
    Blank,
    Maps(MappedRange),
    Sets(Patch),
}
