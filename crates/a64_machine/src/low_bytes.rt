//! The low bytes of a number, as what writes them to a page.

ghost use Rattle.std.specs.Prelude.{◌≡◌, ◌⊎◌};
ghost use Rattle.guest_types.specs.Elements.{bytes_of};

use paged_memory::number::put_number;
use paged_memory::span_writer::SpanWriter;

/// The low `size` bytes of a number.
#[derive(Clone, Copy)]
pub struct LowBytes {
    pub size: u32,
    pub value: u64,
}

impl SpanWriter for LowBytes {
    ghost can = { λ low len. (low.size ≡ len) × ((len ≡ 1) ⊎ (len ≡ 2) ⊎ (len ≡ 4) ⊎ (len ≡ 8)) };

    ghost writes = { λ low old new. new ≡ bytes_of low.size low.value };

    #[inline(always)]
    fn write(&self, part: &mut [u8]) {
        put_number(part, 0, self.size, self.value);
    }
}
