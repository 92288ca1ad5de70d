//! Bit fields: where immr is at most imms, bits imms down to immr go to the low end; else bits imms
//! down to 0 go to bit 64 - immr.

ghost use Rattle.std.specs.Prelude.{◌≡◌, ◌<◌, ◌≤◌, ◌+◌, ◌%◌, ◌^◌, ◌*◌};
ghost use Rattle.machine_model.specs.Arithmetic.{field_width, field_taken, field_place, extended_word, signed_field, unsigned_field};

/// The highest number of so many bits.
#[inline(always)]
fn ones(width: u32) -> u64
    requires some { 1 ≤ width }
    requires few { width ≤ 64 }
    ensures { result + 1 ≡ 2 ^ width }
{
    u64::MAX >> (64 - width)
}

/// The lowest bits of a number.
#[inline(always)]
fn low_bits(value: u64, width: u32) -> u64
    requires some { 1 ≤ width }
    requires few { width ≤ 64 }
    ensures { result ≡ value % 2 ^ width }
{
    value & ones(width)
}

/// A number of so many bits as 64 bits, with copies of its top bit above it.
#[inline(always)]
fn extended_word(width: u32, value: u64) -> u64
    requires some { 1 ≤ width }
    requires few { width ≤ 64 }
    requires fits { value < 2 ^ width }
    ensures { result ≡ extended_word width value }
{
    if value < 1 << (width - 1) {
        value
    } else {
        value + (u64::MAX - ones(width))
    }
}

/// The bits of the field, at the low end.
#[inline(always)]
fn field_taken(value: u64, immr: u32, imms: u32) -> u64
    requires immr { immr < 64 }
    requires imms { imms < 64 }
    ensures taken { result ≡ field_taken value immr imms }
    ensures fits { result < 2 ^ field_width immr imms }
{
    if immr <= imms {
        low_bits(value >> immr, imms + 1 - immr)
    } else {
        low_bits(value, imms + 1)
    }
}

/// The field with zeros above it.
#[inline(always)]
pub fn unsigned_field(value: u64, immr: u32, imms: u32) -> u64
    requires immr { immr < 64 }
    requires imms { imms < 64 }
    ensures { result ≡ unsigned_field value immr imms }
{
    let taken = field_taken(value, immr, imms);
    if immr <= imms {
        taken
    } else {
        taken << (64 - immr)
    }
}

/// The field with copies of its top bit above it.
#[inline(always)]
pub fn signed_field(value: u64, immr: u32, imms: u32) -> u64
    requires immr { immr < 64 }
    requires imms { imms < 64 }
    ensures { result ≡ signed_field value immr imms }
{
    let taken = field_taken(value, immr, imms);
    if immr <= imms {
        extended_word(imms + 1 - immr, taken)
    } else {
        extended_word(imms + 1, taken) << (64 - immr)
    }
}
