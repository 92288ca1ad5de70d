//! Numbers of 1, 2, 4 and 8 bytes among others, as one access each.

ghost use Rattle.std.specs.Prelude.{◌≡◌, ◌+◌, ◌≤◌, ◌⊎◌, length};
ghost use Rattle.paged_memory.specs.Numbers.{number_in, with_number};

/// The number of four bytes from a place on.
#[inline(always)]
pub fn word(bytes: &[u8], at: usize) -> u32
    requires { at + 4 ≤ length bytes.now }
    ensures { result ≡ number_in bytes.now at 4 }
{
    u32::from_le_bytes([bytes[at], bytes[at + 1], bytes[at + 2], bytes[at + 3]])
}

/// The number of two bytes from a place on.
#[inline(always)]
fn half_word(bytes: &[u8], at: usize) -> u16
    requires { at + 2 ≤ length bytes.now }
    ensures { result ≡ number_in bytes.now at 2 }
{
    u16::from_le_bytes([bytes[at], bytes[at + 1]])
}

/// The number of eight bytes from a place on.
#[inline(always)]
fn double_word(bytes: &[u8], at: usize) -> u64
    requires { at + 8 ≤ length bytes.now }
    ensures { result ≡ number_in bytes.now at 8 }
{
    u64::from_le_bytes([
        bytes[at],
        bytes[at + 1],
        bytes[at + 2],
        bytes[at + 3],
        bytes[at + 4],
        bytes[at + 5],
        bytes[at + 6],
        bytes[at + 7],
    ])
}

/// The number of `size` bytes from a place on.
#[inline(always)]
pub fn number(bytes: &[u8], at: usize, size: u32) -> u64
    requires size { (size ≡ 1) ⊎ (size ≡ 2) ⊎ (size ≡ 4) ⊎ (size ≡ 8) }
    requires inside { at + size ≤ length bytes.now }
    ensures { result ≡ number_in bytes.now at size }
{
    match size {
        1 => u64::from(bytes[at]),
        2 => u64::from(half_word(bytes, at)),
        4 => u64::from(word(bytes, at)),
        _ => double_word(bytes, at),
    }
}

/// Writes the lowest byte of a number at a place.
#[inline(always)]
fn put_byte(bytes: &mut [u8], at: usize, value: u64)
    requires { at + 1 ≤ length bytes.old }
    ensures { bytes.new ≡ with_number bytes.old at 1 value }
{
    bytes[at] = (value & 0xff) as u8;
}

/// Writes the lowest two bytes of a number from a place on.
#[inline(always)]
fn put_half_word(bytes: &mut [u8], at: usize, value: u64)
    requires { at + 2 ≤ length bytes.old }
    ensures { bytes.new ≡ with_number bytes.old at 2 value }
{
    bytes[at..at + 2].copy_from_slice(&((value & 0xffff) as u16).to_le_bytes());
}

/// Writes the lowest four bytes of a number from a place on.
#[inline(always)]
fn put_word(bytes: &mut [u8], at: usize, value: u64)
    requires { at + 4 ≤ length bytes.old }
    ensures { bytes.new ≡ with_number bytes.old at 4 value }
{
    bytes[at..at + 4].copy_from_slice(&((value & 0xffff_ffff) as u32).to_le_bytes());
}

/// Writes the eight bytes of a number from a place on.
#[inline(always)]
fn put_double_word(bytes: &mut [u8], at: usize, value: u64)
    requires { at + 8 ≤ length bytes.old }
    ensures { bytes.new ≡ with_number bytes.old at 8 value }
{
    bytes[at..at + 8].copy_from_slice(&value.to_le_bytes());
}

/// Writes the lowest `size` bytes of a number from a place on.
#[inline(always)]
pub fn put_number(bytes: &mut [u8], at: usize, size: u32, value: u64)
    requires size { (size ≡ 1) ⊎ (size ≡ 2) ⊎ (size ≡ 4) ⊎ (size ≡ 8) }
    requires inside { at + size ≤ length bytes.old }
    ensures { bytes.new ≡ with_number bytes.old at size value }
{
    match size {
        1 => put_byte(bytes, at, value),
        2 => put_half_word(bytes, at, value),
        4 => put_word(bytes, at, value),
        _ => put_double_word(bytes, at, value),
    }
}
