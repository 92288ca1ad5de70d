//! Numbers as bytes, the lowest first.

ghost use Rattle.std.specs.Prelude.{◌≡◌, ◌+◌, ◌*◌, ◌%◌, ◌^◌, ◌<◌, ◌≤◌, length};
ghost use Rattle.guest_types.specs.Elements.{number_of_bytes, bytes_of};

/// The number that at most eight bytes spell, the lowest first.
pub fn number(bytes: &[u8]) -> u64
    requires { length bytes.now ≤ 8 }
    ensures { result ≡ number_of_bytes bytes.now }
{
    let mut value: u64 = 0;
    let k = bytes.len();
    for i in 0..k {
        value = value * 256 + bytes[k - 1 - i] as u64;
    }
    value
}

/// Writes the low bytes of a number, the lowest first.
pub fn put_number(bytes: &mut [u8], value: u64)
    ensures { bytes.new ≡ bytes_of (length bytes.old) value }
{
    let mut rest = value;
    for byte in bytes.iter_mut() {
        *byte = (rest & 255) as u8;
        rest >>= 8;
    }
}
