//! Vector registers.

ghost use Rattle.std.specs.Prelude.{◌≡◌, ℕ, ◌+◌, ◌-◌, ◌*◌, ◌/◌, ◌%◌, ◌<◌, ◌≤◌, Bool, length, replicate};
ghost use Rattle.guest_types.specs.Length.{width_bytes, modulus, all_lanes};
ghost use Rattle.guest_types.specs.Elements.{at, with_element, register};

use crate::bytes::{number, put_number};
use crate::length::Width;

/// A vector register of 256 bytes, the lowest first. What lies past the vector length is zero.
#[derive(Clone, Copy)]
pub struct ZReg {
    pub bytes: [u8; 256],
}

impl ZReg {
    /// The register of zeros.
    pub fn zero() -> ZReg
        ensures zeros { result.bytes ≡ replicate 256 0 }
        ensures elements { (k : ℕ) → (f : ℕ → ℕ) → result.bytes ≡ register k f 0 }
    {
        ZReg { bytes: [0; 256] }
    }

    /// Element e, counted from the lowest.
    pub fn element(&self, width: Width, e: usize) -> u64
        requires { e < all_lanes width }
        ensures value { result ≡ at width self.now.bytes e }
        ensures fits { result < modulus width }
    {
        let k = width.bytes();
        number(&self.bytes[k * e..k * e + k])
    }

    /// Writes the lowest bits of a number as element e.
    pub fn put(&mut self, width: Width, e: usize, value: u64)
        requires { e < all_lanes width }
        ensures { self.new.bytes ≡ with_element (width_bytes width) self.old.bytes e value }
    {
        let k = width.bytes();
        put_number(&mut self.bytes[k * e..k * e + k], value);
    }
}
