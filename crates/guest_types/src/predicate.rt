//! Predicate registers.

ghost use Rattle.std.specs.Prelude.{◌≡◌, ℕ, ◌+◌, ◌*◌, ◌<◌, ◌≤◌, Bool, true, replicate};
ghost use Rattle.guest_types.specs.Length.{width_bytes, all_lanes};
ghost use Rattle.guest_types.specs.Elements.{bit, active, predicate, put_bit};

use crate::length::Width;

/// A predicate register of 256 bits. Bit k is bit k mod 8 of byte k / 8, and what lies past the
/// vector length is zero.
#[derive(Clone, Copy)]
pub struct PReg {
    pub bits: [u8; 32],
}

impl PReg {
    /// The register with no bit set.
    pub fn none() -> PReg
        ensures zeros { result.bits ≡ replicate 32 0 }
        ensures elements { (k : ℕ) → (h : ℕ → Bool) → result.bits ≡ predicate k h 0 }
    {
        PReg { bits: [0; 32] }
    }

    /// Bit j.
    pub fn bit(&self, j: usize) -> bool
        requires { j < 256 }
        ensures { result ≡ bit self.now.bits j }
    {
        (self.bits[j / 8] >> (j % 8)) & 1 == 1
    }

    /// The bit of an element.
    pub fn is_active(&self, width: Width, e: usize) -> bool
        requires { e < all_lanes width }
        ensures { result ≡ active width self.now.bits e }
    {
        self.bit(width.bytes() * e)
    }

    /// Sets bit j where `value` is true.
    pub fn put(&mut self, j: usize, value: bool)
        requires { j < 256 }
        ensures { self.new.bits ≡ put_bit self.old.bits j value }
    {
        if value {
            self.bits[j / 8] |= 1 << (j % 8);
        }
    }
}
