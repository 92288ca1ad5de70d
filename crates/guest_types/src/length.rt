//! Vector lengths and element widths.

ghost use Rattle.std.specs.Prelude.{◌≡◌, ℕ, ◌+◌, ◌/◌, ◌%◌, ◌<◌, ◌≤◌, IsSome, IfSome, ◌↔◌};
ghost use Rattle.guest_types.specs.LaneMemory.{width_of_size, size_of_width};
ghost use Rattle.guest_types.specs.Length.{IsLength, lanes, width_bits, width_bytes, all_lanes, modulus};

use std::marker::Model;

/// A vector length in bits, one of the sixteen multiples of 128 from 128 to 2048.
#[derive(Clone, Copy)]
pub struct Vl {
    bits: u32,
}

impl Model for Vl {
    ghost Value = { ℕ };

    ghost view = { λ v. v.bits };

    ghost invariant = { λ v. IsLength v.bits };

    ghost inverse = { λ n. record { bits = n } };
}

/// The width of an element: 8, 16, 32 or 64 bits.
#[derive(Clone, Copy, Debug, PartialEq, Eq)]
pub enum Width {
    B,
    H,
    S,
    D,
}

impl Vl {
    /// The length of so many bits, where there is one.
    pub fn new(bits: u32) -> Option<Self>
        ensures valid { IsSome result ↔ IsLength bits }
        ensures value { IfSome result (λ vl. vl ≡ bits) }
    {
        if bits % 128 == 0 && bits >= 128 && bits <= 2048 {
            Some(Vl { bits })
        } else {
            None
        }
    }

    /// The length in bits.
    pub fn bits(self) -> u32
        ensures value { result ≡ self }
        ensures valid { IsLength self }
    {
        self.bits
    }

    /// The number of elements of a width in a register of this length.
    pub fn lanes(self, width: Width) -> u32
        ensures value { result ≡ lanes self width }
        ensures valid { IsLength self }
    {
        match width {
            Width::B => self.bits / 8,
            Width::H => self.bits / 16,
            Width::S => self.bits / 32,
            Width::D => self.bits / 64,
        }
    }
}

impl Width {
    /// The width of so many bytes, by their logarithm to the base 2.
    pub fn of(log_bytes: u32) -> Width
        requires { log_bytes < 4 }
        ensures value { result ≡ width_of_size log_bytes }
        ensures size { size_of_width result ≡ log_bytes }
    {
        match log_bytes {
            0 => Width::B,
            1 => Width::H,
            2 => Width::S,
            _ => Width::D,
        }
    }

    /// The bytes of an element.
    pub fn bytes(self) -> usize
        ensures { result ≡ width_bytes self }
    {
        match self {
            Width::B => 1,
            Width::H => 2,
            Width::S => 4,
            Width::D => 8,
        }
    }

    /// The bits of an element.
    pub fn bits(self) -> u32
        ensures { result ≡ width_bits self }
    {
        match self {
            Width::B => 8,
            Width::H => 16,
            Width::S => 32,
            Width::D => 64,
        }
    }

    /// The number of elements in the 256 bytes that a register has at most.
    pub fn all_lanes(self) -> usize
        ensures { result ≡ all_lanes self }
    {
        match self {
            Width::B => 256,
            Width::H => 128,
            Width::S => 64,
            Width::D => 32,
        }
    }

    /// A number as an element keeps it: its lowest bits.
    pub fn wrap(self, value: u64) -> u64
        ensures { result ≡ value % modulus self }
    {
        match self {
            Width::B => value & 0xff,
            Width::H => value & 0xffff,
            Width::S => value & 0xffff_ffff,
            Width::D => value,
        }
    }

    /// The highest number of an element.
    pub fn max(self) -> u64
        ensures { result + 1 ≡ modulus self }
    {
        match self {
            Width::B => 0xff,
            Width::H => 0xffff,
            Width::S => 0xffff_ffff,
            Width::D => 0xffff_ffff_ffff_ffff,
        }
    }
}
