//! Pages of 4,096 bytes, and refused accesses.

ghost use Rattle.std.specs.Prelude.{◌≡◌, ℕ, ◌<◌, ◌^◌, List, length, IsSome, IfSome, ◌↔◌, slice_set, true, false, All};
ghost use Rattle.guest_types.specs.declared.memory.TheConstants.{PAGE_BYTES};

use std::marker::Model;

/// The bytes of a page.
pub const PAGE_BYTES: u64 = 4096;

/// The most pages that a guest's memory has.
pub const MOST_PAGES: usize = 16384;

/// What a page may be used for. Every page is readable.
#[derive(Clone, Copy, Debug, PartialEq, Eq)]
pub enum Perm {
    Read,
    ReadWrite,
    ReadExec,
}

/// An access that the memory refuses.
///
/// `address` is that of the first refused byte, counted from the address of the access.
#[derive(Clone, Copy, Debug, PartialEq, Eq)]
pub struct AccessFault {
    pub address: u64,
    pub write: bool,
}

impl AccessFault {
    /// That the byte at an address may not be read.
    #[inline(always)]
    pub fn read(address: u64) -> AccessFault
        ensures { result ≡ record { address = address; write = false } }
    {
        AccessFault {
            address,
            write: false,
        }
    }

    /// That the byte at an address may not be written.
    #[inline(always)]
    pub fn write(address: u64) -> AccessFault
        ensures { result ≡ record { address = address; write = true } }
    {
        AccessFault {
            address,
            write: true,
        }
    }
}

/// The number of a page: its first address over 4,096, below 2^36.
#[derive(Clone, Copy)]
pub struct PageNo {
    number: u64,
}

impl Model for PageNo {
    ghost Value = { ℕ };

    ghost view = { λ p. p.number };

    ghost invariant = { λ p. p.number < 2 ^ 36 };

    ghost inverse = { λ n. record { number = n } };
}

impl PageNo {
    /// The page with this number, where there is one.
    pub fn new(number: u64) -> Option<Self>
        ensures valid { IsSome result ↔ (number < 2 ^ 36) }
        ensures value { IfSome result (λ page. page ≡ number) }
    {
        if number < 1 << 36 {
            Some(PageNo { number })
        } else {
            None
        }
    }

    /// The page's number.
    pub fn number(self) -> u64
        ensures value { result ≡ self }
        ensures valid { self < 2 ^ 36 }
    {
        self.number
    }
}

/// The bytes of a page, of which there are exactly 4,096.
#[derive(Drop)]
pub struct PageBytes {
    bytes: Vec<u8>,
}

impl Model for PageBytes {
    ghost Value = { List ℕ };

    ghost view = { λ p. p.bytes.items };

    ghost invariant = { λ p. length p.bytes.items ≡ PAGE_BYTES };
}

impl PageBytes {
    /// A page of these bytes.
    pub fn new(bytes: Vec<u8>) -> Self
        requires { length bytes.items ≡ PAGE_BYTES }
        ensures { result ≡ bytes.items }
    {
        PageBytes { bytes }
    }

    /// The bytes, from the lowest address on.
    pub fn as_slice(&self) -> &[u8]
        ensures bytes { result.now ≡ self.now }
        ensures whole { length self.now ≡ PAGE_BYTES }
        ensures small { All (λ b. b < 256) self.now }
    {
        let bytes = self.bytes.as_slice();
        bytes
    }

    /// Replaces one byte, by its place in the page.
    pub fn put(&mut self, at: usize, byte: u8)
        requires { at < PAGE_BYTES }
        ensures { self.new ≡ slice_set self.old at byte }
    {
        self.bytes[at] = byte;
    }
}

/// A page with its number and permission.
#[derive(Drop)]
pub struct PageSpec {
    pub page: PageNo,
    pub perm: Perm,
    pub bytes: PageBytes,
}

impl PageSpec {
    ghost use Rattle.guest_types.specs.Memory.{IsPage};

    /// A page of a memory, of which callers learn that it is one.
    pub fn new(page: PageNo, perm: Perm, bytes: PageBytes) -> Self
        ensures page { result.page ≡ page }
        ensures perm { result.perm ≡ perm }
        ensures bytes { result.bytes ≡ bytes }
        ensures is_page { IsPage result }
    {
        let _number = page.number();
        let _bytes = bytes.as_slice();
        PageSpec { page, perm, bytes }
    }
}
