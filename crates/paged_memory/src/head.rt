//! The heads of pages.

ghost use Rattle.std.specs.Prelude.{◌≡◌};
ghost use Rattle.guest_types.specs.Memory.{is_writable, is_executable};

use guest_types::memory::{PAGE_BYTES, Perm};

/// The bytes of a page, as a length.
pub const PAGE_LEN: usize = PAGE_BYTES as usize;

/// What a page is found by, what it may be used for, and the place from which on its bytes stand.
#[derive(Clone, Copy)]
pub struct Head {
    pub number: u64,
    pub perm: Perm,
    pub start: usize,
}

impl Head {
    /// Whether the page may be written.
    #[inline(always)]
    pub fn is_writable(&self) -> bool
        ensures { result ≡ is_writable self.now.perm }
    {
        match self.perm {
            Perm::ReadWrite => true,
            Perm::Read | Perm::ReadExec => false,
        }
    }

    /// Whether instructions of the page may be fetched.
    #[inline(always)]
    pub fn is_executable(&self) -> bool
        ensures { result ≡ is_executable self.now.perm }
    {
        match self.perm {
            Perm::ReadExec => true,
            Perm::Read | Perm::ReadWrite => false,
        }
    }
}
