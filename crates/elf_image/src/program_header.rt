//! Program headers, as far as they are read.

ghost use Rattle.std.specs.Prelude.{◌≡◌, ◌+◌, ◌-◌, ◌^◌, ◌<◌, ◌≤◌, take, drop, length, if◌then◌else◌, Some, None};
ghost use Rattle.machine_model.specs.Load.{Segment, segment_at, has_flag, is_loaded, is_dynamic, is_bad, first_page, page_count, perm_of, holds_entry};
ghost use Rattle.elf_image.specs.Loadable.{IsLoadable};

use crate::constants::{PT_DYNAMIC, PT_INTERP, PT_LOAD};
use crate::fields::{read_u32, read_u64};
use guest_types::memory::{PAGE_BYTES, Perm};
use std::marker::Model;

// The bits of p_flags.
const EXECUTE_BIT: u32 = 0;

const WRITE_BIT: u32 = 1;

const READ_BIT: u32 = 2;

// The end of the addresses that a segment may have.
const SPACE: u128 = 1 << 48;

// A program header: p_type, p_flags, p_offset, p_vaddr, p_filesz and p_memsz.
#[derive(Clone, Copy)]
pub struct ProgramHeader {
    kind: u32,
    flags: u32,
    offset: u64,
    vaddr: u64,
    filesz: u64,
    memsz: u64,
}

impl Model for ProgramHeader {
    ghost Value = { Segment };

    ghost view = { λ h. record { kind = h.kind; flags = h.flags; offset = h.offset; vaddr = h.vaddr; filesz = h.filesz; memsz = h.memsz } };

    ghost inverse = { λ s. record { kind = s.kind; flags = s.flags; offset = s.offset; vaddr = s.vaddr; filesz = s.filesz; memsz = s.memsz } };
}

impl ProgramHeader {
    // The program header at an offset of a file.
    pub fn read(bytes: &[u8], at: usize) -> Self
        requires { at + 56 ≤ length bytes.now }
        ensures { result ≡ segment_at bytes.now at }
    {
        ProgramHeader {
            kind: read_u32(bytes, at),
            flags: read_u32(bytes, at + 4),
            offset: read_u64(bytes, at + 8),
            vaddr: read_u64(bytes, at + 16),
            filesz: read_u64(bytes, at + 32),
            memsz: read_u64(bytes, at + 40),
        }
    }

    fn has_flag(&self, bit: u32) -> bool
        requires { bit < 32 }
        ensures { result ≡ has_flag self.now bit }
    {
        (self.flags >> bit) % 2 == 1
    }

    // The segment has bytes in memory.
    pub fn is_loaded(&self) -> bool
        ensures { result ≡ is_loaded self.now }
    {
        self.kind == PT_LOAD && self.memsz != 0
    }

    // The program is linked dynamically.
    pub fn is_dynamic(&self) -> bool
        ensures { result ≡ is_dynamic self.now }
    {
        self.kind == PT_DYNAMIC || self.kind == PT_INTERP
    }

    // The segment cannot be loaded from a file of this size in bytes.
    pub fn is_bad(&self, size: usize) -> bool
        ensures { result ≡ is_bad size self.now }
    {
        let file_end = u128::from(self.offset) + u128::from(self.filesz);
        let memory_end = u128::from(self.vaddr) + u128::from(self.memsz);
        self.memsz < self.filesz
            || (size as u128) < file_end
            || SPACE < memory_end
            || !self.has_flag(READ_BIT)
            || (self.has_flag(WRITE_BIT) && self.has_flag(EXECUTE_BIT))
    }

    // The number of the segment's first page.
    pub fn first_page(&self) -> u64
        ensures { result ≡ first_page self.now }
    {
        self.vaddr / PAGE_BYTES
    }

    // The number of pages that hold bytes of the segment.
    pub fn page_count(&self) -> u128
        ensures count { result ≡ page_count self.now }
        ensures bound { result < 2 ^ 54 }
    {
        let end = u128::from(self.vaddr) + u128::from(self.memsz);
        end.saturating_sub(1) / u128::from(PAGE_BYTES) + 1 - u128::from(self.first_page())
    }

    // The number after that of the last page that holds bytes of the segment.
    pub fn end_page(&self, size: usize) -> u64
        requires { IsLoadable size self.now }
        ensures end { result ≡ first_page self.now + page_count self.now }
        ensures bound { result ≤ 2 ^ 36 }
    {
        (self.vaddr + self.memsz - 1) / PAGE_BYTES + 1
    }

    // The address of the segment's first byte.
    pub fn vaddr(&self) -> u64
        ensures { result ≡ self.now.vaddr }
    {
        self.vaddr
    }

    // The address after the segment's file bytes.
    pub fn file_end(&self, size: usize) -> u64
        requires { IsLoadable size self.now }
        ensures { result ≡ self.now.vaddr + self.now.filesz }
    {
        self.vaddr + self.filesz
    }

    // The segment's file bytes from one address until another.
    pub fn file_bytes<'a>(&self, bytes: &'a [u8], from: u64, end: u64) -> &'a [u8]
        requires loadable { IsLoadable (length bytes.now) self.now }
        requires low { self.now.vaddr ≤ from }
        requires order { from ≤ end }
        requires high { end ≤ self.now.vaddr + self.now.filesz }
        ensures { result.now ≡ take (end - from) (drop (self.now.offset + (from - self.now.vaddr)) bytes.now) }
    {
        let at = (self.offset + (from - self.vaddr)) as usize;
        let count = (end - from) as usize;
        &bytes[at..at + count]
    }

    // The address after the segment's file bytes, where they hold this one and may be executed.
    pub fn end_of_code(&self, size: usize, entry: u64) -> Option<u64>
        requires { IsLoadable size self.now }
        ensures { result ≡ (if holds_entry entry self.now then Some (self.now.vaddr + self.now.filesz) else None) }
    {
        let end = self.vaddr + self.filesz;
        if self.has_flag(EXECUTE_BIT) && self.vaddr <= entry && entry < end {
            Some(end)
        } else {
            None
        }
    }

    // What the segment's pages may be used for.
    pub fn perm(&self) -> Perm
        ensures { result ≡ perm_of self.now }
    {
        if self.has_flag(WRITE_BIT) {
            Perm::ReadWrite
        } else if self.has_flag(EXECUTE_BIT) {
            Perm::ReadExec
        } else {
            Perm::Read
        }
    }
}
