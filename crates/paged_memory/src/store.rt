//! The pages of a guest as they are now.

ghost use Rattle.std.specs.Prelude.{◌≡◌, ℕ, ◌+◌, ◌^◌, ◌<◌, ◌≤◌, [], length, Ok, Err, OnOk, OnErr, IfOk, IfErr, All};
ghost use Rattle.guest_types.specs.Spans.{in_one_page, has_span, has_span_mut, span_of};
ghost use Rattle.guest_types.specs.Memory.{IsMemory, byte_at, byte_or_zero, can_read, can_write, first_fault, loaded, stored, number_at, put_byte, put_number, fetched, merged, DoNotMeet};
ghost use Rattle.guest_types.specs.declared.memory.TheConstants.{PAGE_BYTES, MOST_PAGES};
ghost use Rattle.paged_memory.specs.Layout.{without};
ghost use Rattle.paged_memory.specs.SpanWritten.{IsSpanWritten};

use crate::head::{Head, PAGE_LEN};
use crate::merge::{append, end_of, has_page, heads_of, join};
use crate::number;
use crate::place::{Recent, place_of, read_place_of};
use crate::span_writer::SpanWriter;
use guest_types::guest::GuestMemory;
use guest_types::image::{Image, PageMap};
use guest_types::memory::{AccessFault, PAGE_BYTES, PageSpec};
use std::alloc::{AllocError, Global};
use std::marker::Model;

/// The pages of a guest as they are now, in the order of their numbers.
#[derive(Drop)]
pub struct Store {
    // These two `Pages::lend` reads.
    pub heads: Vec<Head>,
    pub bytes: Vec<u8>,
    recent: Recent,
}

impl Model for Store {
    ghost use Rattle.guest_types.specs.Memory.{Memory};
    ghost use Rattle.paged_memory.specs.Layout.{memory_of, IsLaidOut};

    ghost Value = { Memory };

    ghost view = { λ pages. memory_of pages.heads.items pages.bytes.items };

    ghost invariant = { λ pages. IsLaidOut pages.heads.items pages.bytes.items };
}

impl Store {
    /// No page. It takes no memory.
    pub fn empty(alloc: Global) -> Store
        ensures { result ≡ [] }
    {
        Store {
            heads: Vec::new(alloc),
            bytes: Vec::new(alloc),
            recent: Recent::new(),
        }
    }

    /// The pages of an image and of a map beside it. It takes all memory that later calls need.
    pub fn build(alloc: Global, image: &Image, map: &PageMap) -> Result<Store, AllocError>
        requires apart { DoNotMeet image.now.pages.items map.now.pages.items }
        requires few { length image.now.pages.items + length map.now.pages.items ≤ MOST_PAGES }
        ensures { IfOk result (λ pages. pages ≡ merged image.now.pages.items map.now.pages.items) }
    {
        let count = image.pages.len() + map.pages.len();
        let mut store = Store {
            heads: Vec::new(alloc),
            bytes: Vec::with_capacity(alloc, PAGE_LEN * count)?,
            recent: Recent::new(),
        };
        store.map_pages(alloc, &map.pages)?;
        store.map_pages(alloc, &image.pages)?;
        Ok(store)
    }

    /// Puts pages beside those that stand here. Their bytes come after those of all others.
    pub fn map_pages(&mut self, alloc: Global, pages: &[PageSpec]) -> Result<(), AllocError>
        requires pages { IsMemory pages.now }
        requires apart { DoNotMeet pages.now self.old }
        requires few { length pages.now + length self.old ≤ MOST_PAGES }
        ensures memory { OnOk result (self.new ≡ merged pages.now self.old) }
        ensures unchanged { OnErr result (self.new ≡ self.old) }
    {
        self.is_memory();
        let more = heads_of(alloc, pages, self.bytes.len())?;
        let heads = join(alloc, &more, &self.heads)?;
        append(&mut self.bytes, pages)?;
        self.heads = heads;
        Ok(())
    }

    /// Drops the pages that have the numbers of some. The bytes behind all those of the others are cut off.
    pub fn unmap_pages(&mut self, pages: &[PageSpec])
        requires { IsMemory pages.now }
        ensures { self.new ≡ without pages.now self.old }
    {
        self.heads.retain(|head| !has_page(pages, head.number));
        let end = end_of(&self.heads);
        self.bytes.truncate(end);
    }

    /// The word at an address, where that is a multiple of 4 in a page whose instructions may be
    /// fetched.
    pub fn fetch(&self, address: u64) -> Option<u32>
        ensures { result ≡ fetched self.now address }
    {
        if address % 4 != 0 {
            return None;
        }
        let Some(place) = place_of(&self.heads, &self.recent.fetched, address / PAGE_BYTES) else {
            return None;
        };
        if !self.heads[place].is_executable() {
            return None;
        }
        let at = self.heads[place].start + (address % PAGE_BYTES) as usize;
        Some(number::word(&self.bytes, at))
    }

    /// The byte at an address, where a page is mapped.
    pub fn byte(&self, address: u64) -> Option<u8>
        ensures { result ≡ byte_at self.now address }
    {
        let Some(place) = read_place_of(&self.heads, &self.recent, address / PAGE_BYTES) else {
            return None;
        };
        let at = self.heads[place].start + (address % PAGE_BYTES) as usize;
        Some(self.bytes[at])
    }

    fn can_write(&self, address: u64) -> bool
        ensures { result ≡ can_write self.now address }
    {
        match place_of(&self.heads, &self.recent.written, address / PAGE_BYTES) {
            Some(place) => self.heads[place].is_writable(),
            None => false,
        }
    }

    // The first of so many bytes that is not readable.
    fn read_fault(&self, address: u64, size: u32) -> Option<u64>
        ensures { result ≡ first_fault (can_read self.now) address size }
    {
        if size == 0 {
            return None;
        }
        if self.byte(address).is_none() {
            return Some(address);
        }
        self.read_fault(address.wrapping_add(1), size - 1)
    }

    // The first of so many bytes that is not writable.
    fn write_fault(&self, address: u64, size: u32) -> Option<u64>
        ensures { result ≡ first_fault (can_write self.now) address size }
    {
        if size == 0 {
            return None;
        }
        if !self.can_write(address) {
            return Some(address);
        }
        self.write_fault(address.wrapping_add(1), size - 1)
    }

    /// The byte at an address, where an unmapped one counts as 0.
    pub fn byte_or_zero(&self, address: u64) -> u8
        ensures { result ≡ byte_or_zero self.now address }
    {
        match self.byte(address) {
            Some(byte) => byte,
            None => 0,
        }
    }

    // The number of so many bytes, where an unmapped one counts as 0.
    #[tactic(auto, using(crate::proofs::Bytes::more_bytes, crate::proofs::Bytes::eight_bytes))]
    fn number(&self, address: u64, size: u32) -> u64
        requires { size ≤ 8 }
        ensures value { result ≡ number_at self.now address size }
        ensures bound { result < 256 ^ size }
    {
        if size == 0 {
            return 0;
        }
        let low = self.byte_or_zero(address);
        u64::from(low) + 256 * self.number(address.wrapping_add(1), size - 1)
    }

    // A load that crosses a page or is refused.
    #[cold]
    #[inline(never)]
    fn load_bytes(&self, address: u64, size: u32) -> Result<u64, AccessFault>
        requires { size ≤ 8 }
        ensures { result ≡ loaded self.now address size }
    {
        match self.read_fault(address, size) {
            Some(fault) => Err(AccessFault::read(fault)),
            None => Ok(self.number(address, size)),
        }
    }

    // Writes one byte, where it is mapped.
    fn put_byte(&mut self, address: u64, byte: u8)
        ensures { self.new ≡ put_byte self.old address byte }
    {
        if let Some(place) = place_of(&self.heads, &self.recent.written, address / PAGE_BYTES) {
            let at = self.heads[place].start + (address % PAGE_BYTES) as usize;
            number::put_number(&mut self.bytes, at, 1, u64::from(byte));
        }
    }

    // Writes the lowest bytes of a number, where they are mapped.
    fn put_number(&mut self, address: u64, size: u32, value: u64)
        ensures { self.new ≡ put_number self.old address size value }
    {
        if size == 0 {
            return;
        }
        self.put_byte(address, (value & 0xff) as u8);
        self.put_number(address.wrapping_add(1), size - 1, value / 256);
    }

    // A store that crosses a page or is refused.
    #[cold]
    #[inline(never)]
    fn store_bytes(&mut self, address: u64, size: u32, value: u64) -> Result<(), AccessFault>
        ensures done { OnOk result (stored self.old address size value ≡ Ok self.new) }
        ensures refused { IfErr result (λ fault. stored self.old address size value ≡ Err fault) }
        ensures unchanged { OnErr result (self.new ≡ self.old) }
    {
        match self.write_fault(address, size) {
            Some(fault) => Err(AccessFault::write(fault)),
            None => {
                self.put_number(address, size, value);
                Ok(())
            }
        }
    }
}

// What callers may rest on of bytes. It does nothing.
#[inline(always)]
fn are_bytes(bytes: &[u8])
    ensures { All (λ b. b < 256) bytes.now }
{
    let _ = bytes;
}

// Whether a range is not empty and does not go past the end of its page.
#[inline(always)]
fn in_one_page(address: u64, len: u32) -> bool
    ensures { result ≡ in_one_page address len }
{
    (1 <= len) & (address % PAGE_BYTES + u64::from(len) <= PAGE_BYTES)
}

impl Store {
    ghost use Rattle.std.specs.Prelude.{IsTrue, IsSome, IfSome, ◌↔◌};
    ghost use Rattle.paged_memory.specs.Loans.{IsPlaceOf};

    fn can_read(&self, address: u64) -> bool
        ensures { result ≡ can_read self.now address }
    {
        match read_place_of(&self.heads, &self.recent, address / PAGE_BYTES) {
            Some(_place) => true,
            None => false,
        }
    }

    /// Whether a range is not empty and lies in one page.
    #[inline(always)]
    pub fn has_span(&self, address: u64, len: u32) -> bool
        ensures { result ≡ has_span self.now address len }
    {
        in_one_page(address, len) && self.can_read(address)
    }

    /// Whether a range is not empty and lies in one page that may be written.
    #[inline(always)]
    pub fn has_span_mut(&self, address: u64, len: u32) -> bool
        ensures { result ≡ has_span_mut self.now address len }
    {
        in_one_page(address, len) && self.can_write(address)
    }

    // The place of the page of a range that is not empty and lies in one page.
    #[inline(always)]
    fn span_place(&self, address: u64, len: u32) -> Option<usize>
        ensures some { IsSome result ↔ IsTrue (has_span self.now address len) }
        ensures value { IfSome result (IsPlaceOf self.now address len) }
    {
        if !in_one_page(address, len) {
            return None;
        }
        match read_place_of(&self.heads, &self.recent, address / PAGE_BYTES) {
            Some(place) => Some(place),
            None => None,
        }
    }

    // The bytes of a range in one page, by the place of that.
    #[inline(always)]
    fn part(&self, address: u64, len: u32, place: usize) -> &[u8]
        requires { IsPlaceOf self.now address len place }
        ensures value { result.now ≡ span_of self.now address len }
        ensures len { length result.now ≡ len }
    {
        let at = self.heads[place].start + (address % PAGE_BYTES) as usize;
        &self.bytes[at..at + len as usize]
    }

    /// The bytes of a range, where it is not empty and lies in one page. The page is looked up once.
    #[inline(always)]
    pub fn span(&self, address: u64, len: u32) -> Option<&[u8]>
        ensures some { IsSome result ↔ IsTrue (has_span self.now address len) }
        ensures value { IfSome result (λ part. part.now ≡ span_of self.now address len) }
        ensures len { IfSome result (λ part. length part.now ≡ len) }
    {
        match self.span_place(address, len) {
            Some(place) => Some(self.part(address, len, place)),
            None => None,
        }
    }

    /// What callers may rest on: the numbers of the pages ascend and are below 2^36, and each page
    /// has 4,096 bytes. It does nothing.
    #[inline(always)]
    pub fn is_memory(&self)
        ensures { IsMemory self.now }
    {
        are_bytes(&self.bytes);
    }

    /// The place of the page of a range that is not empty and lies in one page that may be written.
    #[inline(always)]
    pub fn place_mut(&self, address: u64, len: u32) -> Option<usize>
        ensures some { IsSome result ↔ IsTrue (has_span_mut self.now address len) }
        ensures value { IfSome result (IsPlaceOf self.now address len) }
    {
        if !in_one_page(address, len) {
            return None;
        }
        match place_of(&self.heads, &self.recent.written, address / PAGE_BYTES) {
            Some(place) => {
                if self.heads[place].is_writable() {
                    Some(place)
                } else {
                    None
                }
            }
            None => None,
        }
    }

    /// Lends the bytes of a range in one page, by the place of that, to one that writes them.
    #[inline(always)]
    pub fn write_span<W: SpanWriter>(&mut self, address: u64, len: u32, place: usize, writer: &W)
        requires place { IsPlaceOf self.old address len place }
        requires can { W.can writer.now len }
        ensures { IsSpanWritten (W.writes writer.now) address len self.old self.new }
    {
        let at = self.heads[place].start + (address % PAGE_BYTES) as usize;
        writer.write(&mut self.bytes[at..at + len as usize]);
    }
}

impl Store {
    ghost use Rattle.std.specs.Prelude.{IfSome, IfNone};
    ghost use Rattle.paged_memory.specs.Loans.{place_in};
    ghost use Rattle.paged_memory.specs.Epochs.{bytes_at, with_page};

    /// How many pages there are.
    pub fn len(&self) -> usize
        ensures value { result ≡ length self.now }
        ensures few { result ≤ MOST_PAGES }
    {
        self.heads.len()
    }

    /// The place of the page with a number, that is how many pages stand before it.
    pub fn place(&self, number: u64) -> Option<usize>
        ensures some { IfSome result (λ place. place ≡ place_in self.now number) }
        ensures below { IfSome result (λ place. place < length self.now) }
        ensures none { IfNone result (place_in self.now number ≡ length self.now) }
    {
        match place_of(&self.heads, &self.recent.written, number) {
            Some(place) => Some(place),
            None => None,
        }
    }

    /// The bytes of the page at a place.
    pub fn page(&self, place: usize) -> &[u8]
        requires { place < length self.now }
        ensures value { result.now ≡ bytes_at self.now place }
        ensures whole { length result.now ≡ PAGE_BYTES }
    {
        let at = self.heads[place].start;
        &self.bytes[at..at + PAGE_LEN]
    }

    /// Puts other bytes into the page at a place, where there is one.
    pub fn put_page(&mut self, place: usize, page: &[u8])
        requires { length page.now ≡ PAGE_BYTES }
        ensures { self.new ≡ with_page place page.now self.old }
    {
        if place < self.heads.len() {
            let at = self.heads[place].start;
            self.bytes[at..at + PAGE_LEN].copy_from_slice(page);
        }
    }
}

impl GuestMemory for Store {
    ghost memory = { λ memory. memory };

    ghost past = { λ memory. [] };

    #[inline(always)]
    fn load(&self, address: u64, size: u32) -> Result<u64, AccessFault> {
        let offset = address % PAGE_BYTES;
        if offset + u64::from(size) <= PAGE_BYTES {
            if let Some(place) = read_place_of(&self.heads, &self.recent, address / PAGE_BYTES) {
                let at = self.heads[place].start + offset as usize;
                return Ok(number::number(&self.bytes, at, size));
            }
        }
        self.load_bytes(address, size)
    }

    #[inline(always)]
    fn store(&mut self, address: u64, size: u32, value: u64) -> Result<(), AccessFault> {
        let offset = address % PAGE_BYTES;
        if offset + u64::from(size) <= PAGE_BYTES {
            if let Some(place) = place_of(&self.heads, &self.recent.written, address / PAGE_BYTES) {
                if self.heads[place].is_writable() {
                    let at = self.heads[place].start + offset as usize;
                    number::put_number(&mut self.bytes, at, size, value);
                    return Ok(());
                }
            }
        }
        self.store_bytes(address, size, value)
    }
}
