//! The pages of a guest, and what they were.

ghost use Rattle.std.specs.Prelude.{◌≡◌, ℕ, ◌+◌, ◌/◌, ◌%◌, ◌<◌, ◌≤◌, [], ◌∷◌, length, take, slice_index_or, OnOk, OnErr, IfOk, IfErr, IsTrue, Ok, Err, ◌⊎◌};
ghost use Rattle.guest_types.specs.Spans.{has_span, has_span_mut, span_of};
ghost use Rattle.guest_types.specs.Memory.{Memory, IsMemory, byte_at, byte_or_zero, fetched, merged, stored, DoNotMeet};
ghost use Rattle.guest_types.specs.Kept.{kept_more};
ghost use Rattle.guest_types.specs.declared.memory.TheConstants.{PAGE_BYTES, MOST_PAGES};
ghost use Rattle.paged_memory.specs.Epochs.{past_of, IsSaved};
ghost use Rattle.paged_memory.specs.Layout.{without};
ghost use Rattle.paged_memory.specs.SpanWritten.{IsSpanWritten};

use crate::log::Log;
use crate::span_writer::SpanWriter;
use crate::store::Store;
use guest_types::guest::GuestMemory;
use guest_types::image::{Image, PageMap};
use guest_types::memory::{AccessFault, PAGE_BYTES};
use std::alloc::{AllocError, Global};
use std::marker::Model;

/// What stands for the number of a page where none was opened: greater than each of them.
const NONE: u64 = u64::MAX;

/// The pages of a guest, in the order of their numbers, and what they were each time that they were kept.
#[derive(Drop)]
pub struct Pages {
    store: Store,
    log: Log,
    // The number of the page that was opened last. A page is opened before it is written.
    opened: u64,
}

impl Model for Pages {
    ghost use Rattle.paged_memory.specs.Past.{Paged};
    ghost use Rattle.paged_memory.specs.Epochs.{past_of, IsKept};

    ghost Value = { Paged };

    ghost view = { λ pages. record { memory = pages.store; past = past_of pages.log.epochs pages.store } };

    ghost invariant = { λ pages. IsKept pages.store pages.log pages.opened };
}

/// Opens a page: saves it in the newest epoch, where that has not saved it.
#[cold]
#[inline(never)]
fn open(store: &Store, log: &mut Log, number: u64)
    requires { log.old.pages ≡ length store.now }
    ensures pages { log.new.pages ≡ log.old.pages }
    ensures saved { IsSaved log.new.epochs store.now number }
    ensures kept { (other : ℕ) → IsSaved log.old.epochs store.now other → IsSaved log.new.epochs store.now other }
    ensures past { past_of log.new.epochs store.now ≡ past_of log.old.epochs store.now }
{
    if let Some(place) = store.place(number) {
        log.save(place, store.page(place));
    }
}

/// Opens a page where it is not the one that was opened last.
#[inline(always)]
fn open_next(store: &Store, log: &mut Log, opened: &mut u64, number: u64)
    requires pages { log.old.pages ≡ length store.now }
    requires opened { number ≡ opened.old → IsSaved log.old.epochs store.now number }
    ensures pages { log.new.pages ≡ log.old.pages }
    ensures saved { IsSaved log.new.epochs store.now number }
    ensures opened { opened.new ≡ number }
    ensures past { past_of log.new.epochs store.now ≡ past_of log.old.epochs store.now }
{
    if *opened != number {
        open(store, log, number);
        *opened = number;
    }
}

/// Whether so many bytes from an address on are all in the page that was opened last.
#[inline(always)]
fn is_open(opened: u64, address: u64, size: u32) -> bool
    ensures opened { IsTrue result → opened ≡ address / PAGE_BYTES }
    ensures inside { IsTrue result → address % PAGE_BYTES + size ≤ PAGE_BYTES }
{
    address / PAGE_BYTES == opened && address % PAGE_BYTES + u64::from(size) <= PAGE_BYTES
}

/// Goes back to one of the memories that were kept, oldest first. Those after it are kept no longer.
fn go_back(store: &mut Store, log: &mut Log, n: usize)
    requires { n < length log.old.epochs }
    ensures pages { log.new.pages ≡ log.old.pages }
    ensures len { length store.new ≡ length store.old }
    ensures memory { (d : Memory) → slice_index_or (past_of log.old.epochs store.old) n d ≡ store.new }
    ensures past { past_of log.new.epochs store.new ≡ take (n + 1) (past_of log.old.epochs store.old) }
{
    while log.count() > n + 1 {
        log.undo_newest(store);
        log.drop_newest();
    }
    log.undo_newest(store);
}

impl Pages {
    /// The pages of an image and of a map beside it. It takes all memory that later calls need, but for `begin`.
    pub fn build(alloc: Global, image: &Image, map: &PageMap) -> Result<Pages, AllocError>
        requires apart { DoNotMeet image.now.pages.items map.now.pages.items }
        requires few { length image.now.pages.items + length map.now.pages.items ≤ MOST_PAGES }
        ensures memory { IfOk result (λ pages. pages.memory ≡ merged image.now.pages.items map.now.pages.items) }
        ensures past { IfOk result (λ pages. pages.past ≡ []) }
    {
        let store = Store::build(alloc, image, map)?;
        let log = Log::none(alloc, store.len());
        Ok(Pages {
            store,
            log,
            opened: NONE,
        })
    }

    /// No page, and no past. It takes no memory.
    pub fn empty(alloc: Global) -> Pages
        ensures memory { result.memory ≡ [] }
        ensures past { result.past ≡ [] }
    {
        Pages {
            store: Store::empty(alloc),
            log: Log::none(alloc, 0),
            opened: NONE,
        }
    }

    /// Puts the pages of an image beside those that stand here, of which none is moved. The past is dropped.
    ///
    /// # Errors
    /// `AllocError` where there is not that much memory. The pages and their past are then what they were.
    pub fn map_image(&mut self, alloc: Global, image: &Image) -> Result<(), AllocError>
        requires apart { DoNotMeet image.now.pages.items self.old.memory }
        requires few { length image.now.pages.items + length self.old.memory ≤ MOST_PAGES }
        ensures memory { OnOk result (self.new.memory ≡ merged image.now.pages.items self.old.memory) }
        ensures past { OnOk result (self.new.past ≡ []) }
        ensures unchanged { OnErr result (self.new ≡ self.old) }
    {
        self.store.map_pages(alloc, &image.pages)?;
        self.log.drop_all(self.store.len());
        self.opened = NONE;
        Ok(())
    }

    /// Drops the pages that have the numbers of an image's, and the past. It takes no memory, and moves no page.
    pub fn unmap_image(&mut self, image: &Image)
        ensures memory { self.new.memory ≡ without image.now.pages.items self.old.memory }
        ensures past { self.new.past ≡ [] }
    {
        self.store.unmap_pages(&image.pages);
        self.log.drop_all(self.store.len());
        self.opened = NONE;
    }

    /// Takes the memory of a past of eight, and begins it: the memory as it is now is kept.
    ///
    /// # Errors
    /// `AllocError` where there is not that much memory. The past is then what it was.
    pub fn begin(&mut self, alloc: Global) -> Result<(), AllocError>
        ensures memory { self.new.memory ≡ self.old.memory }
        ensures begun { OnOk result (self.new.past ≡ self.old.memory ∷ []) }
        ensures unchanged { OnErr result (self.new.past ≡ self.old.past) }
    {
        let log = Log::begun(alloc, self.store.len())?;
        self.log = log;
        self.opened = NONE;
        Ok(())
    }

    /// How many memories are kept.
    pub fn kept(&self) -> usize
        ensures { result ≡ length self.now.past }
    {
        self.log.count()
    }

    /// Keeps the memory as it is now, in place of the oldest one where eight are kept. It takes no memory.
    pub fn note(&mut self)
        requires { 1 ≤ length self.old.past }
        ensures memory { self.new.memory ≡ self.old.memory }
        ensures past { self.new.past ≡ kept_more self.old.memory self.old.past }
    {
        self.log.note();
        self.opened = NONE;
    }

    /// Goes back to one of the memories that were kept, oldest first. Those after it are kept no longer. It takes no
    /// memory.
    pub fn back(&mut self, n: usize)
        requires { n < length self.old.past }
        ensures memory { (d : Memory) → slice_index_or self.old.past n d ≡ self.new.memory }
        ensures past { self.new.past ≡ take (n + 1) self.old.past }
    {
        go_back(&mut self.store, &mut self.log, n);
        self.opened = NONE;
    }

    /// The word at an address, where that is a multiple of 4 in a page whose instructions may be
    /// fetched.
    #[inline(always)]
    pub fn fetch(&self, address: u64) -> Option<u32>
        ensures { result ≡ fetched self.now.memory address }
    {
        self.store.fetch(address)
    }

    /// The byte at an address, where a page is mapped.
    #[inline(always)]
    pub fn byte(&self, address: u64) -> Option<u8>
        ensures { result ≡ byte_at self.now.memory address }
    {
        self.store.byte(address)
    }

    /// The byte at an address, where an unmapped one counts as 0.
    #[inline(always)]
    pub fn byte_or_zero(&self, address: u64) -> u8
        ensures { result ≡ byte_or_zero self.now.memory address }
    {
        self.store.byte_or_zero(address)
    }
}

impl Pages {
    ghost use Rattle.std.specs.Prelude.{IsSome, IfSome, ◌↔◌};
    ghost use Rattle.paged_memory.specs.Loans.{IsPlaceOf};

    /// Whether a range is not empty and lies in one page.
    #[inline(always)]
    pub fn has_span(&self, address: u64, len: u32) -> bool
        ensures { result ≡ has_span self.now.memory address len }
    {
        self.store.has_span(address, len)
    }

    /// Whether a range is not empty and lies in one page that may be written.
    #[inline(always)]
    pub fn has_span_mut(&self, address: u64, len: u32) -> bool
        ensures { result ≡ has_span_mut self.now.memory address len }
    {
        self.store.has_span_mut(address, len)
    }

    /// The bytes of a range, where it is not empty and lies in one page. The page is looked up once.
    #[inline(always)]
    pub fn span(&self, address: u64, len: u32) -> Option<&[u8]>
        ensures some { IsSome result ↔ IsTrue (has_span self.now.memory address len) }
        ensures value { IfSome result (λ part. part.now ≡ span_of self.now.memory address len) }
        ensures len { IfSome result (λ part. length part.now ≡ len) }
    {
        self.store.span(address, len)
    }

    /// What callers may rest on: the numbers of the pages ascend and are below 2^36, and each page
    /// has 4,096 bytes. It does nothing.
    #[inline(always)]
    pub fn is_memory(&self)
        ensures { IsMemory self.now.memory }
    {
        self.store.is_memory();
    }

    /// The place of the page of a range that is not empty and lies in one page that may be written.
    #[inline(always)]
    pub fn place_mut(&self, address: u64, len: u32) -> Option<usize>
        ensures some { IsSome result ↔ IsTrue (has_span_mut self.now.memory address len) }
        ensures value { IfSome result (IsPlaceOf self.now.memory address len) }
    {
        self.store.place_mut(address, len)
    }

    /// Lends the bytes of a range in one page, by the place of that, to one that writes them.
    #[inline(always)]
    pub fn write_span<W: SpanWriter>(&mut self, address: u64, len: u32, place: usize, writer: &W)
        requires place { IsPlaceOf self.old.memory address len place }
        requires can { W.can writer.now len }
        ensures written { IsSpanWritten (W.writes writer.now) address len self.old.memory self.new.memory }
        ensures past { self.new.past ≡ self.old.past }
    {
        open_next(
            &self.store,
            &mut self.log,
            &mut self.opened,
            address / PAGE_BYTES,
        );
        self.store.write_span(address, len, place, writer);
    }

    // Opens the page of an address, where it is not the one that was opened last.
    #[inline(always)]
    fn open_page(&mut self, address: u64)
        ensures { self.new ≡ self.old }
    {
        open_next(
            &self.store,
            &mut self.log,
            &mut self.opened,
            address / PAGE_BYTES,
        );
    }

    // Lends the bytes of a range in one page, by the place of that, which was opened. The fields of the store are lent here, since of a
    // store that one of its methods had lent nothing would be known afterwards.
    #[inline(always)]
    fn lend(&mut self, address: u64, len: u32, place: usize) -> &mut [u8]
        requires { IsPlaceOf self.old.memory address len place }
        ensures value { result.now ≡ span_of self.old.memory address len }
        ensures len { length result.now ≡ len }
    {
        let at = self.store.heads[place].start + (address % PAGE_BYTES) as usize;
        self.store.bytes.slice_mut(at..at + len as usize)
    }

    /// Lends the bytes of a range, where it is not empty and lies in one page that may be written. The page is looked up once, and
    /// opened before it is lent.
    #[inline(always)]
    pub fn span_mut(&mut self, address: u64, len: u32) -> Option<&mut [u8]>
        ensures some { IsSome result ↔ IsTrue (has_span_mut self.old.memory address len) }
        ensures value { IfSome result (λ part. part.now ≡ span_of self.old.memory address len) }
        ensures len { IfSome result (λ part. length part.now ≡ len) }
    {
        match self.place_mut(address, len) {
            Some(place) => {
                self.open_page(address);
                Some(self.lend(address, len, place))
            }
            None => None,
        }
    }

    // A store to a page that was not opened last, or one that crosses a page.
    #[cold]
    #[inline(never)]
    fn open_and_store(&mut self, address: u64, size: u32, value: u64) -> Result<(), AccessFault>
        requires { (size ≡ 1) ⊎ (size ≡ 2) ⊎ (size ≡ 4) ⊎ (size ≡ 8) }
        ensures done { OnOk result (stored self.old.memory address size value ≡ Ok self.new.memory) }
        ensures refused { IfErr result (λ fault. stored self.old.memory address size value ≡ Err fault) }
        ensures unchanged { OnErr result (self.new.memory ≡ self.old.memory) }
        ensures past { self.new.past ≡ self.old.past }
    {
        let last = address.wrapping_add(u64::from(size) - 1) / PAGE_BYTES;
        open(&self.store, &mut self.log, address / PAGE_BYTES);
        open(&self.store, &mut self.log, last);
        self.opened = last;
        self.store.store(address, size, value)
    }
}

impl GuestMemory for Pages {
    ghost memory = { λ pages. pages.memory };

    ghost past = { λ pages. pages.past };

    #[inline(always)]
    fn load(&self, address: u64, size: u32) -> Result<u64, AccessFault> {
        self.store.load(address, size)
    }

    #[inline(always)]
    fn store(&mut self, address: u64, size: u32, value: u64) -> Result<(), AccessFault> {
        if is_open(self.opened, address, size) {
            self.store.store(address, size, value)
        } else {
            self.open_and_store(address, size, value)
        }
    }
}
