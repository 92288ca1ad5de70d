//! Pages that are laid out by hand, and what they answer.

ghost use Rattle.std.specs.Prelude.{◌≡◌, ℕ, ◌+◌, ◌≤◌, ◌<◌, ◌^◌, List, length, IfOk};
ghost use Rattle.guest_types.specs.Memory.{DoNotMeet};
ghost use Rattle.guest_types.specs.declared.memory.TheConstants.{MOST_PAGES};
ghost use Rattle.paged_memory.specs.Runs.{IsRun};

use guest_types::guest::GuestMemory;
use guest_types::image::{Image, PageMap};
use guest_types::memory::{AccessFault, Perm};
use paged_memory::pages::Pages;
use paged_memory::run::run;
use paged_memory::span_writer::SpanWriter;
use std::alloc::{AllocError, Global};
use std::test::Fail;

// The word of NOP.
const NOP: [u8; 4] = [0x1f, 0x20, 0x03, 0xd5];

// One page of code, and pages that are mapped above it, each of which begins with NOP.
fn built(alloc: Global, from: u64, count: u64, perm: Perm) -> Result<Pages, AllocError>
    requires above { 0x400 < from }
    requires few { count < MOST_PAGES }
    requires below { from + count ≤ 2 ^ 36 }
{
    let image = Image {
        entry: 0,
        code_from: 0,
        code_end: 0,
        pages: run(alloc, 0x400, 1, Perm::ReadExec, &NOP)?,
    };
    let map = PageMap {
        pages: run(alloc, from, count, perm, &NOP)?,
    };
    Pages::build(alloc, &image, &map)
}

// An image of pages one after another, each of which begins with NOP.
fn image(alloc: Global, from: u64, count: u64, perm: Perm) -> Result<Image, AllocError>
    requires { from + count ≤ 2 ^ 36 }
    ensures { IfOk result (λ image. (front : List ℕ) × IsRun from count perm front image.pages.items) }
{
    Ok(Image {
        entry: 0,
        code_from: 0,
        code_end: 0,
        pages: run(alloc, from, count, perm, &NOP)?,
    })
}

// The pages of an image, beside which those of a lower one came then.
fn both(alloc: Global, high: &Image, low: &Image) -> Result<Pages, AllocError>
    requires apart { DoNotMeet low.now.pages.items high.now.pages.items }
    requires few { length low.now.pages.items + length high.now.pages.items ≤ MOST_PAGES }
{
    let mut pages = Pages::empty(alloc);
    pages.map_image(alloc, high)?;
    pages.map_image(alloc, low)?;
    Ok(pages)
}

// Two pages to write from 0x1000 on, and two of code below them.
fn two_images(alloc: Global) -> Result<(Image, Image, Pages), AllocError> {
    let high = image(alloc, 0x1000, 2, Perm::ReadWrite)?;
    let low = image(alloc, 0x400, 2, Perm::ReadExec)?;
    let pages = both(alloc, &high, &low)?;
    Ok((high, low, pages))
}

#[test]
fn pages_go(rt: HostRuntime) -> Result<(), Fail> {
    let (_high, low, mut pages) = two_images(rt.alloc())?;
    let stored = pages.store(0x100_0ffc, 8, 0x1122_3344_5566_7788);
    assert!(rt; stored == Ok(()) && pages.fetch(0x40_1000) == Some(0xd503_201f));
    pages.unmap_image(&low);
    assert!(rt; [pages.byte(0x40_0000), pages.byte(0x40_1000)] == [None; 2]);
    let loaded = [pages.load(0x100_0ffc, 8), pages.load(0x100_0000, 4)];
    assert!(rt; loaded == [Ok(0x1122_3344_5566_7788), Ok(0xd503_201f)]);
    Ok(())
}

#[test]
fn pages_below_stay(rt: HostRuntime) -> Result<(), Fail> {
    let (high, _low, mut pages) = two_images(rt.alloc())?;
    pages.unmap_image(&high);
    let gone = [pages.byte(0x100_0000), pages.byte(0x100_1000)];
    let code = [pages.fetch(0x40_0000), pages.fetch(0x40_1000)];
    assert!(rt; gone == [None; 2] && code == [Some(0xd503_201f); 2]);
    Ok(())
}

// An address, eight bytes that are stored there, and what comes of it.
static STORED: [(u64, u64, Result<(), AccessFault>); 5] = [
    (0x100_0ffc, 0x1122_3344_5566_7788, Ok(())),
    (0x100_0010, 0x1122_3344_5566_7788, Ok(())),
    (0x100_0013, 0xabcd, Ok(())),
    (
        0x100_1ff9,
        u64::MAX,
        Err(AccessFault {
            address: 0x100_2000,
            write: true,
        }),
    ),
    (
        0x40_0008,
        1,
        Err(AccessFault {
            address: 0x40_0008,
            write: true,
        }),
    ),
];

// An address, and the four bytes that are loaded from it then.
static LOADED: [(u64, Result<u64, AccessFault>); 8] = [
    (0x100_0ffc, Ok(0x5566_7788)),
    (0x100_0ffe, Ok(0x3344_5566)),
    (0x100_1000, Ok(0x1122_3344)),
    (0x100_0010, Ok(0xcd66_7788)),
    (0x100_0013, Ok(0xabcd)),
    (0x100_1ffc, Ok(0)),
    (
        0x100_1ffe,
        Err(AccessFault {
            address: 0x100_2000,
            write: false,
        }),
    ),
    (
        u64::MAX,
        Err(AccessFault {
            address: u64::MAX,
            write: false,
        }),
    ),
];

#[test]
fn loads_and_stores(rt: HostRuntime) -> Result<(), Fail> {
    let mut pages = built(rt.alloc(), 0x1000, 2, Perm::ReadWrite)?;
    for &(address, number, want) in &STORED {
        assert!(rt; pages.store(address, 8, number) == want, "{address:x}");
    }
    for &(address, want) in &LOADED {
        assert!(rt; pages.load(address, 4) == want, "{address:x}");
    }
    assert!(rt; [pages.byte(0x100_0fff), pages.byte(0x100_2000)] == [Some(0x55), None]);
    Ok(())
}

static FETCHED: [(u64, Option<u32>); 5] = [
    (0x40_0000, Some(0xd503_201f)),
    (0x40_0ffc, Some(0)),
    (0x40_0002, None),
    (0x40_1000, None),
    (0x100_0000, None),
];

#[test]
fn fetches(rt: HostRuntime) -> Result<(), Fail> {
    let pages = built(rt.alloc(), 0x1000, 1, Perm::Read)?;
    for &(address, want) in &FETCHED {
        assert!(rt; pages.fetch(address) == want, "{address:x}");
    }
    Ok(())
}

#[test]
fn most_pages(rt: HostRuntime) -> Result<(), Fail> {
    let pages = built(rt.alloc(), 0x1000, 16383, Perm::ReadWrite)?;
    assert!(rt; pages.load(0x4ff_e000, 4) == Ok(0xd503_201f) && pages.byte(0x4ff_f000).is_none());
    Ok(())
}

// What writes these bytes.
#[derive(Clone, Copy)]
struct Bytes<'a>(&'a [u8]);

impl SpanWriter for Bytes<'_> {
    ghost can = { λ bytes len. len ≡ length bytes.0.now };

    ghost writes = { λ bytes old new. new ≡ bytes.0.now };

    fn write(&self, part: &mut [u8]) {
        part.copy_from_slice(self.0);
    }
}

// Writes four bytes, where all of them may be written.
fn put(pages: &mut Pages, address: u64, bytes: &[u8]) -> bool
    requires { length bytes.now ≡ 4 }
{
    match pages.place_mut(address, 4) {
        Some(place) => {
            pages.write_span(address, 4, place, &Bytes(bytes));
            true
        }
        None => false,
    }
}

// An address, a length, and whether there is a span of it.
static SPANS: [(u64, u32, bool); 5] = [
    (0x100_0ffe, 3, false),
    (0x100_1ffc, 4, true),
    (0x100_2000, 1, false),
    (0x100_0000, 0, false),
    (0x40_0000, 4096, true),
];

#[test]
fn spans(rt: HostRuntime) -> Result<(), Fail> {
    let mut pages = built(rt.alloc(), 0x1000, 2, Perm::ReadWrite)?;
    assert!(rt; put(&mut pages, 0x100_0ffc, &[0x11, 0x22, 0x33, 0x44]));
    assert!(rt; pages.span(0x100_0ffe, 2) == Some(&[0x33, 0x44]));
    for &(address, len, some) in &SPANS {
        assert!(rt; pages.span(address, len).is_some() == some, "{address:x}");
    }
    assert!(rt; !put(&mut pages, 0x40_0000, &[0, 0, 0, 0]));
    Ok(())
}

// Goes back to one of the memories that are kept, where there are as many.
fn go_back(pages: &mut Pages, n: usize) -> bool {
    if n < pages.kept() {
        pages.back(n);
        return true;
    }
    false
}

// Writes the first and the last of four bytes that are lent, where all of them may be written.
fn write_lent(pages: &mut Pages, address: u64, first: u8, last: u8) -> bool {
    match pages.span_mut(address, 4) {
        Some(part) => {
            part[0] = first;
            part[3] = last;
            true
        }
        None => false,
    }
}

// Addresses of which four bytes are not lent: in a page of code, across two pages, and where no page is.
static NOT_LENT: [u64; 3] = [0x40_0000, 0x100_0ffe, 0x100_2000];

#[test]
fn lends(rt: HostRuntime) -> Result<(), Fail> {
    let mut pages = built(rt.alloc(), 0x1000, 2, Perm::ReadWrite)?;
    pages.begin(rt.alloc())?;
    assert!(rt; write_lent(&mut pages, 0x100_1000, 0x11, 0x44));
    assert!(rt; pages.load(0x100_1000, 8) == Ok(0x4403_2011) && pages.load(0x100_0ffc, 4) == Ok(0));
    if pages.kept() > 0 {
        pages.note();
    }
    assert!(rt; write_lent(&mut pages, 0x100_1002, 0x55, 0x66));
    assert!(rt; pages.load(0x100_1000, 8) == Ok(0x6600_4455_2011));
    for &address in &NOT_LENT {
        assert!(rt; !write_lent(&mut pages, address, 0, 0), "{address:x}");
    }
    assert!(rt; go_back(&mut pages, 1) && pages.load(0x100_1000, 8) == Ok(0x4403_2011));
    assert!(rt; go_back(&mut pages, 0) && pages.load(0x100_1000, 8) == Ok(0xd503_201f));
    Ok(())
}

// Twelve numbers, each of which is written to page 0 and kept. The even ones also go across pages 1 and 2, and those that
// are no multiples of 3 to page 3, as a span.
fn write_twelve(pages: &mut Pages) {
    for number in 1..13u64 {
        let _low = pages.store(0x100_0010, 8, number);
        if number % 2 == 0 {
            let _across = pages.store(0x100_1ffc, 8, number << 32 | number);
        }
        if number % 3 != 0 {
            let _span = put(pages, 0x100_3020, &[number as u8, 0, 0, 0]);
        }
        if pages.kept() > 0 {
            pages.note();
        }
    }
    let _after = pages.store(0x100_1ffc, 8, 0);
}

// A memory that is gone back to, and the numbers at page 0, across pages 1 and 2, and at page 3 then.
static BACK: [(u8, u64, u64, u64); 5] = [
    (7, 12, 12, 11),
    (5, 10, 10, 10),
    (5, 10, 10, 10),
    (2, 7, 6, 7),
    (0, 5, 4, 5),
];

#[test]
fn goes_back(rt: HostRuntime) -> Result<(), Fail> {
    let mut pages = built(rt.alloc(), 0x1000, 4, Perm::ReadWrite)?;
    assert!(rt; pages.kept() == 0);
    pages.begin(rt.alloc())?;
    write_twelve(&mut pages);
    assert!(rt; pages.kept() == 8 && pages.load(0x100_1ffc, 8) == Ok(0));
    for &(n, low, across, span) in &BACK {
        let n = usize::from(n);
        let back = go_back(&mut pages, n);
        let found = [
            pages.load(0x100_0010, 8),
            pages.load(0x100_1ffc, 4),
            pages.load(0x100_2000, 4),
            pages.load(0x100_3020, 4),
        ];
        let want = [Ok(low), Ok(across), Ok(across), Ok(span)];
        assert!(rt; back && pages.kept() == n + 1 && found == want, "{n}");
        let _lost = pages.store(0x100_0010, 8, 99);
    }
    assert!(rt; !go_back(&mut pages, 1));
    Ok(())
}
