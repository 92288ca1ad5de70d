//! The pages of the runs, and the sum of the bytes that a run leaves.

ghost use Rattle.std.specs.Prelude.{◌≡◌, ℕ, ◌+◌, ◌*◌, ◌<◌, ◌≤◌, ◌^◌, ◌++◌, ◌∷◌, [], length, replicate, OnOk, IfOk, All};
ghost use Rattle.guest_types.specs.declared.memory.TheConstants.{PAGE_BYTES};
ghost use Rattle.sweep_kernel.specs.Pages.{page_with, low_bytes, drawn_page, zero_page, pages_from, pages_of, sum_of};

use crate::draw::Draw;
use guest_types::image::PageMap;
use guest_types::memory::{PAGE_BYTES, PageBytes, PageNo, PageSpec, Perm};
use paged_memory::pages::Pages;
use std::alloc::{AllocError, Global};

// The low bytes of the next 4,096 numbers.
fn drawn_bytes(alloc: Global, draw: &mut Draw) -> Result<Vec<u8>, AllocError>
    requires { draw.old.place < 2 ^ 31 }
    ensures bytes { IfOk result (λ bytes. bytes.items ≡ low_bytes draw.old.seed draw.old.place PAGE_BYTES) }
    ensures seed { OnOk result (draw.new.seed ≡ draw.old.seed) }
    ensures place { OnOk result (draw.new.place ≡ draw.old.place + PAGE_BYTES) }
{
    let mut bytes = Vec::new(alloc);
    for i in 0..PAGE_BYTES {
        bytes.push((draw.number() % 256) as u8)?;
        *draw = draw.after();
    }
    Ok(bytes)
}

// The generator at the number whose low byte is the first one of the first array.
fn first_byte(seed: u64) -> Draw
    ensures seed { result.seed ≡ seed }
    ensures place { result.place ≡ 6 }
{
    let third = Draw::new(seed).after().after().after();
    third.after().after().after()
}

// Appends a page that may be written.
fn push_page(pages: &mut Vec<PageSpec>, number: u64, bytes: Vec<u8>) -> Result<(), AllocError>
    requires number { number < 2 ^ 36 }
    requires whole { length bytes.items ≡ PAGE_BYTES }
    ensures { OnOk result (pages.new.items ≡ pages.old.items ++ page_with number bytes.items ∷ []) }
{
    let Some(page) = PageNo::new(number) else {
        unreachable!()
    };
    pages.push(PageSpec {
        page,
        perm: Perm::ReadWrite,
        bytes: PageBytes::new(bytes),
    })?;
    Ok(())
}

// Appends so many pages of drawn bytes.
fn push_drawn(
    alloc: Global,
    pages: &mut Vec<PageSpec>,
    first: u64,
    count: u64,
    draw: &mut Draw,
) -> Result<(), AllocError>
    requires numbers { first + count < 2 ^ 36 }
    requires places { draw.old.place + PAGE_BYTES * count < 2 ^ 31 }
    ensures pages { OnOk result (pages.new.items
        ≡ pages.old.items ++ pages_from first (drawn_page draw.old.seed draw.old.place) count) }
    ensures seed { OnOk result (draw.new.seed ≡ draw.old.seed) }
    ensures place { OnOk result (draw.new.place ≡ draw.old.place + PAGE_BYTES * count) }
{
    for p in 0..count {
        let bytes = drawn_bytes(alloc, draw)?;
        push_page(pages, first + p, bytes)?;
    }
    Ok(())
}

fn zero_bytes(alloc: Global) -> Result<Vec<u8>, AllocError>
    ensures { IfOk result (λ bytes. bytes.items ≡ replicate PAGE_BYTES 0) }
{
    let bytes = vec![in alloc; 0u8; PAGE_BYTES as usize]?;
    Ok(bytes)
}

// Appends so many pages of zeros.
fn push_zeros(
    alloc: Global,
    pages: &mut Vec<PageSpec>,
    first: u64,
    count: u64,
) -> Result<(), AllocError>
    requires numbers { first + count < 2 ^ 36 }
    ensures { OnOk result (pages.new.items ≡ pages.old.items ++ pages_from first zero_page count) }
{
    for p in 0..count {
        let bytes = zero_bytes(alloc)?;
        push_page(pages, first + p, bytes)?;
    }
    Ok(())
}

// The pages as a list.
#[tactic(auto, unfolding(crate::specs::Pages::pages_of))]
fn listed(alloc: Global, seed: u64) -> Result<Vec<PageSpec>, AllocError>
    ensures { IfOk result (λ pages. pages.items ≡ pages_of seed) }
{
    let mut draw = first_byte(seed);
    let mut pages = Vec::new(alloc);
    push_drawn(alloc, &mut pages, 0x1000, 50, &mut draw)?;
    push_drawn(alloc, &mut pages, 0x2000, 25, &mut draw)?;
    push_zeros(alloc, &mut pages, 0x3000, 100)?;
    Ok(pages)
}

/// The pages that are mapped beside the program in each run. They lie above it.
#[tactic(auto, using(crate::proofs::PagesMemory::are_high, crate::proofs::PagesMemory::count))]
pub fn pages(alloc: Global, seed: u64) -> Result<PageMap, AllocError>
    ensures pages { IfOk result (λ map. map.pages.items ≡ pages_of seed) }
    ensures high { IfOk result (λ map. All (λ page. 4096 ≤ page.page) map.pages.items) }
    ensures count { IfOk result (λ map. length map.pages.items ≡ 175) }
{
    let pages = listed(alloc, seed)?;
    Ok(PageMap { pages })
}

/// The sum of the bytes of the third array.
pub fn byte_sum(pages: &Pages) -> u64
    ensures { result ≡ sum_of pages.now.memory }
{
    let mut sum = 0;
    for i in 0..409_600u64 {
        sum += pages.byte_or_zero(0x300_0000 + i) as u64;
    }
    sum
}
