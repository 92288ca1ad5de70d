//! The pages of segments.

ghost use Rattle.std.specs.Prelude.{◌≡◌, ◌+◌, ◌*◌, ◌^◌, ◌<◌, ◌≤◌, ◌++◌, ◌-◌, length, replicate, map, flat_map, IfOk};
ghost use Rattle.std.specs.List.{range_with_len};
ghost use Rattle.machine_model.specs.Load.{segment_byte, page_bytes, pages_of};
ghost use Rattle.elf_image.specs.Loadable.{IsLoadable, AllLoadable};

use crate::program_header::ProgramHeader;
use guest_types::memory::{PAGE_BYTES, PageBytes, PageNo, PageSpec};
use std::alloc::{AllocError, Global};

// Appends zeros until a page has this many bytes.
fn put_zeros(page: &mut Vec<u8>, size: usize) -> Result<(), AllocError>
    requires { length page.old.items ≤ size }
    ensures { IfOk result (λ _. page.new.items ≡ page.old.items ++ replicate (size - length page.old.items) 0) }
{
    page.resize(size, 0)
}

// Appends the file bytes of a segment that stand from one address until another.
fn put_file_bytes(
    page: &mut Vec<u8>,
    bytes: &[u8],
    segment: &ProgramHeader,
    from: u64,
    end: u64,
) -> Result<(), AllocError>
    requires loadable { IsLoadable (length bytes.now) segment.now }
    requires low { from < end → segment.now.vaddr ≤ from }
    requires high { from < end → end ≤ segment.now.vaddr + segment.now.filesz }
    ensures { IfOk result (λ _. page.new.items
        ≡ page.old.items ++ map (segment_byte bytes.now segment.now) (range_with_len from (end - from))) }
{
    if end <= from {
        return Ok(());
    }
    page.extend_from_slice(segment.file_bytes(bytes, from, end))?;
    Ok(())
}

// The bytes of a page of a segment, by its number: zeros, those of the file, and zeros.
fn bytes_of_page(
    alloc: Global,
    bytes: &[u8],
    segment: &ProgramHeader,
    number: u64,
) -> Result<Vec<u8>, AllocError>
    requires loadable { IsLoadable (length bytes.now) segment.now }
    requires within { number < 2 ^ 36 }
    ensures { IfOk result (λ page. page.items ≡ page_bytes bytes.now segment.now number) }
{
    let start = PAGE_BYTES * number;
    let from = segment.vaddr().clamp(start, start + PAGE_BYTES);
    let end = segment
        .file_end(bytes.len())
        .clamp(from, start + PAGE_BYTES);
    let mut page = Vec::with_capacity(alloc, PAGE_BYTES as usize)?;
    put_zeros(&mut page, (from - start) as usize)?;
    put_file_bytes(&mut page, bytes, segment, from, end)?;
    put_zeros(&mut page, PAGE_BYTES as usize)?;
    Ok(page)
}

// Appends the pages of a segment.
fn put_pages(
    alloc: Global,
    pages: &mut Vec<PageSpec>,
    bytes: &[u8],
    segment: &ProgramHeader,
) -> Result<(), AllocError>
    requires { IsLoadable (length bytes.now) segment.now }
    ensures { IfOk result (λ _. pages.new.items ≡ pages.old.items ++ pages_of bytes.now segment.now) }
{
    let first = segment.first_page();
    let end = segment.end_page(bytes.len());
    for number in first..end {
        let page_bytes = bytes_of_page(alloc, bytes, segment, number)?;
        let Some(page) = PageNo::new(number) else {
            unreachable!()
        };
        pages.push(PageSpec {
            page,
            perm: segment.perm(),
            bytes: PageBytes::new(page_bytes),
        })?;
    }
    Ok(())
}

// The pages of segments, one segment after another.
pub fn pages_of_all(
    alloc: Global,
    bytes: &[u8],
    segments: &[ProgramHeader],
) -> Result<Vec<PageSpec>, AllocError>
    requires { AllLoadable (length bytes.now) segments.now }
    ensures { IfOk result (λ pages. pages.items ≡ flat_map (pages_of bytes.now) segments.now) }
{
    let mut pages = Vec::new(alloc);
    for segment in segments {
        put_pages(alloc, &mut pages, bytes, segment)?;
    }
    Ok(pages)
}
