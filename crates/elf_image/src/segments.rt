//! The segments of a file that are loaded.

ghost use Rattle.std.specs.Prelude.{◌≡◌, ◌+◌, ◌*◌, ◌^◌, ◌<◌, ◌≤◌, length, filter, sum_by, nat_lt, IfOk, IfErr};
ghost use Rattle.guest_types.specs.declared.memory.TheConstants.{MOST_PAGES};
ghost use Rattle.machine_model.specs.Load.{load_segments, segments_from, any_segment, is_dynamic, is_loaded, first_bad, page_count};
ghost use Rattle.elf_image.specs.Loaded.{Refuses};
ghost use Rattle.elf_image.specs.Loadable.{AllLoadable, placed};

use crate::header::FileHeader;
use crate::program_header::ProgramHeader;
use guest_types::memory::MOST_PAGES;
use machine_model::elf_fault::ElfFault;
use std::alloc::{AllocError, Global};

// So many program headers, from an offset on.
#[tactic(auto, using(crate::proofs::Tables::segments_from_more))]
fn read_all(
    alloc: Global,
    bytes: &[u8],
    at: usize,
    count: usize,
) -> Result<Vec<ProgramHeader>, AllocError>
    requires { at + 56 * count ≤ length bytes.now }
    ensures { IfOk result (λ segments. segments.items ≡ segments_from bytes.now at count) }
{
    let mut segments = Vec::with_capacity(alloc, count)?;
    for index in 0..count {
        segments.push(ProgramHeader::read(bytes, at + 56 * index))?;
    }
    Ok(segments)
}

// The program headers of a file.
#[tactic(auto, using(crate::proofs::Tables::length_segments))]
fn program_headers(
    alloc: Global,
    bytes: &[u8],
    header: FileHeader,
) -> Result<Vec<ProgramHeader>, AllocError>
    requires { 0 < header.phnum → header.phoff + 56 * header.phnum ≤ length bytes.now }
    ensures headers { IfOk result (λ segments. segments.items ≡ segments_from bytes.now header.phoff header.phnum) }
    ensures number { IfOk result (λ segments. length segments.items < 2 ^ 16) }
{
    if header.phnum == 0 {
        return Ok(Vec::new(alloc));
    }
    read_all(alloc, bytes, header.phoff as usize, header.phnum as usize)
}

// A program header asks for dynamic linking.
fn any_dynamic(segments: &[ProgramHeader]) -> bool
    ensures { result ≡ any_segment is_dynamic segments.now }
{
    for segment in segments {
        if segment.is_dynamic() {
            return true;
        }
    }
    false
}

// The index of the first segment that is loaded and cannot be.
fn first_bad(segments: &[ProgramHeader], size: usize) -> Option<u32>
    requires { length segments.now < 2 ^ 16 }
    ensures { result ≡ first_bad size 0 segments.now }
{
    for (index, segment) in segments.iter().enumerate() {
        if segment.is_loaded() && segment.is_bad(size) {
            return Some(index as u32);
        }
    }
    None
}

// The segments have more pages, counted together, than a file may have.
fn has_too_many_pages(segments: &[ProgramHeader]) -> bool
    ensures { result ≡ nat_lt MOST_PAGES (sum_by page_count segments.now) }
{
    let mut total = 0u128;
    for segment in segments {
        total += segment.page_count();
    }
    (MOST_PAGES as u128) < total
}

// The segments that have bytes in memory.
fn only_loaded(mut segments: Vec<ProgramHeader>) -> Vec<ProgramHeader>
    ensures { result.items ≡ filter is_loaded segments.items }
{
    segments.retain(|segment| segment.is_loaded());
    segments
}

// The segments that are loaded, or the first refusal that the program headers call for.
pub fn loaded_segments(
    alloc: Global,
    bytes: &[u8],
    header: FileHeader,
) -> Result<Vec<ProgramHeader>, ElfFault>
    requires { 0 < header.phnum → header.phoff + 56 * header.phnum ≤ length bytes.now }
    ensures loaded { IfOk result (λ loaded. load_segments bytes.now header.entry
        (segments_from bytes.now header.phoff header.phnum)
        ≡ placed bytes.now header.entry loaded.items) }
    ensures loadable { IfOk result (λ loaded. AllLoadable (length bytes.now) loaded.items) }
    ensures refusal { IfErr result (λ fault. Refuses
        (load_segments bytes.now header.entry (segments_from bytes.now header.phoff header.phnum)) fault) }
{
    let segments = program_headers(alloc, bytes, header).map_err(|_| ElfFault::Memory)?;
    if any_dynamic(&segments) {
        return Err(ElfFault::NotStatic);
    }
    if let Some(index) = first_bad(&segments, bytes.len()) {
        return Err(ElfFault::BadSegment { index });
    }
    let loaded = only_loaded(segments);
    if has_too_many_pages(&loaded) {
        return Err(ElfFault::TooManyPages);
    }
    Ok(loaded)
}
