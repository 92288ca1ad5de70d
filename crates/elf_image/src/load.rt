//! Loading a file as an image.

ghost use Rattle.std.specs.Prelude.{◌≡◌, ◌%◌, ◌<◌, length, nat_eq, false, if◌then◌else◌, IfOk, IfErr, Ok, Err};
ghost use Rattle.machine_model.specs.Load.{load, code_end_of, in_order};
ghost use Rattle.elf_image.specs.Loaded.{Refuses, plain};
ghost use Rattle.elf_image.specs.Loadable.{AllLoadable, meets_from, placed};

use crate::header::FileHeader;
use crate::order::{any_meet, in_order};
use crate::pages::pages_of_all;
use crate::program_header::ProgramHeader;
use crate::segments::loaded_segments;
use guest_types::image::Image;
use machine_model::elf_fault::ElfFault;
use std::alloc::Global;

// The end of the code that a listing shows, or 0 where no executable segment's file bytes hold the entry, or the entry
// is no multiple of 4.
fn code_end(segments: &[ProgramHeader], size: usize, entry: u64) -> u64
    requires { AllLoadable size segments.now }
    ensures { result ≡ (if nat_eq (entry % 4) 0 then code_end_of entry segments.now else 0) }
{
    if entry % 4 != 0 {
        return 0;
    }
    for segment in segments {
        if let Some(end) = segment.end_of_code(size, entry) {
            return end;
        }
    }
    0
}

// The start of the code that a listing shows.
fn code_from(code_end: u64, entry: u64) -> u64
    ensures { result ≡ (if nat_eq code_end 0 then 0 else entry) }
{
    if code_end == 0 { 0 } else { entry }
}

// The image of segments that are loaded, with the same in order, of which none meet.
fn laid(
    alloc: Global,
    bytes: &[u8],
    entry: u64,
    loaded: &[ProgramHeader],
    segments: &[ProgramHeader],
) -> Result<Image, ElfFault>
    requires loadable { AllLoadable (length bytes.now) loaded.now }
    requires order { segments.now ≡ in_order loaded.now }
    requires apart { meets_from 0 segments.now ≡ false }
    ensures image { IfOk result (λ image. placed bytes.now entry loaded.now ≡ Ok (plain image)) }
    ensures refusal { IfErr result (λ fault. Refuses (placed bytes.now entry loaded.now) fault) }
{
    let pages = pages_of_all(alloc, bytes, segments).map_err(|_| ElfFault::Memory)?;
    let code_end = code_end(loaded, bytes.len(), entry);
    Ok(Image {
        entry,
        code_from: code_from(code_end, entry),
        code_end,
        pages,
    })
}

// The same of segments that are not in order, unless they clash.
fn image_in_order(
    alloc: Global,
    bytes: &[u8],
    entry: u64,
    loaded: &[ProgramHeader],
) -> Result<Image, ElfFault>
    requires { AllLoadable (length bytes.now) loaded.now }
    ensures image { IfOk result (λ image. placed bytes.now entry loaded.now ≡ Ok (plain image)) }
    ensures refusal { IfErr result (λ fault. Refuses (placed bytes.now entry loaded.now) fault) }
{
    let segments = in_order(alloc, loaded).map_err(|_| ElfFault::Memory)?;
    if any_meet(&segments) {
        return Err(ElfFault::SegmentsClash);
    }
    laid(alloc, bytes, entry, loaded, &segments)
}

// The image of segments that are loaded, unless they clash. Those of most files are in order as they stand.
fn image(
    alloc: Global,
    bytes: &[u8],
    entry: u64,
    loaded: &[ProgramHeader],
) -> Result<Image, ElfFault>
    requires { AllLoadable (length bytes.now) loaded.now }
    ensures image { IfOk result (λ image. placed bytes.now entry loaded.now ≡ Ok (plain image)) }
    ensures refusal { IfErr result (λ fault. Refuses (placed bytes.now entry loaded.now) fault) }
{
    if any_meet(loaded) {
        return image_in_order(alloc, bytes, entry, loaded);
    }
    laid(alloc, bytes, entry, loaded, loaded)
}

/// The image of an ELF64 file of a static AArch64 program, or the first fault that calls for a refusal.
///
/// The checks come in this order: the length and the identification of the file header, the machine, the type, the
/// program header table, dynamic linking, each segment that is loaded by its index, the number of pages, and whether
/// segments have a page in common. No page is made before all of them have passed, so that a file costs no more than
/// its own size and the pages that it may ask for.
pub fn load_elf(alloc: Global, bytes: &[u8]) -> Result<Image, ElfFault>
    ensures image { IfOk result (λ image. load bytes.now ≡ Ok (plain image)) }
    ensures refusal { IfErr result (λ fault. Refuses (load bytes.now) fault) }
{
    let header = FileHeader::read(bytes)?;
    let loaded = loaded_segments(alloc, bytes, header)?;
    image(alloc, bytes, header.entry, &loaded)
}
