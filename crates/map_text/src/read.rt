//! Reading the lines of a text.

ghost use Rattle.std.specs.Prelude.{◌≡◌, ◌+◌, ◌≤◌, length, Some, Ok, IfOk, IfErr, OnOk};
ghost use Rattle.guest_types.specs.Memory.{Memory, IsMemory, DoNotMeet};
ghost use Rattle.guest_types.specs.declared.memory.TheConstants.{MOST_PAGES};
ghost use Rattle.map_text.specs.Lines.{map_line_of};
ghost use Rattle.map_text.specs.Mapping.{after_line, after_lines, map_of};
ghost use Rattle.map_text.specs.View.{Refuses, IsBeside, IsLineFault, line_view};

use crate::fault::MapFault;
use crate::insert::add_pages;
use crate::map_line::MapLine;
use crate::put::set_bytes;
use crate::words::form;
use guest_types::image::{Image, PageMap};
use guest_types::memory::PageSpec;
use std::alloc::Global;
use text_parts::cut;

// What a line says, or why it is refused.
fn line_or_fault(alloc: Global, line: u64, text: &[u8]) -> Result<MapLine, MapFault>
    ensures found { IfOk result (λ found. map_line_of text.now ≡ Some (line_view found)) }
    ensures refused { IfErr result (λ fault. IsLineFault line (map_line_of text.now) fault) }
{
    match form(alloc, text) {
        Ok(Some(form)) => Ok(form),
        Ok(None) => Err(MapFault::BadLine { line }),
        Err(_) => Err(MapFault::Memory),
    }
}

// Adds what a line says to the pages.
#[tactic(auto, unfolding(crate::specs::Mapping::after_line))]
fn read_line(
    alloc: Global,
    pages: &mut Vec<PageSpec>,
    image: &[PageSpec],
    line: u64,
    text: &[u8],
) -> Result<(), MapFault>
    requires image { IsMemory image.now }
    requires beside { IsBeside image.now pages.old.items }
    ensures added { OnOk result (after_line image.now line text.now pages.old.items ≡ Ok pages.new.items) }
    ensures beside { OnOk result (IsBeside image.now pages.new.items) }
    ensures refused { IfErr result (λ fault. Refuses (after_line image.now line text.now pages.old.items) fault) }
{
    match line_or_fault(alloc, line, text)? {
        MapLine::Blank => Ok(()),
        MapLine::Maps(span) => add_pages(alloc, pages, image, line, span),
        MapLine::Sets(patch) => set_bytes(pages, line, &patch),
    }
}

// The pages that a text maps beside others.
#[tactic(auto, unfolding(crate::specs::Mapping::after_lines))]
fn read_lines(alloc: Global, text: &[u8], image: &[PageSpec]) -> Result<Vec<PageSpec>, MapFault>
    requires image { IsMemory image.now }
    requires few { length image.now ≤ MOST_PAGES }
    ensures map { IfOk result (λ pages. map_of text.now image.now ≡ Ok pages.items) }
    ensures beside { IfOk result (λ pages. IsBeside image.now pages.items) }
    ensures refused { IfErr result (λ fault. Refuses (map_of text.now image.now) fault) }
{
    let mut pages = Vec::new(alloc);
    let mut line = 1;
    let mut rest = Some(text);
    while let Some(left) = rest {
        let (first, others) = cut(b'\n', left);
        read_line(alloc, &mut pages, image, line, first)?;
        line += 1;
        rest = others;
    }
    Ok(pages)
}

/// The pages that a text maps beside those of an image.
///
/// The first line that fails is told, and in a line its form comes before a page that is mapped twice, that before too
/// many pages, and that before a byte in no page of an earlier line. No page is made before its line has passed.
pub fn read_map(alloc: Global, text: &[u8], image: &Image) -> Result<PageMap, MapFault>
    requires { length image.now.pages.items ≤ MOST_PAGES }
    ensures map { IfOk result (λ map. map_of text.now image.now.pages.items ≡ Ok map.pages.items) }
    ensures refused { IfErr result (λ fault. Refuses (map_of text.now image.now.pages.items) fault) }
    ensures apart { IfOk result (λ map. DoNotMeet image.now.pages.items map.pages.items) }
    ensures few { IfOk result (λ map. length image.now.pages.items + length map.pages.items ≤ MOST_PAGES) }
{
    let pages = read_lines(alloc, text, &image.pages)?;
    Ok(PageMap { pages })
}
