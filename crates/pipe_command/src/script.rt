//! A script with the files of its lines, and a map.

ghost use Rattle.std.specs.Prelude.{◌≡◌, ◌≢◌, ◌≤◌, Ok, Err, IfSome, IfOk, IfErr, IsTrue, length};
ghost use Rattle.std.specs.List.{AllByRecursion};
ghost use Rattle.guest_types.specs.declared.memory.TheConstants.{MOST_PAGES};
ghost use Rattle.io_edges.specs.Files.{Rose};
ghost use Rattle.pipe_script.specs.Script.{script_of};
ghost use Rattle.pipe_script.specs.View.{entries_view};
ghost use Rattle.command_answers.specs.Answer.{IsFileAnswer};
ghost use Rattle.command_answers.specs.Requests.{Asks, IsNotOfFiles};
ghost use Rattle.pipe_command.specs.Pipes.{entries_wants, entries_of, map_alone, script_loaded, AreHeld};
ghost use Rattle.pipe_command.specs.View.{lines_view, script_in, Refuses, IsOfContent, IsOfFiles, IsFitting};

use crate::lines::load_lines;
use crate::loaded::LoadedScript;
use guest_types::image::{Image, PageMap};
use io_edges::files::Files;
use map_text::read_map;
use pipe_script::{PipeLine, read_script};
use refusals::refusal::Refusal;
use std::alloc::Global;

// The `run` lines of a script.
fn entries(alloc: Global, script: &[u8]) -> Result<Vec<PipeLine>, Refusal>
    ensures entries { IfOk result (λ lines. script_of script.now ≡ Ok (entries_view lines.items)) }
    ensures refusal { IfErr result (Refuses (entries_of script.now)) }
    ensures content { IfErr result IsOfContent }
{
    let lines = read_script(alloc, script)?;
    Ok(lines)
}

// The pages of a map beside no image.
fn map_alone(alloc: Global, map: &[u8]) -> Result<PageMap, Refusal>
    ensures map { IfOk result (λ pages. map_alone map.now ≡ Ok pages.pages.items) }
    ensures few { IfOk result (λ pages. length pages.pages.items ≤ MOST_PAGES) }
    ensures refusal { IfErr result (Refuses (map_alone map.now)) }
    ensures content { IfErr result IsOfContent }
{
    let none = Image::empty(alloc);
    let pages = read_map(alloc, map, &none)?;
    Ok(pages)
}

/// A script and a map, and then the files of the script's lines.
pub fn load_script<F: Files>(
    alloc: Global,
    script: &[u8],
    map: &[u8],
    files: &mut F,
) -> Result<LoadedScript, Refusal>
    ensures answer { IfSome (F.held files.old) (λ held. IsFileAnswer (F.faults files.old) (F.faults files.new)
        (script_loaded held script.now map.now) (script_in result)) }
    ensures held { F.held files.new ≡ F.held files.old }
    ensures later { F.faults files.old ≤ F.faults files.new }
    ensures failed { result ≡ Err Refusal.File → Rose (F.faults files.old) (F.faults files.new) }
    ensures reads { IsTrue (F.steady files.old)
        → IfSome (F.held files.old) (λ held. IfOk (script_of script.now) (AreHeld held)
        → result ≢ Err Refusal.File) }
    ensures few { IfOk result (λ loaded. length loaded.map.pages.items ≤ MOST_PAGES) }
    ensures fits { IfOk result (λ loaded.
        AllByRecursion (IsFitting loaded.map.pages.items) (lines_view loaded.lines.items)) }
    ensures of_files { IfErr result IsOfFiles }
    ensures asked { Asks IsNotOfFiles (F.requests files.old) (F.requests files.new) (entries_wants (script_of script.now)) result }
{
    let entries = entries(alloc, script)?;
    let map = map_alone(alloc, map)?;
    let lines = load_lines(alloc, &map, &entries, files)?;
    Ok(LoadedScript { lines, map })
}
