//! The lines of a script with their files.

ghost use Rattle.std.specs.Prelude.{[], ◌∷◌, ◌≡◌, ◌≢◌, ◌≤◌, Ok, Err, IfSome, IfOk, IfErr, OnOk, IsSome, IsTrue, length, string_bytes};
ghost use Rattle.std.specs.List.{AllByRecursion};
ghost use Rattle.io_edges.specs.Files.{Rose, content};
ghost use Rattle.elf_image.specs.Loaded.{plain};
ghost use Rattle.pipe_script.specs.View.{entry_view, entries_view};
ghost use Rattle.pipe_run.specs.PipeRun.{Fits};
ghost use Rattle.command_answers.specs.Answer.{IsFileAnswer};
ghost use Rattle.command_answers.specs.Requests.{Asks, IsNotOfFiles};
ghost use Rattle.pipe_command.specs.Pipes.{entry_want, lines_wants, image_in, image_of, with_line, lines_of, AreHeld};
ghost use Rattle.pipe_command.specs.View.{lines_view, plain_in, loaded_in, lines_by, Refuses, IsOfContent, IsOfFiles, IsFitting};

use crate::loaded::LoadedLine;
use command_answers::files::read_file;
use elf_image::load_elf;
use guest_types::image::{Image, PageMap};
use io_edges::files::Files;
use pipe_run::fits;
use pipe_script::PipeLine;
use refusals::refusal::Refusal;
use std::alloc::Global;

// The image of a line, where the map fits beside it.
fn image_in(alloc: Global, map: &PageMap, line: u32, bytes: &[u8]) -> Result<Image, Refusal>
    ensures image { IfOk result (λ image. image_in map.now.pages.items line bytes.now ≡ Ok (plain image)) }
    ensures fits { IfOk result (λ image. Fits image.pages.items map.now.pages.items) }
    ensures refusal { IfErr result (Refuses (image_in map.now.pages.items line bytes.now)) }
    ensures content { IfErr result IsOfContent }
{
    let image = load_elf(alloc, bytes)?;
    fits(&image, map, line)?;
    Ok(image)
}

// The image of a line's file, where the map fits beside it.
fn image_of<F: Files>(
    alloc: Global,
    map: &PageMap,
    line: &PipeLine,
    files: &mut F,
) -> Result<Image, Refusal>
    ensures answer { IfSome (F.held files.old) (λ held. IsFileAnswer (F.faults files.old) (F.faults files.new)
        (image_of held map.now.pages.items (entry_view line.now)) (plain_in result)) }
    ensures held { F.held files.new ≡ F.held files.old }
    ensures later { F.faults files.old ≤ F.faults files.new }
    ensures failed { result ≡ Err Refusal.File → Rose (F.faults files.old) (F.faults files.new) }
    ensures steady { IsTrue (F.steady files.old) → IsTrue (F.steady files.new) }
    ensures reads { IsTrue (F.steady files.old)
        → IfSome (F.held files.old) (λ held. IsSome (content held (string_bytes line.now.file))
        → result ≢ Err Refusal.File) }
    ensures fits { IfOk result (λ image. Fits image.pages.items map.now.pages.items) }
    ensures of_files { IfErr result IsOfFiles }
    ensures asked { Asks IsNotOfFiles (F.requests files.old) (F.requests files.new) (entry_want (entry_view line.now) ∷ []) result }
{
    let bytes = read_file(alloc, line.file.as_str(), files)?;
    let image = image_in(alloc, map, line.line, &bytes)?;
    Ok(image)
}

// Adds a line with the image of its file to the lines before it.
fn load_line<F: Files>(
    alloc: Global,
    map: &PageMap,
    line: &PipeLine,
    files: &mut F,
    loaded: &mut Vec<LoadedLine>,
) -> Result<(), Refusal>
    ensures answer { IfSome (F.held files.old) (λ held. IsFileAnswer (F.faults files.old) (F.faults files.new)
        (with_line held map.now.pages.items (lines_view loaded.old.items) (entry_view line.now))
        (lines_by (lines_view loaded.new.items) result)) }
    ensures held { F.held files.new ≡ F.held files.old }
    ensures later { F.faults files.old ≤ F.faults files.new }
    ensures failed { result ≡ Err Refusal.File → Rose (F.faults files.old) (F.faults files.new) }
    ensures steady { IsTrue (F.steady files.old) → IsTrue (F.steady files.new) }
    ensures reads { IsTrue (F.steady files.old)
        → IfSome (F.held files.old) (λ held. IsSome (content held (string_bytes line.now.file))
        → result ≢ Err Refusal.File) }
    ensures fits { OnOk result (AllByRecursion (IsFitting map.now.pages.items) (lines_view loaded.old.items)
        → AllByRecursion (IsFitting map.now.pages.items) (lines_view loaded.new.items)) }
    ensures of_files { IfErr result IsOfFiles }
    ensures asked { Asks IsNotOfFiles (F.requests files.old) (F.requests files.new) (entry_want (entry_view line.now) ∷ []) result }
{
    let image = image_of(alloc, map, line, files)?;
    let args = Vec::from_slice(alloc, &line.args)?;
    let Ok(()) = loaded.push(LoadedLine { image, args }) else {
        return Err(Refusal::Memory);
    };
    Ok(())
}

/// The lines with the images of their files, where the map fits beside each of them. The first that is refused tells why.
pub fn load_lines<F: Files>(
    alloc: Global,
    map: &PageMap,
    lines: &[PipeLine],
    files: &mut F,
) -> Result<Vec<LoadedLine>, Refusal>
    ensures answer { IfSome (F.held files.old) (λ held. IsFileAnswer (F.faults files.old) (F.faults files.new)
        (lines_of held map.now.pages.items (entries_view lines.now)) (loaded_in result)) }
    ensures held { F.held files.new ≡ F.held files.old }
    ensures later { F.faults files.old ≤ F.faults files.new }
    ensures failed { result ≡ Err Refusal.File → Rose (F.faults files.old) (F.faults files.new) }
    ensures reads { IsTrue (F.steady files.old)
        → IfSome (F.held files.old) (λ held. AreHeld held (entries_view lines.now) → result ≢ Err Refusal.File) }
    ensures fits { IfOk result (λ loaded. AllByRecursion (IsFitting map.now.pages.items) (lines_view loaded.items)) }
    ensures of_files { IfErr result IsOfFiles }
    ensures asked { Asks IsNotOfFiles (F.requests files.old) (F.requests files.new) (lines_wants (entries_view lines.now)) result }
{
    let mut loaded = Vec::new(alloc);
    for line in lines {
        load_line(alloc, map, line, files, &mut loaded)?;
    }
    Ok(loaded)
}
