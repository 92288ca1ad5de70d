//! The command `list FILE`.

ghost use Rattle.command_answers.specs.Requests.{Asks, IsNotOfFiles, Read};
ghost use Rattle.std.specs.Prelude.{[], ◌∷◌, ◌≡◌, ◌≢◌, ◌+◌, ◌*◌, ◌^◌, ◌<◌, Err, IfSome, IsSome, IfOk, IfErr, IsTrue};
ghost use Rattle.io_edges.specs.Files.{Rose, content};
ghost use Rattle.program_commands.specs.Listing.{lines_from};
ghost use Rattle.command_answers.specs.Answer.{answer_of, expected_text, IsAnswer, IsQuiet};
ghost use Rattle.program_commands.specs.Commands.{list_program, expected_of_list, IsOfList};
ghost use Rattle.command_answers.specs.Works.{ended, RefusesProgram};
ghost use Rattle.command_answers.specs.Outputs.{Prints};

use crate::listing::put_lines;
use command_answers::files::read_file;
use elf_image::load_elf;
use guest_types::image::PageMap;
use io_edges::files::Files;
use io_edges::sink::Sink;
use paged_memory::pages::Pages;
use refusals::refusal::{Done, Refusal};
use std::alloc::Global;

// The words of a program: where the first of them stands, how many they are, and the pages.
#[derive(Drop)]
struct Words {
    from: u64,
    count: u64,
    pages: Pages,
}

// The words of the program in a file.
#[tactic(auto, using(crate::proofs::Programs::nothing_does_not_meet, crate::proofs::Programs::few_alone, crate::proofs::Programs::none_in_order))]
fn words_of(alloc: Global, bytes: &[u8]) -> Result<Words, Refusal>
    ensures work { IfOk result (λ words. list_program bytes.now
        ≡ ended (lines_from words.pages.memory words.from words.count)) }
    ensures below { IfOk result (λ words. words.from + 4 * words.count < 2 ^ 64) }
    ensures refusal { IfErr result (λ refusal. RefusesProgram (list_program bytes.now) refusal) }
    ensures of_list { IfErr result (λ refusal. IsOfList (Err refusal)) }
{
    let image = load_elf(alloc, bytes)?;
    let map = PageMap {
        pages: Vec::new(alloc),
    };
    let pages = Pages::build(alloc, &image, &map)?;
    Ok(Words {
        from: image.code_from,
        count: image.code_end.saturating_sub(image.code_from) / 4,
        pages,
    })
}

/// Lists the instructions of the program in a file, from its first one to the end of the code, on the output.
pub fn list<F: Files, S: Sink>(
    alloc: Global,
    from: &str,
    files: &mut F,
    out: &mut S,
) -> Result<Done, Refusal>
    ensures answer { IfSome (F.held files.old)
        (λ held. IsAnswer (F.faults files.old) (F.faults files.new) (Rose (S.faults out.old) (S.faults out.new))
        (answer_of (expected_of_list held from.now)) result) }
    ensures held { F.held files.new ≡ F.held files.old }
    ensures printed { IfSome (F.held files.old)
        (λ held. Prints (S.taken out.old) (S.taken out.new) (expected_text (expected_of_list held from.now)) result) }
    ensures quiet { IsQuiet result → out.new ≡ out.old }
    ensures failed { result ≡ Err Refusal.File → Rose (F.faults files.old) (F.faults files.new) }
    ensures output { result ≡ Err Refusal.Output → Rose (S.faults out.old) (S.faults out.new) }
    ensures steady { IsTrue (F.steady files.old)
        → IfSome (F.held files.old) (λ held. IsSome (content held from.now) → result ≢ Err Refusal.File) }
    ensures of_list { IsOfList result }
    ensures asked { Asks IsNotOfFiles (F.requests files.old) (F.requests files.new) (Read from.now ∷ []) result }
{
    let bytes = read_file(alloc, from, files)?;
    let words = words_of(alloc, &bytes)?;
    put_lines(out, &words.pages, words.from, words.count)?;
    Ok(Done::Ended)
}
