//! Programs that are loaded.

ghost use Rattle.std.specs.Prelude.{◌≡◌, ◌≤◌, ◌+◌, List, ℕ, None, IfOk, IfErr, length};
ghost use Rattle.guest_types.specs.Memory.{DoNotMeet, Memory};
ghost use Rattle.guest_types.specs.declared.memory.TheConstants.{MOST_PAGES};
ghost use Rattle.machine_model.specs.Load.{Image as LoadedImage};
ghost use Rattle.machine_model.specs.Debugged.{is_never};
ghost use Rattle.machine_model.specs.Run.{free_start};
ghost use Rattle.elf_image.specs.Loaded.{plain};
ghost use Rattle.command_line.specs.View.{task_view};
ghost use Rattle.command_answers.specs.Answer.{Expected};
ghost use Rattle.program_commands.specs.Commands.{with_program};
ghost use Rattle.command_answers.specs.Works.{RefusesProgram};
ghost use Rattle.program_commands.specs.Ready.{BeginsProgram};

use command_line::command::Task;
use elf_image::load_elf;
use guest_types::image::{Image, PageMap};
use guest_types::length::Vl;
use lane_memory::suppress::Suppress;
use map_text::read_map;
use paged_memory::pages::Pages;
use refusals::refusal::Refusal;
use std::alloc::{AllocError, Global};
use sve_machine::Machine;

// A machine with the pages of an image and a map, and a stop list.
#[tactic(auto, unfolding(machine_model::specs::Run::free_start))]
fn machine_of(
    alloc: Global,
    image: &Image,
    map: &PageMap,
    vl: Vl,
    stops: Suppress,
    task: &Task,
) -> Result<Machine, AllocError>
    requires apart { DoNotMeet image.now.pages.items map.now.pages.items }
    requires few { length image.now.pages.items + length map.now.pages.items ≤ MOST_PAGES }
    ensures state { IfOk result (λ machine. machine.state
        ≡ free_start (plain image.now) task.now.args.items map.now.pages.items vl stops) }
    ensures steps { IfOk result (λ machine. machine.steps ≡ 0) }
    ensures over { IfOk result (λ machine. machine.over ≡ None) }
    ensures quiet { IfOk result (λ machine. machine.quiet ≡ is_never stops) }
{
    let pages = Pages::build(alloc, image, map)?;
    Ok(Machine::suppressing(pages, image.entry, &task.args, vl, stops))
}

/// A machine that is about to begin the program in a file, beside the pages of a map, with a stop list.
#[tactic(auto, using(command_answers::proofs::Loading::few_pages))]
pub fn load_machine(
    alloc: Global,
    vl: Vl,
    stops: Suppress,
    task: &Task,
    bytes: &[u8],
    map: &[u8],
) -> Result<Machine, Refusal>
    ensures ready { IfOk result (λ machine. BeginsProgram vl stops (task_view task.now) bytes.now map.now machine) }
    ensures refusal { IfErr result (λ refusal. (next : LoadedImage → Memory → Expected) →
        RefusesProgram (with_program bytes.now map.now next) refusal) }
{
    let image = load_elf(alloc, bytes)?;
    let map = read_map(alloc, map, &image)?;
    let machine = machine_of(alloc, &image, &map, vl, stops, task)?;
    Ok(machine)
}
