//! The lines of a sweep.

ghost use Rattle.std.specs.Prelude.{◌≡◌, ℕ, ◌+◌, ◌≤◌, ◌++◌, None, Some, Ok, IfOk, OnOk, length};
ghost use Rattle.guest_types.specs.Memory.{DoNotMeet};
ghost use Rattle.guest_types.specs.declared.memory.TheConstants.{MOST_PAGES};
ghost use Rattle.machine_model.specs.Load.{load};
ghost use Rattle.machine_model.specs.Answers.{outcome_of};
ghost use Rattle.machine_model.specs.Run.{start};
ghost use Rattle.elf_image.specs.Loaded.{Refuses, plain};
ghost use Rattle.sweep_kernel.specs.Numbers.{arguments_of};
ghost use Rattle.sweep_kernel.specs.Pages.{pages_of};
ghost use Rattle.sweep_run.specs.SweepText.{IsSweepFile, line_of, run_line, swept_line, sweep_text};

use crate::laws::sweep_runs_end;
use elf_image::load_elf;
use guest_types::image::{Image, PageMap};
use guest_types::length::Vl;
use machine_model::elf_fault::ElfFault;
use machine_model::outcome::Outcome;
use paged_memory::pages::Pages;
use std::alloc::{AllocError, Global};
use sve_machine::Machine;
use sweep_kernel::input::arguments;
use sweep_kernel::line::{length_at, push_line};
use sweep_kernel::pages::{byte_sum, pages};

// The most steps of a run.
const MOST_STEPS: u64 = 100_000_000;

// A written file is refused for want of memory alone.
#[tactic(auto, using(crate::proofs::Causes::loaded))]
fn loading_failed(number: u64, file: &[u8], fault: ElfFault) -> AllocError
    requires file { IsSweepFile number file.now }
    requires refusal { Refuses (load file.now) fault }
{
    match fault {
        ElfFault::Memory => AllocError,
        _ => unreachable!(),
    }
}

// The image of the file. Its pages are few, and not those of the number; the line of each length is that of its run.
fn image_of(alloc: Global, number: u64, file: &[u8]) -> Result<Image, AllocError>
    requires { IsSweepFile number file.now }
    ensures few { IfOk result (λ image. length image.pages.items ≤ 66) }
    ensures apart { IfOk result (λ image. DoNotMeet image.pages.items (pages_of number)) }
    ensures lines { IfOk result (λ image. (vl : ℕ) → swept_line number file.now vl
        ≡ run_line vl (start (plain image) (arguments_of number) (pages_of number) vl)) }
{
    sweep_runs_end();
    match load_elf(alloc, file) {
        Ok(image) => Ok(image),
        Err(fault) => Err(loading_failed(number, file, fault)),
    }
}

// A machine about to run the program of an image beside the pages of a map.
#[tactic(auto, unfolding(machine_model::specs::Run::start))]
fn machine_of(
    alloc: Global,
    number: u64,
    image: &Image,
    map: &PageMap,
    vl: Vl,
) -> Result<Machine, AllocError>
    requires apart { DoNotMeet image.now.pages.items map.now.pages.items }
    requires few { length image.now.pages.items + length map.now.pages.items ≤ MOST_PAGES }
    ensures state { IfOk result (λ machine. machine.state
        ≡ start (plain image.now) (arguments_of number) map.now.pages.items vl) }
    ensures steps { IfOk result (λ machine. machine.steps ≡ 0) }
    ensures over { IfOk result (λ machine. machine.over ≡ None) }
{
    let args = arguments(number);
    let pages = Pages::build(alloc, image, map)?;
    Ok(Machine::new(pages, image.entry, &args, vl))
}

// Appends the line of a run that came to this outcome, where it ended.
fn push_outcome(
    text: &mut Vec<u8>,
    vl: Vl,
    outcome: &Outcome,
    machine: &Machine,
) -> Result<(), AllocError>
    ensures { OnOk result (text.new.items ≡ text.old.items ++ line_of vl (Some (outcome_of outcome.now
        machine.now.state.memory machine.now.state.pc machine.now.steps))) }
{
    match outcome {
        Outcome::End { result } => {
            let sum = byte_sum(machine.pages());
            push_line(text, vl, *result, machine.steps_done(), sum)
        }
        Outcome::Stop(_) => Ok(()),
        Outcome::Spent => Ok(()),
    }
}

// Runs a machine that has done no step, and appends the line of its run.
fn push_run(text: &mut Vec<u8>, vl: Vl, machine: &mut Machine) -> Result<(), AllocError>
    requires steps { machine.old.steps ≡ 0 }
    requires over { machine.old.over ≡ None }
    ensures { OnOk result (text.new.items ≡ text.old.items ++ run_line vl machine.old.state) }
{
    let outcome = machine.run(MOST_STEPS);
    push_outcome(text, vl, &outcome, machine)?;
    Ok(())
}

/// What a sweep prints: a line for each vector length. Each run begins with pages of its own.
pub fn sweep_text(alloc: Global, number: u64, file: &[u8]) -> Result<Vec<u8>, AllocError>
    requires { IsSweepFile number file.now }
    ensures { IfOk result (λ text. text.items ≡ sweep_text number file.now) }
{
    let image = image_of(alloc, number, file)?;
    let map = pages(alloc, number)?;
    let mut text = Vec::new(alloc);
    for place in 0..16 {
        let vl = length_at(place);
        let mut machine = machine_of(alloc, number, &image, &map, vl)?;
        push_run(&mut text, vl, &mut machine)?;
    }
    Ok(text)
}
