//! Runs a loop that counts down, or one that also reads a byte a round, for fifty thousand steps a word of the command line.
#![tactic(auto)]

use elf_image::{load_elf, write_elf};
use guest_types::image::{Image, PageMap};
use guest_types::length::Vl;
use guest_types::memory::MOST_PAGES;
use paged_memory::pages::Pages;
use std::alloc::Global;
use std::{env, io};
use sve_machine::Machine;

/// x1 = 2^48; x9 = 0x400000; then without end: ADD X0, X0, #3; SUBS X1, X1, #1; B.NE.
static COUNT: [u32; 7] = [
    0xd2e0_0021,
    0xd2a0_0809,
    0x9100_0c00,
    0xf100_0421,
    0x54ff_ffc1,
    0xd280_0ba8,
    0xd400_0001,
];

/// The same with LDRB W5, [X9, X2] before them.
static READ: [u32; 8] = [
    0xd2e0_0021,
    0xd2a0_0809,
    0x3862_6925,
    0x9100_0c00,
    0xf100_0421,
    0x54ff_ffa1,
    0xd280_0ba8,
    0xd400_0001,
];

fn built(alloc: Global, image: &Image) -> io::Result<Option<Pages>> {
    let map = PageMap {
        pages: Vec::new(alloc),
    };
    if image.pages.len() > MOST_PAGES {
        return Ok(None);
    }
    let pages = Pages::build(alloc, image, &map)?;
    Ok(Some(pages))
}

fn run(rt: &HostRuntime, words: &[u32], steps: u64) -> io::Result<()> {
    if words.len() > 65536 {
        return Ok(());
    }
    let file = write_elf(rt.alloc(), words)?;
    let Ok(image) = load_elf(rt.alloc(), &file) else {
        return Ok(());
    };
    let Some(vl) = Vl::new(128) else {
        return Ok(());
    };
    let Some(pages) = built(rt.alloc(), &image)? else {
        return Ok(());
    };
    let mut machine = Machine::new(pages, image.entry, &[], vl);
    let _ = machine.run(steps);
    let done = machine.steps_done();
    eprintln!(rt; "{done}")?;
    Ok(())
}

fn main(rt: HostRuntime) -> io::Result<()> {
    let words: Vec<String> = env::args(&rt)?.skip(1).collect(rt.alloc())?;
    let count = words.len() as u64;
    if count % 2 == 1 {
        run(&rt, &READ, count.wrapping_mul(50_000))
    } else {
        run(&rt, &COUNT, count.wrapping_mul(50_000))
    }
}
