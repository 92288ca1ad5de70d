//! The lines of the table.

ghost use Rattle.std.specs.Prelude.{◌≤◌};

use crate::operands::Operands;
use crate::work::{Access, Work};
use crate::{access, kernels, plain};
use guest_types::length::{Vl, Width};
use paged_memory::pages::Pages;
use std::io;
use std::time::{CpuClock, Duration};

/// How often each is timed; the least time counts.
const ROUNDS: u32 = 9;

/// The vector lengths of a line.
const LENGTHS: [u32; 3] = [128, 512, 2048];

/// What does the work.
#[derive(Clone, Copy)]
enum By {
    Kernel,
    Loop,
}

impl By {
    // How many calls are timed together.
    fn calls(self) -> u64
        ensures { 1 ≤ result }
    {
        match self {
            By::Kernel => 1000,
            By::Loop => 100,
        }
    }
}

// The nanoseconds from one time to another.
fn between(start: Duration, end: Duration) -> u64 {
    match end.checked_sub(start) {
        Some(spent) => u64::try_from(spent.as_nanos()).unwrap_or(u64::MAX),
        None => 0,
    }
}

fn do_work(by: By, work: Work, s: &mut Operands) {
    for _ in 0..by.calls() {
        match by {
            By::Kernel => kernels::on_lanes(work, s),
            By::Loop => plain::on_lanes(work, s),
        }
        s.go_on();
    }
}

// The tenths of nanoseconds of a call in the fastest round.
fn time_work(rt: &impl CpuClock, by: By, work: Work, s: &mut Operands) -> io::Result<u64> {
    let mut least = u64::MAX;
    for _ in 0..ROUNDS {
        let start = rt.thread_cpu_time()?;
        do_work(by, work, s);
        least = least.min(between(start, rt.thread_cpu_time()?));
    }
    Ok(least.saturating_mul(10) / by.calls())
}

fn do_access(by: By, access: Access, pages: &mut Pages, s: &mut Operands) {
    for _ in 0..by.calls() {
        let _done = match by {
            By::Kernel => access::by_kernel(access, pages, s),
            By::Loop => access::by_loop(access, pages, s),
        };
        s.go_on();
    }
}

fn time_access(
    rt: &impl CpuClock,
    by: By,
    access: Access,
    pages: &mut Pages,
    s: &mut Operands,
) -> io::Result<u64> {
    let mut least = u64::MAX;
    for _ in 0..ROUNDS {
        let start = rt.thread_cpu_time()?;
        do_access(by, access, pages, s);
        least = least.min(between(start, rt.thread_cpu_time()?));
    }
    Ok(least.saturating_mul(10) / by.calls())
}

// The start of a line.
fn print_head(rt: &impl Eprint, name: &str, width: Width, is_ragged: bool) -> io::Result<()> {
    let bits = width.bits();
    let mask = if is_ragged { "ragged" } else { "all" };
    eprint!(rt; "{name:<14} {bits:>2} {mask:<6}")
}

// The two times at one length.
fn print_times(rt: &impl Eprint, kernel: u64, plain: u64) -> io::Result<()> {
    let ratio = kernel.saturating_mul(100) / plain.max(1);
    let (whole, part) = (kernel / 10, kernel % 10);
    let plain = plain / 10;
    eprint!(rt; "  {whole:>5}.{part} /{plain:>6} {ratio:>4}")
}

/// Times one kernel and prints its line.
pub fn work_line(
    rt: &(impl CpuClock + Eprint),
    work: Work,
    width: Width,
    is_ragged: bool,
) -> io::Result<()> {
    print_head(rt, work.name(), width, is_ragged)?;
    for bits in LENGTHS {
        if let Some(vl) = Vl::new(bits) {
            let mut s = Operands::new(width, vl, is_ragged);
            let kernel = time_work(rt, By::Kernel, work, &mut s)?;
            let plain = time_work(rt, By::Loop, work, &mut s)?;
            print_times(rt, kernel, plain)?;
        }
    }
    eprintln!(rt; "")
}

/// The same of an access to memory.
pub fn access_line(
    rt: &(impl CpuClock + Eprint),
    pages: &mut Pages,
    access: Access,
    width: Width,
    is_ragged: bool,
) -> io::Result<()> {
    print_head(rt, access.name(), width, is_ragged)?;
    for bits in LENGTHS {
        if let Some(vl) = Vl::new(bits) {
            let mut s = Operands::new(width, vl, is_ragged);
            let kernel = time_access(rt, By::Kernel, access, pages, &mut s)?;
            let plain = time_access(rt, By::Loop, access, pages, &mut s)?;
            print_times(rt, kernel, plain)?;
        }
    }
    eprintln!(rt; "")
}
