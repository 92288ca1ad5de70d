//! A debugger over a machine of which the steps are counted.

ghost use Rattle.std.specs.Prelude.{◌≡◌, ◌≤◌, IfOk};

use debug_history::keepable::Keepable;
use guest_types::image::{Image, PageMap};
use guest_types::length::Vl;
use guest_types::memory::Perm;
use guest_types::predicate::PReg;
use guest_types::register::ZReg;
use io_edges::memory_sink::MemorySink;
use machine_model::debuggee::Debuggee;
use machine_model::outcome::{Ending, Step};
use paged_memory::pages::Pages;
use paged_memory::run::run;
use std::alloc::{AllocError, Global};
use std::cell::Cell;
use std::rc::Rc;
use std::test::Fail;
use sve_debug::debugger::Debugger;
use sve_machine::Machine;

// A machine, and how many steps it was asked for.
#[derive(Drop)]
struct Counted {
    machine: Machine,
    steps: Rc<Cell<u64>>,
}

impl Counted {
    fn tally(&self) {
        self.steps.set(self.steps.get().wrapping_add(1));
    }
}

impl Debuggee for Counted {
    ghost view_of = { λ counted. counted.machine };

    fn step(&mut self) -> Step {
        self.tally();
        self.machine.step()
    }

    fn step_on(&mut self) -> Step {
        self.tally();
        self.machine.step_on()
    }

    fn pc(&self) -> u64 {
        self.machine.pc()
    }

    fn sp(&self) -> u64 {
        self.machine.sp()
    }

    fn nzcv(&self) -> u8 {
        self.machine.nzcv()
    }

    fn x(&self, n: u32) -> u64 {
        self.machine.x(n)
    }

    fn z(&self, n: u32) -> &ZReg {
        self.machine.z(n)
    }

    fn p(&self, n: u32) -> &PReg {
        self.machine.p(n)
    }

    fn ffr(&self) -> &PReg {
        self.machine.ffr()
    }

    fn byte(&self, address: u64) -> Option<u8> {
        self.machine.byte(address)
    }

    fn vl(&self) -> Vl {
        self.machine.vl()
    }

    fn steps_done(&self) -> u64 {
        self.machine.steps_done()
    }
}

impl Keepable for Counted {
    fn goes_on<L>(&mut self, place: &mut u64) -> bool {
        self.tally();
        self.machine.goes_on::<L>(place)
    }

    fn count(&mut self, steps: u64) {
        self.machine.count(steps);
    }

    fn over(&self) -> Option<Ending> {
        self.machine.over()
    }

    fn begin(&mut self, alloc: Global) -> Result<(), AllocError> {
        self.machine.begin(alloc)
    }

    fn keep(&mut self) {
        self.machine.keep();
    }

    fn go_back(&mut self, n: usize) {
        self.machine.go_back(n);
    }

    fn kept(&self) -> usize {
        self.machine.kept()
    }

    fn kept_steps(&self, n: usize) -> u64 {
        self.machine.kept_steps(n)
    }
}

// A page of code that begins with a branch to itself, and a page beside it.
fn looping(alloc: Global) -> Result<Pages, AllocError> {
    let image = Image {
        entry: 0x40_0000,
        code_from: 0,
        code_end: 0,
        pages: run(alloc, 0x400, 1, Perm::ReadExec, &[0, 0, 0, 0x14])?,
    };
    let map = PageMap {
        pages: run(alloc, 0x1000, 1, Perm::ReadWrite, &[])?,
    };
    Pages::build(alloc, &image, &map)
}

// A debugger of that program, which counts its steps.
fn debugger(alloc: Global, steps: Rc<Cell<u64>>) -> Result<Debugger<Counted>, AllocError>
    ensures { IfOk result (λ d. d.machine.steps ≡ 0) }
{
    let pages = looping(alloc)?;
    let Some(vl) = Vl::new(128) else {
        unreachable!()
    };
    let machine = Machine::new(pages, 0x40_0000, &[], vl);
    Debugger::new(alloc, Counted { machine, steps })
}

// Steps, a way back, how many steps it does again, and its answer.
static BACK: [(&str, &str, u64, &str); 3] = [
    ("go 25000", "back 5001", 9_999, "steps 19999\n"),
    ("go 25000", "back 5000", 0, "steps 20000\n"),
    ("go 25000", "back 1", 4_999, "steps 24999\n"),
];

// A way back does as many steps again as lie between the last count that is kept and the target.
#[test]
fn steps_done_again(rt: HostRuntime) -> Result<(), Fail> {
    for (steps, back, again, text) in &BACK {
        let count = Rc::new(rt.alloc(), Cell::new(0))?;
        let mut debugger = debugger(rt.alloc(), Rc::clone(&count)?)?;
        let mut out = MemorySink::new(rt.alloc(), 4096, Vec::new(rt.alloc()))?;
        assert!(rt; debugger.command(steps.as_bytes(), &mut out).is_ok() && count.get() == 25_000);
        assert!(rt; debugger.command(back.as_bytes(), &mut out).is_ok());
        assert!(rt; count.get().wrapping_sub(25_000) == *again, "{again}");
        assert!(rt; out.bytes().ends_with(text.as_bytes()), "{again}");
    }
    Ok(())
}
