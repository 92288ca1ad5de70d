//! The machine as it is looked at between steps.

use crate::machine::Machine;
use a64_machine::flag_bits;
use guest_types::length::Vl;
use guest_types::predicate::PReg;
use guest_types::register::ZReg;
use machine_model::debuggee::Debuggee;
use machine_model::outcome::Step;

impl Debuggee for Machine {
    ghost view_of = { λ machine. machine };

    #[inline(always)]
    fn step(&mut self) -> Step {
        self.step()
    }

    #[inline(always)]
    fn step_on(&mut self) -> Step {
        self.step_on()
    }

    #[inline(always)]
    fn pc(&self) -> u64 {
        self.core().pc
    }

    fn sp(&self) -> u64 {
        self.core().sp
    }

    fn nzcv(&self) -> u8 {
        flag_bits(self.core().nzcv.bits())
    }

    fn x(&self, n: u32) -> u64 {
        match self.core().x.get(n as usize) {
            Some(value) => *value,
            None => 0,
        }
    }

    fn z(&self, n: u32) -> &ZReg {
        self.vectors().z(n)
    }

    fn p(&self, n: u32) -> &PReg {
        self.vectors().p(n)
    }

    fn ffr(&self) -> &PReg {
        self.vectors().ffr()
    }

    fn byte(&self, address: u64) -> Option<u8> {
        self.pages().byte(address)
    }

    fn vl(&self) -> Vl {
        self.vectors().vl()
    }

    fn steps_done(&self) -> u64 {
        self.steps_done()
    }
}
