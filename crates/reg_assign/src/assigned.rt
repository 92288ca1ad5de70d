//! Registers that intervals have.

ghost use Rattle.std.specs.Prelude.{◌≡◌, ◌<◌, length, slice_index};

use crate::interval::Interval;
use std::marker::Model;

/// Intervals of one class with the register of each. Registers are numbered from 0 among those that the class has for
/// values.
#[derive(Drop)]
pub struct Assigned {
    pub(crate) intervals: Vec<Interval>,
    pub(crate) registers: Vec<u32>,
}

impl Model for Assigned {
    ghost use Rattle.reg_assign.specs.Registers.{Assignment, assignment};

    ghost Value = { Assignment };

    ghost view = { λ a. assignment a.intervals.items a.registers.items };
}

impl Assigned {
    /// The register of the interval at a place of the list.
    pub fn register(&self, interval: usize) -> u32
        requires { interval < length self.now.registers }
        ensures { result ≡ slice_index self.now.registers interval }
    {
        self.registers[interval]
    }
}

/// The registers of a loop's values, of each class.
#[derive(Drop)]
pub struct VectorRegs {
    pub z: Assigned,
    pub p: Assigned,
    pub x: Assigned,
}
