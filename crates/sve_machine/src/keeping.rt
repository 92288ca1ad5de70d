//! The machine as it is kept, and as it goes back.

use crate::machine::Machine;
use debug_history::keepable::Keepable;
use machine_model::outcome::Ending;
use std::alloc::{AllocError, Global};

impl Keepable for Machine {
    #[inline(always)]
    fn goes_on<L>(&mut self, place: &mut u64) -> bool {
        self.goes_on::<L>(place)
    }

    fn count(&mut self, steps: u64) {
        self.count(steps);
    }

    fn over(&self) -> Option<Ending> {
        self.over()
    }

    fn begin(&mut self, alloc: Global) -> Result<(), AllocError> {
        self.begin(alloc)
    }

    fn keep(&mut self) {
        self.keep();
    }

    fn go_back(&mut self, n: usize) {
        self.go_back(n);
    }

    fn kept(&self) -> usize {
        self.kept()
    }

    fn kept_steps(&self, n: usize) -> u64 {
        self.kept_steps(n)
    }
}
