//! What scalar code needs of a checked kernel, and what it does.

ghost use Rattle.std.specs.Prelude.{◌≡◌, ◌+◌, ◌≤◌};
ghost use Rattle.reg_assign.specs.declared.interval.RegClass.TheVariants.{X};
ghost use Rattle.loop_form.specs.Registers.{FitsKernel};
ghost use Rattle.loop_form.specs.View.{program};
ghost use Rattle.scalar_words.specs.KernelRegisters.{register_in};
ghost use Rattle.loop_code.specs.Runs.{BeginRuns, ScalarRuns};

use kernel_tree::Checked;
use reg_assign::Assigned;

/// The code before the loop leaves the wrapped scalar arguments, the array arguments as they were, the accumulators as the
/// scalar loop starts with them, and zero in X9.
pub fn begin_runs(kernel: &Checked, regs: &Assigned)
    requires fits { FitsKernel (program kernel.now) X regs.now }
    ensures { BeginRuns (register_in regs.now) (program kernel.now) }
{}

/// The code of the loop, entered before any iteration, does what the scalar loop does from there on.
pub fn scalar_runs(kernel: &Checked, regs: &Assigned)
    requires fits { FitsKernel (program kernel.now) X regs.now }
    ensures { ScalarRuns (register_in regs.now) (program kernel.now) }
{}
