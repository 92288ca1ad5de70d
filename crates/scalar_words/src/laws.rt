//! What registers that fit a kernel say.

ghost use Rattle.std.specs.Prelude.{◌≡◌, ◌+◌, ◌≤◌, length};
ghost use Rattle.reg_assign.specs.declared.interval.RegClass.TheVariants.{X};
ghost use Rattle.loop_form.specs.Listing.{listing_of};
ghost use Rattle.loop_form.specs.Registers.{FitsKernel};
ghost use Rattle.loop_form.specs.View.{program};
ghost use Rattle.scalar_words.specs.KernelRegisters.{count_values};

use kernel_tree::Checked;
use reg_assign::Assigned;

/// Each accumulator and each item with a value has a register.
pub fn each_has_a_register(kernel: &Checked, regs: &Assigned)
    requires fits { FitsKernel (program kernel.now) X regs.now }
    ensures count { let k = program kernel.now in length k.vars + count_values (listing_of k)
        ≡ length regs.now.registers }
    ensures vars { length (program kernel.now).vars ≤ length regs.now.registers }
{}
