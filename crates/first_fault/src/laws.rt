//! What is known of the items of each loop of class Vector.

ghost use Rattle.std.specs.Prelude.{◌≡◌};
ghost use Rattle.reg_assign.specs.declared.interval.RegClass.TheVariants as class;
ghost use Rattle.loop_form.specs.Lanes.{lane_width_of};
ghost use Rattle.loop_form.specs.LoopItems.{loop_items_of};
ghost use Rattle.loop_form.specs.Registers.{FitsKernel};
ghost use Rattle.loop_form.specs.View.{program};
ghost use Rattle.dependence.specs.Classes.{class_of};
ghost use Rattle.dependence.specs.declared.reason.Class.TheVariants.{Vector};
ghost use Rattle.chunk_emit.specs.Writable.{AreWritable};
ghost use Rattle.first_fault.specs.BreakRegion.{region_of, rest_of};

use kernel_tree::Checked;
use reg_assign::VectorRegs;

/// The items of a loop of class Vector can be written: their arrays have general registers, their offsets fit a field of 12
/// bits, and what they store is no wider than the lanes.
pub fn writable_items(kernel: &Checked, regs: &VectorRegs)
    requires class { class_of (program kernel.now) ≡ Vector }
    requires vectors { FitsKernel (program kernel.now) class.Z regs.now.z }
    requires predicates { FitsKernel (program kernel.now) class.P regs.now.p }
    ensures region { let k = program kernel.now in AreWritable (lane_width_of k) (region_of (loop_items_of k)) }
    ensures rest { let k = program kernel.now in AreWritable (lane_width_of k) (rest_of (loop_items_of k)) }
{}
