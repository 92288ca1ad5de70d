//! What is known of each checked kernel.

ghost use Rattle.std.specs.Prelude.{◌≡◌, ◌+◌, ◌<◌, ◌≤◌, ◌^◌, length};
ghost use Rattle.kernel_tree.specs.Items.{loop_index, size_of, loop_start};
ghost use Rattle.reg_assign.specs.Intervals.{need_of, Ascend};
ghost use Rattle.loop_form.specs.Entries.{entries_of, loop_entries};
ghost use Rattle.loop_form.specs.Near.{AreNear, NearForLoop};
ghost use Rattle.loop_form.specs.Needs.{throughout, counted, intervals, need};
ghost use Rattle.loop_form.specs.Numbers.{Numbered, AreForward};
ghost use Rattle.loop_form.specs.Places.{value_places, ArePlaced};
ghost use Rattle.loop_form.specs.Registers.{FitsKernel};
ghost use Rattle.loop_form.specs.View.{program};

use kernel_tree::Checked;
use reg_assign::{Assigned, RegClass};

/// A checked kernel has at most 1,000 items, and so at most as many parameters and accumulators.
pub fn few_items(kernel: &Checked)
    ensures size { size_of (program kernel.now) ≤ 1000 }
    ensures params { length (program kernel.now).params ≤ 1000 }
    ensures vars { length (program kernel.now).vars ≤ 1000 }
{}

/// The stream indexes of its loop have offsets of at most 1,024 to either side.
pub fn near_offsets(kernel: &Checked)
    ensures { AreNear (loop_index (program kernel.now)) (loop_entries (program kernel.now)) }
{}

/// So have those of the statements of its loop.
pub fn near_statements(kernel: &Checked)
    ensures { NearForLoop (loop_index (program kernel.now)) (program kernel.now).for_loop }
{}

/// Its items are as many as its size says, and numbered from 0; those of the loop from the number of `for` on.
pub fn numbered_items(kernel: &Checked)
    ensures count { length (entries_of (program kernel.now)) ≡ size_of (program kernel.now) }
    ensures all { Numbered 0 (entries_of (program kernel.now)) }
    ensures looped { Numbered (loop_start (program kernel.now)) (loop_entries (program kernel.now)) }
{}

/// What is held throughout and the items whose values are counted are few, for each class.
pub fn few_intervals(kernel: &Checked, class: RegClass)
    ensures { length (throughout (program kernel.now) class) + length (counted (program kernel.now) class) ≤ 4001 }
{}

/// The place of a value is that of its interval: one that begins at its item.
pub fn placed_values(kernel: &Checked, class: RegClass)
    ensures len { length (value_places (program kernel.now) class) ≡ length (counted (program kernel.now) class) }
    ensures placed { ArePlaced (program kernel.now) class }
{}

/// Its intervals of each class can be given registers: they stand in the order in which they begin, are few, and need
/// as many registers as the kernel does.
pub fn ordered_intervals(kernel: &Checked, class: RegClass)
    ensures ascending { Ascend (intervals (program kernel.now) class) }
    ensures forward { AreForward (intervals (program kernel.now) class) }
    ensures few { length (intervals (program kernel.now) class) < 2 ^ 32 }
    ensures need { need_of (intervals (program kernel.now) class) ≡ need (program kernel.now) class }
{}

/// Registers that fit its intervals of a class have one for each value that is held throughout: theirs are the first.
pub fn held_registers(kernel: &Checked, class: RegClass, regs: &Assigned)
    requires { FitsKernel (program kernel.now) class regs.now }
    ensures { length (throughout (program kernel.now) class) ≤ length regs.now.registers }
{}
