//! The registers of a kernel.

ghost use Rattle.std.specs.Prelude.{IfOk};
ghost use Rattle.loop_form.specs.Registers.{FitsKernel};
ghost use Rattle.loop_form.specs.View.{program};

use kernel_tree::Checked;
use loop_form::counted_registers;
use loop_form::laws::ordered_intervals;
use loop_lists::intervals;
use reg_assign::{Assigned, RegClass, assign};
use std::alloc::Global;
use std::test::Fail;

pub(crate) fn registers_of(
    alloc: Global,
    kernel: &Checked,
    class: RegClass,
) -> Result<Assigned, Fail>
    ensures { IfOk result (λ regs. FitsKernel (program kernel.now) class regs) }
{
    ordered_intervals(kernel, class);
    let intervals = intervals(alloc, kernel, class)?;
    match assign(alloc, &intervals, class, counted_registers(class)) {
        Ok(regs) => Ok(regs),
        Err(_) => Err(Fail::new("too few registers")),
    }
}
