//! Registers for a kernel's values.

ghost use Rattle.std.specs.Prelude.{◌≡◌, [], ◌∷◌, None, false, IfErr, IfOk, OnOk};
ghost use Rattle.dependence.specs.Bound.{is_vector};
ghost use Rattle.dependence.specs.Classes.{class_of};
ghost use Rattle.dependence.specs.declared.reason.Class.TheVariants.{Vector};
ghost use Rattle.loop_form.specs.Needs.{needs_of};
ghost use Rattle.loop_form.specs.Registers.{FitsKernel};
ghost use Rattle.loop_form.specs.View.{program};
ghost use Rattle.loop_lists.specs.ItemLists.{AreItems};
ghost use Rattle.promises.specs.Refusals.{exceeded, too_many, IsRefusal, IsRefusalIn};
ghost use Rattle.reg_assign.specs.declared.interval.RegClass.TheVariants.{X, Z, P};

use crate::laws;
use kernel_tree::Checked;
use loop_form::counted_registers;
use loop_lists::{Items, intervals_by};
use promises::CompileFault;
use reg_assign::{AssignFault, Assigned, RegClass, VectorRegs, assign};
use std::alloc::Global;

// The registers of the intervals of a class. It is refused where more of its values are live than there are registers for.
#[tactic(auto, unfolding(loop_form::specs::View::program))]
fn class_registers(
    alloc: Global,
    kernel: &Checked,
    items: &Items<'_>,
    class: RegClass,
) -> Result<Assigned, CompileFault>
    requires { AreItems (program kernel.now) items.now }
    ensures fits { IfOk result (FitsKernel (program kernel.now) class) }
    ensures enough { OnOk result (exceeded (needs_of (program kernel.now)) (class ∷ []) ≡ None) }
    ensures refusal { IfErr result (IsRefusalIn (needs_of (program kernel.now)) (class ∷ [])) }
{
    laws::ordered_intervals(kernel, class);
    let intervals = intervals_by(alloc, kernel, items, class)?;
    match assign(alloc, &intervals, class, counted_registers(class)) {
        Ok(assigned) => Ok(assigned),
        Err(AssignFault::Memory) => Err(CompileFault::Memory),
        Err(AssignFault::TooMany { class, need }) => Err(CompileFault::TooManyLive { class, need }),
    }
}

/// The registers of a kernel of class Scalar: those of class X.
#[tactic(auto, using(crate::proofs::Tried::scalar_enough, crate::proofs::Tried::scalar_refused))]
pub fn scalar_registers(
    alloc: Global,
    kernel: &Checked,
    items: &Items<'_>,
) -> Result<Assigned, CompileFault>
    requires items { AreItems (program kernel.now) items.now }
    requires class { is_vector (class_of (program kernel.now)) ≡ false }
    ensures fits { IfOk result (FitsKernel (program kernel.now) X) }
    ensures enough { OnOk result (too_many (program kernel.now) ≡ None) }
    ensures refusal { IfErr result (IsRefusal (program kernel.now)) }
{
    class_registers(alloc, kernel, items, RegClass::X)
}

/// The registers of a kernel of class Vector, class after class in the order in which they are tried.
#[tactic(auto, using(crate::proofs::Tried::vector_enough, crate::proofs::Tried::refused_at_z, crate::proofs::Tried::refused_at_p, crate::proofs::Tried::refused_at_x))]
pub fn vector_registers(
    alloc: Global,
    kernel: &Checked,
    items: &Items<'_>,
) -> Result<VectorRegs, CompileFault>
    requires items { AreItems (program kernel.now) items.now }
    requires class { class_of (program kernel.now) ≡ Vector }
    ensures vectors { IfOk result (λ regs. FitsKernel (program kernel.now) Z regs.z) }
    ensures predicates { IfOk result (λ regs. FitsKernel (program kernel.now) P regs.p) }
    ensures scalars { IfOk result (λ regs. FitsKernel (program kernel.now) X regs.x) }
    ensures enough { OnOk result (too_many (program kernel.now) ≡ None) }
    ensures refusal { IfErr result (IsRefusal (program kernel.now)) }
{
    let z = class_registers(alloc, kernel, items, RegClass::Z)?;
    let p = class_registers(alloc, kernel, items, RegClass::P)?;
    let x = class_registers(alloc, kernel, items, RegClass::X)?;
    Ok(VectorRegs { z, p, x })
}
