//! Emits the vector code of a loop.

ghost use Rattle.std.specs.Prelude.{◌≡◌, ◌+◌, ◌*◌, ◌<◌, OnOk};
ghost use Rattle.kernel_tree.specs.Items.{size_of};
ghost use Rattle.reg_assign.specs.declared.interval.RegClass.TheVariants as class;
ghost use Rattle.loop_form.specs.Registers.{FitsKernel};
ghost use Rattle.loop_form.specs.View.{program};
ghost use Rattle.dependence.specs.Classes.{class_of};
ghost use Rattle.dependence.specs.declared.reason.Class.TheVariants.{Vector};
ghost use Rattle.label_fix.specs.Emits.{Emits, AppendsWords};
ghost use Rattle.scalar_words.specs.KernelRegisters.{register_in};
ghost use Rattle.vector_emit.specs.VectorCode.{passes_labels, vector_code};

use crate::passes::emit_passes;
use label_fix::{BranchKind, Draft, Label};
use loop_form::LoopFacts;
use reductions::{emit_fold, emit_start};
use reg_assign::VectorRegs;
use std::alloc::{AllocError, Global};

/// The vector code of a kernel's loop: what stands before it, its passes, what stands after it, and a branch to scalar code
/// at a label.
pub fn emit_vector(
    alloc: Global,
    facts: &LoopFacts<'_>,
    regs: &VectorRegs,
    scalar: Label,
    draft: &mut Draft,
) -> Result<(), AllocError>
    requires class { class_of (program facts.now.kernel.now) ≡ Vector }
    requires vectors { FitsKernel (program facts.now.kernel.now) class.Z regs.now.z }
    requires predicates { FitsKernel (program facts.now.kernel.now) class.P regs.now.p }
    requires scalars { FitsKernel (program facts.now.kernel.now) class.X regs.now.x }
    requires given { scalar < draft.old.labels }
    ensures words { OnOk result (AppendsWords draft.old draft.new (200 + 32 * size_of (program facts.now.kernel.now))) }
    ensures emits { let r = register_in regs.now.x in
        let whole = vector_code r (program facts.now.kernel.now) regs.now.z regs.now.p scalar in
        OnOk result (Emits draft.old draft.new (draft.old.labels + passes_labels (program facts.now.kernel.now)) (whole draft.old.labels)) }
{
    emit_start(draft, facts, regs)?;
    emit_passes(alloc, facts, regs, draft)?;
    emit_fold(alloc, draft, facts, regs)?;
    draft.branch(BranchKind::Always, scalar)
}
