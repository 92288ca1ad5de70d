//! Emits the code after the loop of chunks.

ghost use Rattle.std.specs.Prelude.{◌≡◌, ◌≤◌, length, OnOk};
ghost use Rattle.reg_assign.specs.declared.interval.RegClass.TheVariants as class;
ghost use Rattle.reg_assign.specs.Registers.{IsAssignment};
ghost use Rattle.loop_form.specs.HeldView.{view_of, view};
ghost use Rattle.loop_form.specs.Needs.{throughout};
ghost use Rattle.loop_form.specs.Registers.{FitsKernel};
ghost use Rattle.loop_form.specs.View.{program};
ghost use Rattle.close_bound.specs.CloseBound.{joined_all};
ghost use Rattle.label_fix.specs.Emits.{Emits, AppendsWords};
ghost use Rattle.scalar_words.specs.KernelRegisters as kernels;
ghost use Rattle.scalar_words.specs.KernelRegisters.{register_in};
ghost use Rattle.scalar_words.specs.View.{homes_of};
ghost use Rattle.reductions.specs.EdgeCode as code;

use crate::accumulators::{counted_vector, first_operator, type_of};
use crate::words::reduce_word;
use a64_code::{A64, Reg};
use guest_types::length::Width;
use kernel_tree::{Ty, UpdateOp};
use label_fix::registers::{SCRATCH_VECTOR, SECOND_SCRATCH};
use label_fix::{Draft, Word};
use loop_form::laws::held_registers;
use loop_form::{Held, LoopFacts};
use reg_assign::{Assigned, RegClass, VectorRegs};
use scalar_words::{Home, emit_binary, emit_settle, kernel_homes, register_named, update_operator};
use std::alloc::{AllocError, Global};
use sve_code::VectorReg;

// The elements of a vector register joined together, and a general register joined with them.
fn emit_join(
    draft: &mut Draft,
    width: Width,
    op: UpdateOp,
    ty: Ty,
    z: VectorReg,
    x: Reg,
) -> Result<(), AllocError>
    ensures { OnOk result (Emits draft.old draft.new draft.old.labels (code.join_code width op ty z.number x.number)) }
{
    let reduced = SCRATCH_VECTOR;
    let value = SECOND_SCRATCH;
    draft.put(Word::V(reduce_word(width, op, ty, reduced, z)))?;
    draft.put(Word::A(A64::Umov {
        rd: value,
        vn: reduced,
    }))?;
    emit_settle(draft, true, ty, value)?;
    emit_binary(draft, update_operator(op), ty, x, x, value)
}

// A value that is held throughout, in its vector register: an accumulator is joined.
#[tactic(auto, unfolding(loop_form::specs::View::program))]
fn emit_one(
    draft: &mut Draft,
    facts: &LoopFacts<'_>,
    homes: &[Home<'_>],
    regs: &Assigned,
    z: VectorReg,
    value: Held<'_>,
) -> Result<(), AllocError>
    requires { homes_of homes.now ≡ kernels.kernel_homes (register_in regs.now) (program facts.now.kernel.now) }
    ensures { OnOk result (Emits draft.old draft.new draft.old.labels
        (code.fold_one (register_in regs.now) (program facts.now.kernel.now) z.number (view_of value.entry))) }
{
    match value {
        Held::Scalar(_) | Held::Constant(..) | Held::Index => Ok(()),
        Held::Accumulating(name) => {
            let op = first_operator(facts, name);
            let ty = type_of(&facts.kernel.kernel().vars, name);
            emit_join(draft, facts.width, op, ty, z, register_named(homes, name))
        }
    }
}

// The values from the first one on, each in the register of its interval.
fn emit_values(
    draft: &mut Draft,
    facts: &LoopFacts<'_>,
    homes: &[Home<'_>],
    regs: &VectorRegs,
    values: &[Held<'_>],
) -> Result<(), AllocError>
    requires homes { homes_of homes.now ≡ kernels.kernel_homes (register_in regs.now.x) (program facts.now.kernel.now) }
    requires assigned { IsAssignment 30 regs.now.z }
    requires within { length values.now ≤ length regs.now.z.registers }
    ensures { OnOk result (Emits draft.old draft.new draft.old.labels
        (code.folds_code (register_in regs.now.x) (program facts.now.kernel.now) regs.now.z 0 (view values.now))) }
{
    let mut place = 0;
    for value in values {
        let z = counted_vector(&regs.z, place);
        emit_one(draft, facts, homes, &regs.x, z, *value)?;
        place += 1;
    }
    Ok(())
}

/// The code after the loop of chunks: the elements of each accumulator that the loop updates, joined together and then
/// with its general register.
#[tactic(auto, unfolding(loop_form::specs::View::program))]
pub fn emit_fold(
    alloc: Global,
    draft: &mut Draft,
    facts: &LoopFacts<'_>,
    regs: &VectorRegs,
) -> Result<(), AllocError>
    requires z_fits { FitsKernel (program facts.now.kernel.now) class.Z regs.now.z }
    requires x_fits { FitsKernel (program facts.now.kernel.now) class.X regs.now.x }
    ensures words { let most = joined_all (throughout (program facts.now.kernel.now) class.Z) in
        OnOk result (AppendsWords draft.old draft.new most) }
    ensures emits { OnOk result (Emits draft.old draft.new draft.old.labels
        (code.fold_code (register_in regs.now.x) (program facts.now.kernel.now) regs.now.z)) }
{
    held_registers(facts.kernel, RegClass::Z, &regs.z);
    let homes = kernel_homes(alloc, facts.kernel, &regs.x)?;
    emit_values(draft, facts, &homes, regs, &facts.held)
}
