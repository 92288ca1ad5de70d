//! Emits the code before the loop of chunks.

ghost use Rattle.std.specs.Prelude.{◌≡◌, ◌+◌, ◌≤◌, [], ◌∷◌, length, unwrap_or, OnOk};
ghost use Rattle.sve_code.specs.Table.{dup};
ghost use Rattle.machine_model.specs.InstructionTable.{Vector};
ghost use Rattle.kernel_tree.specs.Plain.{parameters_of};
ghost use Rattle.reg_assign.specs.declared.interval.RegClass.TheVariants as class;
ghost use Rattle.reg_assign.specs.Registers.{IsAssignment};
ghost use Rattle.loop_form.specs.HeldView.{view_of, view};
ghost use Rattle.loop_form.specs.Needs.{throughout};
ghost use Rattle.loop_form.specs.Registers.{FitsKernel};
ghost use Rattle.loop_form.specs.View.{program};
ghost use Rattle.loop_form.specs.Streams.{place_of};
ghost use Rattle.close_bound.specs.CloseBound.{laid_all};
ghost use Rattle.label_fix.specs.Draft.{word_view};
ghost use Rattle.lane_emit.specs.Stretch.{word};
ghost use Rattle.lane_emit.specs.LaneCode.{size_of};
ghost use Rattle.lane_emit.specs.Joins as joins;
ghost use Rattle.label_fix.specs.Emits.{Emits, AppendsWords};
ghost use Rattle.reductions.specs.EdgeCode as code;

use crate::accumulators::{counted_vector, first_operator, type_of};
use crate::words::start_word;
use a64_code::Reg;
use guest_types::length::Width;
use kernel_meaning::{greatest, least, word, wrapped};
use kernel_tree::laws::few_params;
use kernel_tree::{Param, Ty, UpdateOp};
use label_fix::registers::{ALL_TRUE, SCRATCH};
use label_fix::{Draft, Word};
use lane_emit::wide;
use loop_form::laws::held_registers;
use loop_form::{Held, LoopFacts, param_place};
use reg_assign::{Assigned, RegClass, VectorRegs};
use scalar_words::emit_const;
use std::alloc::AllocError;
use sve_code::{Size, Sve, VectorReg};
use word_rows::Bits;

// ---- what is held

// What changes nothing.
fn identity(op: UpdateOp, ty: Ty) -> i128
    ensures { result ≡ joins.identity op ty }
{
    match op {
        UpdateOp::Add | UpdateOp::Or | UpdateOp::Xor => 0,
        UpdateOp::And => wrapped(Some(ty), -1),
        UpdateOp::Min => greatest(ty),
        UpdateOp::Max => least(ty),
    }
}

// The general register of a parameter.
fn register_of(params: &[Param], name: &str) -> Reg
    requires { length params.now ≤ 8 }
    ensures { result.number ≡ unwrap_or (place_of name.now (parameters_of params.now)) 0 }
{
    match param_place(params, name) {
        None => Bits { number: 0 },
        Some(place) => Bits { number: place },
    }
}

// ---- code

// A general register in all elements of a vector register.
fn broadcast(width: Width, z: VectorReg, x: Reg) -> Word
    ensures { word_view result ≡ Vector (word dup (z.number ∷ x.number ∷ size_of width ∷ [])) }
{
    Word::V(start_word(width, z, x))
}

// A number in all elements of a vector register.
fn emit_number(draft: &mut Draft, width: Width, z: VectorReg, value: u64) -> Result<(), AllocError>
    ensures { OnOk result (Emits draft.old draft.new draft.old.labels (code.number_code width z.number value)) }
{
    emit_const(draft, SCRATCH, value)?;
    draft.put(broadcast(width, z, SCRATCH))
}

// A value that is held throughout, in its vector register.
#[tactic(auto, unfolding(loop_form::specs::View::program))]
fn emit_value(
    draft: &mut Draft,
    facts: &LoopFacts<'_>,
    z: VectorReg,
    value: Held<'_>,
) -> Result<(), AllocError>
    requires { length (program facts.now.kernel.now).params ≤ 8 }
    ensures { OnOk result (Emits draft.old draft.new draft.old.labels
        (code.hold_code (program facts.now.kernel.now) z.number (view_of value.entry))) }
{
    let tree = facts.kernel.kernel();
    match value {
        Held::Scalar(name) => {
            let x = register_of(&tree.params, name);
            draft.put(broadcast(facts.width, z, x))?;
        }
        Held::Constant(ty, number) => {
            emit_number(draft, facts.width, z, word(wrapped(ty, number)))?;
        }
        Held::Index => {}
        Held::Accumulating(name) => {
            let op = first_operator(facts, name);
            let ty = type_of(&tree.vars, name);
            emit_number(draft, facts.width, z, word(identity(op, ty)))?;
        }
    }
    Ok(())
}

// The values from the first one on, each in the register of its interval.
fn emit_values(
    draft: &mut Draft,
    facts: &LoopFacts<'_>,
    regs: &Assigned,
    values: &[Held<'_>],
) -> Result<(), AllocError>
    requires params { length (program facts.now.kernel.now).params ≤ 8 }
    requires assigned { IsAssignment 30 regs.now }
    requires within { length values.now ≤ length regs.now.registers }
    ensures { OnOk result (Emits draft.old draft.new draft.old.labels
        (code.holds_code (program facts.now.kernel.now) regs.now 0 (view values.now))) }
{
    let mut place = 0;
    for value in values {
        emit_value(draft, facts, counted_vector(regs, place), *value)?;
        place += 1;
    }
    Ok(())
}

/// The code before the loop of chunks: PTRUE of P1, and each value that is held throughout in all elements of its register.
#[tactic(auto, unfolding(loop_form::specs::View::program))]
pub fn emit_start(
    draft: &mut Draft,
    facts: &LoopFacts<'_>,
    regs: &VectorRegs,
) -> Result<(), AllocError>
    requires fits { FitsKernel (program facts.now.kernel.now) class.Z regs.now.z }
    ensures words { let most = 1 + laid_all (throughout (program facts.now.kernel.now) class.Z) in
        OnOk result (AppendsWords draft.old draft.new most) }
    ensures emits { OnOk result (Emits draft.old draft.new draft.old.labels
        (code.start_code (program facts.now.kernel.now) regs.now.z)) }
{
    few_params(facts.kernel);
    held_registers(facts.kernel, RegClass::Z, &regs.z);
    draft.put(Word::V(Sve::Ptrue {
        pd: wide(ALL_TRUE),
        size: Size::B,
    }))?;
    emit_values(draft, facts, &regs.z, &facts.held)
}
