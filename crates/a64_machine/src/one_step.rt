//! One instruction.

ghost use Rattle.std.specs.Prelude.{◌≡◌};
ghost use Rattle.a64_code.specs.View.{instruction_view};
ghost use Rattle.guest_types.specs.Memory.{Memory};
ghost use Rattle.machine_model.specs.Machine.{Went};
ghost use Rattle.machine_model.specs.InstructionTable.{Scalar};
ghost use Rattle.machine_model.specs.OneStep.{does};
ghost use Rattle.machine_model.specs.Answers.{IsAnswer};
ghost use Rattle.a64_machine.specs.Cores.{VectorState, state_of, HasVector, OnStop, said};
ghost use Rattle.a64_machine.specs.Forms.{IsOnRegisters, IsData, IsMove};

use crate::control::{branch, branch_conditional, compare_branch, exception, return_to};
use crate::core_state::Core;
use crate::data::{
    add_sub_immediate, add_sub_shifted, bitfield, conditional_select, logical, move_from_vector,
    move_wide, multiply_add, shift_variable,
};
use crate::load_store::{byte_immediate, byte_register, wide_immediate, wide_register};
use a64_code::A64;
use machine_model::outcome::Step;
use paged_memory::pages::Pages;

/// One A64 instruction: whether it goes on. Where it does not, its answer is left in `answer`.
///
/// Where it is UMOV, `core.vzero` has to be doubleword 0 of the vector register that it reads. PC is
/// left at the next instruction to be done.
#[inline(always)]
pub fn a64_goes(core: &mut Core, pages: &mut Pages, word: A64, answer: &mut Step) -> bool
    ensures answer { (rest : VectorState) → HasVector word core.old rest
        → let before = state_of core.old pages.old.memory rest in
        IsAnswer (does (Scalar (instruction_view word)) before) (said result answer.new) before
        (state_of core.new pages.new.memory rest) }
    ensures kept { OnStop (said result answer.new) (core.new ≡ core.old) }
    ensures kept_memory { OnStop (said result answer.new) (pages.new.memory ≡ pages.old.memory) }
    ensures past { pages.new.past ≡ pages.old.past }
{
    match word {
        A64::LoadStoreImmediate { op, rt, rn, imm12 } => {
            wide_immediate(core, pages, op, rt, rn, imm12, answer)
        }
        A64::LoadStoreRegister {
            op,
            rt,
            rn,
            scaled,
            rm,
        } => wide_register(core, pages, op, rt, rn, scaled, rm, answer),
        A64::LoadStoreByteImmediate { op, rt, rn, imm12 } => {
            byte_immediate(core, pages, op, rt, rn, imm12, answer)
        }
        A64::LoadStoreByteRegister { op, rt, rn, rm } => {
            byte_register(core, pages, op, rt, rn, rm, answer)
        }
        A64::Exception { op, imm16 } => exception(core, op, imm16, answer),
        _ => {
            on_registers(core, word);
            true
        }
    }
}

/// One A64 instruction, by its answer.
pub fn a64_step(core: &mut Core, pages: &mut Pages, word: A64) -> Step
    ensures answer { (rest : VectorState) → HasVector word core.old rest
        → let before = state_of core.old pages.old.memory rest in
        IsAnswer (does (Scalar (instruction_view word)) before) result before
        (state_of core.new pages.new.memory rest) }
    ensures kept { OnStop result (core.new ≡ core.old) }
    ensures kept_memory { OnStop result (pages.new.memory ≡ pages.old.memory) }
    ensures past { pages.new.past ≡ pages.old.past }
{
    let mut answer = Step::Went;
    if a64_goes(core, pages, word, &mut answer) {
        Step::Went
    } else {
        answer
    }
}

/// An instruction that is no load, no store and no exception.
#[inline(always)]
fn on_registers(core: &mut Core, word: A64)
    ensures { (memory : Memory) (rest : VectorState) → IsOnRegisters word → HasVector word core.old rest →
        does (Scalar (instruction_view word)) (state_of core.old memory rest) ≡ Went (state_of core.new memory rest) }
{
    match word {
        A64::Branch { imm26 } => branch(core, imm26),
        A64::BranchConditional { cond, imm19 } => branch_conditional(core, cond, imm19),
        A64::CompareBranch { op, rt, imm19 } => compare_branch(core, op, rt, imm19),
        A64::Ret { rn } => return_to(core, rn),
        A64::Nop => core.go_on(),
        _ => data(core, word),
    }
}

/// An instruction that moves a number, a bit field or one of two registers.
#[inline(always)]
fn moved(core: &mut Core, word: A64)
    ensures { (memory : Memory) (rest : VectorState) → IsMove word → HasVector word core.old rest →
        does (Scalar (instruction_view word)) (state_of core.old memory rest) ≡ Went (state_of core.new memory rest) }
{
    match word {
        A64::MoveWide { op, rd, imm16, hw } => move_wide(core, op, rd, imm16, hw),
        A64::Bitfield {
            op,
            rd,
            rn,
            imms,
            immr,
        } => bitfield(core, op, rd, rn, imms, immr),
        A64::ConditionalSelect {
            op,
            rd,
            rn,
            cond,
            rm,
        } => conditional_select(core, op, rd, rn, cond, rm),
        A64::Umov { rd, vn: _ } => move_from_vector(core, rd),
        _ => {}
    }
}

/// An instruction that computes a register from registers.
#[inline(always)]
fn data(core: &mut Core, word: A64)
    ensures { (memory : Memory) (rest : VectorState) → IsData word → HasVector word core.old rest →
        does (Scalar (instruction_view word)) (state_of core.old memory rest) ≡ Went (state_of core.new memory rest) }
{
    match word {
        A64::AddSubImmediate {
            op,
            rd,
            rn,
            imm12,
            sh,
        } => add_sub_immediate(core, op, rd, rn, imm12, sh),
        A64::AddSubShifted {
            op,
            rd,
            rn,
            imm6,
            rm,
            shift,
        } => add_sub_shifted(core, op, rd, rn, imm6, rm, shift),
        A64::LogicalShifted {
            op,
            rd,
            rn,
            imm6,
            rm,
            shift,
        } => logical(core, op, rd, rn, imm6, rm, shift),
        A64::MultiplyAdd { op, rd, rn, ra, rm } => multiply_add(core, op, rd, rn, ra, rm),
        A64::ShiftVariable { op, rd, rn, rm } => shift_variable(core, op, rd, rn, rm),
        _ => moved(core, word),
    }
}
