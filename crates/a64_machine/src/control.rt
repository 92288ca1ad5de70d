//! Branches and exceptions.

ghost use Rattle.std.specs.Prelude.{◌≡◌, [], ◌∷◌, slice_index};
ghost use Rattle.guest_types.specs.Memory.{Memory};
ghost use Rattle.a64_code.specs.View.{branch_zero_name, exception_name, cond_number};
ghost use Rattle.a64_code.specs.Table.{b_cond};
ghost use Rattle.machine_model.specs.Arithmetic.{target};
ghost use Rattle.machine_model.specs.Machine.{Went};
ghost use Rattle.machine_model.specs.Answers.{IsAnswer};
ghost use Rattle.machine_model.specs.Effects.{act};
ghost use Rattle.a64_machine.specs.Cores.{VectorState, state_of, said};

use crate::arithmetic::target;
use crate::conditions::holds;
use crate::core_state::Core;
use crate::writes::jump_if;
use a64_code::{CompareBranchOp, Cond, ExceptionOp, Reg};
use machine_model::outcome::{Step, Stop, StopKind};
use word_rows::Bits;

/// "B".
#[inline(always)]
pub fn branch(core: &mut Core, imm26: Bits<26>)
    ensures { core.new ≡ record core.old { pc = target core.old.pc 26 imm26.number } }
{
    core.pc = target(core.pc, 26, imm26.number);
}

/// "B.cond".
#[inline(always)]
pub fn branch_conditional(core: &mut Core, cond: Cond, imm19: Bits<19>)
    ensures { (memory : Memory) (rest : VectorState) →
        act b_cond (cond_number cond ∷ imm19.number ∷ []) (state_of core.old memory rest)
        ≡ Went (state_of core.new memory rest) }
{
    let taken = holds(cond, core.nzcv.bits());
    let place = target(core.pc, 19, imm19.number);
    jump_if(core, taken, place);
}

/// "CBZ", "CBNZ".
#[inline(always)]
pub fn compare_branch(core: &mut Core, op: CompareBranchOp, rt: Reg, imm19: Bits<19>)
    ensures { (memory : Memory) (rest : VectorState) →
        act (branch_zero_name op) (rt.number ∷ imm19.number ∷ []) (state_of core.old memory rest)
        ≡ Went (state_of core.new memory rest) }
{
    let is_zero = core.register(rt) == 0;
    let place = target(core.pc, 19, imm19.number);
    match op {
        CompareBranchOp::Cbz => jump_if(core, is_zero, place),
        CompareBranchOp::Cbnz => jump_if(core, !is_zero, place),
    }
}

/// "RET".
#[inline(always)]
pub fn return_to(core: &mut Core, rn: Reg)
    ensures { core.new ≡ record core.old { pc = slice_index core.old.x rn.number } }
{
    core.pc = core.register(rn);
}

// The answer to an exception.
#[inline(always)]
fn exception_answer(core: &Core, op: ExceptionOp, imm16: Bits<16>) -> Step
    ensures { (memory : Memory) (rest : VectorState) → let here = state_of core.now memory rest in
        IsAnswer (act (exception_name op) (imm16.number ∷ []) here) result here here }
{
    let pc = core.pc;
    match op {
        ExceptionOp::Svc => {
            let call = core.x[8];
            if (imm16.number == 0) & (call == 93) {
                Step::Ended
            } else {
                Step::Stopped(Stop {
                    kind: StopKind::Call,
                    pc,
                    at: call,
                })
            }
        }
        ExceptionOp::Brk => Step::Stopped(Stop {
            kind: StopKind::Break,
            pc,
            at: u64::from(imm16.number),
        }),
    }
}

/// "SVC", where call 93 ends the run, and "BRK". No such step goes.
#[cold]
#[inline(never)]
pub fn exception(core: &Core, op: ExceptionOp, imm16: Bits<16>, answer: &mut Step) -> bool
    ensures { (memory : Memory) (rest : VectorState) → let here = state_of core.now memory rest in
        IsAnswer (act (exception_name op) (imm16.number ∷ []) here) (said result answer.new) here here }
{
    *answer = exception_answer(core, op, imm16);
    false
}
