//! One prepared instruction.

ghost use Rattle.std.specs.Prelude.{◌≡◌, ◌≢◌, ◌+◌, ◌%◌, ◌^◌, true, slice_set};
ghost use Rattle.guest_types.specs.Memory.{Memory};
ghost use Rattle.machine_model.specs.Machine.{Went};
ghost use Rattle.machine_model.specs.Answers.{IsAnswer};
ghost use Rattle.a64_machine.specs.Cores.{VectorState, state_of, said};
ghost use Rattle.machine_model.specs.Arithmetic.{difference};
ghost use Rattle.a64_machine.specs.Prepared.{prepared_does, BothGo, logical, field};

use crate::at_once::{byte_at_once, wide_at_once};
use crate::bit_fields::{signed_field, unsigned_field};
use crate::core_state::{Core, FlagState};
use crate::prepared_form::{General, Prepared};
use crate::writes::{jump_if, write_with_flags};
use a64_code::{BitfieldOp, LogicalOp, Reg};
use machine_model::outcome::Step;
use paged_memory::pages::Pages;
use word_rows::Bits;

/// Writes a register, and goes on to the next word.
#[inline(always)]
fn write_general(core: &mut Core, rd: General, value: u64)
    ensures { core.new ≡ record core.old { x = slice_set core.old.x rd.number value; pc = (core.old.pc + 4) % 2 ^ 64 } }
{
    core.set_general(rd, value);
    core.go_on();
}

/// Register 31, which takes no write.
#[inline(always)]
fn none() -> Reg
    ensures { result.number ≡ 31 }
{
    Reg::new(31)
}

/// Writes a difference and its flags, and goes on to the next word.
#[inline(always)]
fn write_difference(core: &mut Core, rd: General, left: u64, right: u64)
    ensures { core.new ≡ record core.old {
      x = slice_set core.old.x rd.number (difference left right);
      nzcv = FlagState.Compared left right;
      pc = (core.old.pc + 4) % 2 ^ 64;
    } }
{
    core.set_general(rd, left.wrapping_sub(right));
    core.nzcv = FlagState::Compared { left, right };
    core.go_on();
}

#[inline(always)]
fn less_number(core: &mut Core, rd: General, rn: General, number: u64)
    ensures { (memory : Memory) (rest : VectorState) →
        prepared_does (Prepared.LessNumber rd rn number) (state_of core.old memory rest)
        ≡ Went (state_of core.new memory rest) }
{
    let left = core.general(rn);
    write_difference(core, rd, left, number);
}

#[inline(always)]
fn compare_number(core: &mut Core, rn: General, number: u64)
    ensures { (memory : Memory) (rest : VectorState) →
        prepared_does (Prepared.CompareNumber rn number) (state_of core.old memory rest)
        ≡ Went (state_of core.new memory rest) }
{
    let left = core.general(rn);
    write_with_flags(core, none(), left, number);
}

#[inline(always)]
fn compare(core: &mut Core, rn: General, rm: General, by: Bits<6>)
    ensures { (memory : Memory) (rest : VectorState) →
        prepared_does (Prepared.Compare rn rm by) (state_of core.old memory rest)
        ≡ Went (state_of core.new memory rest) }
{
    let left = core.general(rn);
    let right = core.general(rm) << by.number;
    write_with_flags(core, none(), left, right);
}

/// Two numbers, bit by bit.
#[inline(always)]
fn bit_by_bit(op: LogicalOp, left: u64, right: u64) -> u64
    ensures { result ≡ logical op left right }
{
    match op {
        LogicalOp::And => left & right,
        LogicalOp::Orr => left | right,
        LogicalOp::Eor => left ^ right,
        LogicalOp::Orn => left | !right,
    }
}

/// A bit field of a number.
#[inline(always)]
fn field(op: BitfieldOp, value: u64, immr: Bits<6>, imms: Bits<6>) -> u64
    ensures { result ≡ field op value immr.number imms.number }
{
    match op {
        BitfieldOp::Sbfm => signed_field(value, immr.number, imms.number),
        BitfieldOp::Ubfm => unsigned_field(value, immr.number, imms.number),
    }
}

#[inline(always)]
fn jump_where(core: &mut Core, taken: u16, place: u64)
    ensures { (memory : Memory) (rest : VectorState) →
        prepared_does (Prepared.JumpWhere taken place) (state_of core.old memory rest)
        ≡ Went (state_of core.new memory rest) }
{
    let is_taken = core.nzcv.is_among(taken);
    jump_if(core, is_taken, place);
}

/// A branch by the flags, where one step more may be done.
#[inline(always)]
fn jump_too(core: &mut Core, taken: u16, place: u64, more: &mut u64)
    ensures one { more.new ≡ more.old → core.new ≡ core.old }
    ensures two { more.new ≢ more.old → (memory : Memory) (rest : VectorState) →
        prepared_does (Prepared.JumpWhere taken place) (state_of core.old memory rest)
        ≡ Went (state_of core.new memory rest) }
    ensures fewer { more.new ≢ more.old → more.new + 1 ≡ more.old }
{
    if *more == 0 {
        return;
    }
    *more -= 1;
    jump_where(core, taken, place);
}

#[inline(always)]
fn jump_at_zero(core: &mut Core, rt: General, place: u64)
    ensures { (memory : Memory) (rest : VectorState) →
        prepared_does (Prepared.JumpAtZero rt place) (state_of core.old memory rest)
        ≡ Went (state_of core.new memory rest) }
{
    let taken = core.general(rt) == 0;
    jump_if(core, taken, place);
}

#[inline(always)]
fn jump_else(core: &mut Core, rt: General, place: u64)
    ensures { (memory : Memory) (rest : VectorState) →
        prepared_does (Prepared.JumpElse rt place) (state_of core.old memory rest)
        ≡ Went (state_of core.new memory rest) }
{
    let taken = core.general(rt) != 0;
    jump_if(core, taken, place);
}

#[inline(always)]
fn jump(core: &mut Core, place: u64)
    ensures { core.new ≡ record core.old { pc = place } }
{
    core.pc = place;
}

/// Rd = Rn plus a number.
#[inline(always)]
fn add_number(core: &mut Core, rd: General, rn: General, number: u64)
    ensures { (memory : Memory) (rest : VectorState) →
        prepared_does (Prepared.AddNumber rd rn number) (state_of core.old memory rest)
        ≡ Went (state_of core.new memory rest) }
{
    let value = core.general(rn).wrapping_add(number);
    write_general(core, rd, value)
}

/// Rd = Rn plus Rm shifted left.
#[inline(always)]
fn add(core: &mut Core, rd: General, rn: General, rm: General, by: Bits<6>)
    ensures { (memory : Memory) (rest : VectorState) →
        prepared_does (Prepared.Add rd rn rm by) (state_of core.old memory rest)
        ≡ Went (state_of core.new memory rest) }
{
    let value = core.general(rn).wrapping_add(core.general(rm) << by.number);
    write_general(core, rd, value)
}

/// Rd = Rn less Rm shifted left.
#[inline(always)]
fn subtract(core: &mut Core, rd: General, rn: General, rm: General, by: Bits<6>)
    ensures { (memory : Memory) (rest : VectorState) →
        prepared_does (Prepared.Subtract rd rn rm by) (state_of core.old memory rest)
        ≡ Went (state_of core.new memory rest) }
{
    let value = core.general(rn).wrapping_sub(core.general(rm) << by.number);
    write_general(core, rd, value)
}

/// Rd = Ra plus Rn times Rm.
#[inline(always)]
fn multiply_add(core: &mut Core, rd: General, rn: General, ra: Reg, rm: General)
    ensures { (memory : Memory) (rest : VectorState) →
        prepared_does (Prepared.MultiplyAdd rd rn ra rm) (state_of core.old memory rest)
        ≡ Went (state_of core.new memory rest) }
{
    let product = core.general(rn).wrapping_mul(core.general(rm));
    let value = core.register(ra).wrapping_add(product);
    write_general(core, rd, value)
}

/// One prepared instruction: whether it goes on. Where it does not, its answer is left in `answer`. A comparison goes on by the
/// branch of the word after it, where it has one, if one step `more` may be done. `L` names the loop that takes the step: each
/// has a copy of its own, since a function of this size is put into its caller only where it has one.
#[inline(always)]
pub fn prepared_goes<L>(
    core: &mut Core,
    pages: &mut Pages,
    prepared: &Prepared,
    more: &mut u64,
    answer: &mut Step,
) -> bool
    ensures answer { (rest : VectorState) → more.new ≡ more.old → let before = state_of core.old pages.old.memory rest in
        IsAnswer (prepared_does prepared.now before) (said result answer.new) before
        (state_of core.new pages.new.memory rest) }
    ensures both { (rest : VectorState) → more.new ≢ more.old → (result ≡ true) × BothGo prepared.now
        (state_of core.old pages.old.memory rest) (state_of core.new pages.new.memory rest) }
    ensures fewer { more.new ≢ more.old → more.new + 1 ≡ more.old }
    ensures past { pages.new.past ≡ pages.old.past }
{
    match *prepared {
        Prepared::ByteAtRegister { op, rt, rn, rm } => {
            let address = core.general(rn).wrapping_add(core.general(rm));
            byte_at_once(core, pages, op, rt, address, answer)
        }
        Prepared::ByteAtNumber { op, rt, rn, number } => {
            let address = core.general(rn).wrapping_add(number);
            byte_at_once(core, pages, op, rt, address, answer)
        }
        Prepared::WideAtRegister { op, rt, rn, rm, by } => {
            let address = core.general(rn).wrapping_add(core.general(rm) << by.number);
            wide_at_once(core, pages, op, rt, address, answer)
        }
        Prepared::WideAtNumber { op, rt, rn, number } => {
            let address = core.general(rn).wrapping_add(number);
            wide_at_once(core, pages, op, rt, address, answer)
        }
        Prepared::AddNumber { rd, rn, number } => {
            add_number(core, rd, rn, number);
            true
        }
        Prepared::LessNumber { rd, rn, number } => {
            less_number(core, rd, rn, number);
            true
        }
        Prepared::LessNumberJump {
            taken,
            rd,
            rn,
            number,
            place,
        } => {
            less_number(core, rd, rn, u64::from(number));
            jump_too(core, taken, place, more);
            true
        }
        Prepared::CompareNumberJump {
            taken,
            rn,
            number,
            place,
        } => {
            compare_number(core, rn, u64::from(number));
            jump_too(core, taken, place, more);
            true
        }
        Prepared::CompareJump {
            taken,
            rn,
            rm,
            by,
            place,
        } => {
            compare(core, rn, rm, by);
            jump_too(core, taken, place, more);
            true
        }
        Prepared::JumpWhere { taken, place } => {
            jump_where(core, taken, place);
            true
        }
        Prepared::Add { rd, rn, rm, by } => {
            add(core, rd, rn, rm, by);
            true
        }
        Prepared::Subtract { rd, rn, rm, by } => {
            subtract(core, rd, rn, rm, by);
            true
        }
        Prepared::Field {
            op,
            rd,
            rn,
            imms,
            immr,
        } => {
            let value = field(op, core.general(rn), immr, imms);
            write_general(core, rd, value);
            true
        }
        Prepared::CompareNumber { rn, number } => {
            compare_number(core, rn, number);
            true
        }
        Prepared::Compare { rn, rm, by } => {
            compare(core, rn, rm, by);
            true
        }
        Prepared::Logical { op, rd, rn, rm, by } => {
            let value = bit_by_bit(op, core.register(rn), core.general(rm) << by.number);
            write_general(core, rd, value);
            true
        }
        Prepared::MultiplyAdd { rd, rn, ra, rm } => {
            multiply_add(core, rd, rn, ra, rm);
            true
        }
        Prepared::Constant { rd, number } => {
            write_general(core, rd, number);
            true
        }
        Prepared::Jump { place } => {
            jump(core, place);
            true
        }
        Prepared::JumpAtZero { rt, place } => {
            jump_at_zero(core, rt, place);
            true
        }
        Prepared::JumpElse { rt, place } => {
            jump_else(core, rt, place);
            true
        }
    }
}
