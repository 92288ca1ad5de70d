//! Data processing.

ghost use Rattle.std.specs.Prelude.{◌≡◌, ◌+◌, ◌*◌, ◌%◌, ◌^◌, [], ◌∷◌, slice_set, if◌then◌else◌};
ghost use Rattle.guest_types.specs.Memory.{Memory};
ghost use Rattle.word_rows.specs.Field.{flag_number};
ghost use Rattle.a64_code.specs.View.{add_sub_imm_name, add_sub_shifted_name, logical_name, move_wide_name, multiply_add_name, shift_variable_name, bitfield_name, select_name, add_sub_shift_number, shift_number, cond_number};
ghost use Rattle.machine_model.specs.Machine.{Went};
ghost use Rattle.machine_model.specs.Effects.{act};
ghost use Rattle.a64_machine.specs.Cores.{VectorState, state_of};

use crate::arithmetic::{moved, replaced, shifted_to_add, shifted_word};
use crate::bit_fields::{signed_field, unsigned_field};
use crate::conditions::holds;
use crate::core_state::Core;
use crate::writes::{write, write_or_sp, write_with_flags};
use a64_code::{
    AddSubOp, AddSubShift, BitfieldOp, Cond, LogicalOp, MoveWideOp, MultiplyOp, Reg, SelectOp,
    Shift, ShiftVariableOp,
};
use word_rows::Bits;

/// An immediate of 12 bits, shifted left by 12 where `sh`.
#[inline(always)]
pub fn immediate(imm12: Bits<12>, sh: bool) -> u64
    ensures { result ≡ imm12.number * 2 ^ (12 * flag_number sh) }
{
    if sh {
        u64::from(imm12.number) << 12
    } else {
        u64::from(imm12.number)
    }
}

/// "ADD (immediate)", "SUB (immediate)", "SUBS (immediate)".
#[inline(always)]
pub fn add_sub_immediate(core: &mut Core, op: AddSubOp, rd: Reg, rn: Reg, imm12: Bits<12>, sh: bool)
    ensures { (memory : Memory) (rest : VectorState) →
        act (add_sub_imm_name op) (rd.number ∷ rn.number ∷ imm12.number ∷ flag_number sh ∷ [])
        (state_of core.old memory rest)
        ≡ Went (state_of core.new memory rest) }
{
    let left = core.register_or_sp(rn);
    let right = immediate(imm12, sh);
    match op {
        AddSubOp::Add => write_or_sp(core, rd, left.wrapping_add(right)),
        AddSubOp::Sub => write_or_sp(core, rd, left.wrapping_sub(right)),
        AddSubOp::Subs => write_with_flags(core, rd, left, right),
    }
}

/// "ADD (shifted register)", "SUB (shifted register)", "SUBS (shifted register)".
#[inline(always)]
pub fn add_sub_shifted(
    core: &mut Core,
    op: AddSubOp,
    rd: Reg,
    rn: Reg,
    imm6: Bits<6>,
    rm: Reg,
    shift: AddSubShift,
)
    ensures { (memory : Memory) (rest : VectorState) →
        act (add_sub_shifted_name op) (rd.number ∷ rn.number ∷ imm6.number ∷ rm.number ∷ add_sub_shift_number shift
        ∷ []) (state_of core.old memory rest)
        ≡ Went (state_of core.new memory rest) }
{
    let left = core.register(rn);
    let right = shifted_to_add(shift, core.register(rm), imm6.number);
    match op {
        AddSubOp::Add => write(core, rd, left.wrapping_add(right)),
        AddSubOp::Sub => write(core, rd, left.wrapping_sub(right)),
        AddSubOp::Subs => write_with_flags(core, rd, left, right),
    }
}

/// "AND (shifted register)", "ORR (shifted register)", "EOR (shifted register)", "ORN (shifted
/// register)".
#[inline(always)]
pub fn logical(
    core: &mut Core,
    op: LogicalOp,
    rd: Reg,
    rn: Reg,
    imm6: Bits<6>,
    rm: Reg,
    shift: Shift,
)
    ensures { (memory : Memory) (rest : VectorState) →
        act (logical_name op) (rd.number ∷ rn.number ∷ imm6.number ∷ rm.number ∷ shift_number shift ∷ [])
        (state_of core.old memory rest)
        ≡ Went (state_of core.new memory rest) }
{
    let left = core.register(rn);
    let right = shifted_word(shift, core.register(rm), imm6.number);
    match op {
        LogicalOp::And => write(core, rd, left & right),
        LogicalOp::Orr => write(core, rd, left | right),
        LogicalOp::Eor => write(core, rd, left ^ right),
        LogicalOp::Orn => write(core, rd, left | !right),
    }
}

/// "MOVZ", "MOVK", "MOVN".
#[inline(always)]
pub fn move_wide(core: &mut Core, op: MoveWideOp, rd: Reg, imm16: Bits<16>, hw: Bits<2>)
    ensures { (memory : Memory) (rest : VectorState) →
        act (move_wide_name op) (rd.number ∷ imm16.number ∷ hw.number ∷ []) (state_of core.old memory rest)
        ≡ Went (state_of core.new memory rest) }
{
    match op {
        MoveWideOp::Movz => write(core, rd, moved(hw.number, imm16.number)),
        MoveWideOp::Movk => {
            let value = replaced(core.register(rd), hw.number, imm16.number);
            write(core, rd, value)
        }
        MoveWideOp::Movn => write(core, rd, !moved(hw.number, imm16.number)),
    }
}

/// "MADD", "MSUB".
#[inline(always)]
pub fn multiply_add(core: &mut Core, op: MultiplyOp, rd: Reg, rn: Reg, ra: Reg, rm: Reg)
    ensures { (memory : Memory) (rest : VectorState) →
        act (multiply_add_name op) (rd.number ∷ rn.number ∷ ra.number ∷ rm.number ∷ []) (state_of core.old memory rest)
        ≡ Went (state_of core.new memory rest) }
{
    let product = core.register(rn).wrapping_mul(core.register(rm));
    let start = core.register(ra);
    match op {
        MultiplyOp::Madd => write(core, rd, start.wrapping_add(product)),
        MultiplyOp::Msub => write(core, rd, start.wrapping_sub(product)),
    }
}

/// "LSLV", "LSRV", "ASRV".
#[inline(always)]
pub fn shift_variable(core: &mut Core, op: ShiftVariableOp, rd: Reg, rn: Reg, rm: Reg)
    ensures { (memory : Memory) (rest : VectorState) →
        act (shift_variable_name op) (rd.number ∷ rn.number ∷ rm.number ∷ []) (state_of core.old memory rest)
        ≡ Went (state_of core.new memory rest) }
{
    let value = core.register(rn);
    let by = (core.register(rm) % 64) as u32;
    match op {
        ShiftVariableOp::Lslv => write(core, rd, shifted_word(Shift::Lsl, value, by)),
        ShiftVariableOp::Lsrv => write(core, rd, shifted_word(Shift::Lsr, value, by)),
        ShiftVariableOp::Asrv => write(core, rd, shifted_word(Shift::Asr, value, by)),
    }
}

/// "SBFM", "UBFM".
#[inline(always)]
pub fn bitfield(core: &mut Core, op: BitfieldOp, rd: Reg, rn: Reg, imms: Bits<6>, immr: Bits<6>)
    ensures { (memory : Memory) (rest : VectorState) →
        act (bitfield_name op) (rd.number ∷ rn.number ∷ imms.number ∷ immr.number ∷ []) (state_of core.old memory rest)
        ≡ Went (state_of core.new memory rest) }
{
    let value = core.register(rn);
    match op {
        BitfieldOp::Sbfm => write(core, rd, signed_field(value, immr.number, imms.number)),
        BitfieldOp::Ubfm => write(core, rd, unsigned_field(value, immr.number, imms.number)),
    }
}

/// One of two numbers.
#[inline(always)]
fn choose(chosen: bool, yes: u64, no: u64) -> u64
    ensures { result ≡ (if chosen then yes else no) }
{
    if chosen { yes } else { no }
}

/// "CSEL", "CSINC".
#[inline(always)]
pub fn conditional_select(core: &mut Core, op: SelectOp, rd: Reg, rn: Reg, cond: Cond, rm: Reg)
    ensures { (memory : Memory) (rest : VectorState) →
        act (select_name op) (rd.number ∷ rn.number ∷ cond_number cond ∷ rm.number ∷ []) (state_of core.old memory rest)
        ≡ Went (state_of core.new memory rest) }
{
    let chosen = holds(cond, core.nzcv.bits());
    let yes = core.register(rn);
    let no = core.register(rm);
    match op {
        SelectOp::Csel => write(core, rd, choose(chosen, yes, no)),
        SelectOp::Csinc => write(core, rd, choose(chosen, yes, no.wrapping_add(1))),
    }
}

/// "UMOV", from doubleword 0.
#[inline(always)]
pub fn move_from_vector(core: &mut Core, rd: Reg)
    ensures { core.new ≡ record core.old {
      x = slice_set core.old.x rd.number core.old.vzero;
      pc =
          (core.old.pc + 4) % 2 ^ 64;
    } }
{
    let value = core.vzero;
    write(core, rd, value);
}
