//! What instructions leave in the registers, before the next one.

ghost use Rattle.std.specs.Prelude.{◌≡◌, ◌+◌, ◌%◌, ◌^◌, slice_set, if◌then◌else◌};
ghost use Rattle.guest_types.specs.Memory.{Memory};
ghost use Rattle.machine_model.specs.Arithmetic.{difference, flags_of};
ghost use Rattle.machine_model.specs.Machine.{with_x_or_sp, next, jump};
ghost use Rattle.a64_machine.specs.Cores.{VectorState, state_of, flags_kept};

use crate::core_state::{Core, FlagState};
use a64_code::Reg;

/// Writes a register, and goes on to the next word.
#[inline(always)]
pub fn write(core: &mut Core, rd: Reg, value: u64)
    ensures { core.new ≡ record core.old { x = slice_set core.old.x rd.number value; pc = (core.old.pc + 4) % 2 ^ 64 } }
{
    core.set_register(rd, value);
    core.go_on();
}

/// Writes a register, where 31 is the stack pointer, and goes on to the next word.
#[inline(always)]
pub fn write_or_sp(core: &mut Core, rd: Reg, value: u64)
    ensures { (memory : Memory) (rest : VectorState)
        → state_of core.new memory rest ≡ next (with_x_or_sp (state_of core.old memory rest) rd.number value) }
{
    core.set_register_or_sp(rd, value);
    core.go_on();
}

/// Writes a difference and its flags, and goes on to the next word.
#[inline(always)]
pub fn write_with_flags(core: &mut Core, rd: Reg, left: u64, right: u64)
    ensures flags { flags_kept core.new.nzcv ≡ flags_of left right }
    ensures value { core.new ≡ record core.old {
      x = slice_set core.old.x rd.number (difference left right);
      pc = (core.old.pc + 4) % 2 ^ 64;
      nzcv = core.new.nzcv;
    } }
{
    core.set_register(rd, left.wrapping_sub(right));
    core.nzcv = FlagState::Compared { left, right };
    core.go_on();
}

/// Goes to a place, or on to the next word.
#[inline(always)]
pub fn jump_if(core: &mut Core, taken: bool, place: u64)
    ensures { (memory : Memory) (rest : VectorState) → state_of core.new memory rest ≡
        (if taken then jump (state_of core.old memory rest) place else next (state_of core.old memory rest)) }
{
    core.pc = if taken {
        place
    } else {
        core.pc.wrapping_add(4)
    };
}
