//! Loads and stores by their address forms.

ghost use Rattle.std.specs.Prelude.{◌≡◌, ◌≤◌, ◌*◌, ◌%◌, ◌^◌, [], ◌∷◌, nat_eq, slice_index, if◌then◌else◌};
ghost use Rattle.word_rows.specs.Field.{flag_number};
ghost use Rattle.a64_code.specs.View.{byte_imm_name, wide_imm_name, byte_register_name, wide_register_name};
ghost use Rattle.machine_model.specs.Arithmetic.{sum};
ghost use Rattle.machine_model.specs.Answers.{IsAnswer};
ghost use Rattle.machine_model.specs.Effects.{act};
ghost use Rattle.a64_machine.specs.Cores.{VectorState, state_of, OnStop, said};
ghost use Rattle.a64_machine.specs.Accesses.{logarithm};

use crate::accesses::{access, byte_access};
use crate::core_state::Core;
use a64_code::{LoadStoreByteOp, LoadStoreOp, Reg};
use guest_types::guest::GuestMemory;
use machine_model::outcome::Step;
use word_rows::Bits;

/// The logarithm of the number of bytes that a load or a store accesses.
#[inline(always)]
pub fn logarithm(op: LoadStoreOp) -> u32
    ensures value { result ≡ logarithm op }
    ensures small { result ≤ 3 }
{
    match op {
        LoadStoreOp::Ldrh => 1,
        LoadStoreOp::LdrW => 2,
        LoadStoreOp::LdrX => 3,
        LoadStoreOp::Ldrsh => 1,
        LoadStoreOp::Ldrsw => 2,
        LoadStoreOp::Strh => 1,
        LoadStoreOp::StrW => 2,
        LoadStoreOp::StrX => 3,
    }
}

/// How far the offset register is shifted: by the logarithm of the number of bytes, where `scaled`.
#[inline(always)]
pub fn scale(op: LoadStoreOp, scaled: bool) -> u32
    ensures value { result ≡ logarithm op * flag_number scaled }
    ensures small { result ≤ 3 }
{
    if scaled { logarithm(op) } else { 0 }
}

/// The address by an offset in units of 2 to a power.
#[inline(always)]
fn at_offset(core: &Core, rn: Reg, imm12: Bits<12>, unit: u32) -> u64
    requires { unit ≤ 3 }
    ensures { result ≡ sum (if nat_eq rn.number 31 then core.now.sp else slice_index core.now.x rn.number)
        (imm12.number * 2 ^ unit) }
{
    core.register_or_sp(rn)
        .wrapping_add(u64::from(imm12.number) << unit)
}

/// The address by a register.
#[inline(always)]
fn at_register(core: &Core, rn: Reg, rm: Reg) -> u64
    ensures { result ≡ sum (if nat_eq rn.number 31 then core.now.sp else slice_index core.now.x rn.number)
        (slice_index core.now.x rm.number) }
{
    core.register_or_sp(rn).wrapping_add(core.register(rm))
}

/// The address by a register shifted left.
#[inline(always)]
fn at_scaled(core: &Core, rn: Reg, rm: Reg, by: u32) -> u64
    requires { by ≤ 3 }
    ensures { result ≡ sum (if nat_eq rn.number 31 then core.now.sp else slice_index core.now.x rn.number)
        (slice_index core.now.x rm.number * 2 ^ by % 2 ^ 64) }
{
    core.register_or_sp(rn)
        .wrapping_add(core.register(rm) << by)
}

/// "LDRB (immediate)", "LDRSB (immediate)", "STRB (immediate)".
#[inline(always)]
pub fn byte_immediate<M: GuestMemory>(
    core: &mut Core,
    memory: &mut M,
    op: LoadStoreByteOp,
    rt: Reg,
    rn: Reg,
    imm12: Bits<12>,
    answer: &mut Step,
) -> bool
    ensures answer { (rest : VectorState) → let before = state_of core.old (M.memory memory.old) rest in
        IsAnswer (act (byte_imm_name op) (rt.number ∷ rn.number ∷ imm12.number ∷ []) before)
        (said result answer.new) before (state_of core.new (M.memory memory.new) rest) }
    ensures kept { OnStop (said result answer.new) (core.new ≡ core.old) }
    ensures kept_memory { OnStop (said result answer.new) (M.memory memory.new ≡ M.memory memory.old) }
    ensures past { M.past memory.new ≡ M.past memory.old }
{
    let address = at_offset(core, rn, imm12, 0);
    byte_access(core, memory, op, rt, address, answer)
}

/// "LDRH (immediate)", "LDR (immediate)", "LDRSH (immediate)", "LDRSW (immediate)", "STRH
/// (immediate)", "STR (immediate)".
#[inline(always)]
pub fn wide_immediate<M: GuestMemory>(
    core: &mut Core,
    memory: &mut M,
    op: LoadStoreOp,
    rt: Reg,
    rn: Reg,
    imm12: Bits<12>,
    answer: &mut Step,
) -> bool
    ensures answer { (rest : VectorState) → let before = state_of core.old (M.memory memory.old) rest in
        IsAnswer (act (wide_imm_name op) (rt.number ∷ rn.number ∷ imm12.number ∷ []) before)
        (said result answer.new) before (state_of core.new (M.memory memory.new) rest) }
    ensures kept { OnStop (said result answer.new) (core.new ≡ core.old) }
    ensures kept_memory { OnStop (said result answer.new) (M.memory memory.new ≡ M.memory memory.old) }
    ensures past { M.past memory.new ≡ M.past memory.old }
{
    let address = at_offset(core, rn, imm12, logarithm(op));
    access(core, memory, op, rt, address, answer)
}

/// "LDRB (register)", "LDRSB (register)", "STRB (register)".
#[inline(always)]
pub fn byte_register<M: GuestMemory>(
    core: &mut Core,
    memory: &mut M,
    op: LoadStoreByteOp,
    rt: Reg,
    rn: Reg,
    rm: Reg,
    answer: &mut Step,
) -> bool
    ensures answer { (rest : VectorState) → let before = state_of core.old (M.memory memory.old) rest in
        IsAnswer (act (byte_register_name op) (rt.number ∷ rn.number ∷ rm.number ∷ []) before)
        (said result answer.new) before (state_of core.new (M.memory memory.new) rest) }
    ensures kept { OnStop (said result answer.new) (core.new ≡ core.old) }
    ensures kept_memory { OnStop (said result answer.new) (M.memory memory.new ≡ M.memory memory.old) }
    ensures past { M.past memory.new ≡ M.past memory.old }
{
    let address = at_register(core, rn, rm);
    byte_access(core, memory, op, rt, address, answer)
}

/// "LDRH (register)", "LDR (register)", "LDRSH (register)", "LDRSW (register)", "STRH (register)",
/// "STR (register)".
#[inline(always)]
pub fn wide_register<M: GuestMemory>(
    core: &mut Core,
    memory: &mut M,
    op: LoadStoreOp,
    rt: Reg,
    rn: Reg,
    scaled: bool,
    rm: Reg,
    answer: &mut Step,
) -> bool
    ensures answer { (rest : VectorState) → let before = state_of core.old (M.memory memory.old) rest in
        IsAnswer (act (wide_register_name op) (rt.number ∷ rn.number ∷ flag_number scaled ∷ rm.number ∷ []) before)
        (said result answer.new) before
        (state_of core.new (M.memory memory.new) rest) }
    ensures kept { OnStop (said result answer.new) (core.new ≡ core.old) }
    ensures kept_memory { OnStop (said result answer.new) (M.memory memory.new ≡ M.memory memory.old) }
    ensures past { M.past memory.new ≡ M.past memory.old }
{
    let address = at_scaled(core, rn, rm, scale(op, scaled));
    access(core, memory, op, rt, address, answer)
}
