//! Loads and stores.

ghost use Rattle.std.specs.Prelude.{◌≡◌, ◌<◌, ◌+◌, ◌-◌, ◌*◌, ◌^◌, ◌⊎◌, nat_le, false, if◌then◌else◌};
ghost use Rattle.machine_model.specs.Answers.{IsAnswer};
ghost use Rattle.machine_model.specs.Effects.{load_to, store_from, from_byte, from_half, from_word};
ghost use Rattle.machine_model.specs.declared.outcome.StopKind.TheVariants.{Read, Write};
ghost use Rattle.a64_machine.specs.Cores.{VectorState, state_of, OnStop, said};
ghost use Rattle.a64_machine.specs.Accesses.{extended, byte_access, access};

use crate::core_state::Core;
use a64_code::{LoadStoreByteOp, LoadStoreOp, Reg};
use guest_types::guest::GuestMemory;
use guest_types::memory::AccessFault;
use machine_model::outcome::{Step, Stop, StopKind};

/// How a load extends its number to 64 bits: with zeros, or with copies of the top bit of a byte, a
/// half word or a word.
#[derive(Clone, Copy)]
pub enum Extension {
    Zero,
    Byte,
    Half,
    Word,
}

/// A number as a load extends it to 64 bits.
#[inline(always)]
fn extended(extension: Extension, value: u64) -> u64
    ensures { result ≡ extended extension value }
{
    match extension {
        Extension::Zero => value,
        Extension::Byte => sign_extended(value, 0x7f),
        Extension::Half => sign_extended(value, 0x7fff),
        Extension::Word => sign_extended(value, 0x7fff_ffff),
    }
}

/// A number with copies of its top bit above it, by the greatest number whose top bit is clear.
#[inline(always)]
fn sign_extended(value: u64, greatest: u64) -> u64
    requires { greatest < 2 ^ 32 }
    ensures { result ≡ (if nat_le value greatest then value else 2 ^ 64 - 1 - (2 * greatest + 1 - value)) }
{
    if value <= greatest {
        value
    } else {
        u64::MAX - (2 * greatest + 1).saturating_sub(value)
    }
}

/// Stops at a byte that may not be accessed. The step did not go.
#[cold]
#[inline(never)]
pub fn refused(core: &Core, kind: StopKind, fault: AccessFault, answer: &mut Step) -> bool
    ensures went { result ≡ false }
    ensures answer { answer.new ≡ Step.Stopped (record { kind = kind; pc = core.now.pc; at = fault.address }) }
{
    *answer = Step::Stopped(Stop {
        kind,
        pc: core.pc,
        at: fault.address,
    });
    false
}

/// A load of `size` bytes to a register.
#[inline(always)]
pub fn load<M: GuestMemory>(
    core: &mut Core,
    memory: &M,
    rt: Reg,
    address: u64,
    size: u32,
    extension: Extension,
    answer: &mut Step,
) -> bool
    requires { (size ≡ 1) ⊎ (size ≡ 2) ⊎ (size ≡ 4) ⊎ (size ≡ 8) }
    ensures answer { (rest : VectorState) → let before = state_of core.old (M.memory memory.now) rest in
        IsAnswer (load_to before rt.number address size (extended extension)) (said result answer.new) before
        (state_of core.new (M.memory memory.now) rest) }
    ensures kept { OnStop (said result answer.new) (core.new ≡ core.old) }
{
    match memory.load(address, size) {
        Ok(value) => {
            core.set_register(rt, extended(extension, value));
            core.go_on();
            true
        }
        Err(fault) => refused(core, StopKind::Read, fault, answer),
    }
}

/// A store of the low `size` bytes of a register.
#[inline(always)]
pub fn store<M: GuestMemory>(
    core: &mut Core,
    memory: &mut M,
    rt: Reg,
    address: u64,
    size: u32,
    answer: &mut Step,
) -> bool
    requires { (size ≡ 1) ⊎ (size ≡ 2) ⊎ (size ≡ 4) ⊎ (size ≡ 8) }
    ensures answer { (rest : VectorState) → let before = state_of core.old (M.memory memory.old) rest in
        IsAnswer (store_from before rt.number address size) (said result answer.new) before
        (state_of core.new (M.memory memory.new) rest) }
    ensures kept { OnStop (said result answer.new) (core.new ≡ core.old) }
    ensures kept_memory { OnStop (said result answer.new) (M.memory memory.new ≡ M.memory memory.old) }
    ensures past { M.past memory.new ≡ M.past memory.old }
{
    let value = core.register(rt);
    match memory.store(address, size, value) {
        Ok(()) => {
            core.go_on();
            true
        }
        Err(fault) => refused(core, StopKind::Write, fault, answer),
    }
}

/// A load or a store of one byte.
#[inline(always)]
pub fn byte_access<M: GuestMemory>(
    core: &mut Core,
    memory: &mut M,
    op: LoadStoreByteOp,
    rt: Reg,
    address: u64,
    answer: &mut Step,
) -> bool
    ensures answer { (rest : VectorState) → let before = state_of core.old (M.memory memory.old) rest in
        IsAnswer (byte_access op before rt.number address) (said result answer.new) before
        (state_of core.new (M.memory memory.new) rest) }
    ensures kept { OnStop (said result answer.new) (core.new ≡ core.old) }
    ensures kept_memory { OnStop (said result answer.new) (M.memory memory.new ≡ M.memory memory.old) }
    ensures past { M.past memory.new ≡ M.past memory.old }
{
    match op {
        LoadStoreByteOp::Ldrb => load(core, memory, rt, address, 1, Extension::Zero, answer),
        LoadStoreByteOp::Ldrsb => load(core, memory, rt, address, 1, Extension::Byte, answer),
        LoadStoreByteOp::Strb => store(core, memory, rt, address, 1, answer),
    }
}

/// A load or a store of two, four or eight bytes.
#[inline(always)]
pub fn access<M: GuestMemory>(
    core: &mut Core,
    memory: &mut M,
    op: LoadStoreOp,
    rt: Reg,
    address: u64,
    answer: &mut Step,
) -> bool
    ensures answer { (rest : VectorState) → let before = state_of core.old (M.memory memory.old) rest in
        IsAnswer (access op before rt.number address) (said result answer.new) before
        (state_of core.new (M.memory memory.new) rest) }
    ensures kept { OnStop (said result answer.new) (core.new ≡ core.old) }
    ensures kept_memory { OnStop (said result answer.new) (M.memory memory.new ≡ M.memory memory.old) }
    ensures past { M.past memory.new ≡ M.past memory.old }
{
    match op {
        LoadStoreOp::Ldrh => load(core, memory, rt, address, 2, Extension::Zero, answer),
        LoadStoreOp::LdrW => load(core, memory, rt, address, 4, Extension::Zero, answer),
        LoadStoreOp::LdrX => load(core, memory, rt, address, 8, Extension::Zero, answer),
        LoadStoreOp::Ldrsh => load(core, memory, rt, address, 2, Extension::Half, answer),
        LoadStoreOp::Ldrsw => load(core, memory, rt, address, 4, Extension::Word, answer),
        LoadStoreOp::Strh => store(core, memory, rt, address, 2, answer),
        LoadStoreOp::StrW => store(core, memory, rt, address, 4, answer),
        LoadStoreOp::StrX => store(core, memory, rt, address, 8, answer),
    }
}
