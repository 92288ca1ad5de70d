//! Loads and stores of prepared instructions. A store within one page that may be written is done with no answer but whether it
//! was: one that names a fault goes through memory.

ghost use Rattle.std.specs.Prelude.{◌≡◌, ◌⊎◌, Ok, IsTrue, false};
ghost use Rattle.guest_types.specs.Memory.{stored};
ghost use Rattle.machine_model.specs.Answers.{IsAnswer};
ghost use Rattle.machine_model.specs.Effects.{store_from};
ghost use Rattle.a64_machine.specs.Cores.{VectorState, state_of, said};
ghost use Rattle.a64_machine.specs.Accesses.{byte_access, access};

use crate::accesses::{Extension, load};
use crate::core_state::Core;
use crate::low_bytes::LowBytes;
use a64_code::{LoadStoreByteOp, LoadStoreOp, Reg};
use machine_model::outcome::Step;
use paged_memory::pages::Pages;

/// Stores the low `size` bytes of a number, where they stand in one page that may be written: whether they do.
#[inline(always)]
fn store_at_once(pages: &mut Pages, address: u64, size: u32, value: u64) -> bool
    requires { (size ≡ 1) ⊎ (size ≡ 2) ⊎ (size ≡ 4) ⊎ (size ≡ 8) }
    ensures done { IsTrue result → stored pages.old.memory address size value ≡ Ok pages.new.memory }
    ensures unchanged { result ≡ false → pages.new ≡ pages.old }
    ensures past { pages.new.past ≡ pages.old.past }
{
    pages.is_memory();
    let Some(place) = pages.place_mut(address, size) else {
        return false;
    };
    pages.write_span(address, size, place, &LowBytes { size, value });
    true
}

/// Any store of the low `size` bytes of a register.
#[cold]
#[inline(never)]
fn store_anywhere(
    core: &mut Core,
    pages: &mut Pages,
    rt: Reg,
    address: u64,
    size: u32,
    answer: &mut Step,
) -> bool
    requires { (size ≡ 1) ⊎ (size ≡ 2) ⊎ (size ≡ 4) ⊎ (size ≡ 8) }
    ensures answer { (rest : VectorState) → let before = state_of core.old pages.old.memory rest in
        IsAnswer (store_from before rt.number address size) (said result answer.new) before
        (state_of core.new pages.new.memory rest) }
    ensures past { pages.new.past ≡ pages.old.past }
{
    crate::accesses::store(core, pages, rt, address, size, answer)
}

/// A store of the low `size` bytes of a register.
#[inline(always)]
fn store(
    core: &mut Core,
    pages: &mut Pages,
    rt: Reg,
    address: u64,
    size: u32,
    answer: &mut Step,
) -> bool
    requires { (size ≡ 1) ⊎ (size ≡ 2) ⊎ (size ≡ 4) ⊎ (size ≡ 8) }
    ensures answer { (rest : VectorState) → let before = state_of core.old pages.old.memory rest in
        IsAnswer (store_from before rt.number address size) (said result answer.new) before
        (state_of core.new pages.new.memory rest) }
    ensures past { pages.new.past ≡ pages.old.past }
{
    let value = core.register(rt);
    if store_at_once(pages, address, size, value) {
        core.go_on();
        return true;
    }
    store_anywhere(core, pages, rt, address, size, answer)
}

/// A load or a store of one byte.
#[inline(always)]
pub fn byte_at_once(
    core: &mut Core,
    pages: &mut Pages,
    op: LoadStoreByteOp,
    rt: Reg,
    address: u64,
    answer: &mut Step,
) -> bool
    ensures answer { (rest : VectorState) → let before = state_of core.old pages.old.memory rest in
        IsAnswer (byte_access op before rt.number address) (said result answer.new) before
        (state_of core.new pages.new.memory rest) }
    ensures past { pages.new.past ≡ pages.old.past }
{
    match op {
        LoadStoreByteOp::Ldrb => load(core, pages, rt, address, 1, Extension::Zero, answer),
        LoadStoreByteOp::Ldrsb => load(core, pages, rt, address, 1, Extension::Byte, answer),
        LoadStoreByteOp::Strb => store(core, pages, rt, address, 1, answer),
    }
}

/// A load or a store of two, four or eight bytes.
#[inline(always)]
pub fn wide_at_once(
    core: &mut Core,
    pages: &mut Pages,
    op: LoadStoreOp,
    rt: Reg,
    address: u64,
    answer: &mut Step,
) -> bool
    ensures answer { (rest : VectorState) → let before = state_of core.old pages.old.memory rest in
        IsAnswer (access op before rt.number address) (said result answer.new) before
        (state_of core.new pages.new.memory rest) }
    ensures past { pages.new.past ≡ pages.old.past }
{
    match op {
        LoadStoreOp::Ldrh => load(core, pages, rt, address, 2, Extension::Zero, answer),
        LoadStoreOp::LdrW => load(core, pages, rt, address, 4, Extension::Zero, answer),
        LoadStoreOp::LdrX => load(core, pages, rt, address, 8, Extension::Zero, answer),
        LoadStoreOp::Ldrsh => load(core, pages, rt, address, 2, Extension::Half, answer),
        LoadStoreOp::Ldrsw => load(core, pages, rt, address, 4, Extension::Word, answer),
        LoadStoreOp::Strh => store(core, pages, rt, address, 2, answer),
        LoadStoreOp::StrW => store(core, pages, rt, address, 4, answer),
        LoadStoreOp::StrX => store(core, pages, rt, address, 8, answer),
    }
}
