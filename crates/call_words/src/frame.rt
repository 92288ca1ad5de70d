//! The words around the code of a function.

ghost use Rattle.std.specs.Prelude.{◌≡◌, ◌+◌, ◌*◌, ◌/◌, ◌<◌, ◌≤◌, ◌++◌, ◌∷◌, [], IfOk, length};
ghost use Rattle.a64_code.specs.Table as a64;
ghost use Rattle.machine_model.specs.CodeInMemory.{spell, words_of};
ghost use Rattle.call_code.specs.Frame.{back, carrier, load_at, move_sp, restore_x, restore_z, save_x, save_z, spread_low, store_at, take_low};
ghost use Rattle.call_words.specs.Classes.{numbers_of};

use a64_code::{A64, AddSubOp, LoadStoreOp, Reg, zero};
use std::alloc::AllocError;
use sve_code::{Size, Sve};
use word_rows::Bits;

// STR of a general register at a doubleword of the frame.
fn store_at(register: Reg, place: u32) -> u32
    requires { place < 4096 }
    ensures { result ≡ spell (store_at register.number place) }
{
    a64_code::encode(A64::LoadStoreImmediate {
        op: LoadStoreOp::StrX,
        rt: register,
        rn: zero(),
        imm12: Bits::new(place),
    })
}

// LDR of a general register from a doubleword of the frame.
fn load_at(register: Reg, place: u32) -> u32
    requires { place < 4096 }
    ensures { result ≡ spell (load_at register.number place) }
{
    a64_code::encode(A64::LoadStoreImmediate {
        op: LoadStoreOp::LdrX,
        rt: register,
        rn: zero(),
        imm12: Bits::new(place),
    })
}

// X9, through which vector registers are kept.
fn between() -> Reg
    ensures { result.number ≡ carrier }
{
    Bits { number: 9 }
}

// UMOV of the low doubleword of a vector register to X9.
fn take_low(register: Reg) -> u32
    ensures { result ≡ spell (take_low register.number) }
{
    a64_code::encode(A64::Umov {
        rd: between(),
        vn: register,
    })
}

// DUP of X9 to a vector register.
fn spread_low(register: Reg) -> u32
    ensures { result ≡ spell (spread_low register.number) }
{
    sve_code::encode(Sve::DupScalar {
        zd: register,
        rn: between(),
        size: Size::D,
    })
}

/// Appends the words that move SP by some bytes, where there are some.
pub fn put_move(all: &mut Vec<u32>, op: AddSubOp, bytes: u32) -> Result<(), AllocError>
    requires { bytes < 4096 }
    ensures down { op ≡ AddSubOp.Sub
        → IfOk result (λ _. all.new.items ≡ all.old.items ++ words_of (move_sp a64.sub_imm bytes)) }
    ensures up { op ≡ AddSubOp.Add
        → IfOk result (λ _. all.new.items ≡ all.old.items ++ words_of (move_sp a64.add_imm bytes)) }
{
    if bytes > 0 {
        all.push(a64_code::encode(A64::AddSubImmediate {
            op,
            rd: zero(),
            rn: zero(),
            imm12: Bits::new(bytes),
            sh: false,
        }))?;
    }
    Ok(())
}

/// Appends the words that store general registers in the frame.
pub fn put_stores(all: &mut Vec<u32>, registers: &[Reg]) -> Result<(), AllocError>
    requires { length registers.now < 2048 }
    ensures { IfOk result (λ _. all.new.items ≡ all.old.items ++ words_of (save_x 0 (numbers_of registers.now))) }
{
    for (index, register) in registers.iter().enumerate() {
        all.push(store_at(*register, index as u32))?;
    }
    Ok(())
}

// Appends the two words that store the low doubleword of a vector register.
fn put_low_store(all: &mut Vec<u32>, register: Reg, place: u32) -> Result<(), AllocError>
    requires { place < 4096 }
    ensures { IfOk result (λ _. all.new.items
        ≡ all.old.items ++ spell (take_low register.number) ∷ spell (store_at carrier place) ∷ []) }
{
    let words = [take_low(register), store_at(between(), place)];
    all.extend_from_slice(&words)
}

// Appends the two words that load the low doubleword of a vector register.
fn put_low_load(all: &mut Vec<u32>, register: Reg, place: u32) -> Result<(), AllocError>
    requires { place < 4096 }
    ensures { IfOk result (λ _. all.new.items
        ≡ all.old.items ++ spell (load_at carrier place) ∷ spell (spread_low register.number) ∷ []) }
{
    let words = [load_at(between(), place), spread_low(register)];
    all.extend_from_slice(&words)
}

/// Appends the words that store the low doublewords of vector registers, from one of the frame on.
pub fn put_low_stores(all: &mut Vec<u32>, first: usize, registers: &[Reg]) -> Result<(), AllocError>
    requires first { first < 2048 }
    requires few { length registers.now < 2048 }
    ensures { IfOk result (λ _. all.new.items ≡ all.old.items ++ words_of (save_z first (numbers_of registers.now))) }
{
    let mut place = first as u32;
    for register in registers {
        put_low_store(all, *register, place)?;
        place += 1;
    }
    Ok(())
}

/// Appends the words that load general registers from the frame.
pub fn put_loads(all: &mut Vec<u32>, registers: &[Reg]) -> Result<(), AllocError>
    requires { length registers.now < 2048 }
    ensures { IfOk result (λ _. all.new.items ≡ all.old.items ++ words_of (restore_x 0 (numbers_of registers.now))) }
{
    for (index, register) in registers.iter().enumerate() {
        all.push(load_at(*register, index as u32))?;
    }
    Ok(())
}

/// Appends the words that load the low doublewords of vector registers, from one of the frame on.
pub fn put_low_loads(all: &mut Vec<u32>, first: usize, registers: &[Reg]) -> Result<(), AllocError>
    requires first { first < 2048 }
    requires few { length registers.now < 2048 }
    ensures { IfOk result (λ _. all.new.items
        ≡ all.old.items ++ words_of (restore_z first (numbers_of registers.now))) }
{
    let mut place = first as u32;
    for register in registers {
        put_low_load(all, *register, place)?;
        place += 1;
    }
    Ok(())
}

/// Appends RET.
pub fn put_return(all: &mut Vec<u32>) -> Result<(), AllocError>
    ensures { IfOk result (λ _. all.new.items ≡ all.old.items ++ words_of (back ∷ [])) }
{
    all.push(a64_code::encode(A64::Ret {
        rn: Bits { number: 30 },
    }))?;
    Ok(())
}
