//! A64 instructions are made ready for the places of their words.

ghost use Rattle.std.specs.Prelude.{◌≡◌, ℕ, Some, is_none, IfSome, MatchOption};
ghost use Rattle.machine_model.specs.Machine.{State};
ghost use Rattle.a64_machine.specs.Prepared.{IsReady, prepared_does, branch_after};

use crate::arithmetic::{moved, target};
use crate::conditions::holding;
use crate::data::immediate;
use crate::load_store::{logarithm, scale};
use crate::prepared_form::{General, Prepared};
use a64_code::{
    A64, AddSubOp, AddSubShift, BitfieldOp, CompareBranchOp, LoadStoreByteOp, LoadStoreOp,
    LogicalOp, MoveWideOp, MultiplyOp, Reg, Shift,
};
use word_rows::Bits;

/// The register, where it is one of X0 to X30.
fn general(register: Reg) -> Option<General>
    ensures { MatchOption result (register.number ≡ 31) (λ general. general.number ≡ register.number) }
{
    if register.number == 31 {
        return None;
    }
    Some(General {
        number: register.number,
    })
}

/// "ADD (immediate)", "SUB (immediate)", "SUBS (immediate)".
fn add_sub_immediate(op: AddSubOp, rd: Reg, rn: Reg, imm12: Bits<12>, sh: bool) -> Option<Prepared>
    ensures { (pc : ℕ) → IfSome result (IsReady (A64.AddSubImmediate op rd rn imm12 sh) pc) }
{
    let number = immediate(imm12, sh);
    let rn = general(rn)?;
    match op {
        AddSubOp::Add => {
            let rd = general(rd)?;
            Some(Prepared::AddNumber { rd, rn, number })
        }
        AddSubOp::Sub => {
            let rd = general(rd)?;
            let number = 0u64.wrapping_sub(number);
            Some(Prepared::AddNumber { rd, rn, number })
        }
        AddSubOp::Subs => match general(rd) {
            Some(rd) => Some(Prepared::LessNumber { rd, rn, number }),
            None => Some(Prepared::CompareNumber { rn, number }),
        },
    }
}

/// "ADD (shifted register)", "SUB (shifted register)" and comparisons, with a shift to the left.
fn add_sub_register(op: AddSubOp, rd: Reg, rn: Reg, by: Bits<6>, rm: Reg) -> Option<Prepared>
    ensures { (pc : ℕ) → IfSome result (IsReady (A64.AddSubShifted op rd rn by rm AddSubShift.Lsl) pc) }
{
    let rn = general(rn)?;
    let rm = general(rm)?;
    match op {
        AddSubOp::Add => {
            let rd = general(rd)?;
            Some(Prepared::Add { rd, rn, rm, by })
        }
        AddSubOp::Sub => {
            let rd = general(rd)?;
            Some(Prepared::Subtract { rd, rn, rm, by })
        }
        AddSubOp::Subs => match general(rd) {
            Some(_) => None,
            None => Some(Prepared::Compare { rn, rm, by }),
        },
    }
}

/// "AND (shifted register)" and its like, with a shift to the left.
fn logical(op: LogicalOp, rd: Reg, rn: Reg, by: Bits<6>, rm: Reg) -> Option<Prepared>
    ensures { (pc : ℕ) → IfSome result (IsReady (A64.LogicalShifted op rd rn by rm Shift.Lsl) pc) }
{
    let rd = general(rd)?;
    let rm = general(rm)?;
    Some(Prepared::Logical { op, rd, rn, rm, by })
}

/// "MOVZ", "MOVN".
fn move_wide(op: MoveWideOp, rd: Reg, imm16: Bits<16>, hw: Bits<2>) -> Option<Prepared>
    ensures { (pc : ℕ) → IfSome result (IsReady (A64.MoveWide op rd imm16 hw) pc) }
{
    let rd = general(rd)?;
    let number = moved(hw.number, imm16.number);
    match op {
        MoveWideOp::Movz => Some(Prepared::Constant { rd, number }),
        MoveWideOp::Movk => None,
        MoveWideOp::Movn => Some(Prepared::Constant {
            rd,
            number: !number,
        }),
    }
}

/// "MADD".
fn multiply_add(op: MultiplyOp, rd: Reg, rn: Reg, ra: Reg, rm: Reg) -> Option<Prepared>
    ensures { (pc : ℕ) → IfSome result (IsReady (A64.MultiplyAdd op rd rn ra rm) pc) }
{
    let rd = general(rd)?;
    let rn = general(rn)?;
    let rm = general(rm)?;
    match op {
        MultiplyOp::Madd => Some(Prepared::MultiplyAdd { rd, rn, ra, rm }),
        MultiplyOp::Msub => None,
    }
}

/// "SBFM", "UBFM".
fn bitfield(op: BitfieldOp, rd: Reg, rn: Reg, imms: Bits<6>, immr: Bits<6>) -> Option<Prepared>
    ensures { (pc : ℕ) → IfSome result (IsReady (A64.Bitfield op rd rn imms immr) pc) }
{
    let rd = general(rd)?;
    let rn = general(rn)?;
    Some(Prepared::Field {
        op,
        rd,
        rn,
        imms,
        immr,
    })
}

/// "CBZ", "CBNZ".
fn compare_branch(op: CompareBranchOp, rt: Reg, imm19: Bits<19>, pc: u64) -> Option<Prepared>
    ensures { IfSome result (IsReady (A64.CompareBranch op rt imm19) pc) }
{
    let rt = general(rt)?;
    let place = target(pc, 19, imm19.number);
    match op {
        CompareBranchOp::Cbz => Some(Prepared::JumpAtZero { rt, place }),
        CompareBranchOp::Cbnz => Some(Prepared::JumpElse { rt, place }),
    }
}

/// Branches.
fn branch(word: A64, pc: u64) -> Option<Prepared>
    ensures { IfSome result (IsReady word pc) }
{
    match word {
        A64::Branch { imm26 } => Some(Prepared::Jump {
            place: target(pc, 26, imm26.number),
        }),
        A64::BranchConditional { cond, imm19 } => Some(Prepared::JumpWhere {
            taken: holding(cond),
            place: target(pc, 19, imm19.number),
        }),
        A64::CompareBranch { op, rt, imm19 } => compare_branch(op, rt, imm19, pc),
        _ => None,
    }
}

/// "LDRB (immediate)" and its like.
fn byte_immediate(op: LoadStoreByteOp, rt: Reg, rn: Reg, imm12: Bits<12>) -> Option<Prepared>
    ensures { (pc : ℕ) → IfSome result (IsReady (A64.LoadStoreByteImmediate op rt rn imm12) pc) }
{
    let rn = general(rn)?;
    let number = u64::from(imm12.number);
    Some(Prepared::ByteAtNumber { op, rt, rn, number })
}

/// "LDRB (register)" and its like.
fn byte_register(op: LoadStoreByteOp, rt: Reg, rn: Reg, rm: Reg) -> Option<Prepared>
    ensures { (pc : ℕ) → IfSome result (IsReady (A64.LoadStoreByteRegister op rt rn rm) pc) }
{
    let rn = general(rn)?;
    let rm = general(rm)?;
    Some(Prepared::ByteAtRegister { op, rt, rn, rm })
}

/// "LDR (immediate)" and its like.
fn wide_immediate(op: LoadStoreOp, rt: Reg, rn: Reg, imm12: Bits<12>) -> Option<Prepared>
    ensures { (pc : ℕ) → IfSome result (IsReady (A64.LoadStoreImmediate op rt rn imm12) pc) }
{
    let rn = general(rn)?;
    let number = u64::from(imm12.number) << logarithm(op);
    Some(Prepared::WideAtNumber { op, rt, rn, number })
}

/// "LDR (register)" and its like.
fn wide_register(op: LoadStoreOp, rt: Reg, rn: Reg, scaled: bool, rm: Reg) -> Option<Prepared>
    ensures { (pc : ℕ) → IfSome result (IsReady (A64.LoadStoreRegister op rt rn scaled rm) pc) }
{
    let rn = general(rn)?;
    let rm = general(rm)?;
    let by = Bits::new(scale(op, scaled));
    Some(Prepared::WideAtRegister { op, rt, rn, rm, by })
}

/// Loads and stores.
fn access(word: A64) -> Option<Prepared>
    ensures { (pc : ℕ) → IfSome result (IsReady word pc) }
{
    match word {
        A64::LoadStoreByteImmediate { op, rt, rn, imm12 } => byte_immediate(op, rt, rn, imm12),
        A64::LoadStoreByteRegister { op, rt, rn, rm } => byte_register(op, rt, rn, rm),
        A64::LoadStoreImmediate { op, rt, rn, imm12 } => wide_immediate(op, rt, rn, imm12),
        A64::LoadStoreRegister {
            op,
            rt,
            rn,
            scaled,
            rm,
        } => wide_register(op, rt, rn, scaled, rm),
        _ => None,
    }
}

/// Instructions that compute a register.
fn data(word: A64) -> Option<Prepared>
    ensures { (pc : ℕ) → IfSome result (IsReady word pc) }
{
    match word {
        A64::AddSubImmediate {
            op,
            rd,
            rn,
            imm12,
            sh,
        } => add_sub_immediate(op, rd, rn, imm12, sh),
        A64::AddSubShifted {
            op,
            rd,
            rn,
            imm6,
            rm,
            shift: AddSubShift::Lsl,
        } => add_sub_register(op, rd, rn, imm6, rm),
        A64::LogicalShifted {
            op,
            rd,
            rn,
            imm6,
            rm,
            shift: Shift::Lsl,
        } => logical(op, rd, rn, imm6, rm),
        A64::MoveWide { op, rd, imm16, hw } => move_wide(op, rd, imm16, hw),
        A64::MultiplyAdd { op, rd, rn, ra, rm } => multiply_add(op, rd, rn, ra, rm),
        A64::Bitfield {
            op,
            rd,
            rn,
            imms,
            immr,
        } => bitfield(op, rd, rn, imms, immr),
        _ => None,
    }
}

/// The instruction made ready for a place, where it is of a kind that is made ready.
#[cold]
#[inline(never)]
pub fn prepare(word: A64, pc: u64) -> Option<Prepared>
    ensures { IfSome result (IsReady word pc) }
{
    if let Some(prepared) = data(word) {
        return Some(prepared);
    }
    if let Some(prepared) = access(word) {
        return Some(prepared);
    }
    branch(word, pc)
}

impl Prepared {
    /// Whether it is done without a branch of the word after it.
    pub fn is_alone(&self) -> bool
        ensures { result ≡ is_none (branch_after self.now) }
    {
        match self {
            Prepared::LessNumberJump { .. } => false,
            Prepared::CompareNumberJump { .. } => false,
            Prepared::CompareJump { .. } => false,
            _ => true,
        }
    }
}

/// A number of 64 bits as one of 32, where it is one.
fn short(number: u64) -> Option<u32>
    ensures { IfSome result (λ low. low ≡ number) }
{
    if number < 1 << 32 {
        return Some(number as u32);
    }
    None
}

/// A comparison before a branch by the flags.
fn before_jump(first: Prepared, taken: u16, place: u64) -> Option<Prepared>
    ensures first { IfSome result (λ both. (s : State) → prepared_does both s ≡ prepared_does first s) }
    ensures branch { IfSome result (λ both. branch_after both ≡ Some (Prepared.JumpWhere taken place)) }
{
    match first {
        Prepared::LessNumber { rd, rn, number } => match short(number) {
            Some(number) => Some(Prepared::LessNumberJump {
                taken,
                rd,
                rn,
                number,
                place,
            }),
            None => None,
        },
        Prepared::CompareNumber { rn, number } => match short(number) {
            Some(number) => Some(Prepared::CompareNumberJump {
                taken,
                rn,
                number,
                place,
            }),
            None => None,
        },
        Prepared::Compare { rn, rm, by } => Some(Prepared::CompareJump {
            taken,
            rn,
            rm,
            by,
            place,
        }),
        _ => None,
    }
}

/// A comparison with the branch by the flags of the word after it.
pub fn with_branch(first: Prepared, branch: Prepared) -> Option<Prepared>
    ensures first { IfSome result (λ both. (s : State) → prepared_does both s ≡ prepared_does first s) }
    ensures branch { IfSome result (λ both. branch_after both ≡ Some branch) }
{
    match branch {
        Prepared::JumpWhere { taken, place } => before_jump(first, taken, place),
        _ => None,
    }
}
