//! The register that a word writes.

ghost use Rattle.std.specs.Prelude.{◌≡◌};
ghost use Rattle.std.specs.Option.{option_map};
ghost use Rattle.a64_code.specs.View.{instruction_view, byte_imm_name, byte_register_name, wide_imm_name, wide_register_name};
ghost use Rattle.machine_model.specs.Effects.{arg};
ghost use Rattle.machine_model.specs.Frames.{x_field, x_written, z_field};
ghost use Rattle.machine_model.specs.VectorEffects.{field_of};
ghost use Rattle.sve_code.specs.View as vectors;
ghost use Rattle.promises.specs.Saved.{is_written, word_writes, written_by};
ghost use Rattle.call_words.specs.Classes.{written_of};
ghost use Rattle.std.specs.Prelude.{List, ℕ};

use crate::class::Class;
use a64_code::{A64, LoadStoreByteOp, LoadStoreOp, Reg};
use sve_code::Sve;

// What a load of a byte, and no store, writes.
fn byte_loaded(op: LoadStoreByteOp, rt: Reg) -> Option<u32>
    ensures immediate { (ns : List ℕ) → arg ns 0 ≡ rt.number → result ≡ x_written (byte_imm_name op) ns }
    ensures register { (ns : List ℕ) → arg ns 0 ≡ rt.number → result ≡ x_written (byte_register_name op) ns }
{
    match op {
        LoadStoreByteOp::Ldrb | LoadStoreByteOp::Ldrsb => Some(rt.number),
        LoadStoreByteOp::Strb => None,
    }
}

// The same of more bytes.
fn wide_loaded(op: LoadStoreOp, rt: Reg) -> Option<u32>
    ensures immediate { (ns : List ℕ) → arg ns 0 ≡ rt.number → result ≡ x_written (wide_imm_name op) ns }
    ensures register { (ns : List ℕ) → arg ns 0 ≡ rt.number → result ≡ x_written (wide_register_name op) ns }
{
    match op {
        LoadStoreOp::Ldrh
        | LoadStoreOp::LdrW
        | LoadStoreOp::LdrX
        | LoadStoreOp::Ldrsh
        | LoadStoreOp::Ldrsw => Some(rt.number),
        LoadStoreOp::Strh | LoadStoreOp::StrW | LoadStoreOp::StrX => None,
    }
}

// The general register that an A64 instruction writes.
#[tactic(auto, using(crate::proofs::ScalarForms::scalar_forms))]
fn scalar_register(instruction: A64) -> Option<u32>
    ensures { result ≡ x_written (instruction_view instruction).name (instruction_view instruction).numbers }
{
    match instruction {
        A64::AddSubImmediate { rd, .. } => Some(rd.number),
        A64::AddSubShifted { rd, .. } => Some(rd.number),
        A64::LogicalShifted { rd, .. } => Some(rd.number),
        A64::MoveWide { rd, .. } => Some(rd.number),
        A64::MultiplyAdd { rd, .. } => Some(rd.number),
        A64::ShiftVariable { rd, .. } => Some(rd.number),
        A64::Bitfield { rd, .. } => Some(rd.number),
        A64::ConditionalSelect { rd, .. } => Some(rd.number),
        A64::Umov { rd, .. } => Some(rd.number),
        A64::LoadStoreByteImmediate { op, rt, .. } => byte_loaded(op, rt),
        A64::LoadStoreImmediate { op, rt, .. } => wide_loaded(op, rt),
        A64::LoadStoreByteRegister { op, rt, .. } => byte_loaded(op, rt),
        A64::LoadStoreRegister { op, rt, .. } => wide_loaded(op, rt),
        A64::Branch { .. } => None,
        A64::BranchConditional { .. } => None,
        A64::CompareBranch { .. } => None,
        A64::Ret { .. } => None,
        A64::Exception { .. } => None,
        A64::Nop => None,
    }
}

// The general register that an SVE instruction writes.
#[tactic(auto, using(crate::proofs::VectorForms::vector_forms))]
fn counted_register(instruction: Sve) -> Option<u32>
    ensures { result ≡ option_map
        (field_of (vectors.instruction_view instruction).name (vectors.instruction_view instruction).numbers)
        (x_field (vectors.instruction_view instruction).name) }
{
    match instruction {
        Sve::ElementCount { rd, .. } => Some(rd.number),
        Sve::Incp { rd, .. } => Some(rd.number),
        Sve::Cntp { rd, .. } => Some(rd.number),
        _ => None,
    }
}

// The vector register that an SVE instruction writes.
#[tactic(auto, using(crate::proofs::VectorForms::vector_forms))]
fn vector_register(instruction: Sve) -> Option<u32>
    ensures { result ≡ option_map
        (field_of (vectors.instruction_view instruction).name (vectors.instruction_view instruction).numbers)
        (z_field (vectors.instruction_view instruction).name) }
{
    match instruction {
        Sve::DupScalar { zd, .. } => Some(zd.number),
        Sve::IndexScalarImmediate { zd, .. } => Some(zd.number),
        Sve::Sel { zd, .. } => Some(zd.number),
        Sve::AddSub { zd, .. } => Some(zd.number),
        Sve::Bitwise { zd, .. } => Some(zd.number),
        Sve::ShiftImmediate { zd, .. } => Some(zd.number),
        Sve::BinaryPredicated { zdn, .. } => Some(zdn.number),
        Sve::UnaryPredicated { zd, .. } => Some(zd.number),
        Sve::ExtendByte { zd, .. } => Some(zd.number),
        Sve::ExtendHalfword { zd, .. } => Some(zd.number),
        Sve::ExtendWord { zd, .. } => Some(zd.number),
        Sve::Reduction { zd, .. } => Some(zd.number),
        Sve::ContiguousLoad { zt, .. } => Some(zt.number),
        Sve::FirstFaultLoad { zt, .. } => Some(zt.number),
        Sve::NonFaultLoad { zt, .. } => Some(zt.number),
        Sve::GatherLoad { zt, .. } => Some(zt.number),
        Sve::Ptrue { .. }
        | Sve::Pfalse { .. }
        | Sve::Whilelo { .. }
        | Sve::Ptest { .. }
        | Sve::PredicateLogical { .. }
        | Sve::Break { .. }
        | Sve::Rdffr { .. }
        | Sve::RdffrPredicated { .. }
        | Sve::Setffr
        | Sve::Wrffr { .. }
        | Sve::ElementCount { .. }
        | Sve::Incp { .. }
        | Sve::Cntp { .. }
        | Sve::CompareVectors { .. }
        | Sve::ContiguousStore { .. } => None,
    }
}

// The register of a class that the instruction of a word writes.
fn written(class: Class, word: u32) -> Option<u32>
    ensures { result ≡ written_by (written_of class) word }
{
    if let Some(found) = a64_code::decode(word) {
        return match class {
            Class::General => scalar_register(found),
            Class::Vector => None,
        };
    }
    match sve_decode::decode(word) {
        Some(found) => match class {
            Class::General => counted_register(found),
            Class::Vector => vector_register(found),
        },
        None => None,
    }
}

// Whether a word writes a register of a class.
fn writes(class: Class, register: u32, word: u32) -> bool
    ensures { result ≡ word_writes (written_of class) register word }
{
    match written(class, word) {
        Some(number) => number == register,
        None => false,
    }
}

/// Whether some word writes a register of a class.
pub fn is_written(class: Class, register: u32, words: &[u32]) -> bool
    ensures { result ≡ is_written (written_of class) register words.now }
{
    for word in words {
        if writes(class, register, *word) {
            return true;
        }
    }
    false
}
