//! SVE instructions of the machine.

ghost use Rattle.std.specs.Prelude.{◌≡◌, true};
ghost use Rattle.guest_types.specs.Memory.{Memory};
ghost use Rattle.sve_code.specs.View.{instruction_view};
ghost use Rattle.a64_machine.specs.Cores.{state_of, said};
ghost use Rattle.a64_machine.specs.declared.core_state.Core.{Core as CoreOf};
ghost use Rattle.machine_model.specs.InstructionTable.{Vector};
ghost use Rattle.machine_model.specs.Machine.{Went};
ghost use Rattle.machine_model.specs.OneStep.{does};
ghost use Rattle.machine_model.specs.Answers.{IsAnswer};
ghost use Rattle.sve_machine.specs.Kinds.{IsExtension, IsOnActive, IsOnLanes, IsOnRegisters};
ghost use Rattle.sve_machine.specs.Rows.{RowLeaves};

use crate::memory::{
    GatherOperands, LoadOperands, StoreOperands, contiguous_load, contiguous_store,
    first_fault_load, gather_load, non_fault_load,
};
use crate::predicates::{CompareOperands, LogicOperands};
use crate::vectors::Vectors;
use crate::{lanes, predicates};
use a64_machine::Core;
use machine_model::outcome::Step;
use paged_memory::pages::Pages;
use sve_code::Sve;

/// One SVE instruction: whether it goes on, or else its answer.
#[inline(always)]
pub fn vector_goes(
    core: &mut Core,
    pages: &mut Pages,
    vectors: &mut Vectors,
    word: Sve,
    answer: &mut Step,
) -> bool
    ensures answer { let before = state_of core.old pages.old.memory vectors.old in
        IsAnswer (does (Vector (instruction_view word)) before) (said result answer.new) before
        (state_of core.new pages.new.memory vectors.new) }
    ensures past { pages.new.past ≡ pages.old.past }
{
    match word {
        Sve::ContiguousLoad {
            zt,
            rn,
            pg,
            offset,
            dtype,
        } => {
            let operands = LoadOperands { zt, rn, pg, dtype };
            contiguous_load(core, pages, vectors, operands, offset, answer)
        }
        Sve::FirstFaultLoad {
            zt,
            rn,
            pg,
            rm,
            dtype,
        } => {
            let operands = LoadOperands { zt, rn, pg, dtype };
            first_fault_load(core, pages, vectors, operands, rm, answer)
        }
        Sve::NonFaultLoad { zt, rn, pg, dtype } => {
            let operands = LoadOperands { zt, rn, pg, dtype };
            non_fault_load(core, pages, vectors, operands, answer)
        }
        Sve::GatherLoad { op, zt, rn, pg, zm } => {
            let operands = GatherOperands { op, zt, rn, pg, zm };
            gather_load(core, pages, vectors, operands, answer)
        }
        Sve::ContiguousStore {
            zt,
            rn,
            pg,
            offset,
            sizes,
        } => {
            let operands = StoreOperands { zt, rn, pg, sizes };
            contiguous_store(core, pages, vectors, operands, offset, answer)
        }
        _ => in_registers(core, vectors, word),
    }
}

// An instruction that is no load and no store, and on to the next word.
#[inline(always)]
fn in_registers(core: &mut Core, vectors: &mut Vectors, word: Sve) -> bool
    ensures goes_on { result ≡ true }
    ensures went { (memory : Memory) → IsOnRegisters word →
        does (Vector (instruction_view word)) (state_of core.old memory vectors.old)
        ≡ Went (state_of core.new memory vectors.new) }
{
    on_registers(core, vectors, word);
    core.go_on();
    true
}

// An instruction that is no load and no store. PC is raised after it.
#[inline(always)]
fn on_registers(core: &mut Core, vectors: &mut Vectors, word: Sve)
    ensures { IsOnRegisters word → RowLeaves word core.old vectors.old core.new vectors.new }
{
    match word {
        Sve::Ptrue { pd, size } => predicates::all_true(vectors, pd, size),
        Sve::Pfalse { pd } => predicates::all_false(vectors, pd),
        Sve::Whilelo { pd, rn, rm, size } => {
            predicates::while_below(core, vectors, pd, rn, rm, size)
        }
        Sve::Ptest { pn, pg } => predicates::test(core, vectors, pn, pg),
        Sve::PredicateLogical { op, pd, pn, pg, pm } => {
            predicates::logic(core, vectors, pd, LogicOperands { op, pn, pg, pm })
        }
        Sve::Break { op, pd, pn, pg } => predicates::break_at(vectors, op, pd, pn, pg),
        Sve::Rdffr { pd } => predicates::read_ffr(vectors, pd),
        Sve::RdffrPredicated { pd, pg } => predicates::read_ffr_under(vectors, pd, pg),
        Sve::Setffr => predicates::set_ffr(vectors),
        Sve::Wrffr { pn } => predicates::write_ffr(vectors, pn),
        Sve::ElementCount { op, rd } => predicates::count_elements(core, vectors, op, rd),
        Sve::Incp { rd, pm, size } => {
            predicates::increment_by_count(core, vectors, rd, pm, size)
        }
        Sve::Cntp { rd, pn, pg, size } => {
            predicates::count_true(core, vectors, rd, pn, pg, size)
        }
        Sve::CompareVectors {
            op,
            pd,
            zn,
            pg,
            zm,
            size,
        } => predicates::compare(core, vectors, pd, size, CompareOperands { op, zn, pg, zm }),
        _ => on_lanes(core, vectors, word),
    }
}

// An instruction that computes a vector register.
#[inline(always)]
fn on_lanes(core: &Core, vectors: &mut Vectors, word: Sve)
    ensures { IsOnLanes word → RowLeaves word core.now vectors.old core.now vectors.new }
{
    match word {
        Sve::DupScalar { zd, rn, size } => lanes::duplicate(core, vectors, zd, rn, size),
        Sve::IndexScalarImmediate { zd, rn, imm5, size } => {
            lanes::index(core, vectors, zd, rn, imm5, size)
        }
        Sve::Sel {
            zd,
            zn,
            pg,
            zm,
            size,
        } => lanes::select(vectors, zd, zn, pg, zm, size),
        Sve::AddSub {
            op,
            zd,
            zn,
            zm,
            size,
        } => lanes::add_sub(vectors, op, zd, zn, zm, size),
        Sve::Bitwise { op, zd, zn, zm } => lanes::bitwise(vectors, op, zd, zn, zm),
        Sve::ShiftImmediate { op, zd, zn, amount } => lanes::shift(vectors, op, zd, zn, amount),
        _ => on_active(vectors, word),
    }
}

// An instruction that computes the active elements of a vector register.
#[inline(always)]
fn on_active(vectors: &mut Vectors, word: Sve)
    ensures { (core : CoreOf) → IsOnActive word → RowLeaves word core vectors.old core vectors.new }
{
    match word {
        Sve::BinaryPredicated {
            op,
            zdn,
            zm,
            pg,
            size,
        } => lanes::merging(vectors, op, zdn, zm, pg, size),
        Sve::UnaryPredicated {
            op,
            zd,
            zn,
            pg,
            size,
        } => lanes::unary(vectors, op, zd, zn, pg, size),
        Sve::Reduction {
            op,
            zd,
            zn,
            pg,
            size,
        } => lanes::reduction(vectors, op, zd, zn, pg, size),
        _ => extend(vectors, word),
    }
}

// An instruction that extends a part of each active element.
#[inline(always)]
fn extend(vectors: &mut Vectors, word: Sve)
    ensures { (core : CoreOf) → IsExtension word → RowLeaves word core vectors.old core vectors.new }
{
    match word {
        Sve::ExtendByte {
            op,
            zd,
            zn,
            pg,
            size,
        } => lanes::extend_byte(vectors, op, zd, zn, pg, size),
        Sve::ExtendHalfword {
            op,
            zd,
            zn,
            pg,
            size,
        } => lanes::extend_halfword(vectors, op, zd, zn, pg, size),
        Sve::ExtendWord { op, zd, zn, pg } => lanes::extend_word(vectors, op, zd, zn, pg),
        _ => {}
    }
}
