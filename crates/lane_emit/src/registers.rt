//! The registers of a loop's values.

ghost use Rattle.std.specs.Prelude.{◌≡◌, ◌+◌, ◌-◌, length, slice_get, is_some};
ghost use Rattle.reg_assign.specs.declared.interval.RegClass.TheVariants as class;
ghost use Rattle.reg_assign.specs.Registers.{IsAssignment};
ghost use Rattle.loop_form.specs.declared.loop_item.Operand.TheVariants as operand;
ghost use Rattle.loop_form.specs.HeldView.{view_of};
ghost use Rattle.loop_form.specs.Needs as needs;
ghost use Rattle.loop_form.specs.Registers.{FitsKernel};
ghost use Rattle.loop_form.specs.View.{program};
ghost use Rattle.lane_emit.specs.LoopRegisters.{IsWithin, flat, register_of, place_in, held_place, sum_place, operand_register};
ghost use Rattle.label_fix.specs.Registers.{first_condition_register, scratch_vector};

use crate::held_place::place_among;
use label_fix::registers::{FIRST_CONDITION_REGISTER, SCRATCH_VECTOR};
use loop_form::{Held, LoopFacts, Operand};
use reg_assign::{Assigned, VectorRegs};
use sve_code::{GoverningReg, VectorReg};
use word_rows::Bits;

/// The vector and predicate registers of a loop's values: those that its intervals were given.
#[derive(Drop)]
pub struct LaneRegisters<'a> {
    pub facts: &'a LoopFacts<'a>,
    pub regs: &'a VectorRegs,
    pub ghost vectors: { FitsKernel (program facts.now.kernel.now) class.Z regs.now.z },
    pub ghost predicates: { FitsKernel (program facts.now.kernel.now) class.P regs.now.p },
}

// ---- by the place of an interval

// The place of an item's interval.
fn place_of_item(places: &[Option<u32>], first: u32, item: u32) -> Option<usize>
    ensures { result ≡ flat (slice_get places.now (item - first)) }
{
    let number = item.saturating_sub(first) as usize;
    let place = places.get(number).copied().flatten()?;
    Some(place as usize)
}

// The vector register of an interval.
fn vector_at(regs: &Assigned, place: Option<usize>) -> VectorReg
    requires assigned { IsAssignment 30 regs.now }
    requires within { IsWithin (length regs.now.registers) place }
    ensures { result.number ≡ register_of scratch_vector regs.now place }
{
    match place {
        None => SCRATCH_VECTOR,
        Some(place) => Bits {
            number: regs.register(place),
        },
    }
}

// The predicate register of an interval, of those after P0 and P1.
fn predicate_at(regs: &Assigned, place: Option<usize>) -> GoverningReg
    requires assigned { IsAssignment 6 regs.now }
    requires within { IsWithin (length regs.now.registers) place }
    ensures { result.number ≡ first_condition_register + register_of 0 regs.now place }
{
    match place {
        None => FIRST_CONDITION_REGISTER,
        Some(place) => Bits {
            number: FIRST_CONDITION_REGISTER.number + regs.register(place),
        },
    }
}

impl<'a> LaneRegisters<'a> {
    ghost use Rattle.lane_emit.specs.RegistersView.{kernel_in, vectors_in, registers_of};

    // The vector register of what is held throughout.
    fn held_register(&self, wanted: Held<'_>) -> VectorReg
        ensures { let place = place_in (view_of wanted.entry) (needs.throughout (kernel_in self.now) class.Z) in
            result.number ≡ register_of scratch_vector (vectors_in self.now) place }
    {
        let place = place_among(&self.facts.held, wanted);
        vector_at(&self.regs.z, place)
    }

    // The vector register of a parameter.
    #[tactic(auto, unfolding(loop_form::specs::View::program))]
    fn param(&self, place: u32) -> VectorReg
        ensures { result.number ≡ operand_register (kernel_in self.now) (vectors_in self.now) (operand.Outer place) }
    {
        match self.facts.kernel.kernel().params.get(place as usize) {
            None => SCRATCH_VECTOR,
            Some(param) => self.held_register(Held::Scalar(param.name.text())),
        }
    }

    /// The vector register of an item's value.
    pub fn z(&self, item: u32) -> VectorReg
        ensures { result.number ≡ (registers_of self.now).z item }
    {
        let place = place_of_item(&self.facts.values, self.facts.first, item);
        vector_at(&self.regs.z, place)
    }

    /// The predicate register of an item's condition. All of them can govern.
    pub fn p(&self, item: u32) -> GoverningReg
        ensures { result.number ≡ (registers_of self.now).p item }
    {
        let place = place_of_item(&self.facts.truths, self.facts.first, item);
        predicate_at(&self.regs.p, place)
    }

    /// The vector register of an operand.
    pub fn source(&self, source: Operand) -> VectorReg
        ensures { result.number ≡ (registers_of self.now).source source }
    {
        match source {
            Operand::Constant(ty, number) => self.held_register(Held::Constant(ty, number)),
            Operand::Outer(place) => self.param(place),
            Operand::LoopIndex => self.held_register(Held::Index),
            Operand::Made(item) => self.z(item),
        }
    }

    /// The vector register of an accumulator that the loop updates.
    pub fn sum(&self, name: &str) -> VectorReg
        ensures { result.number ≡ register_of scratch_vector (vectors_in self.now) (sum_place (kernel_in self.now) name.now) }
    {
        self.held_register(Held::Accumulating(name))
    }

    /// Whether the loop variable has a register.
    pub fn is_index_held(&self) -> bool
        ensures { result ≡ is_some (held_place (kernel_in self.now) operand.LoopIndex) }
    {
        place_among(&self.facts.held, Held::Index).is_some()
    }
}

/// The registers of a kernel's loop, by those that its intervals were given.
pub fn lane_registers<'a>(facts: &'a LoopFacts<'a>, regs: &'a VectorRegs) -> LaneRegisters<'a>
    requires vectors { FitsKernel (program facts.now.kernel.now) class.Z regs.now.z }
    requires predicates { FitsKernel (program facts.now.kernel.now) class.P regs.now.p }
    ensures facts { result.facts.now ≡ facts.now }
    ensures regs { result.regs.now ≡ regs.now }
{
    LaneRegisters { facts, regs }
}
