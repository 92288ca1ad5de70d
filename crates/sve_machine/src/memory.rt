//! Vector loads and stores.

ghost use Rattle.std.specs.Prelude.{◌≡◌, slice_index};
ghost use Rattle.sve_code.specs.Numbers.{dtype_number, size_number};
ghost use Rattle.sve_code.specs.View.{instruction_view};
ghost use Rattle.sve_code.specs.declared.Sve.{Sve};
ghost use Rattle.machine_model.specs.Answers.{IsAnswer};
ghost use Rattle.machine_model.specs.Machine.{x_or_sp};
ghost use Rattle.machine_model.specs.VectorEffects.{do_vector};
ghost use Rattle.guest_types.specs.declared.length.Width.TheVariants.{D};
ghost use Rattle.guest_types.specs.LaneMemory.{load_form};
ghost use Rattle.lane_memory.specs.Loads.{load_of};
ghost use Rattle.lane_memory.specs.Gathers.{gather_of};
ghost use Rattle.a64_machine.specs.Cores.{state_of, said};
ghost use Rattle.sve_machine.specs.VectorStates.{p_of, put_load, z_of};
ghost use Rattle.sve_machine.specs.Rows.{after_load, gather_dtype};

use crate::vectors::Vectors;
use a64_machine::{Core, refused};
use guest_types::row::{LoadMode, LoadRow, StoreRow};
use lane_memory::load::LoadFrom;
use lane_memory::store::store;
use machine_model::outcome::{Step, StopKind};
use paged_memory::pages::Pages;
use sve_code::{Dtype, GatherOp, GoverningReg, OffsetReg, Reg, StoreSizes, VectorReg};

/// What a load of consecutive elements names: the register, the base, the mask and the form.
#[derive(Clone, Copy)]
pub struct LoadOperands {
    pub zt: VectorReg,
    pub rn: Reg,
    pub pg: GoverningReg,
    pub dtype: Dtype,
}

/// What a gather names: its form, the register, the base, the mask and the register of offsets.
#[derive(Clone, Copy)]
pub struct GatherOperands {
    pub op: GatherOp,
    pub zt: VectorReg,
    pub rn: Reg,
    pub pg: GoverningReg,
    pub zm: VectorReg,
}

/// What a store names: the register, the base, the mask and the form.
#[derive(Clone, Copy)]
pub struct StoreOperands {
    pub zt: VectorReg,
    pub rn: Reg,
    pub pg: GoverningReg,
    pub sizes: StoreSizes,
}

// The form of a load.
#[inline(always)]
fn load_row(dtype: Dtype) -> LoadRow
    ensures { result.dtype ≡ dtype_number dtype }
{
    LoadRow {
        dtype: dtype as u32,
    }
}

// The form of a store.
#[inline(always)]
fn store_row(sizes: StoreSizes) -> StoreRow
    ensures msz { result.msz ≡ size_number sizes.msz }
    ensures size { result.size ≡ size_number sizes.size }
{
    StoreRow {
        msz: sizes.msz as u32,
        size: sizes.size as u32,
    }
}

// The general register of an offset.
#[inline(always)]
fn offset_of(core: &Core, offset: OffsetReg) -> u64
    ensures { result ≡ slice_index core.now.x offset.number }
{
    core.x[offset.number as usize]
}

// A load in one of its modes, from a base with an index in elements.
#[inline(never)]
fn load(
    core: &mut Core,
    pages: &Pages,
    vectors: &mut Vectors,
    operands: LoadOperands,
    load: &LoadFrom,
    answer: &mut Step,
) -> bool
    ensures { let r = vectors.old in
        IsAnswer
        (after_load (put_load (load_of load.now.mode load.now.row.dtype load.now.base load.now.index
        r.vl pages.now.memory r.stops (p_of r operands.pg.number) r.ffr) operands.zt.number r)
        core.old pages.now.memory)
        (said result answer.new) (state_of core.old pages.now.memory r)
        (state_of core.new pages.now.memory vectors.new) }
{
    match vectors.load(pages, load, operands.zt.number, operands.pg.number) {
        Ok(()) => {
            core.go_on();
            true
        }
        Err(fault) => refused(core, StopKind::Read, fault, answer),
    }
}

/// "LD1B (scalar plus scalar)" and its like for all memory accesses.
pub fn contiguous_load(
    core: &mut Core,
    pages: &Pages,
    vectors: &mut Vectors,
    operands: LoadOperands,
    offset: OffsetReg,
    answer: &mut Step,
) -> bool
    ensures { let o = operands in
        let before = state_of core.old pages.now.memory vectors.old in
        IsAnswer (do_vector (instruction_view (Sve.ContiguousLoad o.zt o.rn o.pg offset o.dtype)) before)
        (said result answer.new) before (state_of core.new pages.now.memory vectors.new) }
{
    let mode = LoadMode::Plain;
    let row = load_row(operands.dtype);
    let base = core.register_or_sp(operands.rn);
    let index = offset_of(core, offset);
    let from = LoadFrom {
        mode,
        row,
        base,
        index,
    };
    load(core, pages, vectors, operands, &from, answer)
}

/// "LDFF1B (scalar plus scalar)" and its like.
pub fn first_fault_load(
    core: &mut Core,
    pages: &Pages,
    vectors: &mut Vectors,
    operands: LoadOperands,
    rm: Reg,
    answer: &mut Step,
) -> bool
    ensures { let o = operands in
        let before = state_of core.old pages.now.memory vectors.old in
        IsAnswer (do_vector (instruction_view (Sve.FirstFaultLoad o.zt o.rn o.pg rm o.dtype)) before)
        (said result answer.new) before (state_of core.new pages.now.memory vectors.new) }
{
    let mode = LoadMode::FirstFault;
    let row = load_row(operands.dtype);
    let base = core.register_or_sp(operands.rn);
    let index = core.register(rm);
    let from = LoadFrom {
        mode,
        row,
        base,
        index,
    };
    load(core, pages, vectors, operands, &from, answer)
}

/// "LDNF1B" and its like.
pub fn non_fault_load(
    core: &mut Core,
    pages: &Pages,
    vectors: &mut Vectors,
    operands: LoadOperands,
    answer: &mut Step,
) -> bool
    ensures { let o = operands in
        let before = state_of core.old pages.now.memory vectors.old in
        IsAnswer (do_vector (instruction_view (Sve.NonFaultLoad o.zt o.rn o.pg o.dtype)) before)
        (said result answer.new) before (state_of core.new pages.now.memory vectors.new) }
{
    let mode = LoadMode::NonFault;
    let row = load_row(operands.dtype);
    let base = core.register_or_sp(operands.rn);
    let from = LoadFrom {
        mode,
        row,
        base,
        index: 0,
    };
    load(core, pages, vectors, operands, &from, answer)
}

// The form in which a gather reads.
#[inline(always)]
fn gather_row(op: GatherOp) -> LoadRow
    ensures dtype { result.dtype ≡ gather_dtype op }
    ensures wide { (load_form result.dtype).element ≡ D }
{
    let dtype = match op {
        GatherOp::Ld1b => 3,
        GatherOp::Ld1h => 7,
        GatherOp::Ld1w => 11,
        GatherOp::Ld1d => 15,
        GatherOp::Ld1sb => 12,
        GatherOp::Ld1sh => 8,
        GatherOp::Ld1sw => 4,
    };
    LoadRow { dtype }
}

// A gather from a base.
#[inline(never)]
fn gather(
    core: &mut Core,
    pages: &Pages,
    vectors: &mut Vectors,
    operands: GatherOperands,
    row: LoadRow,
    base: u64,
    answer: &mut Step,
) -> bool
    requires wide { (load_form row.dtype).element ≡ D }
    ensures { let r = vectors.old in
        IsAnswer
        (after_load (put_load (gather_of row.dtype base r.vl pages.now.memory r.stops (z_of r operands.zm.number)
        (p_of r operands.pg.number) r.ffr) operands.zt.number r) core.old pages.now.memory)
        (said result answer.new) (state_of core.old pages.now.memory r)
        (state_of core.new pages.now.memory vectors.new) }
{
    let GatherOperands { zt, zm, pg, .. } = operands;
    match vectors.gather(pages, row, base, zm.number, zt.number, pg.number) {
        Ok(()) => {
            core.go_on();
            true
        }
        Err(fault) => refused(core, StopKind::Read, fault, answer),
    }
}

/// "LD1B (scalar plus vector)" and its like.
pub fn gather_load(
    core: &mut Core,
    pages: &Pages,
    vectors: &mut Vectors,
    operands: GatherOperands,
    answer: &mut Step,
) -> bool
    ensures { let o = operands in
        let before = state_of core.old pages.now.memory vectors.old in
        IsAnswer (do_vector (instruction_view (Sve.GatherLoad o.op o.zt o.rn o.pg o.zm)) before)
        (said result answer.new) before (state_of core.new pages.now.memory vectors.new) }
{
    let base = core.register_or_sp(operands.rn);
    let row = gather_row(operands.op);
    gather(core, pages, vectors, operands, row, base, answer)
}

/// "ST1B (scalar plus scalar)" and its like. A stop leaves its lower active elements written.
#[inline(never)]
pub fn contiguous_store(
    core: &mut Core,
    pages: &mut Pages,
    vectors: &Vectors,
    operands: StoreOperands,
    offset: OffsetReg,
    answer: &mut Step,
) -> bool
    ensures answer { let o = operands in
        let before = state_of core.old pages.old.memory vectors.now in
        IsAnswer (do_vector (instruction_view (Sve.ContiguousStore o.zt o.rn o.pg offset o.sizes)) before)
        (said result answer.new) before (state_of core.new pages.new.memory vectors.now) }
    ensures past { pages.new.past ≡ pages.old.past }
{
    let base = core.register_or_sp(operands.rn);
    let index = offset_of(core, offset);
    let row = store_row(operands.sizes);
    let vl = vectors.vl();
    let mask = vectors.p(operands.pg.number);
    let z = vectors.z(operands.zt.number);
    match store(pages, row, base, index, vl, mask, z) {
        Ok(()) => {
            core.go_on();
            true
        }
        Err(fault) => refused(core, StopKind::Write, fault, answer),
    }
}
