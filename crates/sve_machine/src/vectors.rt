//! The vector registers of the machine.

ghost use Rattle.std.specs.Prelude.{◌≡◌, ◌<◌, Ok, Err, IfErr, OnOk, OnErr};
ghost use Rattle.guest_types.specs.Elements.{element};
ghost use Rattle.guest_types.specs.Length.{IsLength};
ghost use Rattle.machine_model.specs.States.{IsVector, IsPredicate};

use guest_types::length::{Vl, Width};
use guest_types::memory::AccessFault;
use guest_types::operation::{LaneOp, LaneUnary, ShiftOp};
use guest_types::predicate::PReg;
use guest_types::register::ZReg;
use guest_types::row::LoadRow;
use lane_arith::bank::{binary_in, merge_in, merge_one_in, select_in, shift_in};
use lane_arith::fill::{dup_into, index_into};
use lane_blocks::shape::Shape;
use lane_memory::gather::gather_into;
use lane_memory::load::{LoadFrom, load_into};
use lane_memory::suppress::Suppress;
use lane_preds::test::is_all_true;
use paged_memory::pages::Pages;
use std::marker::Model;

/// Z0 to Z31, P0 to P15 and FFR. What lies past the vector length is zero.
#[derive(Drop)]
pub struct Vectors {
    z: [ZReg; 32],
    p: [PReg; 16],
    ffr: PReg,
    vl: Vl,
    stops: Suppress,
}

impl Model for Vectors {
    ghost use Rattle.a64_machine.specs.Cores.{VectorState};
    ghost use Rattle.sve_machine.specs.VectorStates.{vector_state_of, IsVectorState};

    ghost Value = { VectorState };

    ghost view = { λ v. vector_state_of v.z v.p v.ffr v.vl v.stops };

    ghost invariant = { λ v. IsVectorState (vector_state_of v.z v.p v.ffr v.vl v.stops) };
}

impl Vectors {
    ghost use Rattle.sve_machine.specs.VectorStates.{IsVectorState, zeros, z_of, p_of, put_z, put_p, put_ffr, put_lanes};
    ghost use Rattle.guest_types.specs.Length.{width_bits};
    ghost use Rattle.guest_types.specs.Lanes.{ShiftFits, source_bits, binary_at, merge_at, merge_one_at, shift_at, select_at, dup_at, index_at};
    ghost use Rattle.std.specs.Int.{w64, cast_unsigned};
    ghost use Rattle.guest_types.specs.declared.length.Width.TheVariants.{D};
    ghost use Rattle.guest_types.specs.LaneMemory.{load_form};
    ghost use Rattle.lane_memory.specs.Loads.{load_of};
    ghost use Rattle.lane_memory.specs.Gathers.{gather_of};
    ghost use Rattle.sve_machine.specs.VectorStates.{put_load};

    /// Registers of zeros, and a stop list.
    pub fn new(vl: Vl, stops: Suppress) -> Vectors
        ensures { result ≡ zeros vl stops }
    {
        // This call tells the proof that the length is a valid one.
        let _bits = vl.bits();
        Vectors {
            z: [ZReg { bytes: [0; 256] }; 32],
            p: [PReg { bits: [0; 32] }; 16],
            ffr: PReg { bits: [0; 32] },
            vl,
            stops,
        }
    }

    /// The same registers once more.
    pub fn copy(&self) -> Vectors
        ensures { result ≡ self.now }
    {
        Vectors {
            z: self.z,
            p: self.p,
            ffr: self.ffr,
            vl: self.vl,
            stops: self.stops.copy(),
        }
    }

    /// The vector length.
    #[inline(always)]
    pub fn vl(&self) -> Vl
        ensures value { result ≡ self.now.vl }
        ensures sized { IsLength self.now.vl }
    {
        self.vl
    }

    /// A vector register.
    #[inline(always)]
    pub fn z(&self, n: u32) -> &ZReg
        requires { n < 32 }
        ensures value { result.now.bytes ≡ z_of self.now n }
        ensures shape { IsVector self.now.vl result.now.bytes }
        ensures sized { IsLength self.now.vl }
    {
        &self.z[n as usize]
    }

    /// A predicate register.
    #[inline(always)]
    pub fn p(&self, n: u32) -> &PReg
        requires { n < 16 }
        ensures value { result.now.bits ≡ p_of self.now n }
        ensures shape { IsPredicate self.now.vl result.now.bits }
        ensures sized { IsLength self.now.vl }
    {
        &self.p[n as usize]
    }

    /// The first-fault register.
    #[inline(always)]
    pub fn ffr(&self) -> &PReg
        ensures value { result.now.bits ≡ self.now.ffr }
        ensures shape { IsPredicate self.now.vl result.now.bits }
        ensures sized { IsLength self.now.vl }
    {
        &self.ffr
    }

    /// Writes a vector register.
    #[inline(always)]
    pub fn set_z(&mut self, n: u32, register: &ZReg)
        requires number { n < 32 }
        requires shape { IsVector self.old.vl register.now.bytes }
        ensures { self.new ≡ put_z self.old n register.now.bytes }
    {
        self.z[n as usize] = *register;
    }

    /// Writes a predicate register.
    #[inline(always)]
    pub fn set_p(&mut self, n: u32, register: &PReg)
        requires number { n < 16 }
        requires shape { IsPredicate self.old.vl register.now.bits }
        ensures { self.new ≡ put_p self.old n register.now.bits }
    {
        self.p[n as usize] = *register;
    }

    /// Writes the first-fault register.
    #[inline(always)]
    pub fn set_ffr(&mut self, register: &PReg)
        requires { IsPredicate self.old.vl register.now.bits }
        ensures { self.new ≡ put_ffr self.old register.now.bits }
    {
        self.ffr = *register;
    }

    /// Doubleword 0 of a vector register.
    #[cold]
    #[inline(never)]
    pub fn doubleword(&self, n: u32) -> u64
        requires { n < 32 }
        ensures { result ≡ element 8 (z_of self.now n) 0 }
    {
        self.z(n).element(Width::D, 0)
    }

    /// An operation of two vector registers, into one.
    pub fn binary(&mut self, op: LaneOp, width: Width, zd: u32, zn: u32, zm: u32)
        requires zd { zd < 32 }
        requires zn { zn < 32 }
        requires zm { zm < 32 }
        ensures { self.new ≡ put_lanes self.old zd width (binary_at op width (z_of self.old zn) (z_of self.old zm)) }
    {
        let (left, right, out) = (zn as usize, zm as usize, zd as usize);
        let shape = Shape { width, vl: self.vl };
        binary_in(op, shape, &mut self.z, left, right, out);
    }

    /// An operation of the active elements of two vector registers, into the first of them.
    pub fn merge(&mut self, op: LaneOp, width: Width, pg: u32, zdn: u32, zm: u32)
        requires pg { pg < 16 }
        requires zdn { zdn < 32 }
        requires zm { zm < 32 }
        ensures { self.new ≡ put_lanes self.old zdn width
            (merge_at op width (p_of self.old pg) (z_of self.old zdn) (z_of self.old zm)) }
    {
        let mask = &self.p[pg as usize];
        if is_all_true(width, self.vl, mask) {
            self.binary(op, width, zdn, zdn, zm);
            return;
        }
        let (right, out) = (zm as usize, zdn as usize);
        let shape = Shape { width, vl: self.vl };
        merge_in(op, shape, mask, &mut self.z, right, out);
    }

    /// An operation of the active elements of a vector register, into another one.
    pub fn merge_one(&mut self, op: LaneUnary, width: Width, pg: u32, zd: u32, zn: u32)
        requires narrower { source_bits op < width_bits width }
        requires pg { pg < 16 }
        requires zd { zd < 32 }
        requires zn { zn < 32 }
        ensures { self.new ≡ put_lanes self.old zd width
            (merge_one_at op width (p_of self.old pg) (z_of self.old zd) (z_of self.old zn)) }
    {
        let mask = &self.p[pg as usize];
        let (z, out) = (zn as usize, zd as usize);
        let shape = Shape { width, vl: self.vl };
        merge_one_in(op, shape, mask, &mut self.z, z, out);
    }

    /// A shift of a vector register, into another one.
    pub fn shift(&mut self, op: ShiftOp, width: Width, zd: u32, zn: u32, count: u32)
        requires fits { ShiftFits op width count }
        requires zd { zd < 32 }
        requires zn { zn < 32 }
        ensures { self.new ≡ put_lanes self.old zd width (shift_at op width (z_of self.old zn) count) }
    {
        let (z, out) = (zn as usize, zd as usize);
        let shape = Shape { width, vl: self.vl };
        shift_in(op, shape, &mut self.z, z, count, out);
    }

    /// The same number in each element of a vector register.
    pub fn duplicate(&mut self, width: Width, zd: u32, value: u64)
        requires { zd < 32 }
        ensures { self.new ≡ put_lanes self.old zd width (dup_at value) }
    {
        dup_into(width, self.vl, value, &mut self.z[zd as usize]);
    }

    /// A number in the first element of a vector register, and in each other one `by` more than in the one before.
    pub fn index(&mut self, width: Width, zd: u32, from: u64, by: i32)
        requires { zd < 32 }
        ensures { self.new ≡ put_lanes self.old zd width (index_at from (cast_unsigned w64 by)) }
    {
        index_into(width, self.vl, from, by, &mut self.z[zd as usize]);
    }

    /// The active elements of a vector register, and the others of another one.
    pub fn select(&mut self, width: Width, pg: u32, zd: u32, zn: u32, zm: u32)
        requires pg { pg < 16 }
        requires zd { zd < 32 }
        requires zn { zn < 32 }
        requires zm { zm < 32 }
        ensures { self.new ≡ put_lanes self.old zd width
            (select_at width (p_of self.old pg) (z_of self.old zn) (z_of self.old zm)) }
    {
        let mask = &self.p[pg as usize];
        let (yes, no, out) = (zn as usize, zm as usize, zd as usize);
        let shape = Shape { width, vl: self.vl };
        select_in(shape, mask, &mut self.z, yes, no, out);
    }

    /// Loads a vector register under a predicate register: LD1, LDFF1 or LDNF1 by the mode.
    pub fn load(
        &mut self,
        pages: &Pages,
        load: &LoadFrom,
        zt: u32,
        pg: u32,
    ) -> Result<(), AccessFault>
        requires register { zt < 32 }
        requires predicate { pg < 16 }
        ensures done { let l = load.now in
            let left = load_of l.mode l.row.dtype l.base l.index self.old.vl pages.now.memory self.old.stops
            (p_of self.old pg) self.old.ffr in
            OnOk result (put_load left zt self.old ≡ Ok self.new) }
        ensures refused { let l = load.now in
            let left = load_of l.mode l.row.dtype l.base l.index self.old.vl pages.now.memory self.old.stops
            (p_of self.old pg) self.old.ffr in
            IfErr result (λ fault. put_load left zt self.old ≡ Err fault) }
        ensures unchanged { OnErr result (self.new ≡ self.old) }
    {
        let mask = &self.p[pg as usize];
        load_into(
            pages,
            load,
            self.vl,
            mask,
            &mut self.ffr,
            &mut self.stops,
            &mut self.z[zt as usize],
        )?;
        Ok(())
    }

    // What a gather reads, before a register holds it.
    #[inline(always)]
    fn gathered(
        &self,
        pages: &Pages,
        row: LoadRow,
        base: u64,
        zm: u32,
        pg: u32,
        out: &mut ZReg,
    ) -> Result<(), AccessFault>
        requires wide { (load_form row.dtype).element ≡ D }
        requires offsets { zm < 32 }
        requires predicate { pg < 16 }
        ensures done { let own = self.now in
            let left = gather_of row.dtype base own.vl pages.now.memory own.stops (z_of own zm) (p_of own pg) own.ffr in
            OnOk result (left ≡ Ok (record { z = out.new.bytes; ffr = own.ffr; stops = own.stops })) }
        ensures refused { let own = self.now in
            let left = gather_of row.dtype base own.vl pages.now.memory own.stops (z_of own zm) (p_of own pg) own.ffr in
            IfErr result (λ fault. left ≡ Err fault) }
        ensures shape { OnOk result (IsVector self.now.vl out.new.bytes) }
    {
        // This call tells the proof that the length is a valid one, and that FFR has its shape.
        let _ffr = self.ffr();
        let offsets = self.z(zm);
        let mask = self.p(pg);
        gather_into(pages, row, base, offsets, self.vl(), mask, out)
    }

    /// Loads a vector register under a predicate register, from a base and the offsets in another vector register.
    pub fn gather(
        &mut self,
        pages: &Pages,
        row: LoadRow,
        base: u64,
        zm: u32,
        zt: u32,
        pg: u32,
    ) -> Result<(), AccessFault>
        requires wide { (load_form row.dtype).element ≡ D }
        requires offsets { zm < 32 }
        requires register { zt < 32 }
        requires predicate { pg < 16 }
        ensures done { OnOk result
            (put_load (gather_of row.dtype base self.old.vl pages.now.memory self.old.stops (z_of self.old zm)
            (p_of self.old pg) self.old.ffr) zt self.old ≡ Ok self.new) }
        ensures refused { IfErr result (λ fault.
            put_load (gather_of row.dtype base self.old.vl pages.now.memory self.old.stops (z_of self.old zm)
            (p_of self.old pg) self.old.ffr) zt self.old ≡ Err fault) }
        ensures unchanged { OnErr result (self.new ≡ self.old) }
    {
        // Not in place: the offsets may be in the register that is loaded, which a fault leaves as it was.
        let mut out = ZReg::zero();
        self.gathered(pages, row, base, zm, pg, &mut out)?;
        self.set_z(zt, &out);
        Ok(())
    }
}
