//! The vector registers that a kernel works on in place, as a machine's do.

use guest_types::length::{Vl, Width};
use guest_types::operation::{LaneOp, LaneUnary, ShiftOp};
use guest_types::predicate::PReg;
use guest_types::register::ZReg;
use lane_arith::bank::{binary_in, merge_in, merge_one_in, select_in, shift_in};
use lane_blocks::shape::Shape;
use std::marker::Model;

/// The register that is written.
const OUT: usize = 0;

/// The registers that are read.
const LEFT: usize = 1;

const RIGHT: usize = 2;

/// Vector registers, of which the one that is written is zero past the vector length.
#[derive(Drop)]
pub struct Bank {
    zs: [ZReg; 32],
    vl: Vl,
}

impl Model for Bank {
    ghost use Rattle.std.specs.Prelude.{ℕ};
    ghost use Rattle.guest_types.specs.Length.{IsLength};
    ghost use Rattle.lane_blocks.specs.Banks.{bytes_at, EndsAt};

    ghost Value = { ℕ };

    ghost view = { λ b. b.vl };

    ghost invariant = { λ b. IsLength b.vl × EndsAt b.vl (bytes_at b.zs 0) };
}

impl Bank {
    ghost use Rattle.std.specs.Prelude.{◌<◌};
    ghost use Rattle.guest_types.specs.Length.{width_bits};
    ghost use Rattle.guest_types.specs.Lanes.{ShiftFits, source_bits};

    /// Two registers to be read, and one of zeros to be written.
    pub fn new(vl: Vl, left: ZReg, right: ZReg) -> Bank {
        // This call tells the proof that the length is a valid one.
        let _bits = vl.bits();
        let mut zs = [ZReg { bytes: [0; 256] }; 32];
        zs[LEFT] = left;
        zs[RIGHT] = right;
        Bank { zs, vl }
    }

    /// An operation of the two registers.
    #[inline(always)]
    pub fn binary(&mut self, op: LaneOp, width: Width) {
        let shape = Shape { width, vl: self.vl };
        binary_in(op, shape, &mut self.zs, LEFT, RIGHT, OUT);
    }

    /// An operation of the active elements of the written register and another one.
    #[inline(always)]
    pub fn merge(&mut self, op: LaneOp, width: Width, pg: &PReg) {
        let shape = Shape { width, vl: self.vl };
        merge_in(op, shape, pg, &mut self.zs, RIGHT, OUT);
    }

    /// An operation of the active elements of one register, into another one.
    #[inline(always)]
    pub fn merge_one(&mut self, op: LaneUnary, width: Width, pg: &PReg)
        requires narrower { source_bits op < width_bits width }
    {
        let shape = Shape { width, vl: self.vl };
        merge_one_in(op, shape, pg, &mut self.zs, LEFT, OUT);
    }

    /// A shift of one register.
    #[inline(always)]
    pub fn shift(&mut self, op: ShiftOp, width: Width, count: u32)
        requires fits { ShiftFits op width count }
    {
        let shape = Shape { width, vl: self.vl };
        shift_in(op, shape, &mut self.zs, LEFT, count, OUT);
    }

    /// The active elements of one register, and the others of another one.
    #[inline(always)]
    pub fn select(&mut self, width: Width, pg: &PReg) {
        let shape = Shape { width, vl: self.vl };
        select_in(shape, pg, &mut self.zs, LEFT, RIGHT, OUT);
    }

    /// Makes the next call depend on what the last one gave.
    #[inline(always)]
    pub fn go_on(&mut self) {
        self.zs[LEFT].bytes[0] ^= self.zs[OUT].bytes[5];
    }
}
