//! Operations under a predicate: the elements that are not active stay.

ghost use Rattle.std.specs.Prelude.{◌≡◌};
ghost use Rattle.guest_types.specs.Lanes.{merge_of, select_of};
ghost use Rattle.lane_arith.specs.Blocks.{merge_block_of};

use crate::binary::binary_block;
use guest_types::length::Width;
use guest_types::operation::LaneOp;
use guest_types::predicate::PReg;
use guest_types::register::ZReg;
use lane_blocks::block::{block_at, blocks_of, put_block};
use lane_blocks::mask::{choose_block, mask_at};
use std::simd::prelude::*;

#[inline(always)]
pub(crate) fn merge_block(op: LaneOp, width: Width, p: u8x4, a: u8x32, b: u8x32) -> u8x32
    ensures { result ≡ merge_block_of op width p a b }
{
    choose_block(width, p, binary_block(op, width, a, b), a)
}

#[inline(always)]
fn each_merged(op: LaneOp, width: Width, pg: &PReg, left: &ZReg, right: &ZReg) -> ZReg
    ensures { result.bytes ≡ merge_of op width pg.now.bits left.now.bytes right.now.bytes }
{
    let mut out = ZReg::zero();
    for i in 0..blocks_of(&out) {
        let p = mask_at(pg, i);
        let block = merge_block(op, width, p, block_at(left, i), block_at(right, i));
        put_block(&mut out, i, block);
    }
    out
}

// The operation is chosen before the loop, so that each has a loop of its own.
#[inline(always)]
fn by_operation(op: LaneOp, width: Width, pg: &PReg, left: &ZReg, right: &ZReg) -> ZReg
    ensures { result.bytes ≡ merge_of op width pg.now.bits left.now.bytes right.now.bytes }
{
    match op {
        LaneOp::Add => each_merged(LaneOp::Add, width, pg, left, right),
        LaneOp::Sub => each_merged(LaneOp::Sub, width, pg, left, right),
        LaneOp::Mul => each_merged(LaneOp::Mul, width, pg, left, right),
        LaneOp::And => each_merged(LaneOp::And, width, pg, left, right),
        LaneOp::Or => each_merged(LaneOp::Or, width, pg, left, right),
        LaneOp::Xor => each_merged(LaneOp::Xor, width, pg, left, right),
        LaneOp::Bic => each_merged(LaneOp::Bic, width, pg, left, right),
        LaneOp::SMin => each_merged(LaneOp::SMin, width, pg, left, right),
        LaneOp::SMax => each_merged(LaneOp::SMax, width, pg, left, right),
        LaneOp::UMin => each_merged(LaneOp::UMin, width, pg, left, right),
        LaneOp::UMax => each_merged(LaneOp::UMax, width, pg, left, right),
    }
}

/// The operation at each active element, and the element of `left` elsewhere (Arm DDI 0584: ADD,
/// SUB, SMAX, UMAX, SMIN, UMIN, MUL, ORR, EOR and AND, vectors, predicated). All 256 bytes are
/// written.
pub fn merge(op: LaneOp, width: Width, pg: &PReg, left: &ZReg, right: &ZReg) -> ZReg
    ensures { result.bytes ≡ merge_of op width pg.now.bits left.now.bytes right.now.bytes }
{
    match width {
        Width::B => by_operation(op, Width::B, pg, left, right),
        Width::H => by_operation(op, Width::H, pg, left, right),
        Width::S => by_operation(op, Width::S, pg, left, right),
        Width::D => by_operation(op, Width::D, pg, left, right),
    }
}

#[inline(always)]
fn each_selected(width: Width, pg: &PReg, yes: &ZReg, no: &ZReg) -> ZReg
    ensures { result.bytes ≡ select_of width pg.now.bits yes.now.bytes no.now.bytes }
{
    let mut out = ZReg::zero();
    for i in 0..blocks_of(&out) {
        let p = mask_at(pg, i);
        let block = choose_block(width, p, block_at(yes, i), block_at(no, i));
        put_block(&mut out, i, block);
    }
    out
}

/// The element of `yes` where the predicate is true, and that of `no` elsewhere (Arm DDI 0584: SEL,
/// vectors). All 256 bytes are written.
pub fn select(width: Width, pg: &PReg, yes: &ZReg, no: &ZReg) -> ZReg
    ensures { result.bytes ≡ select_of width pg.now.bits yes.now.bytes no.now.bytes }
{
    match width {
        Width::B => each_selected(Width::B, pg, yes, no),
        Width::H => each_selected(Width::H, pg, yes, no),
        Width::S => each_selected(Width::S, pg, yes, no),
        Width::D => each_selected(Width::D, pg, yes, no),
    }
}
