//! Operations on the vector registers of a machine, of which one is written in place, so that none
//! is copied. It may be an operand too. What lies past the vector length stays zero there, and only
//! the blocks of the length are read and written.

ghost use Rattle.std.specs.Prelude.{◌≡◌, ◌<◌};
ghost use Rattle.guest_types.specs.Length.{lanes, width_bits};
ghost use Rattle.guest_types.specs.Lanes.{binary_at, merge_at, merge_one_at, select_at, shift_at, source_bits, ShiftFits};
ghost use Rattle.lane_blocks.specs.Banks.{bytes_at, with_elements, EndsAt};

use crate::binary::binary_block;
use crate::merge::merge_block;
use crate::shift::shift_block;
use crate::unary::merge_block as merge_one_block;
use guest_types::length::{Vl, Width};
use guest_types::operation::{LaneOp, LaneUnary, ShiftOp};
use guest_types::predicate::PReg;
use guest_types::register::ZReg;
use lane_blocks::block::{block_at, clear_half, put_block, register_bytes, used_blocks};
use lane_blocks::mask::{choose_block, mask_at};
use lane_blocks::shape::Shape;

#[inline(always)]
fn each_binary(op: LaneOp, shape: Shape, zs: &mut [ZReg; 32], left: usize, right: usize, out: usize)
    requires left { left < 32 }
    requires right { right < 32 }
    requires out { out < 32 }
    requires ends { EndsAt shape.vl (bytes_at zs.old out) }
    ensures { let lane = binary_at op shape.width (bytes_at zs.old left) (bytes_at zs.old right) in
        zs.new ≡ with_elements zs.old out shape.width lane (lanes shape.vl shape.width) }
{
    let Shape { width, vl } = shape;
    for i in 0..used_blocks(vl) {
        let block = binary_block(op, width, block_at(&zs[left], i), block_at(&zs[right], i));
        put_block(&mut zs[out], i, block);
    }
    clear_half(&mut zs[out], register_bytes(vl));
}

#[inline(always)]
fn each_merged(op: LaneOp, shape: Shape, pg: &PReg, zs: &mut [ZReg; 32], right: usize, out: usize)
    requires right { right < 32 }
    requires out { out < 32 }
    requires ends { EndsAt shape.vl (bytes_at zs.old out) }
    ensures { let lane = merge_at op shape.width pg.now.bits (bytes_at zs.old out) (bytes_at zs.old right) in
        zs.new ≡ with_elements zs.old out shape.width lane (lanes shape.vl shape.width) }
{
    let Shape { width, vl } = shape;
    for i in 0..used_blocks(vl) {
        let p = mask_at(pg, i);
        let block = merge_block(op, width, p, block_at(&zs[out], i), block_at(&zs[right], i));
        put_block(&mut zs[out], i, block);
    }
    clear_half(&mut zs[out], register_bytes(vl));
}

#[inline(always)]
fn each_merged_one(
    op: LaneUnary,
    shape: Shape,
    pg: &PReg,
    zs: &mut [ZReg; 32],
    z: usize,
    out: usize,
)
    requires narrower { source_bits op < width_bits shape.width }
    requires z { z < 32 }
    requires out { out < 32 }
    requires ends { EndsAt shape.vl (bytes_at zs.old out) }
    ensures { let lane = merge_one_at op shape.width pg.now.bits (bytes_at zs.old out) (bytes_at zs.old z) in
        zs.new ≡ with_elements zs.old out shape.width lane (lanes shape.vl shape.width) }
{
    let Shape { width, vl } = shape;
    for i in 0..used_blocks(vl) {
        let p = mask_at(pg, i);
        let block = merge_one_block(op, width, p, block_at(&zs[out], i), block_at(&zs[z], i));
        put_block(&mut zs[out], i, block);
    }
    clear_half(&mut zs[out], register_bytes(vl));
}

#[inline(always)]
fn each_selected(shape: Shape, pg: &PReg, zs: &mut [ZReg; 32], yes: usize, no: usize, out: usize)
    requires yes { yes < 32 }
    requires no { no < 32 }
    requires out { out < 32 }
    requires ends { EndsAt shape.vl (bytes_at zs.old out) }
    ensures { let lane = select_at shape.width pg.now.bits (bytes_at zs.old yes) (bytes_at zs.old no) in
        zs.new ≡ with_elements zs.old out shape.width lane (lanes shape.vl shape.width) }
{
    let Shape { width, vl } = shape;
    for i in 0..used_blocks(vl) {
        let p = mask_at(pg, i);
        let block = choose_block(width, p, block_at(&zs[yes], i), block_at(&zs[no], i));
        put_block(&mut zs[out], i, block);
    }
    clear_half(&mut zs[out], register_bytes(vl));
}

#[inline(always)]
fn each_shifted(op: ShiftOp, shape: Shape, zs: &mut [ZReg; 32], z: usize, count: u32, out: usize)
    requires fits { ShiftFits op shape.width count }
    requires z { z < 32 }
    requires out { out < 32 }
    requires ends { EndsAt shape.vl (bytes_at zs.old out) }
    ensures { let lane = shift_at op shape.width (bytes_at zs.old z) count in
        zs.new ≡ with_elements zs.old out shape.width lane (lanes shape.vl shape.width) }
{
    let Shape { width, vl } = shape;
    for i in 0..used_blocks(vl) {
        let block = shift_block(op, width, block_at(&zs[z], i), count);
        put_block(&mut zs[out], i, block);
    }
    clear_half(&mut zs[out], register_bytes(vl));
}

// Elements of 8 bits. The width and the operation are chosen before the loop, so that each has a loop of its own. One
// function of all widths would grow so large that the compiler chose the width in each iteration of the loop.
#[inline(never)]
fn binary_in_8(op: LaneOp, vl: Vl, zs: &mut [ZReg; 32], left: usize, right: usize, out: usize)
    requires left { left < 32 }
    requires right { right < 32 }
    requires out { out < 32 }
    requires ends { EndsAt vl (bytes_at zs.old out) }
    ensures { let lane = binary_at op Width.B (bytes_at zs.old left) (bytes_at zs.old right) in
        zs.new ≡ with_elements zs.old out Width.B lane (lanes vl Width.B) }
{
    let shape = Shape {
        width: Width::B,
        vl,
    };
    match op {
        LaneOp::Add => each_binary(LaneOp::Add, shape, zs, left, right, out),
        LaneOp::Sub => each_binary(LaneOp::Sub, shape, zs, left, right, out),
        LaneOp::Mul => each_binary(LaneOp::Mul, shape, zs, left, right, out),
        LaneOp::And => each_binary(LaneOp::And, shape, zs, left, right, out),
        LaneOp::Or => each_binary(LaneOp::Or, shape, zs, left, right, out),
        LaneOp::Xor => each_binary(LaneOp::Xor, shape, zs, left, right, out),
        LaneOp::Bic => each_binary(LaneOp::Bic, shape, zs, left, right, out),
        LaneOp::SMin => each_binary(LaneOp::SMin, shape, zs, left, right, out),
        LaneOp::SMax => each_binary(LaneOp::SMax, shape, zs, left, right, out),
        LaneOp::UMin => each_binary(LaneOp::UMin, shape, zs, left, right, out),
        LaneOp::UMax => each_binary(LaneOp::UMax, shape, zs, left, right, out),
    }
}

// The same of elements of 16 bits.
#[inline(never)]
fn binary_in_16(op: LaneOp, vl: Vl, zs: &mut [ZReg; 32], left: usize, right: usize, out: usize)
    requires left { left < 32 }
    requires right { right < 32 }
    requires out { out < 32 }
    requires ends { EndsAt vl (bytes_at zs.old out) }
    ensures { let lane = binary_at op Width.H (bytes_at zs.old left) (bytes_at zs.old right) in
        zs.new ≡ with_elements zs.old out Width.H lane (lanes vl Width.H) }
{
    let shape = Shape {
        width: Width::H,
        vl,
    };
    match op {
        LaneOp::Add => each_binary(LaneOp::Add, shape, zs, left, right, out),
        LaneOp::Sub => each_binary(LaneOp::Sub, shape, zs, left, right, out),
        LaneOp::Mul => each_binary(LaneOp::Mul, shape, zs, left, right, out),
        LaneOp::And => each_binary(LaneOp::And, shape, zs, left, right, out),
        LaneOp::Or => each_binary(LaneOp::Or, shape, zs, left, right, out),
        LaneOp::Xor => each_binary(LaneOp::Xor, shape, zs, left, right, out),
        LaneOp::Bic => each_binary(LaneOp::Bic, shape, zs, left, right, out),
        LaneOp::SMin => each_binary(LaneOp::SMin, shape, zs, left, right, out),
        LaneOp::SMax => each_binary(LaneOp::SMax, shape, zs, left, right, out),
        LaneOp::UMin => each_binary(LaneOp::UMin, shape, zs, left, right, out),
        LaneOp::UMax => each_binary(LaneOp::UMax, shape, zs, left, right, out),
    }
}

// The same of elements of 32 bits.
#[inline(never)]
fn binary_in_32(op: LaneOp, vl: Vl, zs: &mut [ZReg; 32], left: usize, right: usize, out: usize)
    requires left { left < 32 }
    requires right { right < 32 }
    requires out { out < 32 }
    requires ends { EndsAt vl (bytes_at zs.old out) }
    ensures { let lane = binary_at op Width.S (bytes_at zs.old left) (bytes_at zs.old right) in
        zs.new ≡ with_elements zs.old out Width.S lane (lanes vl Width.S) }
{
    let shape = Shape {
        width: Width::S,
        vl,
    };
    match op {
        LaneOp::Add => each_binary(LaneOp::Add, shape, zs, left, right, out),
        LaneOp::Sub => each_binary(LaneOp::Sub, shape, zs, left, right, out),
        LaneOp::Mul => each_binary(LaneOp::Mul, shape, zs, left, right, out),
        LaneOp::And => each_binary(LaneOp::And, shape, zs, left, right, out),
        LaneOp::Or => each_binary(LaneOp::Or, shape, zs, left, right, out),
        LaneOp::Xor => each_binary(LaneOp::Xor, shape, zs, left, right, out),
        LaneOp::Bic => each_binary(LaneOp::Bic, shape, zs, left, right, out),
        LaneOp::SMin => each_binary(LaneOp::SMin, shape, zs, left, right, out),
        LaneOp::SMax => each_binary(LaneOp::SMax, shape, zs, left, right, out),
        LaneOp::UMin => each_binary(LaneOp::UMin, shape, zs, left, right, out),
        LaneOp::UMax => each_binary(LaneOp::UMax, shape, zs, left, right, out),
    }
}

// The same of elements of 64 bits.
#[inline(never)]
fn binary_in_64(op: LaneOp, vl: Vl, zs: &mut [ZReg; 32], left: usize, right: usize, out: usize)
    requires left { left < 32 }
    requires right { right < 32 }
    requires out { out < 32 }
    requires ends { EndsAt vl (bytes_at zs.old out) }
    ensures { let lane = binary_at op Width.D (bytes_at zs.old left) (bytes_at zs.old right) in
        zs.new ≡ with_elements zs.old out Width.D lane (lanes vl Width.D) }
{
    let shape = Shape {
        width: Width::D,
        vl,
    };
    match op {
        LaneOp::Add => each_binary(LaneOp::Add, shape, zs, left, right, out),
        LaneOp::Sub => each_binary(LaneOp::Sub, shape, zs, left, right, out),
        LaneOp::Mul => each_binary(LaneOp::Mul, shape, zs, left, right, out),
        LaneOp::And => each_binary(LaneOp::And, shape, zs, left, right, out),
        LaneOp::Or => each_binary(LaneOp::Or, shape, zs, left, right, out),
        LaneOp::Xor => each_binary(LaneOp::Xor, shape, zs, left, right, out),
        LaneOp::Bic => each_binary(LaneOp::Bic, shape, zs, left, right, out),
        LaneOp::SMin => each_binary(LaneOp::SMin, shape, zs, left, right, out),
        LaneOp::SMax => each_binary(LaneOp::SMax, shape, zs, left, right, out),
        LaneOp::UMin => each_binary(LaneOp::UMin, shape, zs, left, right, out),
        LaneOp::UMax => each_binary(LaneOp::UMax, shape, zs, left, right, out),
    }
}

/// `binary` of two of the registers, into one of them.
pub fn binary_in(
    op: LaneOp,
    shape: Shape,
    zs: &mut [ZReg; 32],
    left: usize,
    right: usize,
    out: usize,
)
    requires left { left < 32 }
    requires right { right < 32 }
    requires out { out < 32 }
    requires ends { EndsAt shape.vl (bytes_at zs.old out) }
    ensures { let lane = binary_at op shape.width (bytes_at zs.old left) (bytes_at zs.old right) in
        zs.new ≡ with_elements zs.old out shape.width lane (lanes shape.vl shape.width) }
{
    match shape.width {
        Width::B => binary_in_8(op, shape.vl, zs, left, right, out),
        Width::H => binary_in_16(op, shape.vl, zs, left, right, out),
        Width::S => binary_in_32(op, shape.vl, zs, left, right, out),
        Width::D => binary_in_64(op, shape.vl, zs, left, right, out),
    }
}

// Elements of 8 bits. The width and the operation are chosen before the loop, so that each has a loop of its own. One
// function of all widths would grow so large that the compiler chose the width in each iteration of the loop.
#[inline(never)]
fn merge_in_8(op: LaneOp, vl: Vl, pg: &PReg, zs: &mut [ZReg; 32], right: usize, out: usize)
    requires right { right < 32 }
    requires out { out < 32 }
    requires ends { EndsAt vl (bytes_at zs.old out) }
    ensures { let lane = merge_at op Width.B pg.now.bits (bytes_at zs.old out) (bytes_at zs.old right) in
        zs.new ≡ with_elements zs.old out Width.B lane (lanes vl Width.B) }
{
    let shape = Shape {
        width: Width::B,
        vl,
    };
    match op {
        LaneOp::Add => each_merged(LaneOp::Add, shape, pg, zs, right, out),
        LaneOp::Sub => each_merged(LaneOp::Sub, shape, pg, zs, right, out),
        LaneOp::Mul => each_merged(LaneOp::Mul, shape, pg, zs, right, out),
        LaneOp::And => each_merged(LaneOp::And, shape, pg, zs, right, out),
        LaneOp::Or => each_merged(LaneOp::Or, shape, pg, zs, right, out),
        LaneOp::Xor => each_merged(LaneOp::Xor, shape, pg, zs, right, out),
        LaneOp::Bic => each_merged(LaneOp::Bic, shape, pg, zs, right, out),
        LaneOp::SMin => each_merged(LaneOp::SMin, shape, pg, zs, right, out),
        LaneOp::SMax => each_merged(LaneOp::SMax, shape, pg, zs, right, out),
        LaneOp::UMin => each_merged(LaneOp::UMin, shape, pg, zs, right, out),
        LaneOp::UMax => each_merged(LaneOp::UMax, shape, pg, zs, right, out),
    }
}

// The same of elements of 16 bits.
#[inline(never)]
fn merge_in_16(op: LaneOp, vl: Vl, pg: &PReg, zs: &mut [ZReg; 32], right: usize, out: usize)
    requires right { right < 32 }
    requires out { out < 32 }
    requires ends { EndsAt vl (bytes_at zs.old out) }
    ensures { let lane = merge_at op Width.H pg.now.bits (bytes_at zs.old out) (bytes_at zs.old right) in
        zs.new ≡ with_elements zs.old out Width.H lane (lanes vl Width.H) }
{
    let shape = Shape {
        width: Width::H,
        vl,
    };
    match op {
        LaneOp::Add => each_merged(LaneOp::Add, shape, pg, zs, right, out),
        LaneOp::Sub => each_merged(LaneOp::Sub, shape, pg, zs, right, out),
        LaneOp::Mul => each_merged(LaneOp::Mul, shape, pg, zs, right, out),
        LaneOp::And => each_merged(LaneOp::And, shape, pg, zs, right, out),
        LaneOp::Or => each_merged(LaneOp::Or, shape, pg, zs, right, out),
        LaneOp::Xor => each_merged(LaneOp::Xor, shape, pg, zs, right, out),
        LaneOp::Bic => each_merged(LaneOp::Bic, shape, pg, zs, right, out),
        LaneOp::SMin => each_merged(LaneOp::SMin, shape, pg, zs, right, out),
        LaneOp::SMax => each_merged(LaneOp::SMax, shape, pg, zs, right, out),
        LaneOp::UMin => each_merged(LaneOp::UMin, shape, pg, zs, right, out),
        LaneOp::UMax => each_merged(LaneOp::UMax, shape, pg, zs, right, out),
    }
}

// The same of elements of 32 bits.
#[inline(never)]
fn merge_in_32(op: LaneOp, vl: Vl, pg: &PReg, zs: &mut [ZReg; 32], right: usize, out: usize)
    requires right { right < 32 }
    requires out { out < 32 }
    requires ends { EndsAt vl (bytes_at zs.old out) }
    ensures { let lane = merge_at op Width.S pg.now.bits (bytes_at zs.old out) (bytes_at zs.old right) in
        zs.new ≡ with_elements zs.old out Width.S lane (lanes vl Width.S) }
{
    let shape = Shape {
        width: Width::S,
        vl,
    };
    match op {
        LaneOp::Add => each_merged(LaneOp::Add, shape, pg, zs, right, out),
        LaneOp::Sub => each_merged(LaneOp::Sub, shape, pg, zs, right, out),
        LaneOp::Mul => each_merged(LaneOp::Mul, shape, pg, zs, right, out),
        LaneOp::And => each_merged(LaneOp::And, shape, pg, zs, right, out),
        LaneOp::Or => each_merged(LaneOp::Or, shape, pg, zs, right, out),
        LaneOp::Xor => each_merged(LaneOp::Xor, shape, pg, zs, right, out),
        LaneOp::Bic => each_merged(LaneOp::Bic, shape, pg, zs, right, out),
        LaneOp::SMin => each_merged(LaneOp::SMin, shape, pg, zs, right, out),
        LaneOp::SMax => each_merged(LaneOp::SMax, shape, pg, zs, right, out),
        LaneOp::UMin => each_merged(LaneOp::UMin, shape, pg, zs, right, out),
        LaneOp::UMax => each_merged(LaneOp::UMax, shape, pg, zs, right, out),
    }
}

// The same of elements of 64 bits.
#[inline(never)]
fn merge_in_64(op: LaneOp, vl: Vl, pg: &PReg, zs: &mut [ZReg; 32], right: usize, out: usize)
    requires right { right < 32 }
    requires out { out < 32 }
    requires ends { EndsAt vl (bytes_at zs.old out) }
    ensures { let lane = merge_at op Width.D pg.now.bits (bytes_at zs.old out) (bytes_at zs.old right) in
        zs.new ≡ with_elements zs.old out Width.D lane (lanes vl Width.D) }
{
    let shape = Shape {
        width: Width::D,
        vl,
    };
    match op {
        LaneOp::Add => each_merged(LaneOp::Add, shape, pg, zs, right, out),
        LaneOp::Sub => each_merged(LaneOp::Sub, shape, pg, zs, right, out),
        LaneOp::Mul => each_merged(LaneOp::Mul, shape, pg, zs, right, out),
        LaneOp::And => each_merged(LaneOp::And, shape, pg, zs, right, out),
        LaneOp::Or => each_merged(LaneOp::Or, shape, pg, zs, right, out),
        LaneOp::Xor => each_merged(LaneOp::Xor, shape, pg, zs, right, out),
        LaneOp::Bic => each_merged(LaneOp::Bic, shape, pg, zs, right, out),
        LaneOp::SMin => each_merged(LaneOp::SMin, shape, pg, zs, right, out),
        LaneOp::SMax => each_merged(LaneOp::SMax, shape, pg, zs, right, out),
        LaneOp::UMin => each_merged(LaneOp::UMin, shape, pg, zs, right, out),
        LaneOp::UMax => each_merged(LaneOp::UMax, shape, pg, zs, right, out),
    }
}

/// `merge` of the written register and another one.
pub fn merge_in(op: LaneOp, shape: Shape, pg: &PReg, zs: &mut [ZReg; 32], right: usize, out: usize)
    requires right { right < 32 }
    requires out { out < 32 }
    requires ends { EndsAt shape.vl (bytes_at zs.old out) }
    ensures { let lane = merge_at op shape.width pg.now.bits (bytes_at zs.old out) (bytes_at zs.old right) in
        zs.new ≡ with_elements zs.old out shape.width lane (lanes shape.vl shape.width) }
{
    match shape.width {
        Width::B => merge_in_8(op, shape.vl, pg, zs, right, out),
        Width::H => merge_in_16(op, shape.vl, pg, zs, right, out),
        Width::S => merge_in_32(op, shape.vl, pg, zs, right, out),
        Width::D => merge_in_64(op, shape.vl, pg, zs, right, out),
    }
}

// Elements of 8 bits. The width and the operation are chosen before the loop, so that each has a loop of its own. One
// function of all widths would grow so large that the compiler chose the width in each iteration of the loop.
#[inline(never)]
fn merge_one_in_8(op: LaneUnary, vl: Vl, pg: &PReg, zs: &mut [ZReg; 32], z: usize, out: usize)
    requires narrower { source_bits op < width_bits Width.B }
    requires z { z < 32 }
    requires out { out < 32 }
    requires ends { EndsAt vl (bytes_at zs.old out) }
    ensures { let lane = merge_one_at op Width.B pg.now.bits (bytes_at zs.old out) (bytes_at zs.old z) in
        zs.new ≡ with_elements zs.old out Width.B lane (lanes vl Width.B) }
{
    let shape = Shape {
        width: Width::B,
        vl,
    };
    match op {
        LaneUnary::Abs => each_merged_one(LaneUnary::Abs, shape, pg, zs, z, out),
        LaneUnary::Neg => each_merged_one(LaneUnary::Neg, shape, pg, zs, z, out),
        LaneUnary::Not => each_merged_one(LaneUnary::Not, shape, pg, zs, z, out),
        LaneUnary::SxtB => each_merged_one(LaneUnary::SxtB, shape, pg, zs, z, out),
        LaneUnary::UxtB => each_merged_one(LaneUnary::UxtB, shape, pg, zs, z, out),
        LaneUnary::SxtH => each_merged_one(LaneUnary::SxtH, shape, pg, zs, z, out),
        LaneUnary::UxtH => each_merged_one(LaneUnary::UxtH, shape, pg, zs, z, out),
        LaneUnary::SxtW => each_merged_one(LaneUnary::SxtW, shape, pg, zs, z, out),
        LaneUnary::UxtW => each_merged_one(LaneUnary::UxtW, shape, pg, zs, z, out),
    }
}

// The same of elements of 16 bits.
#[inline(never)]
fn merge_one_in_16(op: LaneUnary, vl: Vl, pg: &PReg, zs: &mut [ZReg; 32], z: usize, out: usize)
    requires narrower { source_bits op < width_bits Width.H }
    requires z { z < 32 }
    requires out { out < 32 }
    requires ends { EndsAt vl (bytes_at zs.old out) }
    ensures { let lane = merge_one_at op Width.H pg.now.bits (bytes_at zs.old out) (bytes_at zs.old z) in
        zs.new ≡ with_elements zs.old out Width.H lane (lanes vl Width.H) }
{
    let shape = Shape {
        width: Width::H,
        vl,
    };
    match op {
        LaneUnary::Abs => each_merged_one(LaneUnary::Abs, shape, pg, zs, z, out),
        LaneUnary::Neg => each_merged_one(LaneUnary::Neg, shape, pg, zs, z, out),
        LaneUnary::Not => each_merged_one(LaneUnary::Not, shape, pg, zs, z, out),
        LaneUnary::SxtB => each_merged_one(LaneUnary::SxtB, shape, pg, zs, z, out),
        LaneUnary::UxtB => each_merged_one(LaneUnary::UxtB, shape, pg, zs, z, out),
        LaneUnary::SxtH => each_merged_one(LaneUnary::SxtH, shape, pg, zs, z, out),
        LaneUnary::UxtH => each_merged_one(LaneUnary::UxtH, shape, pg, zs, z, out),
        LaneUnary::SxtW => each_merged_one(LaneUnary::SxtW, shape, pg, zs, z, out),
        LaneUnary::UxtW => each_merged_one(LaneUnary::UxtW, shape, pg, zs, z, out),
    }
}

// The same of elements of 32 bits.
#[inline(never)]
fn merge_one_in_32(op: LaneUnary, vl: Vl, pg: &PReg, zs: &mut [ZReg; 32], z: usize, out: usize)
    requires narrower { source_bits op < width_bits Width.S }
    requires z { z < 32 }
    requires out { out < 32 }
    requires ends { EndsAt vl (bytes_at zs.old out) }
    ensures { let lane = merge_one_at op Width.S pg.now.bits (bytes_at zs.old out) (bytes_at zs.old z) in
        zs.new ≡ with_elements zs.old out Width.S lane (lanes vl Width.S) }
{
    let shape = Shape {
        width: Width::S,
        vl,
    };
    match op {
        LaneUnary::Abs => each_merged_one(LaneUnary::Abs, shape, pg, zs, z, out),
        LaneUnary::Neg => each_merged_one(LaneUnary::Neg, shape, pg, zs, z, out),
        LaneUnary::Not => each_merged_one(LaneUnary::Not, shape, pg, zs, z, out),
        LaneUnary::SxtB => each_merged_one(LaneUnary::SxtB, shape, pg, zs, z, out),
        LaneUnary::UxtB => each_merged_one(LaneUnary::UxtB, shape, pg, zs, z, out),
        LaneUnary::SxtH => each_merged_one(LaneUnary::SxtH, shape, pg, zs, z, out),
        LaneUnary::UxtH => each_merged_one(LaneUnary::UxtH, shape, pg, zs, z, out),
        LaneUnary::SxtW => each_merged_one(LaneUnary::SxtW, shape, pg, zs, z, out),
        LaneUnary::UxtW => each_merged_one(LaneUnary::UxtW, shape, pg, zs, z, out),
    }
}

// The same of elements of 64 bits.
#[inline(never)]
fn merge_one_in_64(op: LaneUnary, vl: Vl, pg: &PReg, zs: &mut [ZReg; 32], z: usize, out: usize)
    requires narrower { source_bits op < width_bits Width.D }
    requires z { z < 32 }
    requires out { out < 32 }
    requires ends { EndsAt vl (bytes_at zs.old out) }
    ensures { let lane = merge_one_at op Width.D pg.now.bits (bytes_at zs.old out) (bytes_at zs.old z) in
        zs.new ≡ with_elements zs.old out Width.D lane (lanes vl Width.D) }
{
    let shape = Shape {
        width: Width::D,
        vl,
    };
    match op {
        LaneUnary::Abs => each_merged_one(LaneUnary::Abs, shape, pg, zs, z, out),
        LaneUnary::Neg => each_merged_one(LaneUnary::Neg, shape, pg, zs, z, out),
        LaneUnary::Not => each_merged_one(LaneUnary::Not, shape, pg, zs, z, out),
        LaneUnary::SxtB => each_merged_one(LaneUnary::SxtB, shape, pg, zs, z, out),
        LaneUnary::UxtB => each_merged_one(LaneUnary::UxtB, shape, pg, zs, z, out),
        LaneUnary::SxtH => each_merged_one(LaneUnary::SxtH, shape, pg, zs, z, out),
        LaneUnary::UxtH => each_merged_one(LaneUnary::UxtH, shape, pg, zs, z, out),
        LaneUnary::SxtW => each_merged_one(LaneUnary::SxtW, shape, pg, zs, z, out),
        LaneUnary::UxtW => each_merged_one(LaneUnary::UxtW, shape, pg, zs, z, out),
    }
}

/// `merge_one` of one of the registers, into one whose other elements stay.
pub fn merge_one_in(
    op: LaneUnary,
    shape: Shape,
    pg: &PReg,
    zs: &mut [ZReg; 32],
    z: usize,
    out: usize,
)
    requires narrower { source_bits op < width_bits shape.width }
    requires z { z < 32 }
    requires out { out < 32 }
    requires ends { EndsAt shape.vl (bytes_at zs.old out) }
    ensures { let lane = merge_one_at op shape.width pg.now.bits (bytes_at zs.old out) (bytes_at zs.old z) in
        zs.new ≡ with_elements zs.old out shape.width lane (lanes shape.vl shape.width) }
{
    match shape.width {
        Width::B => merge_one_in_8(op, shape.vl, pg, zs, z, out),
        Width::H => merge_one_in_16(op, shape.vl, pg, zs, z, out),
        Width::S => merge_one_in_32(op, shape.vl, pg, zs, z, out),
        Width::D => merge_one_in_64(op, shape.vl, pg, zs, z, out),
    }
}

// The operation is chosen before the loop, so that each has a loop of its own.
#[inline(always)]
fn shift_by(op: ShiftOp, shape: Shape, zs: &mut [ZReg; 32], z: usize, count: u32, out: usize)
    requires fits { ShiftFits op shape.width count }
    requires z { z < 32 }
    requires out { out < 32 }
    requires ends { EndsAt shape.vl (bytes_at zs.old out) }
    ensures { let lane = shift_at op shape.width (bytes_at zs.old z) count in
        zs.new ≡ with_elements zs.old out shape.width lane (lanes shape.vl shape.width) }
{
    match op {
        ShiftOp::Lsl => each_shifted(ShiftOp::Lsl, shape, zs, z, count, out),
        ShiftOp::Lsr => each_shifted(ShiftOp::Lsr, shape, zs, z, count, out),
        ShiftOp::Asr => each_shifted(ShiftOp::Asr, shape, zs, z, count, out),
    }
}

/// `shift` of one of the registers, into one of them.
pub fn shift_in(op: ShiftOp, shape: Shape, zs: &mut [ZReg; 32], z: usize, count: u32, out: usize)
    requires fits { ShiftFits op shape.width count }
    requires z { z < 32 }
    requires out { out < 32 }
    requires ends { EndsAt shape.vl (bytes_at zs.old out) }
    ensures { let lane = shift_at op shape.width (bytes_at zs.old z) count in
        zs.new ≡ with_elements zs.old out shape.width lane (lanes shape.vl shape.width) }
{
    match shape.width {
        Width::B => shift_by(
            op,
            Shape {
                width: Width::B,
                vl: shape.vl,
            },
            zs,
            z,
            count,
            out,
        ),
        Width::H => shift_by(
            op,
            Shape {
                width: Width::H,
                vl: shape.vl,
            },
            zs,
            z,
            count,
            out,
        ),
        Width::S => shift_by(
            op,
            Shape {
                width: Width::S,
                vl: shape.vl,
            },
            zs,
            z,
            count,
            out,
        ),
        Width::D => shift_by(
            op,
            Shape {
                width: Width::D,
                vl: shape.vl,
            },
            zs,
            z,
            count,
            out,
        ),
    }
}

/// `select` of two of the registers, into one of them.
pub fn select_in(shape: Shape, pg: &PReg, zs: &mut [ZReg; 32], yes: usize, no: usize, out: usize)
    requires yes { yes < 32 }
    requires no { no < 32 }
    requires out { out < 32 }
    requires ends { EndsAt shape.vl (bytes_at zs.old out) }
    ensures { let lane = select_at shape.width pg.now.bits (bytes_at zs.old yes) (bytes_at zs.old no) in
        zs.new ≡ with_elements zs.old out shape.width lane (lanes shape.vl shape.width) }
{
    match shape.width {
        Width::B => each_selected(
            Shape {
                width: Width::B,
                vl: shape.vl,
            },
            pg,
            zs,
            yes,
            no,
            out,
        ),
        Width::H => each_selected(
            Shape {
                width: Width::H,
                vl: shape.vl,
            },
            pg,
            zs,
            yes,
            no,
            out,
        ),
        Width::S => each_selected(
            Shape {
                width: Width::S,
                vl: shape.vl,
            },
            pg,
            zs,
            yes,
            no,
            out,
        ),
        Width::D => each_selected(
            Shape {
                width: Width::D,
                vl: shape.vl,
            },
            pg,
            zs,
            yes,
            no,
            out,
        ),
    }
}
