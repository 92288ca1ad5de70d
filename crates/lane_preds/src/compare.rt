//! Comparisons of the elements of two registers.

ghost use Rattle.std.specs.Prelude.{◌≡◌};
ghost use Rattle.guest_types.specs.Length.{lanes};
ghost use Rattle.guest_types.specs.Lanes.{compare_of};
ghost use Rattle.lane_preds.specs.Bits.{flags_of, compare_bits_of};

use guest_types::length::{Vl, Width};
use guest_types::operation::LaneCompare;
use guest_types::predicate::PReg;
use guest_types::register::ZReg;
use lane_blocks::block::{block_at, register_bytes, used_blocks};
use lane_blocks::mask::{bits_below, mask_at, nonzero_bits, put_mask, spread};
use lane_blocks::shape::Shape;
use std::simd::prelude::*;

// A mask as lanes that are 1 or 0.
macro_rules! flags {
    ($holds:expr, $vector:ident) => {
        $holds.select($vector::splat(1), $vector::splat(0))
    };
}

// A comparison of two vectors, `$half` being the least number whose top bit is set.
macro_rules! compare_by {
    ($op:expr, $a:expr, $b:expr, $vector:ident, $half:expr) => {
        match $op {
            LaneCompare::Hs => flags!($b.simd_le($a), $vector),
            LaneCompare::Hi => flags!($b.simd_lt($a), $vector),
            LaneCompare::Ge => {
                let half = $vector::splat($half);
                flags!(($b + half).simd_le($a + half), $vector)
            }
            LaneCompare::Gt => {
                let half = $vector::splat($half);
                flags!(($b + half).simd_lt($a + half), $vector)
            }
            LaneCompare::Eq => flags!($a.simd_eq($b), $vector),
            LaneCompare::Ne => flags!($a.simd_ne($b), $vector),
        }
    };
}

#[inline(always)]
fn flags_8(op: LaneCompare, a: u8x32, b: u8x32) -> u8x32
    ensures { result ≡ flags_of op Width.B a b }
{
    compare_by!(op, a, b, u8x32, 0x80)
}

#[inline(always)]
fn flags_16(op: LaneCompare, a: u8x32, b: u8x32) -> u8x32
    ensures { result ≡ flags_of op Width.H a b }
{
    let a = u16x16::from_le_bytes(a);
    let b = u16x16::from_le_bytes(b);
    let outcome = compare_by!(op, a, b, u16x16, 0x8000);
    outcome.to_le_bytes()
}

#[inline(always)]
fn flags_32(op: LaneCompare, a: u8x32, b: u8x32) -> u8x32
    ensures { result ≡ flags_of op Width.S a b }
{
    let a = u32x8::from_le_bytes(a);
    let b = u32x8::from_le_bytes(b);
    let outcome = compare_by!(op, a, b, u32x8, 0x8000_0000);
    outcome.to_le_bytes()
}

#[inline(always)]
fn flags_64(op: LaneCompare, a: u8x32, b: u8x32) -> u8x32
    ensures { result ≡ flags_of op Width.D a b }
{
    let a = u64x4::from_le_bytes(a);
    let b = u64x4::from_le_bytes(b);
    let outcome = compare_by!(op, a, b, u64x4, 0x8000_0000_0000_0000);
    outcome.to_le_bytes()
}

#[inline(always)]
fn flags_block(op: LaneCompare, width: Width, a: u8x32, b: u8x32) -> u8x32
    ensures { result ≡ flags_of op width a b }
{
    match width {
        Width::B => flags_8(op, a, b),
        Width::H => flags_16(op, a, b),
        Width::S => flags_32(op, a, b),
        Width::D => flags_64(op, a, b),
    }
}

// The bits of the comparison of two blocks under a mask.
#[inline(always)]
fn compare_block(op: LaneCompare, width: Width, p: u8x4, a: u8x32, b: u8x32) -> [u8; 4]
    ensures { result ≡ compare_bits_of op width p a b }
{
    let flags = flags_block(op, width, a, b);
    let mask = spread(p);
    nonzero_bits(flags & mask)
}

#[inline(always)]
fn each_block(op: LaneCompare, shape: Shape, pg: &PReg, left: &ZReg, right: &ZReg, out: &mut PReg)
    ensures { let n = lanes shape.vl shape.width in
        out.new.bits ≡ compare_of op shape.width n pg.now.bits left.now.bytes right.now.bytes }
{
    let Shape { width, vl } = shape;
    let used = bits_below(pg, register_bytes(vl));
    *out = PReg::none();
    for i in 0..used_blocks(vl) {
        let p = mask_at(&used, i);
        let bits = compare_block(op, width, p, block_at(left, i), block_at(right, i));
        put_mask(out, i, bits);
    }
}

// Elements of 8 bits. The width and the comparison are chosen before the loop, so that each has a loop of its own. One
// function of all widths would grow so large that the compiler chose the width in each iteration of the loop.
#[inline(never)]
fn compare_in_8(op: LaneCompare, vl: Vl, pg: &PReg, left: &ZReg, right: &ZReg, out: &mut PReg)
    ensures { out.new.bits ≡ compare_of op Width.B (lanes vl Width.B) pg.now.bits left.now.bytes right.now.bytes }
{
    let shape = Shape {
        width: Width::B,
        vl,
    };
    match op {
        LaneCompare::Hs => each_block(LaneCompare::Hs, shape, pg, left, right, out),
        LaneCompare::Hi => each_block(LaneCompare::Hi, shape, pg, left, right, out),
        LaneCompare::Ge => each_block(LaneCompare::Ge, shape, pg, left, right, out),
        LaneCompare::Gt => each_block(LaneCompare::Gt, shape, pg, left, right, out),
        LaneCompare::Eq => each_block(LaneCompare::Eq, shape, pg, left, right, out),
        LaneCompare::Ne => each_block(LaneCompare::Ne, shape, pg, left, right, out),
    }
}

// The same of elements of 16 bits.
#[inline(never)]
fn compare_in_16(op: LaneCompare, vl: Vl, pg: &PReg, left: &ZReg, right: &ZReg, out: &mut PReg)
    ensures { out.new.bits ≡ compare_of op Width.H (lanes vl Width.H) pg.now.bits left.now.bytes right.now.bytes }
{
    let shape = Shape {
        width: Width::H,
        vl,
    };
    match op {
        LaneCompare::Hs => each_block(LaneCompare::Hs, shape, pg, left, right, out),
        LaneCompare::Hi => each_block(LaneCompare::Hi, shape, pg, left, right, out),
        LaneCompare::Ge => each_block(LaneCompare::Ge, shape, pg, left, right, out),
        LaneCompare::Gt => each_block(LaneCompare::Gt, shape, pg, left, right, out),
        LaneCompare::Eq => each_block(LaneCompare::Eq, shape, pg, left, right, out),
        LaneCompare::Ne => each_block(LaneCompare::Ne, shape, pg, left, right, out),
    }
}

// The same of elements of 32 bits.
#[inline(never)]
fn compare_in_32(op: LaneCompare, vl: Vl, pg: &PReg, left: &ZReg, right: &ZReg, out: &mut PReg)
    ensures { out.new.bits ≡ compare_of op Width.S (lanes vl Width.S) pg.now.bits left.now.bytes right.now.bytes }
{
    let shape = Shape {
        width: Width::S,
        vl,
    };
    match op {
        LaneCompare::Hs => each_block(LaneCompare::Hs, shape, pg, left, right, out),
        LaneCompare::Hi => each_block(LaneCompare::Hi, shape, pg, left, right, out),
        LaneCompare::Ge => each_block(LaneCompare::Ge, shape, pg, left, right, out),
        LaneCompare::Gt => each_block(LaneCompare::Gt, shape, pg, left, right, out),
        LaneCompare::Eq => each_block(LaneCompare::Eq, shape, pg, left, right, out),
        LaneCompare::Ne => each_block(LaneCompare::Ne, shape, pg, left, right, out),
    }
}

// The same of elements of 64 bits.
#[inline(never)]
fn compare_in_64(op: LaneCompare, vl: Vl, pg: &PReg, left: &ZReg, right: &ZReg, out: &mut PReg)
    ensures { out.new.bits ≡ compare_of op Width.D (lanes vl Width.D) pg.now.bits left.now.bytes right.now.bytes }
{
    let shape = Shape {
        width: Width::D,
        vl,
    };
    match op {
        LaneCompare::Hs => each_block(LaneCompare::Hs, shape, pg, left, right, out),
        LaneCompare::Hi => each_block(LaneCompare::Hi, shape, pg, left, right, out),
        LaneCompare::Ge => each_block(LaneCompare::Ge, shape, pg, left, right, out),
        LaneCompare::Gt => each_block(LaneCompare::Gt, shape, pg, left, right, out),
        LaneCompare::Eq => each_block(LaneCompare::Eq, shape, pg, left, right, out),
        LaneCompare::Ne => each_block(LaneCompare::Ne, shape, pg, left, right, out),
    }
}

/// `compare` into a predicate that is there.
pub fn compare_into(
    op: LaneCompare,
    shape: Shape,
    pg: &PReg,
    left: &ZReg,
    right: &ZReg,
    out: &mut PReg,
)
    ensures { let n = lanes shape.vl shape.width in
        out.new.bits ≡ compare_of op shape.width n pg.now.bits left.now.bytes right.now.bytes }
{
    match shape.width {
        Width::B => compare_in_8(op, shape.vl, pg, left, right, out),
        Width::H => compare_in_16(op, shape.vl, pg, left, right, out),
        Width::S => compare_in_32(op, shape.vl, pg, left, right, out),
        Width::D => compare_in_64(op, shape.vl, pg, left, right, out),
    }
}

/// The active elements of a register of the length at which the comparison holds (Arm DDI 0584:
/// CMPHS, CMPHI, CMPGE, CMPGT, CMPEQ and CMPNE, vectors). Past the length no bit is set.
pub fn compare(op: LaneCompare, width: Width, vl: Vl, pg: &PReg, left: &ZReg, right: &ZReg) -> PReg
    ensures { result.bits ≡ compare_of op width (lanes vl width) pg.now.bits left.now.bytes right.now.bytes }
{
    let mut out = PReg::none();
    compare_into(op, Shape { width, vl }, pg, left, right, &mut out);
    out
}
