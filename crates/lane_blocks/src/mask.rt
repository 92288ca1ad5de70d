//! Predicates as masks of lanes.

ghost use Rattle.std.specs.Prelude.{◌≡◌, ℕ, length, ◌*◌, ◌+◌, ◌<◌, ◌≤◌, not, nat_eq, slice_index};
ghost use Rattle.guest_types.specs.Elements.{bits_of};
ghost use Rattle.lane_blocks.specs.Blocks.{mask_of, with_mask, spread_of, choose_of, is_below, below_of};

use guest_types::length::Width;
use guest_types::predicate::PReg;
use std::simd::prelude::*;

/// The bits of block i.
#[inline(always)]
pub fn mask_at(p: &PReg, i: usize) -> u8x4
    requires { i < 8 }
    ensures { result ≡ mask_of p.now.bits i }
{
    u8x4::from_slice(&p.bits[4 * i..4 * i + 4])
}

/// Writes the bits of block i.
#[inline(always)]
pub fn put_mask(p: &mut PReg, i: usize, bits: [u8; 4])
    requires { i < 8 }
    ensures { p.new.bits ≡ with_mask p.old.bits i bits }
{
    u8x4::from_array(bits).copy_to_slice(&mut p.bits[4 * i..4 * i + 4]);
}

/// The bits of four bytes, each as a byte that is 1 or 0.
#[inline(always)]
pub fn spread(p: u8x4) -> u8x32
    ensures { result ≡ spread_of p }
{
    let bytes = p.swizzle([
        0, 0, 0, 0, 0, 0, 0, 0, 1, 1, 1, 1, 1, 1, 1, 1, 2, 2, 2, 2, 2, 2, 2, 2, 3, 3, 3, 3, 3, 3,
        3, 3,
    ]);
    let places = u8x32::from_array([
        1, 2, 4, 8, 16, 32, 64, 128, 1, 2, 4, 8, 16, 32, 64, 128, 1, 2, 4, 8, 16, 32, 64, 128, 1,
        2, 4, 8, 16, 32, 64, 128,
    ]);
    let is_set = (bytes & places).simd_eq(places);
    is_set.select(u8x32::splat(1), u8x32::splat(0))
}

/// Which bytes are not 0, as bits.
#[inline(always)]
pub fn nonzero_bits(block: u8x32) -> [u8; 4]
    ensures { result ≡ bits_of (λ j. not (nat_eq (slice_index block j) 0)) 4 }
{
    (block.simd_ne(u8x32::splat(0)).to_bitmask() as u32).to_le_bytes()
}

macro_rules! choose_by {
    ($bits:expr, $chosen:expr, $other:expr, $vector:ident) => {
        ($bits & $vector::splat(1))
            .simd_eq($vector::splat(1))
            .select($chosen, $other)
    };
}

#[inline(always)]
fn choose_8(p: u8x4, chosen: u8x32, other: u8x32) -> u8x32
    ensures { result ≡ choose_of Width.B p chosen other }
{
    let bits = spread(p);
    choose_by!(bits, chosen, other, u8x32)
}

#[inline(always)]
fn choose_16(p: u8x4, chosen: u8x32, other: u8x32) -> u8x32
    ensures { result ≡ choose_of Width.H p chosen other }
{
    let bits = u16x16::from_le_bytes(spread(p));
    let chosen = u16x16::from_le_bytes(chosen);
    let other = u16x16::from_le_bytes(other);
    choose_by!(bits, chosen, other, u16x16).to_le_bytes()
}

#[inline(always)]
fn choose_32(p: u8x4, chosen: u8x32, other: u8x32) -> u8x32
    ensures { result ≡ choose_of Width.S p chosen other }
{
    let bits = u32x8::from_le_bytes(spread(p));
    let chosen = u32x8::from_le_bytes(chosen);
    let other = u32x8::from_le_bytes(other);
    choose_by!(bits, chosen, other, u32x8).to_le_bytes()
}

#[inline(always)]
fn choose_64(p: u8x4, chosen: u8x32, other: u8x32) -> u8x32
    ensures { result ≡ choose_of Width.D p chosen other }
{
    let bits = u64x4::from_le_bytes(spread(p));
    let chosen = u64x4::from_le_bytes(chosen);
    let other = u64x4::from_le_bytes(other);
    choose_by!(bits, chosen, other, u64x4).to_le_bytes()
}

/// The elements of `chosen` at which the predicate is true, and those of `other` elsewhere.
#[inline(always)]
pub fn choose_block(width: Width, p: u8x4, chosen: u8x32, other: u8x32) -> u8x32
    ensures { result ≡ choose_of width p chosen other }
{
    match width {
        Width::B => choose_8(p, chosen, other),
        Width::H => choose_16(p, chosen, other),
        Width::S => choose_32(p, chosen, other),
        Width::D => choose_64(p, chosen, other),
    }
}

/// The bits below a limit, as the bytes of a predicate.
#[inline(always)]
pub fn below(limit: usize) -> u8x32
    requires { limit ≤ 256 }
    ensures { result ≡ bits_of (is_below limit) 32 }
{
    let places = u8x32::from_array([
        0, 1, 2, 3, 4, 5, 6, 7, 8, 9, 10, 11, 12, 13, 14, 15, 16, 17, 18, 19, 20, 21, 22, 23, 24,
        25, 26, 27, 28, 29, 30, 31,
    ]);
    let whole = u8x32::splat((limit / 8) as u8);
    let part = u8x32::splat(((1u16 << (limit % 8)) - 1) as u8);
    let at_edge = places.simd_eq(whole).select(part, u8x32::splat(0));
    places.simd_lt(whole).select(u8x32::splat(255), at_edge)
}

/// The bytes of a predicate as one block.
#[inline(always)]
pub fn predicate_block(p: &PReg) -> u8x32
    ensures value { result ≡ p.now.bits }
    ensures len { length p.now.bits ≡ 32 }
    ensures bytes { (i : ℕ) → slice_index p.now.bits i < 256 }
{
    whole_block(&p.bits)
}

#[inline(always)]
fn whole_block(bits: &[u8]) -> u8x32
    requires { length bits.now ≡ 32 }
    ensures value { result ≡ bits.now }
    ensures bytes { (i : ℕ) → slice_index bits.now i < 256 }
{
    u8x32::from_slice(bits)
}

/// The bits of a predicate below a limit.
#[inline(always)]
pub fn bits_below(p: &PReg, limit: usize) -> PReg
    requires { limit ≤ 256 }
    ensures { result.bits ≡ below_of p.now.bits limit }
{
    let bits = predicate_block(p);
    let limits = below(limit);
    PReg {
        bits: (bits & limits).to_array(),
    }
}
