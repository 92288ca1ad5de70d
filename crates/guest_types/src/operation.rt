//! The operations of lanes, and what each does to one element.

ghost use Rattle.std.specs.Prelude.{◌≡◌, ℕ, ◌+◌, ◌-◌, ◌*◌, ◌/◌, ◌%◌, ◌^◌, ◌<◌, ◌≤◌, Bool};
ghost use Rattle.guest_types.specs.Length.{width_bits, modulus};
ghost use Rattle.guest_types.specs.Lanes.{biased, signed_lt, lane, sign_extended, unary, source_bits, shifted, ShiftFits, is_true, pred_bit, identity, fold_limit};

use crate::length::Width;

/// A binary operation of two elements. `Bic` is the first and not the second.
#[derive(Clone, Copy, PartialEq, Eq)]
pub enum LaneOp {
    Add,
    Sub,
    Mul,
    And,
    Or,
    Xor,
    Bic,
    SMin,
    SMax,
    UMin,
    UMax,
}

/// An operation of one element. The extensions read its lowest 8 (`B`), 16 (`H`) or 32 bits (`W`).
#[derive(Clone, Copy, PartialEq, Eq)]
pub enum LaneUnary {
    Abs,
    Neg,
    Not,
    SxtB,
    UxtB,
    SxtH,
    UxtH,
    SxtW,
    UxtW,
}

/// A shift by a fixed count.
#[derive(Clone, Copy, PartialEq, Eq)]
pub enum ShiftOp {
    Lsl,
    Lsr,
    Asr,
}

/// An operation of two predicates. `Bic` is the first and not the second.
#[derive(Clone, Copy, PartialEq, Eq)]
pub enum PredOp {
    And,
    Bic,
    Eor,
    Orr,
}

/// A reduction of the active elements to one number.
#[derive(Clone, Copy, PartialEq, Eq)]
pub enum ReduceOp {
    UAdd,
    SMax,
    UMax,
    SMin,
    UMin,
    Or,
    Xor,
    And,
}

/// A comparison of two elements: `Hs` and `Hi` are unsigned, `Ge` and `Gt` signed.
#[derive(Clone, Copy, PartialEq, Eq)]
pub enum LaneCompare {
    Hs,
    Hi,
    Ge,
    Gt,
    Eq,
    Ne,
}

/// The place of an element in the signed order: its number with the top bit turned.
pub fn biased(width: Width, a: u64) -> u64
    requires { a < modulus width }
    ensures { result ≡ biased (modulus width) a }
{
    width.wrap(a.wrapping_add(width.max() / 2 + 1))
}

/// Whether an element is below another as a signed number.
pub fn signed_lt(width: Width, a: u64, b: u64) -> bool
    requires { (a < modulus width) × (b < modulus width) }
    ensures { result ≡ signed_lt (modulus width) a b }
{
    biased(width, a) < biased(width, b)
}

impl LaneOp {
    /// The operation on two elements of a width.
    pub fn apply(self, width: Width, a: u64, b: u64) -> u64
        requires { (a < modulus width) × (b < modulus width) }
        ensures { result ≡ lane self (modulus width) a b }
    {
        match self {
            LaneOp::Add => width.wrap(a.wrapping_add(b)),
            LaneOp::Sub => width.wrap(a.wrapping_sub(b)),
            LaneOp::Mul => width.wrap(a.wrapping_mul(b)),
            LaneOp::And => a & b,
            LaneOp::Or => a | b,
            LaneOp::Xor => a ^ b,
            LaneOp::Bic => a & (width.max() - b),
            LaneOp::SMin => { if signed_lt(width, a, b) { a } else { b } }
            LaneOp::SMax => { if signed_lt(width, a, b) { b } else { a } }
            LaneOp::UMin => a.min(b),
            LaneOp::UMax => a.max(b),
        }
    }
}

/// The lowest bits of an element, as many as `source` has, as a signed number of a width.
pub fn sign_extended(source: Width, width: Width, a: u64) -> u64
    requires { width_bits source ≤ width_bits width }
    ensures { result ≡ sign_extended (modulus source) (modulus width) a }
{
    let low = source.wrap(a);
    if low <= source.max() / 2 {
        low
    } else {
        low + (width.max() - source.max())
    }
}

impl LaneUnary {
    /// The operation on an element of a width, which is wider than what an extension reads.
    pub fn apply(self, width: Width, a: u64) -> u64
        requires element { a < modulus width }
        requires narrower { source_bits self < width_bits width }
        ensures { result ≡ unary self (modulus width) a }
    {
        match self {
            LaneUnary::Abs => {
                if a <= width.max() / 2 {
                    a
                } else {
                    width.max() - a + 1
                }
            }
            LaneUnary::Neg => width.wrap((width.max() - a).wrapping_add(1)),
            LaneUnary::Not => width.max() - a,
            LaneUnary::SxtB => sign_extended(Width::B, width, a),
            LaneUnary::UxtB => Width::B.wrap(a),
            LaneUnary::SxtH => sign_extended(Width::H, width, a),
            LaneUnary::UxtH => Width::H.wrap(a),
            LaneUnary::SxtW => sign_extended(Width::S, width, a),
            LaneUnary::UxtW => Width::S.wrap(a),
        }
    }
}

impl LaneCompare {
    /// Whether the comparison holds of two elements of a width.
    pub fn holds(self, width: Width, a: u64, b: u64) -> bool
        requires { (a < modulus width) × (b < modulus width) }
        ensures { result ≡ is_true self (modulus width) a b }
    {
        match self {
            LaneCompare::Hs => a >= b,
            LaneCompare::Hi => a > b,
            LaneCompare::Ge => biased(width, a) >= biased(width, b),
            LaneCompare::Gt => biased(width, a) > biased(width, b),
            LaneCompare::Eq => a == b,
            LaneCompare::Ne => a != b,
        }
    }
}

impl PredOp {
    /// The operation on two predicate bits.
    pub fn apply(self, left: bool, right: bool) -> bool
        ensures { result ≡ pred_bit self left right }
    {
        match self {
            PredOp::And => left & right,
            PredOp::Bic => left & !right,
            PredOp::Eor => left ^ right,
            PredOp::Orr => left | right,
        }
    }
}

impl ReduceOp {
    /// What the reduction starts from, at a width.
    pub fn identity(self, width: Width) -> u64
        ensures value { result ≡ identity self (modulus width) }
        ensures fits { result < fold_limit self (modulus width) }
        ensures element { result < modulus width }
    {
        match self {
            ReduceOp::UAdd => 0,
            ReduceOp::SMax => width.max() / 2 + 1,
            ReduceOp::UMax => 0,
            ReduceOp::SMin => width.max() / 2,
            ReduceOp::UMin => width.max(),
            ReduceOp::Or => 0,
            ReduceOp::Xor => 0,
            ReduceOp::And => width.max(),
        }
    }
}

/// A number shifted down by up to 64 bits.
pub fn shifted_down(a: u64, count: u32) -> u64
    requires { count ≤ 64 }
    ensures { result ≡ a / 2 ^ count }
{
    if count < 64 { a >> count } else { 0 }
}

impl ShiftOp {
    /// The shift of an element of a width by a count that the instruction has there.
    pub fn apply(self, width: Width, a: u64, count: u32) -> u64
        requires element { a < modulus width }
        requires count { ShiftFits self width count }
        ensures { result ≡ shifted self (modulus width) a count }
    {
        match self {
            ShiftOp::Lsl => width.wrap(a << count),
            ShiftOp::Lsr => shifted_down(a, count),
            ShiftOp::Asr => {
                if a <= width.max() / 2 {
                    shifted_down(a, count)
                } else {
                    shifted_down(a, count) + (width.max() - shifted_down(width.max(), count))
                }
            }
        }
    }
}
