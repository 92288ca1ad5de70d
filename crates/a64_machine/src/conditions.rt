//! Condition flags.

ghost use Rattle.std.specs.Prelude.{◌≡◌, ◌<◌, ◌^◌};
ghost use Rattle.guest_types.specs.Elements.{Flags, nzcv};
ghost use Rattle.a64_code.specs.View.{cond_number};
ghost use Rattle.machine_model.specs.Arithmetic.{flags_of, holds};
ghost use Rattle.a64_machine.specs.Cores.{flags_in, flags_kept, is_set};

use crate::core_state::FlagState;
use a64_code::Cond;

/// The flags as the lowest four bits of a number.
#[inline(always)]
pub fn nzcv(n: bool, z: bool, c: bool, v: bool) -> u8
    ensures { flags_in result ≡ record { n = n; z = z; c = c; v = v } }
{
    8 * u8::from(n) + 4 * u8::from(z) + 2 * u8::from(c) + u8::from(v)
}

/// A flag, by its bit.
#[inline(always)]
fn flag(nzcv: u8, bit: u32) -> bool
    requires { bit < 8 }
    ensures { result ≡ is_set nzcv bit }
{
    (nzcv >> bit) & 1 == 1
}

/// The flags of a - b.
#[inline(always)]
pub fn flags_of(a: u64, b: u64) -> u8
    ensures { flags_in result ≡ flags_of a b }
{
    let difference = a.wrapping_sub(b);
    let left = a >= 1 << 63;
    let right = b >= 1 << 63;
    let negative = difference >= 1 << 63;
    nzcv(
        negative,
        difference == 0,
        a >= b,
        (left != right) & (left != negative),
    )
}

/// Whether a condition holds.
#[inline(always)]
pub fn holds(cond: Cond, nzcv: u8) -> bool
    ensures { result ≡ holds (cond_number cond) (flags_in nzcv) }
{
    let n = flag(nzcv, 3);
    let z = flag(nzcv, 2);
    let c = flag(nzcv, 1);
    let v = flag(nzcv, 0);
    match cond {
        Cond::Eq => z,
        Cond::Ne => !z,
        Cond::Hs => c,
        Cond::Lo => !c,
        Cond::Mi => n,
        Cond::Pl => !n,
        Cond::Vs => v,
        Cond::Vc => !v,
        Cond::Hi => c & !z,
        Cond::Ls => !c | z,
        Cond::Ge => n == v,
        Cond::Lt => n != v,
        Cond::Gt => !z & (n == v),
        Cond::Le => z | (n != v),
        Cond::Al => true,
    }
}

/// The flags as a number below 16, V the lowest.
#[inline(always)]
pub fn flag_bits(number: u8) -> u8
    ensures value { result ≡ nzcv (flags_in number) }
    ensures small { result < 16 }
{
    number & 0xf
}

/// The flags by which a condition holds: bit k is 1 where it does by the flags that are the number k.
pub fn holding(cond: Cond) -> u16
    ensures { (f : Flags) → is_set result (nzcv f) ≡ holds (cond_number cond) f }
{
    match cond {
        Cond::Eq => 0xf0f0,
        Cond::Ne => 0x0f0f,
        Cond::Hs => 0xcccc,
        Cond::Lo => 0x3333,
        Cond::Mi => 0xff00,
        Cond::Pl => 0x00ff,
        Cond::Vs => 0xaaaa,
        Cond::Vc => 0x5555,
        Cond::Hi => 0x0c0c,
        Cond::Ls => 0xf3f3,
        Cond::Ge => 0xaa55,
        Cond::Lt => 0x55aa,
        Cond::Gt => 0x0a05,
        Cond::Le => 0xf5fa,
        Cond::Al => 0xffff,
    }
}

/// Whether a bit of a number of 16 bits is 1.
#[inline(always)]
pub fn is_in(number: u16, bit: u8) -> bool
    requires { bit < 16 }
    ensures { result ≡ is_set number bit }
{
    (number >> bit) & 1 == 1
}

/// Whether a bit of a number of 16 bits is 1 that the flags of one number less another are as a number. Four conditions are
/// told from the numbers alone.
#[inline(always)]
pub fn is_after(left: u64, right: u64, among: u16) -> bool
    ensures { result ≡ is_set among (nzcv (flags_of left right)) }
{
    match among {
        0x0f0f => left != right,
        0xf0f0 => left == right,
        0x3333 => left < right,
        0xcccc => left >= right,
        _ => is_in(among, flag_bits(flags_of(left, right))),
    }
}

impl FlagState {
    /// The flags as the lowest four bits of a number.
    #[inline(always)]
    pub fn bits(self) -> u8
        ensures { flags_in result ≡ flags_kept self }
    {
        match self {
            FlagState::Bits(number) => number,
            FlagState::Compared { left, right } => flags_of(left, right),
        }
    }

    /// Whether bit k of a number of 16 bits is 1 where the flags are the number k.
    #[inline(always)]
    pub fn is_among(self, among: u16) -> bool
        ensures { result ≡ is_set among (nzcv (flags_kept self)) }
    {
        match self {
            FlagState::Bits(number) => is_in(among, flag_bits(number)),
            FlagState::Compared { left, right } => is_after(left, right, among),
        }
    }
}
