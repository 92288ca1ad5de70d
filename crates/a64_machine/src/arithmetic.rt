//! Numbers of 64 bits as the A64 instructions compute with them.

ghost use Rattle.std.specs.Prelude.{◌≡◌, ◌<◌, ◌≤◌, ◌*◌, ◌+◌, ◌^◌, ◌%◌};
ghost use Rattle.a64_code.specs.View.{shift_number, add_sub_shift_number};
ghost use Rattle.machine_model.specs.Arithmetic.{sum, difference, inverted, shifted_word, replaced, target};

use a64_code::{AddSubShift, Shift};

/// A number shifted by less than 64 bits.
#[inline(always)]
pub fn shifted_word(shift: Shift, value: u64, by: u32) -> u64
    requires { by < 64 }
    ensures { result ≡ shifted_word (shift_number shift) value by }
{
    match shift {
        Shift::Lsl => value << by,
        Shift::Lsr => value >> by,
        Shift::Asr => (value.cast_signed() >> by).cast_unsigned(),
        Shift::Ror => value.rotate_right(by),
    }
}

/// A number shifted by less than 64 bits, as the second operand of an addition is.
#[inline(always)]
pub fn shifted_to_add(shift: AddSubShift, value: u64, by: u32) -> u64
    requires { by < 64 }
    ensures { result ≡ shifted_word (add_sub_shift_number shift) value by }
{
    match shift {
        AddSubShift::Lsl => value << by,
        AddSubShift::Lsr => value >> by,
        AddSubShift::Asr => (value.cast_signed() >> by).cast_unsigned(),
    }
}

/// A number with its 16 bits from bit 16 * hw on replaced.
#[inline(always)]
pub fn replaced(value: u64, hw: u32, imm16: u32) -> u64
    requires hw { hw < 4 }
    requires imm16 { imm16 < 2 ^ 16 }
    ensures { result ≡ replaced value (16 * hw) imm16 }
{
    let imm = u64::from(imm16);
    match hw {
        0 => value / 0x1_0000 * 0x1_0000 + imm,
        1 => value / 0x1_0000_0000 * 0x1_0000_0000 + imm * 0x1_0000 + value % 0x1_0000,
        2 => {
            value / 0x1_0000_0000_0000 * 0x1_0000_0000_0000
                + imm * 0x1_0000_0000
                + value % 0x1_0000_0000
        }
        _ => imm * 0x1_0000_0000_0000 + value % 0x1_0000_0000_0000,
    }
}

/// The immediate of 16 bits at bit 16 * hw.
#[inline(always)]
pub fn moved(hw: u32, imm16: u32) -> u64
    requires hw { hw < 4 }
    requires imm16 { imm16 < 2 ^ 16 }
    ensures { result ≡ imm16 * 2 ^ (16 * hw) }
{
    u64::from(imm16) << (16 * hw)
}

/// The place of a branch, by a signed number of words in a field of `width` bits.
#[inline(always)]
pub fn target(pc: u64, width: u32, imm: u32) -> u64
    requires some { 1 ≤ width }
    requires few { width ≤ 26 }
    requires fits { imm < 2 ^ width }
    ensures { result ≡ target pc width imm }
{
    let words = u64::from(imm);
    if words < 1 << (width - 1) {
        pc.wrapping_add(4 * words)
    } else {
        pc.wrapping_sub(4 * ((1 << width) - words))
    }
}
