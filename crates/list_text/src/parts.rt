//! The parts of an instruction's text, each appended to a buffer.
ghost use Rattle.std.specs.Prelude.{◌≡◌, ◌≤◌, ◌<◌, ◌+◌, ◌*◌, ◌^◌, ◌++◌, length, decimal};
ghost use Rattle.arrayvec.specs.ArrayString.{array_string_len};
ghost use Rattle.a64_code.specs.View.{cond_number};
ghost use Rattle.sve_code.specs.Numbers.{size_number};
ghost use Rattle.list_text.specs.Parts.{general_register, signed_multiple, x_register, w_register, x_or_sp, w_or_sp, comma, constant, signed_constant, lsl_by, shift_name, shifted_by, at_offset, at_register, at_vector, cond_name, size_letter, dotted, z_register, p_register, access_letter};

use crate::LineBuf;
use a64_code::Cond;
use itoa::Buffer;
use sve_code::Size;
use word_rows::Bits;

pub fn push_decimal(into: &mut LineBuf, number: u32)
    requires { array_string_len into.old ≤ 54 }
    ensures bytes { into.new.bytes ≡ into.old.bytes ++ decimal number }
    ensures len { array_string_len into.new ≤ array_string_len into.old + 10 }
    ensures short { number < 100 → array_string_len into.new ≤ array_string_len into.old + 2 }
{
    into.push_str(Buffer::new().format(number));
}

/// Begins a text with a mnemonic.
pub fn begin(into: &mut LineBuf, mnemonic: &str)
    requires { length mnemonic.now ≤ 8 }
    ensures bytes { into.new.bytes ≡ mnemonic.now }
    ensures len { array_string_len into.new ≤ 8 }
{
    into.clear();
    into.push_str(mnemonic);
}

/// Begins a text with a mnemonic and an X register.
pub fn begin_x(into: &mut LineBuf, mnemonic: &str, register: Bits<5>)
    requires { length mnemonic.now ≤ 8 }
    ensures bytes { into.new.bytes ≡ mnemonic.now ++ x_register register.number }
    ensures len { array_string_len into.new ≤ 11 }
{
    begin(into, mnemonic);
    push_x(into, register);
}

/// Begins a text with a mnemonic and an X register or SP.
pub fn begin_x_or_sp(into: &mut LineBuf, mnemonic: &str, register: Bits<5>)
    requires { length mnemonic.now ≤ 8 }
    ensures bytes { into.new.bytes ≡ mnemonic.now ++ x_or_sp register.number }
    ensures len { array_string_len into.new ≤ 11 }
{
    begin(into, mnemonic);
    push_x_or_sp(into, register);
}

/// Begins a text with a mnemonic and a W register.
pub fn begin_w(into: &mut LineBuf, mnemonic: &str, register: Bits<5>)
    requires { length mnemonic.now ≤ 8 }
    ensures bytes { into.new.bytes ≡ mnemonic.now ++ w_register register.number }
    ensures len { array_string_len into.new ≤ 11 }
{
    begin(into, mnemonic);
    push_w(into, register);
}

// Appends a general-purpose register: the letter of its size and its number, or what number 31 is called.
fn push_register(into: &mut LineBuf, letter: &str, last: &str, register: Bits<5>)
    requires room { array_string_len into.old ≤ 50 }
    requires one { length letter.now ≤ 1 }
    requires three { length last.now ≤ 3 }
    ensures bytes { into.new.bytes ≡ into.old.bytes ++ general_register letter.now last.now register.number }
    ensures len { array_string_len into.new ≤ array_string_len into.old + 3 }
{
    if register.number == 31 {
        into.push_str(last);
    } else {
        into.push_str(letter);
        push_decimal(into, register.number);
    }
}

pub fn push_x(into: &mut LineBuf, register: Bits<5>)
    requires { array_string_len into.old ≤ 50 }
    ensures bytes { into.new.bytes ≡ into.old.bytes ++ x_register register.number }
    ensures len { array_string_len into.new ≤ array_string_len into.old + 3 }
{
    push_register(into, "x", "xzr", register);
}

pub fn push_w(into: &mut LineBuf, register: Bits<5>)
    requires { array_string_len into.old ≤ 50 }
    ensures bytes { into.new.bytes ≡ into.old.bytes ++ w_register register.number }
    ensures len { array_string_len into.new ≤ array_string_len into.old + 3 }
{
    push_register(into, "w", "wzr", register);
}

pub fn push_x_or_sp(into: &mut LineBuf, register: Bits<5>)
    requires { array_string_len into.old ≤ 50 }
    ensures bytes { into.new.bytes ≡ into.old.bytes ++ x_or_sp register.number }
    ensures len { array_string_len into.new ≤ array_string_len into.old + 3 }
{
    push_register(into, "x", "sp", register);
}

pub fn push_w_or_sp(into: &mut LineBuf, register: Bits<5>)
    requires { array_string_len into.old ≤ 50 }
    ensures bytes { into.new.bytes ≡ into.old.bytes ++ w_or_sp register.number }
    ensures len { array_string_len into.new ≤ array_string_len into.old + 3 }
{
    push_register(into, "w", "wsp", register);
}

/// Appends a comma and an X register.
pub fn comma_x(into: &mut LineBuf, register: Bits<5>)
    requires { array_string_len into.old ≤ 48 }
    ensures bytes { into.new.bytes ≡ into.old.bytes ++ comma ++ x_register register.number }
    ensures len { array_string_len into.new ≤ array_string_len into.old + 5 }
{
    into.push_str(", ");
    push_x(into, register);
}

/// Appends a comma and an X register or SP.
pub fn comma_x_or_sp(into: &mut LineBuf, register: Bits<5>)
    requires { array_string_len into.old ≤ 48 }
    ensures bytes { into.new.bytes ≡ into.old.bytes ++ comma ++ x_or_sp register.number }
    ensures len { array_string_len into.new ≤ array_string_len into.old + 5 }
{
    into.push_str(", ");
    push_x_or_sp(into, register);
}

pub fn push_constant(into: &mut LineBuf, number: u32)
    requires { array_string_len into.old ≤ 53 }
    ensures bytes { into.new.bytes ≡ into.old.bytes ++ constant number }
    ensures len { array_string_len into.new ≤ array_string_len into.old + 11 }
{
    into.push_str("#");
    push_decimal(into, number);
}

/// Appends a comma and a number.
pub fn comma_constant(into: &mut LineBuf, number: u32)
    requires { array_string_len into.old ≤ 51 }
    ensures bytes { into.new.bytes ≡ into.old.bytes ++ comma ++ constant number }
    ensures len { array_string_len into.new ≤ array_string_len into.old + 13 }
{
    into.push_str(", ");
    push_constant(into, number);
}

// Appends a multiple of `unit` in two's complement, where the numbers from `half` on are the negative ones.
fn push_signed(into: &mut LineBuf, unit: u32, half: u32, number: u32)
    requires room { array_string_len into.old ≤ 52 }
    requires range { number < 2 * half }
    requires fits { unit * (2 * half) < 2 ^ 32 }
    requires some { 0 < unit }
    ensures { into.new.bytes ≡ into.old.bytes ++ signed_multiple unit half number }
{
    if number < half {
        into.push_str("#");
        push_decimal(into, unit * number);
    } else {
        into.push_str("#-");
        push_decimal(into, unit * (2 * half - number));
    }
}

/// Appends the offset of a branch in bytes, from its field of 19 bits.
pub fn push_offset_19(into: &mut LineBuf, field: Bits<19>)
    requires { array_string_len into.old ≤ 52 }
    ensures bytes { into.new.bytes ≡ into.old.bytes ++ signed_constant 4 19 field.number }
{
    push_signed(into, 4, 0x4_0000, field.number);
}

/// Appends the offset of a branch in bytes, from its field of 26 bits.
pub fn push_offset_26(into: &mut LineBuf, field: Bits<26>)
    requires { array_string_len into.old ≤ 52 }
    ensures bytes { into.new.bytes ≡ into.old.bytes ++ signed_constant 4 26 field.number }
{
    push_signed(into, 4, 0x200_0000, field.number);
}

/// Appends a signed number of 5 bits.
pub fn push_signed_5(into: &mut LineBuf, field: Bits<5>)
    requires { array_string_len into.old ≤ 52 }
    ensures bytes { into.new.bytes ≡ into.old.bytes ++ signed_constant 1 5 field.number }
{
    push_signed(into, 1, 16, field.number);
}

/// Appends a shift to the left, where it is not by 0.
pub fn push_lsl(into: &mut LineBuf, amount: u32)
    requires short { amount < 100 }
    requires room { array_string_len into.old ≤ 46 }
    ensures bytes { into.new.bytes ≡ into.old.bytes ++ lsl_by amount }
    ensures len { array_string_len into.new ≤ array_string_len into.old + 9 }
{
    if amount != 0 {
        into.push_str(", lsl #");
        push_decimal(into, amount);
    }
}

/// Appends a shift by its number, where it is not LSL by 0.
pub fn push_shift(into: &mut LineBuf, shift: u32, amount: u32)
    requires { array_string_len into.old ≤ 46 }
    ensures { into.new.bytes ≡ into.old.bytes ++ shifted_by shift amount }
{
    if (shift == 0) & (amount == 0) {
        return;
    }
    into.push_str(name_of_shift(shift));
    push_constant(into, amount);
}

fn name_of_shift(shift: u32) -> &'static str
    ensures name { result.now ≡ shift_name shift }
    ensures len { length result.now ≡ 6 }
{
    match shift {
        0 => ", lsl ",
        1 => ", lsr ",
        2 => ", asr ",
        _ => ", ror ",
    }
}

/// Appends an address with an offset in bytes, which is left out where it is 0.
pub fn push_offset_address(into: &mut LineBuf, base: Bits<5>, bytes: u32)
    requires { array_string_len into.old ≤ 44 }
    ensures { into.new.bytes ≡ into.old.bytes ++ at_offset base.number bytes }
{
    into.push_str(", [");
    push_x_or_sp(into, base);
    if bytes != 0 {
        comma_constant(into, bytes);
    }
    into.push_str("]");
}

/// Appends an address with a register of offsets, shifted to the left.
pub fn push_register_address(into: &mut LineBuf, base: Bits<5>, offset: Bits<5>, shift: u32)
    requires short { shift < 100 }
    requires room { array_string_len into.old ≤ 35 }
    ensures { into.new.bytes ≡ into.old.bytes ++ at_register base.number offset.number shift }
{
    into.push_str(", [");
    push_x_or_sp(into, base);
    comma_x(into, offset);
    push_lsl(into, shift);
    into.push_str("]");
}

pub fn name_of_cond(cond: Cond) -> &'static str
    ensures name { result.now ≡ cond_name (cond_number cond) }
    ensures len { length result.now ≡ 2 }
{
    match cond {
        Cond::Eq => "eq",
        Cond::Ne => "ne",
        Cond::Hs => "hs",
        Cond::Lo => "lo",
        Cond::Mi => "mi",
        Cond::Pl => "pl",
        Cond::Vs => "vs",
        Cond::Vc => "vc",
        Cond::Hi => "hi",
        Cond::Ls => "ls",
        Cond::Ge => "ge",
        Cond::Lt => "lt",
        Cond::Gt => "gt",
        Cond::Le => "le",
        Cond::Al => "al",
    }
}

/// The letter of a scalar in a vector register.
pub fn letter_of(size: Size) -> &'static str
    ensures name { result.now ≡ size_letter (size_number size) }
    ensures len { length result.now ≡ 1 }
{
    match size {
        Size::B => "b",
        Size::H => "h",
        Size::S => "s",
        Size::D => "d",
    }
}

/// What stands after a register of elements.
pub fn dotted_of(size: Size) -> &'static str
    ensures name { result.now ≡ dotted (size_number size) }
    ensures len { length result.now ≡ 2 }
{
    match size {
        Size::B => ".b",
        Size::H => ".h",
        Size::S => ".s",
        Size::D => ".d",
    }
}

/// The letter of an access to memory.
pub fn access_letter_of(size: Size) -> &'static str
    ensures name { result.now ≡ access_letter (size_number size) }
    ensures len { length result.now ≡ 1 }
{
    match size {
        Size::B => "b",
        Size::H => "h",
        Size::S => "w",
        Size::D => "d",
    }
}

pub fn push_z(into: &mut LineBuf, register: Bits<5>, size: Size)
    requires { array_string_len into.old ≤ 50 }
    ensures bytes { into.new.bytes ≡ into.old.bytes ++ z_register (size_number size) register.number }
    ensures len { array_string_len into.new ≤ array_string_len into.old + 5 }
{
    into.push_str("z");
    push_decimal(into, register.number);
    into.push_str(dotted_of(size));
}

/// Appends a comma and a vector register.
pub fn comma_z(into: &mut LineBuf, register: Bits<5>, size: Size)
    requires { array_string_len into.old ≤ 48 }
    ensures bytes { into.new.bytes ≡ into.old.bytes ++ comma ++ z_register (size_number size) register.number }
    ensures len { array_string_len into.new ≤ array_string_len into.old + 7 }
{
    into.push_str(", ");
    push_z(into, register, size);
}

/// Begins a text with a mnemonic and a vector register.
pub fn begin_z(into: &mut LineBuf, mnemonic: &str, register: Bits<5>, size: Size)
    requires { length mnemonic.now ≤ 8 }
    ensures bytes { into.new.bytes ≡ mnemonic.now ++ z_register (size_number size) register.number }
    ensures len { array_string_len into.new ≤ 13 }
{
    begin(into, mnemonic);
    push_z(into, register, size);
}

pub fn push_p(into: &mut LineBuf, number: u32)
    requires below { number < 16 }
    requires room { array_string_len into.old ≤ 50 }
    ensures bytes { into.new.bytes ≡ into.old.bytes ++ p_register number }
    ensures len { array_string_len into.new ≤ array_string_len into.old + 3 }
{
    into.push_str("p");
    push_decimal(into, number);
}

/// Appends an address with a vector of offsets.
pub fn push_vector_address(into: &mut LineBuf, base: Bits<5>, offsets: Bits<5>)
    requires { array_string_len into.old ≤ 35 }
    ensures { into.new.bytes ≡ into.old.bytes ++ at_vector base.number offsets.number }
{
    into.push_str(", [");
    push_x_or_sp(into, base);
    comma_z(into, offsets, Size::D);
    into.push_str("]");
}

/// Appends a comma and a predicate register.
pub fn comma_p(into: &mut LineBuf, number: u32)
    requires below { number < 16 }
    requires room { array_string_len into.old ≤ 48 }
    ensures bytes { into.new.bytes ≡ into.old.bytes ++ comma ++ p_register number }
    ensures len { array_string_len into.new ≤ array_string_len into.old + 5 }
{
    into.push_str(", ");
    push_p(into, number);
}

/// Begins a text with a mnemonic and a predicate register.
pub fn begin_p(into: &mut LineBuf, mnemonic: &str, number: u32)
    requires below { number < 16 }
    requires short { length mnemonic.now ≤ 8 }
    ensures bytes { into.new.bytes ≡ mnemonic.now ++ p_register number }
    ensures len { array_string_len into.new ≤ 11 }
{
    begin(into, mnemonic);
    push_p(into, number);
}
