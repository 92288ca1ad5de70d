//! Texts of values in fixed buffers.

ghost use Rattle.std.specs.Prelude.{◌≡◌, ℕ, ◌+◌, ◌*◌, ◌^◌, ◌<◌, ◌≤◌, ◌++◌, ◌∷◌, [], Bool, length};
ghost use Rattle.std.specs.List.{flat_map, range_with_len};
ghost use Rattle.guest_types.specs.Elements.{Flags, nzcv};
ghost use Rattle.machine_model.specs.DumpText.{shown, byte_text};
ghost use Rattle.sve_debug.specs.Replies.{digit, flags_digits, bytes_text, bits_text};

use arrayvec::ArrayVec;
use dump_text::byte_digits;
use guest_types::predicate::PReg;
use machine_model::debuggee::Debuggee;

/// The text of a register at most.
pub type Text = ArrayVec<u8, 512>;

fn push(text: &mut Text, piece: &[u8])
    requires { length text.old.items + length piece.now ≤ 512 }
    ensures { text.new.items ≡ text.old.items ++ piece.now }
{
    let Ok(()) = text.try_extend_from_slice(piece) else {
        unreachable!()
    };
}

/// The first bytes of a list, in hexadecimal.
pub fn hex_bytes(bytes: &[u8; 256], count: usize) -> Text
    requires { count ≤ 256 }
    ensures { result.items ≡ bytes_text count bytes.now }
{
    let mut text = Text::new();
    for j in 0..count {
        push(&mut text, &byte_digits(bytes[j]));
    }
    text
}

fn bit_digit(bit: bool) -> u8
    ensures { result ≡ digit bit }
{
    if bit { b'1' } else { b'0' }
}

/// The first bits of a predicate register.
pub fn bit_digits(register: &PReg, count: usize) -> Text
    requires { count ≤ 256 }
    ensures { result.items ≡ bits_text count register.now.bits }
{
    let mut text = Text::new();
    for j in 0..count {
        push(&mut text, &[bit_digit(register.bit(j))]);
    }
    text
}

/// The flags N, Z, C and V, which are bits 3 to 0 of a number.
pub fn flag_digits(bits: u8) -> [u8; 4]
    ensures { (f : Flags) → bits ≡ nzcv f → result ≡ flags_digits f }
{
    [
        48 + bits / 8 % 2,
        48 + bits / 4 % 2,
        48 + bits / 2 % 2,
        48 + bits % 2,
    ]
}

fn push_shown(text: &mut Text, byte: Option<u8>)
    requires { length text.old.items + 3 ≤ 512 }
    ensures text { text.new.items ≡ text.old.items ++ shown byte }
    ensures room { length text.new.items ≤ length text.old.items + 3 }
{
    match byte {
        Some(byte) => {
            push(text, b" ");
            push(text, &byte_digits(byte));
        }
        None => push(text, b" --"),
    }
}

/// So many bytes of memory from an address on, sixteen at most.
pub fn memory_bytes<D: Debuggee>(machine: &D, address: u64, count: u64) -> Text
    requires few { count ≤ 16 }
    requires below { address + count ≤ 2 ^ 64 }
    ensures { let memory = (D.view_of machine.now).state.memory in
        result.items ≡ flat_map (byte_text memory) (range_with_len address count) }
{
    let mut text = Text::new();
    for k in 0..count {
        push_shown(&mut text, machine.byte(address + k));
    }
    text
}
