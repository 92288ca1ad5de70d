//! The text of a dump of memory.
#![tactic(auto)]

ghost use Rattle.std.specs.Prelude.{◌≡◌, ◌+◌, ◌≤◌, ◌^◌, ◌++◌, OnOk, IfOk, option_map};
ghost use Rattle.std.specs.List.{flat_map, range_with_len};
ghost use Rattle.number_text.specs.Hexadecimal.{hex_digits};
ghost use Rattle.machine_model.specs.DumpText.{shown, byte_text, dump_line, dump_text};

use paged_memory::pages::Pages;
use std::alloc::{AllocError, Global};

// The bytes of a line.
const LINE: u64 = 16;

/// The dump of so many bytes from an address on: sixteen to a line, each as two hexadecimal digits, or as `--` where no
/// page is mapped.
#[tactic(auto, unfolding(machine_model::specs::DumpText::dump_text))]
pub fn dump_text(
    alloc: Global,
    pages: &Pages,
    address: u64,
    len: u64,
) -> Result<Vec<u8>, AllocError>
    requires { address + len ≤ 2 ^ 64 }
    ensures { IfOk result (λ text. text.items ≡ dump_text pages.now.memory address len) }
{
    let mut text = Vec::new(alloc);
    for k in 0..len.div_ceil(LINE) {
        let done = LINE * k;
        push_line(&mut text, pages, address + done, LINE.min(len - done))?;
    }
    Ok(text)
}

// The line of so many bytes from an address on.
fn push_line(text: &mut Vec<u8>, pages: &Pages, address: u64, count: u64) -> Result<(), AllocError>
    requires { address + count ≤ 2 ^ 64 }
    ensures { OnOk result (text.new.items ≡ text.old.items ++ dump_line pages.now.memory address count) }
{
    push_address(text, address)?;
    text.extend_from_slice(b":")?;
    push_bytes(text, pages, address, count)?;
    text.extend_from_slice(b"\n")
}

// So many bytes from an address on.
fn push_bytes(text: &mut Vec<u8>, pages: &Pages, address: u64, count: u64) -> Result<(), AllocError>
    requires { address + count ≤ 2 ^ 64 }
    ensures { OnOk result (text.new.items ≡ text.old.items
        ++ flat_map (byte_text pages.now.memory) (range_with_len address count)) }
{
    for k in 0..count {
        push_shown(text, pages.byte(address + k))?;
    }
    Ok(())
}

// A byte, or what stands for one that is not mapped.
fn push_shown(text: &mut Vec<u8>, byte: Option<u8>) -> Result<(), AllocError>
    ensures { OnOk result (text.new.items ≡ text.old.items ++ shown byte) }
{
    match byte {
        Some(byte) => push_byte(text, byte),
        None => text.extend_from_slice(b" --"),
    }
}

// A space and a byte.
fn push_byte(text: &mut Vec<u8>, byte: u8) -> Result<(), AllocError>
    ensures { OnOk result (text.new.items ≡ text.old.items ++ shown (Some byte)) }
{
    text.extend_from_slice(b" ")?;
    text.extend_from_slice(&byte_digits(byte))
}

/// Appends a number of 64 bits in sixteen hexadecimal digits.
pub fn push_address(text: &mut Vec<u8>, address: u64) -> Result<(), AllocError>
    ensures { OnOk result (text.new.items ≡ text.old.items ++ hex_digits 16 address) }
{
    text.extend_from_slice(&address_digits(address))
}

/// The two hexadecimal digits of a byte.
pub fn byte_digits(byte: u8) -> [u8; 2]
    ensures { result ≡ hex_digits 2 byte }
{
    let mut digits = [0; 2];
    let Ok(()) = hex::encode_to_slice([byte], &mut digits) else {
        unreachable!()
    };
    digits
}

/// The sixteen hexadecimal digits of a number of 64 bits.
pub fn address_digits(address: u64) -> [u8; 16]
    ensures { result ≡ hex_digits 16 address }
{
    let mut digits = [0; 16];
    let Ok(()) = hex::encode_to_slice(address.to_be_bytes(), &mut digits) else {
        unreachable!()
    };
    digits
}
