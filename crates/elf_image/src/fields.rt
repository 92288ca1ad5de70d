//! The little-endian fields of a file.

ghost use Rattle.std.specs.Prelude.{◌≡◌, ◌+◌, ◌≤◌, ◌++◌, length, IfOk};
ghost use Rattle.std.specs.Int.{to_le_bytes, w16, w32, w64};
ghost use Rattle.machine_model.specs.Load.{le_at};

use byteorder::{ByteOrder, LittleEndian};
use std::alloc::AllocError;

// The field of two bytes at an offset.
#[tactic(auto, using(crate::proofs::Places::field_is))]
pub fn read_u16(bytes: &[u8], at: usize) -> u16
    requires { at + 2 ≤ length bytes.now }
    ensures { result ≡ le_at bytes.now at 2 }
{
    LittleEndian::read_u16(&bytes[at..])
}

// The field of four bytes at an offset.
#[tactic(auto, using(crate::proofs::Places::field_is))]
pub fn read_u32(bytes: &[u8], at: usize) -> u32
    requires { at + 4 ≤ length bytes.now }
    ensures { result ≡ le_at bytes.now at 4 }
{
    LittleEndian::read_u32(&bytes[at..])
}

// The field of eight bytes at an offset.
#[tactic(auto, using(crate::proofs::Places::field_is))]
pub fn read_u64(bytes: &[u8], at: usize) -> u64
    requires { at + 8 ≤ length bytes.now }
    ensures { result ≡ le_at bytes.now at 8 }
{
    LittleEndian::read_u64(&bytes[at..])
}

// Appends a field of two bytes.
pub fn put_u16(file: &mut Vec<u8>, value: u16) -> Result<(), AllocError>
    ensures { IfOk result (λ _. file.new.items ≡ file.old.items ++ to_le_bytes w16 value) }
{
    let mut field = [0; 2];
    LittleEndian::write_u16(&mut field, value);
    file.extend_from_slice(&field)
}

/// Appends a field of four bytes.
pub fn put_u32(file: &mut Vec<u8>, value: u32) -> Result<(), AllocError>
    ensures { IfOk result (λ _. file.new.items ≡ file.old.items ++ to_le_bytes w32 value) }
{
    let mut field = [0; 4];
    LittleEndian::write_u32(&mut field, value);
    file.extend_from_slice(&field)
}

/// Appends a field of eight bytes.
pub fn put_u64(file: &mut Vec<u8>, value: u64) -> Result<(), AllocError>
    ensures { IfOk result (λ _. file.new.items ≡ file.old.items ++ to_le_bytes w64 value) }
{
    let mut field = [0; 8];
    LittleEndian::write_u64(&mut field, value);
    file.extend_from_slice(&field)
}
