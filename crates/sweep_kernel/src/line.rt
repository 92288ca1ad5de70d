//! What a sweep prints of a length.

ghost use Rattle.std.specs.Prelude.{◌≡◌, ◌<◌, ◌++◌, OnOk};
ghost use Rattle.sweep_kernel.specs.LengthLine.{length_line, length_at};

use crate::text::push_numbered;
use dump_text::push_address;
use guest_types::length::Vl;
use std::alloc::AllocError;

/// The vector length at a place in their order, from 0.
pub fn length_at(place: u32) -> Vl
    requires { place < 16 }
    ensures { result ≡ length_at place }
{
    match Vl::new(128 * (place + 1)) {
        Some(vl) => vl,
        None => unreachable!(),
    }
}

/// Appends the line of a run that ended.
pub fn push_line(
    text: &mut Vec<u8>,
    vl: Vl,
    value: u64,
    steps: u64,
    sum: u64,
) -> Result<(), AllocError>
    ensures { OnOk result (text.new.items ≡ text.old.items ++ length_line vl value steps sum) }
{
    push_numbered(text, b"vl ", vl.bits() as u64)?;
    text.extend_from_slice(b" result 0x")?;
    push_address(text, value)?;
    push_numbered(text, b" steps ", steps)?;
    push_numbered(text, b" sum ", sum)?;
    text.extend_from_slice(b"\n")
}
