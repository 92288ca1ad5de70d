//! The header of a file.

ghost use Rattle.std.specs.Prelude.{◌≡◌, ◌+◌, ◌*◌, ◌<◌, ◌≤◌, ◌&&◌, length, IfOk, IfErr, Err};
ghost use Rattle.machine_model.specs.Load.{load, load_segments, segments_from, has_ident};

use crate::constants::{EM_AARCH64, ET_EXEC, HEADER_SIZE, PROGRAM_HEADER_SIZE};
use crate::fields::{read_u16, read_u64};
use machine_model::elf_fault::ElfFault;

// What is read of the header: the entry, and the offset and number of the program headers.
#[derive(Clone, Copy)]
pub struct FileHeader {
    pub entry: u64,
    pub phoff: u64,
    pub phnum: u16,
}

// The file begins as a file of 64 bits, little-endian data and version 1 does.
fn has_ident(bytes: &[u8]) -> bool
    requires { 64 ≤ length bytes.now }
    ensures { result ≡ has_ident bytes.now }
{
    bytes[0] == 0x7f
        && bytes[1] == b'E'
        && bytes[2] == b'L'
        && bytes[3] == b'F'
        && bytes[4] == 2
        && bytes[5] == 1
        && bytes[6] == 1
}

impl FileHeader {
    // The header of a file, or the first refusal that it calls for.
    pub fn read(bytes: &[u8]) -> Result<Self, ElfFault>
        ensures found { IfOk result (λ h. load bytes.now
            ≡ load_segments bytes.now h.entry (segments_from bytes.now h.phoff h.phnum)) }
        ensures table { IfOk result (λ h. 0 < h.phnum → h.phoff + 56 * h.phnum ≤ length bytes.now) }
        ensures refusal { IfErr result (λ fault. load bytes.now ≡ Err fault) }
    {
        let have = bytes.len();
        if have < usize::from(HEADER_SIZE) {
            return Err(ElfFault::Short {
                need: u128::from(HEADER_SIZE),
                have: have as u64,
            });
        }
        let header = FileHeader {
            entry: read_u64(bytes, 24),
            phoff: read_u64(bytes, 32),
            phnum: read_u16(bytes, 56),
        };
        if !has_ident(bytes) || (header.phnum != 0 && read_u16(bytes, 54) != PROGRAM_HEADER_SIZE) {
            return Err(ElfFault::NotElf);
        }
        if read_u16(bytes, 18) != EM_AARCH64 {
            return Err(ElfFault::NotAarch64);
        }
        if read_u16(bytes, 16) != ET_EXEC {
            return Err(ElfFault::NotStatic);
        }
        let need = u128::from(header.phoff)
            + u128::from(PROGRAM_HEADER_SIZE) * u128::from(header.phnum);
        if header.phnum != 0 && (have as u128) < need {
            return Err(ElfFault::Short {
                need,
                have: have as u64,
            });
        }
        Ok(header)
    }
}
