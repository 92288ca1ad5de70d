//! Registers of a machine that are put on an output.

ghost use Rattle.std.specs.Prelude.{◌≡◌, ◌≤◌, ◌/◌, []};
ghost use Rattle.io_edges.specs.Sink.{PutsText};
ghost use Rattle.sve_debug.specs.Replies.{part_text};

use crate::command::Part;
use crate::digits::{bit_digits, flag_digits, hex_bytes};
use crate::put::{put_line, put_numbered};
use dump_text::address_digits;
use guest_types::length::Vl;
use io_edges::sink::{Failed, Sink};
use machine_model::debuggee::Debuggee;

// The bytes of a vector register, and the bits of a predicate register.
fn size(vl: Vl) -> usize
    ensures value { result ≡ vl / 8 }
    ensures most { result ≤ 256 }
{
    vl.bits() as usize / 8
}

/// Puts a general register.
pub fn put_general<D: Debuggee, S: Sink>(machine: &D, n: u64, out: &mut S) -> Result<(), Failed>
    requires { n ≤ 30 }
    ensures { let text = part_text (Part.General n) (D.view_of machine.now).state [] in
        PutsText (S.taken out.old) (S.taken out.new) (S.faults out.old) (S.faults out.new) text result }
{
    let digits = address_digits(machine.x(n as u32));
    put_numbered(out, b"x", n, b" 0x", &digits)
}

/// Puts a vector register.
pub fn put_vector<D: Debuggee, S: Sink>(machine: &D, n: u64, out: &mut S) -> Result<(), Failed>
    requires { n ≤ 31 }
    ensures { let text = part_text (Part.Vector n) (D.view_of machine.now).state [] in
        PutsText (S.taken out.old) (S.taken out.new) (S.faults out.old) (S.faults out.new) text result }
{
    let text = hex_bytes(&machine.z(n as u32).bytes, size(machine.vl()));
    put_numbered(out, b"z", n, b" ", text.as_slice())
}

/// Puts a predicate register.
pub fn put_predicate<D: Debuggee, S: Sink>(machine: &D, n: u64, out: &mut S) -> Result<(), Failed>
    requires { n ≤ 15 }
    ensures { let text = part_text (Part.Predicate n) (D.view_of machine.now).state [] in
        PutsText (S.taken out.old) (S.taken out.new) (S.faults out.old) (S.faults out.new) text result }
{
    let text = bit_digits(machine.p(n as u32), size(machine.vl()));
    put_numbered(out, b"p", n, b" ", text.as_slice())
}

/// Puts the first-fault register.
pub fn put_first_fault<D: Debuggee, S: Sink>(machine: &D, out: &mut S) -> Result<(), Failed>
    ensures { let text = part_text Part.FirstFault (D.view_of machine.now).state [] in
        PutsText (S.taken out.old) (S.taken out.new) (S.faults out.old) (S.faults out.new) text result }
{
    let text = bit_digits(machine.ffr(), size(machine.vl()));
    put_line(out, b"ffr ", text.as_slice(), b"", b"")
}

/// Puts the flags.
pub fn put_flags<D: Debuggee, S: Sink>(machine: &D, out: &mut S) -> Result<(), Failed>
    ensures { let text = part_text Part.Flags (D.view_of machine.now).state [] in
        PutsText (S.taken out.old) (S.taken out.new) (S.faults out.old) (S.faults out.new) text result }
{
    let digits = flag_digits(machine.nzcv());
    put_line(out, b"nzcv", b"", b" ", &digits)
}
