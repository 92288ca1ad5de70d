//! Lines that are put on an output, from fixed buffers.

ghost use Rattle.std.specs.Prelude.{◌≡◌, ◌+◌, ◌<◌, ◌≤◌, ◌^◌, ◌++◌, decimal, length, slice_index};
ghost use Rattle.std.specs.List.{flat_map};
ghost use Rattle.io_edges.specs.Sink.{PutsText};
ghost use Rattle.machine_model.specs.DumpText.{dump_line, dump_text};
ghost use Rattle.number_text.specs.Hexadecimal.{hex_text};
ghost use Rattle.sve_debug.specs.Replies.{line, named_text, place_text, stand_text};
ghost use Rattle.sve_debug.specs.DebuggerState.{at_text, end_text, stop_text};

use crate::digits::memory_bytes;
use circular_buffer::HeapCircularBuffer;
use dump_text::address_digits;
use io_edges::sink::{Failed, Sink, put_pieces};
use itoa::Buffer;
use machine_model::debuggee::Debuggee;
use machine_model::outcome::Stop;
use outcome_text::kind_name;

/// Puts a line of four pieces.
pub fn put_line<S: Sink>(
    out: &mut S,
    first: &[u8],
    second: &[u8],
    third: &[u8],
    fourth: &[u8],
) -> Result<(), Failed>
    ensures { let text = line (first.now ++ (second.now ++ (third.now ++ fourth.now))) in
        PutsText (S.taken out.old) (S.taken out.new) (S.faults out.old) (S.faults out.new) text result }
{
    put_pieces(out, &[first, second, third, fourth, b"\n".as_slice()])
}

/// Puts a name with its number and a text.
pub fn put_numbered<S: Sink>(
    out: &mut S,
    name: &[u8],
    number: u64,
    front: &[u8],
    text: &[u8],
) -> Result<(), Failed>
    ensures { let text = line (name.now ++ (decimal number ++ (front.now ++ text.now))) in
        PutsText (S.taken out.old) (S.taken out.new) (S.faults out.old) (S.faults out.new) text result }
{
    let mut buffer = Buffer::new();
    let digits = buffer.format(number).as_bytes();
    put_line(out, name, digits, front, text)
}

/// Puts a name and a number of 64 bits.
pub fn put_named<S: Sink>(out: &mut S, name: &[u8], value: u64) -> Result<(), Failed>
    ensures { let text = named_text name.now value in
        PutsText (S.taken out.old) (S.taken out.new) (S.faults out.old) (S.faults out.new) text result }
{
    let digits = address_digits(value);
    put_line(out, name, b" 0x", &digits, b"")
}

/// Puts where a machine stands after so many steps.
pub fn put_place<S: Sink>(out: &mut S, pc: u64, steps: u64) -> Result<(), Failed>
    ensures { let text = at_text pc steps in
        PutsText (S.taken out.old) (S.taken out.new) (S.faults out.old) (S.faults out.new) text result }
{
    let mut buffer = Buffer::new();
    let count = buffer.format(steps).as_bytes();
    let digits = address_digits(pc);
    put_line(out, b"at 0x", &digits, b" steps ", count)
}

/// Puts the end of a run.
pub fn put_end<S: Sink>(out: &mut S, value: u64, steps: u64) -> Result<(), Failed>
    ensures { let text = end_text value steps in
        PutsText (S.taken out.old) (S.taken out.new) (S.faults out.old) (S.faults out.new) text result }
{
    let mut buffer = Buffer::new();
    let count = buffer.format(steps).as_bytes();
    let digits = address_digits(value);
    put_line(out, b"result 0x", &digits, b"\nsteps ", count)
}

/// Puts the stop of a run.
pub fn put_stop<S: Sink>(out: &mut S, stop: Stop, steps: u64) -> Result<(), Failed>
    ensures { let text = stop_text stop steps in
        PutsText (S.taken out.old) (S.taken out.new) (S.faults out.old) (S.faults out.new) text result }
{
    let mut buffer = Buffer::new();
    let count = buffer.format(steps).as_bytes();
    let pc = address_digits(stop.pc);
    let at = address_digits(stop.at);
    put_pieces(
        out,
        &[
            b"stop ".as_slice(),
            kind_name(stop.kind),
            b" pc 0x".as_slice(),
            pc.as_slice(),
            b" at 0x".as_slice(),
            at.as_slice(),
            b"\nsteps ".as_slice(),
            count,
            b"\n".as_slice(),
        ],
    )
}

// Puts the line of so many bytes from an address on.
fn put_dump_line<D: Debuggee, S: Sink>(
    out: &mut S,
    machine: &D,
    address: u64,
    count: u64,
) -> Result<(), Failed>
    requires few { count ≤ 16 }
    requires below { address + count ≤ 2 ^ 64 }
    ensures { let text = dump_line (D.view_of machine.now).state.memory address count in
        PutsText (S.taken out.old) (S.taken out.new) (S.faults out.old) (S.faults out.new) text result }
{
    let digits = address_digits(address);
    let bytes = memory_bytes(machine, address, count);
    put_line(out, &digits, b":", bytes.as_slice(), b"")
}

// The bytes of a line of a dump.
const LINE: u64 = 16;

/// Puts the dump of so many bytes from an address on.
#[tactic(auto, unfolding(machine_model::specs::DumpText::dump_text))]
pub fn put_dump<D: Debuggee, S: Sink>(
    out: &mut S,
    machine: &D,
    address: u64,
    len: u64,
) -> Result<(), Failed>
    requires { address + len ≤ 2 ^ 64 }
    ensures { let text = dump_text (D.view_of machine.now).state.memory address len in
        PutsText (S.taken out.old) (S.taken out.new) (S.faults out.old) (S.faults out.new) text result }
{
    for k in 0..len.div_ceil(LINE) {
        let done = LINE * k;
        put_dump_line(out, machine, address + done, LINE.min(len - done))?;
    }
    Ok(())
}

// Puts the line of a place.
fn put_past<S: Sink>(out: &mut S, place: u64) -> Result<(), Failed>
    ensures { let text = place_text place in
        PutsText (S.taken out.old) (S.taken out.new) (S.faults out.old) (S.faults out.new) text result }
{
    let digits = address_digits(place);
    put_line(out, b"", b"", b"0x", &digits)
}

fn place_at(places: &HeapCircularBuffer<u64>, j: usize) -> u64
    requires { j < length places.now.items }
    ensures { result ≡ slice_index places.now.items j }
{
    match places.get(j) {
        Some(place) => *place,
        None => 0,
    }
}

/// Puts the lines of places.
pub fn put_places<S: Sink>(out: &mut S, places: &HeapCircularBuffer<u64>) -> Result<(), Failed>
    ensures { let text = flat_map place_text places.now.items in
        PutsText (S.taken out.old) (S.taken out.new) (S.faults out.old) (S.faults out.new) text result }
{
    for j in 0..places.len() {
        put_past(out, place_at(places, j))?;
    }
    Ok(())
}
