//! The lines that tell why a command is refused.

ghost use Rattle.io_edges.specs.Sink.{PutsText};
ghost use Rattle.machine_model.specs.OutcomeText.{line_feed};
ghost use Rattle.refusals.specs.Lines.{numbered, mismatch, line_of_fault, line_of_reading, line_of_typing, line_of_kernel, line_of_need, line_of_map, line_of_asm, line_of_pipe, line_of_refusal};

use crate::refusal::Refusal;
use io_edges::sink::{Failed, Sink, put_all, put_pieces};
use itoa::Buffer;
use kernel_front::KernelFault;
use kernel_syntax::ReadFault;
use kernel_tree::Ty;
use kernel_types::TypeFault;
use machine_model::elf_fault::ElfFault;
use map_text::MapFault;
use pipe_script::PipeFault;
use reg_assign::RegClass;
use sve_asm::AsmFault;

// Puts a text.
fn put<S: Sink>(sink: &mut S, text: &[u8]) -> Result<(), Failed>
    ensures { PutsText (S.taken sink.old) (S.taken sink.new) (S.faults sink.old) (S.faults sink.new) text.now result }
{
    put_all(sink, text)
}

// Puts why a file is too short.
fn put_short<S: Sink>(sink: &mut S, need: u128, have: u64) -> Result<(), Failed>
    ensures { PutsText (S.taken sink.old) (S.taken sink.new) (S.faults sink.old) (S.faults sink.new)
        (line_of_fault (ElfFault.Short need have)) result }
{
    let mut needed = Buffer::new();
    let mut had = Buffer::new();
    let needed = needed.format(need).as_bytes();
    let had = had.format(have).as_bytes();
    put_pieces(
        sink,
        &[
            b"svec: file: short ".as_slice(),
            needed,
            b" ".as_slice(),
            had,
            b"\n".as_slice(),
        ],
    )
}

// Puts a line that ends with a number.
fn put_numbered<S: Sink>(sink: &mut S, front: &[u8], number: u64) -> Result<(), Failed>
    ensures { PutsText (S.taken sink.old) (S.taken sink.new) (S.faults sink.old) (S.faults sink.new)
        (numbered front.now number) result }
{
    let mut buffer = Buffer::new();
    let digits = buffer.format(number).as_bytes();
    put_pieces(sink, &[front, digits, b"\n".as_slice()])
}

// Puts a line that ends with the number of a token, an item or the like.
fn put_item<S: Sink>(sink: &mut S, front: &[u8], item: u32) -> Result<(), Failed>
    ensures { PutsText (S.taken sink.old) (S.taken sink.new) (S.faults sink.old) (S.faults sink.new)
        (numbered front.now item) result }
{
    put_numbered(sink, front, u64::from(item))
}

// Puts a type that is wanted, and another that was found.
fn put_mismatch<S: Sink>(sink: &mut S, item: u32, want: Ty, found: Ty) -> Result<(), Failed>
    ensures { PutsText (S.taken sink.old) (S.taken sink.new) (S.faults sink.old) (S.faults sink.new)
        (mismatch item want found) result }
{
    let mut buffer = Buffer::new();
    let digits = buffer.format(item).as_bytes();
    put_pieces(
        sink,
        &[
            b"svec: kernel: want ".as_slice(),
            want.word().as_bytes(),
            b" found ".as_slice(),
            found.word().as_bytes(),
            b" at item ".as_slice(),
            digits,
            b"\n".as_slice(),
        ],
    )
}

// Puts why a text could not be read as a kernel.
fn put_reading<S: Sink>(sink: &mut S, fault: ReadFault) -> Result<(), Failed>
    ensures { PutsText (S.taken sink.old) (S.taken sink.new) (S.faults sink.old) (S.faults sink.new)
        (line_of_reading fault) result }
{
    match fault {
        ReadFault::TooLong => put(sink, b"svec: kernel: too long\n"),
        ReadFault::BadByte { at } => put_item(sink, b"svec: kernel: bad byte at ", at),
        ReadFault::TooDeep { token } => put_item(sink, b"svec: kernel: too deep at token ", token),
        ReadFault::Syntax { token } => put_item(sink, b"svec: kernel: syntax at token ", token),
        ReadFault::Memory => put(sink, b"svec: out of memory\n"),
    }
}

// Puts why a kernel is refused.
fn put_typing<S: Sink>(sink: &mut S, fault: TypeFault) -> Result<(), Failed>
    ensures { PutsText (S.taken sink.old) (S.taken sink.new) (S.faults sink.old) (S.faults sink.new)
        (line_of_typing fault) result }
{
    match fault {
        TypeFault::Unknown { item } => put_item(sink, b"svec: kernel: unknown name at item ", item),
        TypeFault::Twice { item } => put_item(
            sink,
            b"svec: kernel: name declared twice at item ",
            item,
        ),
        TypeFault::WrongKind { item } => put_item(sink, b"svec: kernel: wrong kind at item ", item),
        TypeFault::Mismatch { item, want, found } => put_mismatch(sink, item, want, found),
        TypeFault::Untyped { item } => put_item(sink, b"svec: kernel: no type at item ", item),
        TypeFault::LiteralRange { item } => put_item(
            sink,
            b"svec: kernel: literal out of range at item ",
            item,
        ),
        TypeFault::ShiftRange { item } => put_item(
            sink,
            b"svec: kernel: shift out of range at item ",
            item,
        ),
        TypeFault::OffsetRange { item } => put_item(
            sink,
            b"svec: kernel: offset out of range at item ",
            item,
        ),
        TypeFault::TooLarge { size } => put_item(sink, b"svec: kernel: too large ", size),
        TypeFault::TooDeep { depth } => put_item(sink, b"svec: kernel: too deep ", depth),
        TypeFault::Memory => put(sink, b"svec: out of memory\n"),
    }
}

// Puts that too many values of a class are live.
fn put_need<S: Sink>(sink: &mut S, class: RegClass, need: u32) -> Result<(), Failed>
    ensures { PutsText (S.taken sink.old) (S.taken sink.new) (S.faults sink.old) (S.faults sink.new)
        (line_of_need class need) result }
{
    match class {
        RegClass::Z => put_item(sink, b"svec: kernel: too many live z ", need),
        RegClass::P => put_item(sink, b"svec: kernel: too many live p ", need),
        RegClass::X => put_item(sink, b"svec: kernel: too many live x ", need),
    }
}

// Puts why a text is no kernel that can be compiled or run.
fn put_kernel<S: Sink>(sink: &mut S, fault: KernelFault) -> Result<(), Failed>
    ensures { PutsText (S.taken sink.old) (S.taken sink.new) (S.faults sink.old) (S.faults sink.new)
        (line_of_kernel fault) result }
{
    match fault {
        KernelFault::Unread(fault) => put_reading(sink, fault),
        KernelFault::Broken(fault) => put_typing(sink, fault),
    }
}

// Puts why a text is no page map that may stand beside a program.
fn put_map<S: Sink>(sink: &mut S, fault: MapFault) -> Result<(), Failed>
    ensures { PutsText (S.taken sink.old) (S.taken sink.new) (S.faults sink.old) (S.faults sink.new)
        (line_of_map fault) result }
{
    match fault {
        MapFault::BadLine { line } => put_numbered(sink, b"svec: map: bad line ", line),
        MapFault::Clash { line } => put_numbered(sink, b"svec: map: clash at line ", line),
        MapFault::Unmapped { line } => put_numbered(sink, b"svec: map: unmapped at line ", line),
        MapFault::TooManyPages => put(sink, b"svec: map: too many pages\n"),
        MapFault::Memory => put(sink, b"svec: out of memory\n"),
    }
}

// Puts why a text is none of words.
fn put_asm<S: Sink>(sink: &mut S, fault: AsmFault) -> Result<(), Failed>
    ensures { PutsText (S.taken sink.old) (S.taken sink.new) (S.faults sink.old) (S.faults sink.new)
        (line_of_asm fault) result }
{
    match fault {
        AsmFault::TooLong => put(sink, b"svec: asm: too long\n"),
        AsmFault::BadLine { line } => put_item(sink, b"svec: asm: bad line ", line),
        AsmFault::Differs { line, .. } => put_item(sink, b"svec: asm: word differs at line ", line),
        AsmFault::TooManyWords => put(sink, b"svec: asm: too many words\n"),
        AsmFault::Memory => put(sink, b"svec: out of memory\n"),
    }
}

// Puts why a text is no script, or why a map does not fit beside the file of a line.
fn put_pipe<S: Sink>(sink: &mut S, fault: PipeFault) -> Result<(), Failed>
    ensures { PutsText (S.taken sink.old) (S.taken sink.new) (S.faults sink.old) (S.faults sink.new)
        (line_of_pipe fault) result }
{
    match fault {
        PipeFault::TooLong => put(sink, b"svec: pipe: too long\n"),
        PipeFault::BadLine { line } => put_item(sink, b"svec: pipe: bad line ", line),
        PipeFault::Clash { line } => put_item(sink, b"svec: pipe: clash at line ", line),
        PipeFault::TooManyPages { line } => put_item(
            sink,
            b"svec: pipe: too many pages at line ",
            line,
        ),
        PipeFault::Memory => put(sink, b"svec: out of memory\n"),
    }
}

// Puts why a file is no program that can be loaded.
fn put_fault<S: Sink>(sink: &mut S, fault: ElfFault) -> Result<(), Failed>
    ensures { PutsText (S.taken sink.old) (S.taken sink.new) (S.faults sink.old) (S.faults sink.new)
        (line_of_fault fault) result }
{
    match fault {
        ElfFault::Short { need, have } => put_short(sink, need, have),
        ElfFault::NotElf => put(sink, b"svec: file: not elf\n"),
        ElfFault::NotAarch64 => put(sink, b"svec: file: not aarch64\n"),
        ElfFault::NotStatic => put(sink, b"svec: file: not static\n"),
        ElfFault::BadSegment { index } => {
            put_numbered(sink, b"svec: file: bad segment ", u64::from(index))
        }
        ElfFault::SegmentsClash => put(sink, b"svec: file: segments clash\n"),
        ElfFault::TooManyPages => put(sink, b"svec: file: too many pages\n"),
        ElfFault::Memory => put(sink, b"svec: out of memory\n"),
    }
}

/// Puts the line that tells why a command is refused.
pub fn put_refusal<S: Sink>(sink: &mut S, refusal: Refusal) -> Result<(), Failed>
    ensures { PutsText (S.taken sink.old) (S.taken sink.new) (S.faults sink.old) (S.faults sink.new)
        (line_of_refusal refusal) result }
{
    match refusal {
        Refusal::Usage => put(sink, b"svec: usage\n"),
        Refusal::TooManyLive { class, need } => put_need(sink, class, need),
        Refusal::Kernel(fault) => put_kernel(sink, fault),
        Refusal::TooLong => put(sink, b"svec: file: too long\n"),
        Refusal::Elf(fault) => put_fault(sink, fault),
        Refusal::Map(fault) => put_map(sink, fault),
        Refusal::Asm(fault) => put_asm(sink, fault),
        Refusal::Pipe(fault) => put_pipe(sink, fault),
        Refusal::Memory => put(sink, b"svec: out of memory\n"),
        Refusal::File => put(sink, b"svec: file failed\n"),
        Refusal::Output => put(sink, b"svec: output or input failed\n"),
    }
}
