//! Failing calls: of each command, every call of the files, of the input and of the outputs fails in turn.

ghost use Rattle.std.specs.Prelude.{Some};

use crate::program::E1;
use io_edges::memory_files::{MemoryFiles, NamedFile, have_different_names};
use io_edges::memory_sink::MemorySink;
use io_edges::memory_source::MemorySource;
use io_edges::sink::{Failed, Sink};
use std::alloc::{AllocError, Global};
use std::test::Fail;
use sve_top::top::top;

// The words of a command, and how many calls of the files it makes.
static COMMANDS: [(&str, u64); 12] = [
    ("compile k1 out", 2),
    ("check k2", 1),
    ("list e1.elf", 1),
    ("run e1.elf 41", 1),
    ("run --map m e1.elf 41", 2),
    ("eval k1 5", 1),
    ("eval --map m k1 5", 2),
    ("debug e1.elf 41", 1),
    ("debug --map m e1.elf 41", 2),
    ("asm e1.asm out", 2),
    ("pipe s", 3),
    ("pipe --map m s", 4),
];

// The input of each command. A session alone reads it.
const SESSION: &[u8] = b"step 1\nx 0\njump\nquit\n";

// The files that are read.
static FILES: [(&str, &[u8]); 6] = [
    ("e1.elf", &E1),
    ("k1", b"kernel f(x: u64) -> u64 { return x + 1; }"),
    (
        "k2",
        b"kernel axpy(y: [i32], x: [i32], k: i32, n: u64) { for i in 0..n { y[i] = y[i] + k * x[i]; } }",
    ),
    ("m", b"map 0x10000 1 rw\nset 0x10000 0102\n"),
    ("e1.asm", b"add x0, x0, #1\nmovz x8, #93\nsvc #0\n"),
    ("s", b"run e1.elf 41\nrun e1.elf 1\n"),
];

const FILE_FAILED: &[u8] = b"svec: file failed\n";

const STREAM_FAILED: &[u8] = b"svec: output or input failed\n";

// The calls that fail, by their numbers from 0, and whether the output takes one byte a call.
#[derive(Clone, Copy)]
struct Plan {
    files: Option<u64>,
    input: Option<u64>,
    output: Option<u64>,
    errors: Option<u64>,
    by_bytes: bool,
}

// No call fails.
const NONE: Plan = Plan {
    files: None,
    input: None,
    output: None,
    errors: None,
    by_bytes: false,
};

// A sink that hands on what it is given, or the first byte of it.
#[derive(Drop)]
struct Output {
    sink: MemorySink,
    by_bytes: bool,
}

impl Sink for Output {
    ghost taken = { λ s. Some s.sink.taken };

    ghost faults = { λ s. s.sink.calls.faults };

    fn put(&mut self, bytes: &[u8]) -> Result<usize, Failed> {
        if self.by_bytes {
            return self.sink.put(&bytes[..1]);
        }
        self.sink.put(bytes)
    }
}

// What a command came to, and whether each file that is read has what it had.
#[derive(Drop)]
struct Came {
    status: u8,
    kept: bool,
    out: Output,
    err: MemorySink,
}

impl Came {
    fn printed(&self) -> &[u8] {
        self.out.sink.bytes()
    }
}

// The numbers of the calls that fail: of this one alone, or of none.
fn numbers(alloc: Global, call: Option<u64>) -> Result<Vec<u64>, AllocError> {
    let mut numbers = Vec::new(alloc);
    if let Some(call) = call {
        numbers.push(call)?;
    }
    Ok(numbers)
}

fn listed(alloc: Global) -> Result<Vec<NamedFile>, AllocError> {
    let mut listed = Vec::new(alloc);
    for (name, bytes) in &FILES {
        let name = String::from_str(alloc, name)?;
        let bytes = bytes.to_vec(alloc)?;
        listed.push(NamedFile { name, bytes })?;
    }
    Ok(listed)
}

fn files_of(alloc: Global, call: Option<u64>) -> Result<MemoryFiles, Fail> {
    let listed = listed(alloc)?;
    if !have_different_names(&listed) {
        return Err("two files of one name".into());
    }
    Ok(MemoryFiles::new(listed, numbers(alloc, call)?))
}

fn are_kept(files: &MemoryFiles) -> bool {
    let mut kept = true;
    for (name, bytes) in &FILES {
        kept &= files.bytes(name) == Some(*bytes);
    }
    kept
}

fn sink(alloc: Global, room: usize, call: Option<u64>) -> Result<MemorySink, AllocError> {
    MemorySink::new(alloc, room, numbers(alloc, call)?)
}

fn words_of(alloc: Global, line: &str) -> Result<Vec<String>, AllocError> {
    let mut words = Vec::new(alloc);
    for word in line.split(' ') {
        words.push(String::from_str(alloc, word)?)?;
    }
    Ok(words)
}

fn input_of(alloc: Global, call: Option<u64>) -> Result<MemorySource, AllocError> {
    let numbers = numbers(alloc, call)?;
    Ok(MemorySource::new(SESSION.to_vec(alloc)?, numbers))
}

// A command, calls of which fail.
fn done(alloc: Global, line: &str, plan: Plan) -> Result<Came, Fail> {
    let words = words_of(alloc, line)?;
    let mut files = files_of(alloc, plan.files)?;
    let mut input = input_of(alloc, plan.input)?;
    let mut err = sink(alloc, 100, plan.errors)?;
    let mut out = Output {
        sink: sink(alloc, 2000, plan.output)?,
        by_bytes: plan.by_bytes,
    };
    let status = top(alloc, &words, &mut files, &mut input, &mut out, &mut err);
    let kept = are_kept(&files);
    Ok(Came {
        status,
        kept,
        out,
        err,
    })
}

// Whether a command has the same status and text where calls of the error output fail too, one after another until its
// line is whole, and puts a part of that line.
fn errors_change_nothing(alloc: Global, line: &str, plan: Plan, came: &Came) -> Result<bool, Fail> {
    let told = came.err.bytes();
    for call in 0..=told.len() as u64 {
        let errors = Some(call);
        let other = done(alloc, line, Plan { errors, ..plan })?;
        let same = other.status == came.status && other.printed() == came.printed();
        if !same || !told.starts_with(other.err.bytes()) {
            return Ok(false);
        }
        if other.err.bytes() == told {
            return Ok(true);
        }
    }
    Ok(false)
}

// Whether a command whose call of the files fails says so, and puts and changes nothing.
fn tells_failing_file(alloc: Global, line: &str, call: u64) -> Result<bool, Fail> {
    let files = Some(call);
    let plan = Plan { files, ..NONE };
    let came = done(alloc, line, plan)?;
    let told = came.status == 8 && came.err.bytes() == FILE_FAILED;
    if !told || !came.kept || !came.printed().is_empty() {
        return Ok(false);
    }
    errors_change_nothing(alloc, line, plan, &came)
}

// Whether a command whose call of the input or the output failed says so, and puts a part of the text that it would put.
fn tells_failing_stream(
    alloc: Global,
    line: &str,
    plan: Plan,
    came: &Came,
    text: &[u8],
) -> Result<bool, Fail> {
    let told = came.status == 9 && came.err.bytes() == STREAM_FAILED;
    if !told || !text.starts_with(came.printed()) {
        return Ok(false);
    }
    errors_change_nothing(alloc, line, plan, came)
}

// Whether a command tells of each call of the output that fails, one after another until none does.
fn tells_failing_outputs(alloc: Global, line: &str, whole: &[u8]) -> Result<bool, Fail> {
    for call in 0..=whole.len() as u64 {
        let output = Some(call);
        let plan = Plan { output, ..NONE };
        let came = done(alloc, line, plan)?;
        if came.status == 0 {
            return Ok(came.printed() == whole);
        }
        if !tells_failing_stream(alloc, line, plan, &came, whole)? {
            return Ok(false);
        }
    }
    Ok(false)
}

#[test]
fn failing_files_are_told(rt: HostRuntime) -> Result<(), Fail> {
    for &(line, calls) in &COMMANDS {
        for call in 0..calls {
            assert!(rt;
                tells_failing_file(rt.alloc(), line, call)?,
                "{line}, call {call}"
            );
        }
        let files = Some(calls);
        let came = done(rt.alloc(), line, Plan { files, ..NONE })?;
        assert!(rt;
            came.status == 0 && came.kept,
            "{line}: no more calls than these"
        );
    }
    assert!(rt; tells_failing_file(rt.alloc(), "sweep 1 out", 0)?);
    Ok(())
}

#[test]
fn failing_outputs_are_told(rt: HostRuntime) -> Result<(), Fail> {
    for &(line, _) in &COMMANDS {
        let whole = done(rt.alloc(), line, NONE)?;
        let by_bytes = true;
        let bytes = done(rt.alloc(), line, Plan { by_bytes, ..NONE })?;
        assert!(rt;
            whole.status == 0 && bytes.printed() == whole.printed(),
            "{line}"
        );
        let told = tells_failing_outputs(rt.alloc(), line, whole.printed())?;
        assert!(rt; told, "{line}");
    }
    Ok(())
}

#[test]
fn failing_input_is_told(rt: HostRuntime) -> Result<(), Fail> {
    let input = Some(0);
    let plan = Plan { input, ..NONE };
    for &(line, _) in &COMMANDS {
        let came = done(rt.alloc(), line, plan)?;
        let reads = line.starts_with("debug");
        let told = reads && tells_failing_stream(rt.alloc(), line, plan, &came, b"")?;
        assert!(rt; told || (!reads && came.status == 0), "{line}");
    }
    Ok(())
}

// From which call of the input on, and up to which one, the lines that were ended have these answers.
static ANSWERED: [(u64, u64, &str); 4] = [
    (0, 7, ""),
    (7, 11, "at 0x000000000040007c steps 1\n"),
    (
        11,
        16,
        "at 0x000000000040007c steps 1\nx0 0x000000000000002a\n",
    ),
    (
        16,
        21,
        "at 0x000000000040007c steps 1\nx0 0x000000000000002a\nbad line\n",
    ),
];

#[test]
fn lines_before_a_failed_input_are_answered(rt: HostRuntime) -> Result<(), Fail> {
    for &(first, end, answers) in &ANSWERED {
        for call in first..end {
            let input = Some(call);
            let came = done(rt.alloc(), "debug e1.elf 41", Plan { input, ..NONE })?;
            let told = came.status == 9 && came.err.bytes() == STREAM_FAILED;
            assert!(rt; told && came.printed() == answers.as_bytes(), "call {call}");
        }
    }
    Ok(())
}

#[test]
fn listing_ends_where_the_output_fails(rt: HostRuntime) -> Result<(), Fail> {
    let plan = Plan {
        output: Some(1),
        by_bytes: true,
        ..NONE
    };
    let came = done(rt.alloc(), "list e1.elf", plan)?;
    assert!(rt; came.status == 9 && came.printed() == b"0".as_slice());
    Ok(())
}
