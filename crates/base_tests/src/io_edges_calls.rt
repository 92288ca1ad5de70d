//! The forms in memory by the rules for them, and the adapters over what the system gives.

use io_edges::files::{FileError, Files, MAX_FILE};
use io_edges::memory_files::{MemoryFiles, NamedFile, have_different_names};
use io_edges::memory_sink::MemorySink;
use io_edges::memory_source::MemorySource;
use io_edges::sink::{Failed, Sink, put_all};
use io_edges::source::Source;
use io_edges::std_files::StdFiles;
use io_edges::std_sink::StdSink;
use io_edges::std_source::StdSource;
use std::alloc::{AllocError, Global};
use std::test::Fail;
use std::{env, fs, io, process};

#[test]
fn sink_takes_what_it_has_room_for(rt: HostRuntime) -> Result<(), Fail> {
    let mut sink = MemorySink::new(rt.alloc(), 3, vec![in rt.alloc(); 1]?)?;
    let said = [sink.put(b"ab"), sink.put(b"cd")];
    assert!(rt; said == [Ok(2), Err(Failed)], "call 1 is to fail");
    let whole = put_all(&mut sink, b"cd");
    assert!(rt;
        whole == Err(Failed) && sink.bytes() == b"abc".as_slice(),
        "there is room for one byte"
    );
    Ok(())
}

#[test]
fn source_gives_its_bytes(rt: HostRuntime) -> Result<(), Fail> {
    let bytes = b"abc".to_vec(rt.alloc())?;
    let mut source = MemorySource::new(bytes, vec![in rt.alloc(); 0]?);
    let mut buffer = [b'-'; 2];
    let said = [
        source.take(&mut buffer),
        source.take(&mut buffer),
        source.take(&mut buffer),
        source.take(&mut buffer),
    ];
    assert!(rt;
        said == [Err(Failed), Ok(2), Ok(1), Ok(0)],
        "call 0 is to fail"
    );
    assert!(rt; buffer == [b'c', b'b']);
    Ok(())
}

// One file, which has the name `in`.
fn one_file(alloc: Global) -> Result<Vec<NamedFile>, AllocError> {
    let name = String::from_str(alloc, "in")?;
    let bytes = b"one".to_vec(alloc)?;
    Ok(vec![in alloc; NamedFile { name, bytes }]?)
}

#[test]
fn files_are_held_by_name(rt: HostRuntime) -> Result<(), Fail> {
    let listed = one_file(rt.alloc())?;
    assert!(rt; have_different_names(&listed));
    let mut files = MemoryFiles::new(listed, vec![in rt.alloc(); 1]?);
    let mut text = Vec::new(rt.alloc());
    let said = [
        files.read(rt.alloc(), "in", &mut text),
        files.write(rt.alloc(), "out", b"two"),
        files.write(rt.alloc(), "out", b"two"),
        files.read(rt.alloc(), "out", &mut text),
    ];
    assert!(rt;
        said == [Ok(()), Err(FileError::Failed), Ok(()), Ok(())],
        "call 1 is to fail"
    );
    assert!(rt; text.as_slice() == b"onetwo".as_slice() && files.bytes("ou").is_none());
    Ok(())
}

fn set_len(rt: HostRuntime, name: &str, len: u64) -> io::Result<()> {
    fs::File::options()
        .write(true)
        .open(&rt, name)?
        .set_len(len)
}

// What is said of a file that is absent, that is written and read, and that is too long.
fn calls_of_a_file(
    rt: HostRuntime,
    name: &str,
    text: &mut Vec<u8>,
) -> io::Result<[Result<(), FileError>; 4]> {
    let mut files = StdFiles::new(rt);
    let absent = files.read(rt.alloc(), name, text);
    let written = files.write(rt.alloc(), name, b"text");
    let read = files.read(rt.alloc(), name, text);
    set_len(rt, name, MAX_FILE as u64 + 1)?;
    let long = files.read(rt.alloc(), name, text);
    fs::remove_file(&rt, name)?;
    Ok([absent, written, read, long])
}

// A name that no other process has.
fn own_name(rt: HostRuntime) -> io::Result<String> {
    let directory = env::temp_dir(&rt)?;
    let process = process::id(rt.process());
    let name = format!(in rt.alloc(); "{}/io_edges_{process}", directory.as_str())?;
    Ok(name)
}

#[test]
fn system_files_are_read_and_written(rt: HostRuntime) -> Result<(), Fail> {
    let name = own_name(rt)?;
    let mut text = b"<".to_vec(rt.alloc())?;
    let said = calls_of_a_file(rt, name.as_str(), &mut text)?;
    let (failed, long) = (Err(FileError::Failed), Err(FileError::TooLong));
    assert!(rt; said == [failed, Ok(()), Ok(()), long]);
    assert!(rt; text.as_slice() == b"<text".as_slice());
    Ok(())
}

#[test]
fn pipe_takes_and_gives(rt: HostRuntime) -> Result<(), Fail> {
    let (reader, writer) = io::pipe(&rt)?;
    let mut sink = StdSink::new(writer);
    let mut source = StdSource::new(reader);
    let mut buffer = [b'-'; 4];
    let put = put_all(&mut sink, b"abc");
    let taken = source.take(&mut buffer);
    assert!(rt; put == Ok(()) && taken == Ok(3) && buffer == *b"abc-");
    drop(sink);
    assert!(rt; source.take(&mut buffer) == Ok(0));
    Ok(())
}
