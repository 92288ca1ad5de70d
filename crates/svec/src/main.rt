//! The program: it makes the real files, input, output and error output, and does the command.
#![tactic(auto)]

use io_edges::sink::put_all;
use io_edges::std_files::StdFiles;
use io_edges::std_sink::StdSink;
use io_edges::std_source::StdSource;
use std::io::{BufReader, ErrorKind};
use std::process::ExitCode;
use std::{env, io};
use sve_top::top::top;

/// The words after the program's name.
fn read_words(rt: &HostRuntime) -> io::Result<Vec<String>> {
    let words = env::args(rt)?.skip(1).collect(rt.alloc())?;
    Ok(words)
}

/// The same, and none where a word is no text: such words are no command.
fn words_or_none(rt: &HostRuntime) -> io::Result<Vec<String>> {
    match read_words(rt) {
        Ok(words) => Ok(words),
        Err(error) => match error.kind() {
            ErrorKind::InvalidData => Ok(Vec::new(rt.alloc())),
            _ => Err(error),
        },
    }
}

/// Does the command over the real things, and answers its status.
fn run(rt: &HostRuntime) -> io::Result<u8> {
    let words = words_or_none(rt)?;
    let mut files = StdFiles::new(rt.clone()?);
    let mut input = StdSource::new(BufReader::new(rt.alloc(), rt.reader())?);
    let mut output = StdSink::new(rt.stdout().lock());
    let mut errors = StdSink::new(rt.stderr().lock());
    Ok(top(
        rt.alloc(),
        &words,
        &mut files,
        &mut input,
        &mut output,
        &mut errors,
    ))
}

fn main(rt: HostRuntime) -> ExitCode {
    match run(&rt) {
        Ok(status) => ExitCode::from(status),
        // Only memory was wanting: for the words, the files or the buffer of the input.
        Err(_) => {
            let mut errors = StdSink::new(rt.stderr().lock());
            let _ = put_all(&mut errors, b"svec: out of memory\n");
            ExitCode::from(7)
        }
    }
}
