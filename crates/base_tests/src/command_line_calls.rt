//! Lines of commands, by hand.

use command_line::command::{Command, Task};
use command_line::read::read_line;
use std::alloc::{AllocError, Global};
use std::test::Fail;

// Lines that are no commands, the first of them an empty one.
const REFUSED: &str = "
run
compile a
compile -a b
list
list a b
list --vl 128 f
run --vl 130 e1.elf
run --steps 1 --steps 1 e1.elf
run e1.elf -5
run e1.elf --vl 128
check a b
eval
eval --vl 128 k
run --map -m e1.elf
run --map= e1.elf
run --map m --map m e1.elf
run --dump 5 e1.elf
run --dump 5:0 e1.elf
run --dump 5:65537 e1.elf
run --dump 0xffffffffffffffff:2 e1.elf
run --dump 5:6:7 e1.elf
run --suppress 0 e1.elf
run --suppress x e1.elf
run --suppress 1 --suppress 1 e1.elf
eval --suppress 1 k
debug --suppress 1 f
run e1.elf 1 2 3 4 5 6 7 8 9
debug
debug --steps 5 f
debug --dump 1:2 f
sweep 5
sweep x out
sweep 5 out more
sweep -5 out
asm in
asm in out more
asm -in out
eval --steps=7 k -1
";

// Lines, and the command of each as `text_of` tells it.
const READ: &str = "\
check k#check k
list -- --vl#list --vl
sweep 0x10 -- -out#sweep 16 -out
asm -- -a b#asm -a b
compile -- -a b#compile -a b
eval --steps=7 k 5#eval k [5]: vl 0, steps 7, map -, dump 0:0, suppress None
debug --vl 256 --map m f 5#debug f [5]: vl 256, steps 100000000, map m, dump 0:0, suppress None
pipe --vl 256 --map m s#pipe s []: vl 256, steps 100000000, map m, dump 0:0, suppress None
run f.elf -- -2#run f.elf [18446744073709551614]: vl 128, steps 100000000, map -, dump 0:0, suppress None
run --vl=0x80 --steps 0 f 0xffffffffffffffff#run f [18446744073709551615]: vl 128, steps 0, map -, dump 0:0, suppress None
run --map m --dump 0x1000:16 f#run f []: vl 128, steps 100000000, map m, dump 4096:16, suppress None
run --dump=0xffffffffffff0000:65536 --vl 256 --map=--a=b f#run f []: vl 256, steps 100000000, map --a=b, dump 18446744073709486080:65536, suppress None
run --vl 256 --steps 7 --map m --dump 0:1 --suppress=0x10 f#run f []: vl 256, steps 7, map m, dump 0:1, suppress Some(16)
run f 5#run f [5]: vl 128, steps 100000000, map -, dump 0:0, suppress None
";

fn read(alloc: Global, line: &str) -> Result<Option<Command>, AllocError> {
    let mut words = Vec::new(alloc);
    for word in line.split(' ') {
        words.push(String::from_str(alloc, word)?)?;
    }
    read_line(alloc, &words)
}

// A command that runs something; `vl` and `suppress` are 0 and `None` where it has none.
fn run_text(
    alloc: Global,
    word: &str,
    vl: u32,
    suppress: Option<u64>,
    task: &Task,
) -> Result<String, AllocError> {
    let args = task.args.as_slice();
    let map = match &task.map {
        Some(map) => map.as_str(),
        None => "-",
    };
    let (address, len) = match &task.dump {
        Some(dump) => (dump.address, dump.len),
        None => (0, 0),
    };
    format!(in alloc;
        "{word} {} {args:?}: vl {vl}, steps {}, map {map}, dump {address}:{len}, suppress {suppress:?}",
        task.file.as_str(),
        task.steps
    )
}

// A command and all that it works on.
fn text_of(alloc: Global, command: &Command) -> Result<String, AllocError> {
    match command {
        Command::Compile { from, to } => {
            format!(in alloc; "compile {} {}", from.as_str(), to.as_str())
        }
        Command::Asm { from, to } => format!(in alloc; "asm {} {}", from.as_str(), to.as_str()),
        Command::Object { from, to } => {
            format!(in alloc; "object {} {}", from.as_str(), to.as_str())
        }
        Command::Sweep { number, to } => format!(in alloc; "sweep {number} {}", to.as_str()),
        Command::Check { from } => format!(in alloc; "check {}", from.as_str()),
        Command::List { from } => format!(in alloc; "list {}", from.as_str()),
        Command::Eval(task) => run_text(alloc, "eval", 0, None, task),
        Command::Run { vl, suppress, task } => run_text(alloc, "run", vl.bits(), *suppress, task),
        Command::Debug { vl, task } => run_text(alloc, "debug", vl.bits(), None, task),
        Command::Pipe { vl, task } => run_text(alloc, "pipe", vl.bits(), None, task),
    }
}

// What a line comes to.
fn told(alloc: Global, line: &str) -> Result<String, AllocError> {
    let command = read(alloc, line)?;
    match &command {
        Some(command) => text_of(alloc, command),
        None => String::from_str(alloc, "refused"),
    }
}

#[test]
fn refused(rt: HostRuntime) -> Result<(), Fail> {
    for line in REFUSED.lines() {
        let text = told(rt.alloc(), line)?;
        assert!(rt; text.as_str() == "refused", "{line}");
    }
    let none = Vec::new(rt.alloc());
    assert!(rt; read_line(rt.alloc(), &none)?.is_none());
    Ok(())
}

#[test]
fn commands(rt: HostRuntime) -> Result<(), Fail> {
    for row in READ.lines() {
        let (line, want) = row.split_once('#').expect(&rt, "a line and a text");
        let text = told(rt.alloc(), line)?;
        assert!(rt; text.as_str() == want, "{line}: {text}");
    }
    Ok(())
}
