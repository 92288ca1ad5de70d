//! Commands.

ghost use Rattle.std.specs.Prelude.{◌+◌, ◌^◌, ◌≤◌, length};

use guest_types::length::Vl;

/// A command and what it works on.
#[derive(Drop)]
pub enum Command {
    /// Compiles the kernel in the file `from` into the file `to`.
    Compile {
        from: String,
        to: String,
    },
    /// Tells the size, the class and the needs of the kernel in the file `from`.
    Check {
        from: String,
    },
    /// Evaluates a kernel; its steps are iterations.
    Eval(Task),
    /// Lists the instructions of the program in the file `from`.
    List {
        from: String,
    },
    /// Runs a program at a vector length. Its first-fault and non-fault loads suppress each so many free elements, where a
    /// number tells.
    Run {
        vl: Vl,
        suppress: Option<u64>,
        task: Task,
    },
    /// Answers the lines of the input on a program at a vector length; neither the steps nor the dump of the task count.
    Debug {
        vl: Vl,
        task: Task,
    },
    /// Compiles the kernel that the number generates into the file `to`, and runs it at every vector length.
    Sweep {
        number: u64,
        to: String,
    },
    /// Writes the program of the words whose texts stand in the file `from` into the file `to`.
    Asm {
        from: String,
        to: String,
    },
    /// Makes an object of the kernel in the file `from`, in the file `to`.
    Object {
        from: String,
        to: String,
    },
    /// Runs the lines of a script at a vector length, each over the pages of one map as those before left them. The file of the
    /// task is the script, and it has no arguments; the steps are those of each line.
    Pipe {
        vl: Vl,
        task: Task,
    },
}

/// What is to be run.
///
/// `steps` is the most steps that it may take, `map` the file of a page map, `dump` the bytes of memory that are shown
/// after the run, and `file` the file that is run. The first of the arguments goes into the first register.
#[derive(Drop)]
pub struct Task {
    pub steps: u64,
    pub map: Option<String>,
    pub dump: Option<Extent>,
    pub file: String,
    pub args: Vec<u64>,
    pub ghost few: { length args.items ≤ 8 },
}

/// Bytes of memory: the address of the first, and how many they are.
#[derive(Clone, Copy)]
pub struct Extent {
    pub address: u64,
    pub len: u64,
    pub ghost within: { address + len ≤ 2 ^ 64 },
}
