//! How a step and a run come out.

/// Why the machine stops.
#[derive(Clone, Copy, Debug, PartialEq, Eq)]
pub enum StopKind {
    /// A load met a byte that is not mapped.
    Read,
    /// A store met a byte that is not mapped, or not writable.
    Write,
    /// The place of the next word is no multiple of 4, or its page is not executable.
    Fetch,
    /// The word is no listed instruction.
    Undefined,
    /// A supervisor call other than the exit.
    Call,
    /// A breakpoint instruction.
    Break,
}

/// A stop: its kind, the place of the instruction that stopped, and what it is about, that is the first faulting byte's
/// address (`Read`, `Write`), the place itself (`Fetch`), the word (`Undefined`), X8 (`Call`) or the immediate (`Break`).
#[derive(Clone, Copy, Debug, PartialEq, Eq)]
pub struct Stop {
    pub kind: StopKind,
    pub pc: u64,
    pub at: u64,
}

/// What one step comes to. After `Ended` the result of the run stands in X0.
#[derive(Clone, Copy, Debug, PartialEq, Eq)]
pub enum Step {
    Went,
    Ended,
    Stopped(Stop),
}

/// How a run comes out; `Spent` says that all the steps that were allowed went without an end or a stop.
#[derive(Clone, Copy, Debug, PartialEq, Eq)]
pub enum Outcome {
    End { result: u64 },
    Stop(Stop),
    Spent,
}

/// How a machine came to its last step, which is answered again from then on.
#[derive(Clone, Copy, Debug, PartialEq, Eq)]
pub enum Ending {
    Ended,
    Stopped(Stop),
}
