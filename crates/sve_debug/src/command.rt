//! What a line asks for.

/// What of a machine is shown.
#[derive(Clone, Copy)]
pub enum Part {
    /// A general register, up to number 30.
    General(u64),
    /// A vector register, up to number 31.
    Vector(u64),
    /// A predicate register, up to number 15.
    Predicate(u64),
    /// Up to 4,096 bytes of memory.
    Memory { address: u64, len: u64 },
    /// The place of the next instruction.
    Place,
    /// The stack pointer.
    Stack,
    /// The flags.
    Flags,
    /// The first-fault register.
    FirstFault,
    /// The places of the last steps.
    Past,
}

/// What a line asks for.
#[derive(Clone, Copy)]
pub enum Command {
    /// Up to so many steps.
    Step(u64),
    /// Up to so many steps, and none after one that comes to a breakpoint.
    Go(u64),
    /// So many steps back.
    Back(u64),
    /// A breakpoint at an address.
    Break(u64),
    /// To be shown a part of the machine.
    Show(Part),
    /// The end of the session.
    Quit,
}
