//! How a loop stands.

ghost use Rattle.std.specs.Prelude.{◌<◌, ◌-◌, ◌^◌};

/// The number of an iteration: each loop begins fewer than 2^64.
#[derive(Clone, Copy)]
pub struct At {
    pub number: u64,
    pub ghost below: { number < 2 ^ 64 - 1 },
}

/// How a loop stands after some iterations.
#[derive(Clone, Copy)]
pub enum LoopState {
    Going,
    /// A `break` ended this iteration and the loop.
    Left(At),
    /// An access of this iteration faulted.
    Failed(At),
}
