//! Classes of kernels.

/// Why the loop of a kernel is done one iteration at a time.
#[derive(Clone, Copy, PartialEq, Eq, Debug)]
pub enum Why {
    /// There is no loop.
    NoLoop,
    /// An accumulator is read in the loop.
    AccumulatorRead,
    /// Two updates of one accumulator have different operators.
    MixedUpdate,
    /// A store or an update stands before a `break`.
    BeforeBreak,
    /// An element is read by a computed index where that is no gather.
    ComputedIndex,
    /// An iteration reads or writes what an iteration near it writes.
    Carried,
}

/// Whether the iterations of a loop may be done many at once.
#[derive(Clone, Copy, PartialEq, Eq, Debug)]
pub enum Class {
    Vector,
    Scalar { why: Why },
}
