//! What the evaluator answers.

/// How a run ended.
#[derive(Clone, Copy, PartialEq, Eq, Debug)]
pub enum ScalarOutcome {
    /// With a result, extended to 64 bits by its type (0 where nothing is returned), and the number of iterations begun.
    End { result: u64, begun: u64 },
    /// In an access that faulted, with the number of iterations begun.
    Fault { begun: u64 },
    /// More iterations begin than were allowed.
    Spent,
}
