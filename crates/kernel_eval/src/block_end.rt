//! How statements end.

/// How statements end.
#[derive(Clone, Copy)]
pub enum BlockEnd {
    /// The next one follows.
    Next,
    /// A `break` ended the loop.
    Broke,
    /// An access faulted.
    Faulted,
}
