//! How the break region is done.

/// Over a chunk, by loads that may stop early, or over one lane, by plain loads.
#[derive(Clone, Copy, PartialEq, Eq, Debug)]
pub enum Mode {
    Early,
    Single,
}
