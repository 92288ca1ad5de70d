//! The options of commands, and where a word may stand.

/// An option.
#[derive(Clone, Copy)]
pub enum OptionName {
    Vl,
    Steps,
    Map,
    Dump,
    Suppress,
}

/// The options that may come.
#[derive(Clone, Copy)]
pub struct Allowed {
    pub vl: bool,
    pub steps: bool,
    pub map: bool,
    pub dump: bool,
    pub suppress: bool,
}

/// What may come next among the words of a command.
#[derive(Clone, Copy)]
pub enum Place {
    /// One of these options, a positional word, or `--`.
    Options(Allowed),
    /// The value of this option, which is one of these.
    Value(OptionName, Allowed),
    /// A positional word, or `--`.
    Positional,
    /// A positional word, which may begin with a minus.
    Literal,
}
