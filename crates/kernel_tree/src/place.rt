//! Where an expression stands in a text.

/// Where an expression stands.
#[derive(Clone, Copy)]
pub enum Place {
    /// By itself, as in brackets.
    Alone,
    /// As an operand.
    Operand,
    /// After a minus.
    Negated,
}
