//! Labels.

ghost use Rattle.std.specs.Prelude.{◌≡◌, ℕ};

use std::marker::Model;

/// A place of a draft that its branches go to. Contracts see its number: labels are counted from 0 in the order in which
/// [`Draft::label`](crate::Draft::label) gives them.
#[derive(Clone, Copy)]
pub struct Label {
    number: usize,
}

impl Model for Label {
    ghost Value = { ℕ };

    ghost view = { λ l. l.number };

    ghost inverse = { λ n. record { number = n } };
}

impl Label {
    // The label of a number.
    pub(crate) fn of(number: usize) -> Self
        ensures { result ≡ number }
    {
        Label { number }
    }

    // The number.
    pub(crate) fn number(self) -> usize
        ensures { result ≡ self }
    {
        self.number
    }
}
