//! What a call of a function does.

ghost use Rattle.call_code.specs.Called.{CallsAsDraft};

/// A function of the words of a draft comes back where the draft ends, and stops where the draft does.
pub fn calls()
    ensures { CallsAsDraft }
{}
