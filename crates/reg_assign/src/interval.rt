//! Intervals, and the classes of registers.

/// A class of registers: vector, predicate or general ones.
#[derive(Clone, Copy, PartialEq, Eq, Debug)]
pub enum RegClass {
    Z,
    P,
    X,
}

/// How long a value is needed: from the item of a listing that makes it until the item that uses it last. An interval
/// that does not end after it begins is empty: its value is never used.
#[derive(Clone, Copy, PartialEq, Eq, Debug)]
pub struct Interval {
    pub from: u32,
    pub last_use: u32,
}
