//! What a kernel needs.

/// How many items a kernel has, and how many registers of each class it needs.
#[derive(Clone, Copy, PartialEq, Eq, Debug)]
pub struct Needs {
    pub size: u32,
    pub z: u32,
    pub p: u32,
    pub x: u32,
}
