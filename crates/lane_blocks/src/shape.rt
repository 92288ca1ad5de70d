//! How a kernel takes a register.

use guest_types::length::{Vl, Width};

/// The width of a register's elements, and the vector length.
#[derive(Clone, Copy)]
pub struct Shape {
    pub width: Width,
    pub vl: Vl,
}
