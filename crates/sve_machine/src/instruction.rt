//! An instruction of either table.

use a64_code::A64;
use sve_code::Sve;

/// An instruction of either table.
#[derive(Clone, Copy)]
pub enum Instruction {
    Scalar(A64),
    Vector(Sve),
}
