//! What the word of an operator takes as its right side.

use a64_code::Reg;
use word_rows::Bits;

/// A number that the word holds, a register, the product of two, or a register shifted.
#[derive(Clone, Copy)]
pub enum Side {
    Number(u64),
    Register(Reg),
    Product(Reg, Reg),
    Moved {
        left: bool,
        signed: bool,
        count: Bits<6>,
        register: Reg,
    },
}
