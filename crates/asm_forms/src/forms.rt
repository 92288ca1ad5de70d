//! What a form of an instruction's text has.

/// What the numbers of a text add to the base of its word, where 2^64 counts as 0.
#[derive(Clone, Copy)]
pub enum Places {
    /// Each number times its factor.
    Factors(&'static [u64]),
    /// A quarter of the one number, times this.
    Quarter(u64),
    /// A vector register, its size, another, its size, and by how much that one is shifted to the
    /// left.
    LeftShift,
    /// The same, to the right.
    RightShift,
}

/// A mnemonic, and the base of the word.
pub struct Row(pub &'static str, pub u32);

/// A form of text: what stands behind a mnemonic, what its numbers add, and the mnemonics that stand before it.
pub struct Form {
    /// The text with a letter in place of each number: `x` and `w` for a general register or the stack pointer, `z` for a
    /// vector register and `v` for one that is seen as a scalar, `p` for a predicate, `T` for the size of elements, `c` for a
    /// condition, `l` for a shift, and `0` for a number.
    pub operands: &'static str,
    /// What these numbers add to the base.
    pub adds: Places,
    /// The mnemonics with their bases. Where a text has `#-0`, the base is that of the row and 2 to the power of the bit above
    /// its field, from which the number is taken.
    pub rows: &'static [Row],
}
