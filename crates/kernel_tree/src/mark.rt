//! Reserved words and symbols, and what a symbol may begin or join.

use crate::ops::{BinaryOp, CompareOp};

/// A reserved word or a symbol other than a type, a comparison and an update.
#[derive(Clone, Copy, PartialEq, Eq)]
pub enum Mark {
    Kernel,
    Var,
    For,
    In,
    Let,
    If,
    Else,
    Break,
    Return,
    Select,
    Min,
    Max,
    Abs,
    As,
    /// `(`
    OpenParen,
    /// `)`
    CloseParen,
    /// `[`
    OpenBracket,
    /// `]`
    CloseBracket,
    /// `{`
    OpenBrace,
    /// `}`
    CloseBrace,
    /// `,`
    Comma,
    /// `;`
    Semicolon,
    /// `:`
    Colon,
    /// `->`
    Arrow,
    /// `..`
    Range,
    /// `=`
    Equals,
    /// `+`
    Plus,
    /// `-`
    Minus,
    /// `*`
    Star,
    /// `<<`
    ShiftLeft,
    /// `>>`
    ShiftRight,
    /// `&`
    Ampersand,
    /// `^`
    Caret,
    /// `|`
    Bar,
    /// `&&`
    AndAnd,
    /// `||`
    OrOr,
    /// `~`
    Tilde,
    /// `!`
    Bang,
}

/// An operator that stands between two operands of the next tighter level, any number of times.
#[derive(Clone, Copy)]
pub enum Joint {
    Dual(BinaryOp),
    /// `&&`
    Both,
    /// `||`
    Either,
}

/// What stands after a first operand.
#[derive(Clone, Copy)]
pub enum Operator {
    Joined(Joint),
    Compared(CompareOp),
    /// `<<` where true, `>>` where false
    Shifted(bool),
    As,
}

/// What stands before an operand.
#[derive(Clone, Copy)]
pub enum Sign {
    /// `-`
    Minus,
    /// `~`
    Flip,
    /// `!`
    Not,
}

/// What a mark at the front of a unary expression opens.
#[derive(Clone, Copy)]
pub enum Opening {
    /// parentheses
    Group,
    /// a call of `min` or `max`
    Pair(BinaryOp),
    /// a call of `abs`
    Absolute,
    /// a call of `select`
    Choice,
    Signed(Sign),
}

/// What a mark at the front of a statement begins.
#[derive(Clone, Copy)]
pub enum Beginning {
    /// `let`
    Definition,
    /// `if`
    Choice,
    /// `break`
    Leaving,
}
