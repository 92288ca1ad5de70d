//! Statements taken apart.

use crate::ast::{Expr, Stmt};
use crate::name::Name;
use crate::ops::{Ty, UpdateOp};

/// A statement with its parts, the blocks of an `if` as slices.
#[derive(Clone, Copy)]
pub enum Part<'a> {
    Let {
        name: &'a Name,
        ty: Option<Ty>,
        value: &'a Expr,
    },
    Store {
        array: &'a Name,
        index: &'a Expr,
        value: &'a Expr,
    },
    Update {
        name: &'a Name,
        op: UpdateOp,
        value: &'a Expr,
    },
    If {
        cond: &'a Expr,
        block: &'a [Stmt],
    },
    IfElse {
        cond: &'a Expr,
        block: &'a [Stmt],
        other: &'a [Stmt],
    },
    Break {
        cond: &'a Expr,
    },
}
