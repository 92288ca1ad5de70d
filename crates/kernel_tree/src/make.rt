//! Statements with blocks, as their contracts see them.

ghost use Rattle.std.specs.Prelude.{◌≡◌};
ghost use Rattle.kernel_tree.specs.Plain.{Choose, Nothing, Else, block_of, action_of, term_of};

use crate::ast::{Expr, Stmt};

/// A choice with one block.
pub fn choose(cond: Expr, then_part: Vec<Stmt>) -> Stmt
    ensures { action_of result ≡ Choose (term_of cond) (block_of then_part.items) Nothing }
{
    Stmt::If {
        cond,
        then_part,
        else_part: None,
    }
}

/// A choice with two blocks.
pub fn choose_else(cond: Expr, then_part: Vec<Stmt>, other: Vec<Stmt>) -> Stmt
    ensures { action_of result ≡ Choose (term_of cond) (block_of then_part.items) (Else (block_of other.items)) }
{
    Stmt::If {
        cond,
        then_part,
        else_part: Some(other),
    }
}
