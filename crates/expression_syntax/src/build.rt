//! Nodes of the tree, each in a box of its own.

ghost use Rattle.std.specs.Prelude.{◌≡◌, List, Ok};
ghost use Rattle.kernel_tree.specs.Plain.{Term, term_of, words_of};
ghost use Rattle.kernel_tree.specs.TextToken.{TextToken};
ghost use Rattle.kernel_tree.specs.Grammar.{joined, signed};
ghost use Rattle.expression_syntax.specs.Reading.{Gives};

use crate::stop::Stop;
use kernel_tree::mark::{Joint, Sign};
use kernel_tree::token::Token;
use kernel_tree::{Expr, UnaryOp};
use std::alloc::Global;

// An expression that was read, in a box, and the tokens after it.
pub fn read<'a>(
    alloc: Global,
    expr: Expr,
    rest: &'a [Token],
) -> Result<(Box<Expr>, &'a [Token]), Stop>
    ensures { Gives {Y = Term × List TextToken} (λ x. (term_of x.0.value, words_of x.1.now)) result
        (Ok (term_of expr, words_of rest.now)) }
{
    Ok((Box::new(alloc, expr)?, rest))
}

// What an operator makes of its operands.
pub fn join(joint: Joint, left: Box<Expr>, right: Box<Expr>) -> Expr
    ensures { term_of result ≡ joined joint (term_of left.value) (term_of right.value) }
{
    match joint {
        Joint::Dual(op) => Expr::Binary { op, left, right },
        Joint::Both => Expr::And { left, right },
        Joint::Either => Expr::Or { left, right },
    }
}

// What a sign makes of its operand.
pub fn sign(sign: Sign, arg: Box<Expr>) -> Expr
    ensures { term_of result ≡ signed sign (term_of arg.value) }
{
    match sign {
        Sign::Minus => Expr::Unary {
            op: UnaryOp::Neg,
            arg,
        },
        Sign::Flip => Expr::Unary {
            op: UnaryOp::Flip,
            arg,
        },
        Sign::Not => Expr::Not { arg },
    }
}
