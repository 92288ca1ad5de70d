//! What tokens do in the grammar.

ghost use Rattle.std.specs.Prelude.{◌≡◌};
ghost use Rattle.kernel_tree.specs.Plain.{word_of};
ghost use Rattle.kernel_tree.specs.Grammar.{operator_of, operator_of_mark, opening_of_mark, level_of, level_of_dual};
ghost use Rattle.expression_syntax.specs.Operands.{is_comparison};

use kernel_tree::BinaryOp;
use kernel_tree::mark::{Joint, Mark, Opening, Operator, Sign};
use kernel_tree::token::Token;

fn mark_operator(mark: Mark) -> Option<Operator>
    ensures { result ≡ operator_of_mark mark }
{
    match mark {
        Mark::Plus => Some(Operator::Joined(Joint::Dual(BinaryOp::Add))),
        Mark::Minus => Some(Operator::Joined(Joint::Dual(BinaryOp::Sub))),
        Mark::Star => Some(Operator::Joined(Joint::Dual(BinaryOp::Mul))),
        Mark::Ampersand => Some(Operator::Joined(Joint::Dual(BinaryOp::And))),
        Mark::Bar => Some(Operator::Joined(Joint::Dual(BinaryOp::Or))),
        Mark::Caret => Some(Operator::Joined(Joint::Dual(BinaryOp::Xor))),
        Mark::AndAnd => Some(Operator::Joined(Joint::Both)),
        Mark::OrOr => Some(Operator::Joined(Joint::Either)),
        Mark::ShiftLeft => Some(Operator::Shifted(true)),
        Mark::ShiftRight => Some(Operator::Shifted(false)),
        Mark::As => Some(Operator::As),
        _ => None,
    }
}

// What a token is after a first operand.
pub fn operator(token: &Token) -> Option<Operator>
    ensures { result ≡ operator_of (word_of token.now) }
{
    match token {
        Token::Mark(mark) => mark_operator(*mark),
        Token::Compare(op) => Some(Operator::Compared(*op)),
        _ => None,
    }
}

fn dual_level(op: BinaryOp) -> u8
    ensures { result ≡ level_of_dual op }
{
    match op {
        BinaryOp::Mul => 2,
        BinaryOp::Add | BinaryOp::Sub => 3,
        BinaryOp::And => 5,
        BinaryOp::Xor => 6,
        BinaryOp::Or => 7,
        BinaryOp::Min | BinaryOp::Max => 0,
    }
}

// Whether an operator is a comparison, after which nothing of its level goes on.
pub fn compares(operator: Operator) -> bool
    ensures { result ≡ is_comparison operator }
{
    matches!(operator, Operator::Compared(_))
}

// The level of the expressions that an operator makes.
pub fn level(operator: Operator) -> u8
    ensures { result ≡ level_of operator }
{
    match operator {
        Operator::As => 1,
        Operator::Shifted(_) => 4,
        Operator::Compared(_) => 8,
        Operator::Joined(Joint::Dual(op)) => dual_level(op),
        Operator::Joined(Joint::Both) => 9,
        Operator::Joined(Joint::Either) => 10,
    }
}

// What a mark opens at the front of a unary expression.
pub fn opening(mark: Mark) -> Option<Opening>
    ensures { result ≡ opening_of_mark mark }
{
    match mark {
        Mark::OpenParen => Some(Opening::Group),
        Mark::Min => Some(Opening::Pair(BinaryOp::Min)),
        Mark::Max => Some(Opening::Pair(BinaryOp::Max)),
        Mark::Abs => Some(Opening::Absolute),
        Mark::Select => Some(Opening::Choice),
        Mark::Minus => Some(Opening::Signed(Sign::Minus)),
        Mark::Tilde => Some(Opening::Signed(Sign::Flip)),
        Mark::Bang => Some(Opening::Signed(Sign::Not)),
        _ => None,
    }
}
