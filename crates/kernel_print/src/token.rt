//! Appends single tokens, each after a space.

ghost use Rattle.std.specs.Prelude.{◌≡◌, ◌∷◌, ◌++◌, ℕ, List, IfOk, string_bytes};
ghost use Rattle.kernel_tree.specs.TextToken.{TextToken, IsName, IsNumber, IsType, IsCompare, IsUpdate, IsMark};
ghost use Rattle.kernel_tree.specs.Plain.{name_of};
ghost use Rattle.kernel_tree.specs.Printing.{spaced, reserved_text, mark_text, compare_text, update_text, opened, closed, number_opened, number_closed, print_literal, print_count};

use itoa::Buffer;
use kernel_tree::mark::Mark;
use kernel_tree::place::Place;
use kernel_tree::{CompareOp, Name, Ty, UpdateOp};
use std::alloc::AllocError;

// Appends a space and a token.
pub fn put(out: &mut String, token: &str) -> Result<(), AllocError>
    ensures { IfOk result (λ _. (rest : List ℕ)
        → string_bytes out.new ++ rest ≡ string_bytes out.old ++ (32 ∷ (token.now ++ rest))) }
{
    out.push_str(" ")?;
    out.push_str(token)
}

#[tactic(auto, unfolding(kernel_tree::specs::Printing::spaced))]
pub fn put_name(out: &mut String, name: &Name) -> Result<(), AllocError>
    ensures { IfOk result (λ _. (rest : List TextToken)
        → string_bytes out.new ++ spaced rest ≡ string_bytes out.old ++ spaced (IsName (name_of name.now) ∷ rest)) }
{
    put(out, name.text())
}

#[tactic(auto, unfolding(kernel_tree::specs::Printing::spaced))]
pub fn put_number(out: &mut String, n: u128) -> Result<(), AllocError>
    ensures { IfOk result (λ _. (rest : List TextToken)
        → string_bytes out.new ++ spaced rest ≡ string_bytes out.old ++ spaced (IsNumber n ∷ rest)) }
{
    let mut buffer = Buffer::new();
    put(out, buffer.format(n))
}

#[tactic(auto, unfolding(kernel_tree::specs::Printing::spaced))]
pub fn put_type(out: &mut String, ty: Ty) -> Result<(), AllocError>
    ensures { IfOk result (λ _. (rest : List TextToken)
        → string_bytes out.new ++ spaced rest ≡ string_bytes out.old ++ spaced (IsType ty ∷ rest)) }
{
    put(out, ty.word())
}

// The text of a mark that is a reserved word; of the others none.
pub fn reserved_str(mark: Mark) -> &'static str
    ensures { result.now ≡ reserved_text mark }
{
    match mark {
        Mark::Kernel => "kernel",
        Mark::Var => "var",
        Mark::For => "for",
        Mark::In => "in",
        Mark::Let => "let",
        Mark::If => "if",
        Mark::Else => "else",
        Mark::Break => "break",
        Mark::Return => "return",
        Mark::Select => "select",
        Mark::Min => "min",
        Mark::Max => "max",
        Mark::Abs => "abs",
        Mark::As => "as",
        _ => "",
    }
}

// The text of a mark.
pub fn mark_str(mark: Mark) -> &'static str
    ensures { result.now ≡ mark_text mark }
{
    match mark {
        Mark::OpenParen => "(",
        Mark::CloseParen => ")",
        Mark::OpenBracket => "[",
        Mark::CloseBracket => "]",
        Mark::OpenBrace => "{",
        Mark::CloseBrace => "}",
        Mark::Comma => ",",
        Mark::Semicolon => ";",
        Mark::Colon => ":",
        Mark::Arrow => "->",
        Mark::Range => "..",
        Mark::Equals => "=",
        Mark::Plus => "+",
        Mark::Minus => "-",
        Mark::Star => "*",
        Mark::ShiftLeft => "<<",
        Mark::ShiftRight => ">>",
        Mark::Ampersand => "&",
        Mark::Caret => "^",
        Mark::Bar => "|",
        Mark::AndAnd => "&&",
        Mark::OrOr => "||",
        Mark::Tilde => "~",
        Mark::Bang => "!",
        _ => reserved_str(mark),
    }
}

#[tactic(auto, unfolding(kernel_tree::specs::Printing::spaced))]
pub fn put_mark(out: &mut String, mark: Mark) -> Result<(), AllocError>
    ensures { IfOk result (λ _. (rest : List TextToken)
        → string_bytes out.new ++ spaced rest ≡ string_bytes out.old ++ spaced (IsMark mark ∷ rest)) }
{
    put(out, mark_str(mark))
}

// The text of a comparison.
pub fn compare_str(op: CompareOp) -> &'static str
    ensures { result.now ≡ compare_text op }
{
    match op {
        CompareOp::Eq => "==",
        CompareOp::Ne => "!=",
        CompareOp::Lt => "<",
        CompareOp::Le => "<=",
        CompareOp::Gt => ">",
        CompareOp::Ge => ">=",
    }
}

// The text of an update.
pub fn update_str(op: UpdateOp) -> &'static str
    ensures { result.now ≡ update_text op }
{
    match op {
        UpdateOp::Add => "+=",
        UpdateOp::And => "&=",
        UpdateOp::Or => "|=",
        UpdateOp::Xor => "^=",
        UpdateOp::Min => "min=",
        UpdateOp::Max => "max=",
    }
}

#[tactic(auto, unfolding(kernel_tree::specs::Printing::spaced))]
pub fn put_update(out: &mut String, op: UpdateOp) -> Result<(), AllocError>
    ensures { IfOk result (λ _. (rest : List TextToken)
        → string_bytes out.new ++ spaced rest ≡ string_bytes out.old ++ spaced (IsUpdate op ∷ rest)) }
{
    put(out, update_str(op))
}

// Parentheses round an operator or a negative literal that is an operand.
#[tactic(auto, unfolding(kernel_tree::specs::Printing::opened))]
pub fn open(out: &mut String, place: Place) -> Result<(), AllocError>
    ensures { IfOk result (λ _. (rest : List TextToken)
        → string_bytes out.new ++ spaced rest ≡ string_bytes out.old ++ spaced (opened place rest)) }
{
    match place {
        Place::Alone => Ok(()),
        Place::Operand | Place::Negated => put_mark(out, Mark::OpenParen),
    }
}

#[tactic(auto, unfolding(kernel_tree::specs::Printing::closed))]
pub fn close(out: &mut String, place: Place) -> Result<(), AllocError>
    ensures { IfOk result (λ _. (rest : List TextToken)
        → string_bytes out.new ++ spaced rest ≡ string_bytes out.old ++ spaced (closed place rest)) }
{
    match place {
        Place::Alone => Ok(()),
        Place::Operand | Place::Negated => put_mark(out, Mark::CloseParen),
    }
}

// A number that is not negative stands in parentheses after a minus alone.
#[tactic(auto, unfolding(kernel_tree::specs::Printing::number_opened, kernel_tree::specs::Printing::number_closed))]
pub fn put_positive(out: &mut String, n: u128, place: Place) -> Result<(), AllocError>
    ensures { IfOk result (λ _. (rest : List TextToken)
        → string_bytes out.new ++ spaced rest
        ≡ string_bytes out.old ++ spaced (number_opened place (IsNumber n ∷ number_closed place rest))) }
{
    match place {
        Place::Alone | Place::Operand => put_number(out, n),
        Place::Negated => {
            put_mark(out, Mark::OpenParen)?;
            put_number(out, n)?;
            put_mark(out, Mark::CloseParen)
        }
    }
}

pub fn put_negative(out: &mut String, n: u128, place: Place) -> Result<(), AllocError>
    ensures { IfOk result (λ _. (rest : List TextToken)
        → string_bytes out.new ++ spaced rest
        ≡ string_bytes out.old ++ spaced (opened place (IsMark Mark.Minus ∷ IsNumber n ∷ closed place rest))) }
{
    open(out, place)?;
    put_mark(out, Mark::Minus)?;
    put_number(out, n)?;
    close(out, place)
}

pub fn print_value(out: &mut String, value: i128, place: Place) -> Result<(), AllocError>
    ensures { IfOk result (λ _. (rest : List TextToken)
        → string_bytes out.new ++ spaced rest ≡ string_bytes out.old ++ spaced (print_literal value place rest)) }
{
    if value < 0 {
        put_negative(out, value.unsigned_abs(), place)
    } else {
        put_positive(out, value.unsigned_abs(), place)
    }
}

// The count of a shift.
pub fn put_count(out: &mut String, count: i128) -> Result<(), AllocError>
    ensures { IfOk result (λ _. (rest : List TextToken)
        → string_bytes out.new ++ spaced rest ≡ string_bytes out.old ++ spaced (print_count count rest)) }
{
    if count < 0 {
        put_mark(out, Mark::Minus)?;
    }
    put_number(out, count.unsigned_abs())
}

#[tactic(auto, unfolding(kernel_tree::specs::Printing::spaced))]
pub fn put_compare(out: &mut String, op: CompareOp) -> Result<(), AllocError>
    ensures { IfOk result (λ _. (rest : List TextToken)
        → string_bytes out.new ++ spaced rest ≡ string_bytes out.old ++ spaced (IsCompare op ∷ rest)) }
{
    put(out, compare_str(op))
}
