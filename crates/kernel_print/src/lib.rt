//! The canonical text of a kernel: its tokens joined by single spaces.
#![tactic(auto)]

mod expr;
mod parts;
mod stmt;
mod token;

ghost use Rattle.std.specs.Prelude.{◌≡◌, ◌∷◌, ◌++◌, List, [], IfOk, string_bytes};
ghost use Rattle.kernel_tree.specs.TextToken.{TextToken, IsName, IsMark};
ghost use Rattle.kernel_tree.specs.Plain.{Program, program_of};
ghost use Rattle.kernel_tree.specs.Grammar.{IsTree};
ghost use Rattle.kernel_tree.specs.Text.{IsTextOf};
ghost use Rattle.kernel_tree.specs.Printing.{spaced, kernel_words, canonical_text, print_params, print_arrow, print_vars, print_for_loop, print_answer};

use kernel_tree::Kernel;
use kernel_tree::mark::Mark;
use parts::{put_answer, put_arrow, put_loop, put_params, put_vars};
use std::alloc::{AllocError, Global};
use token::{put_mark, put_name};

// The name, the parameters and the type that is returned.
fn put_head(out: &mut String, kernel: &Kernel) -> Result<(), AllocError>
    ensures { let k = program_of kernel.now in IfOk result
        (λ _. (rest : List TextToken) → string_bytes out.new ++ spaced rest
        ≡ string_bytes out.old ++ spaced (IsName k.name ∷ IsMark Mark.OpenParen
        ∷ print_params k.params (IsMark Mark.CloseParen ∷ print_arrow k.answer (IsMark Mark.OpenBrace ∷ rest)))) }
{
    put_name(out, &kernel.name)?;
    put_mark(out, Mark::OpenParen)?;
    put_params(out, &kernel.params)?;
    put_mark(out, Mark::CloseParen)?;
    put_arrow(out, &kernel.answer)?;
    put_mark(out, Mark::OpenBrace)
}

// What stands in the braces.
fn put_inside(out: &mut String, kernel: &Kernel) -> Result<(), AllocError>
    ensures { let k = program_of kernel.now in IfOk result
        (λ _. (rest : List TextToken) → string_bytes out.new ++ spaced rest
        ≡ string_bytes out.old ++ spaced (print_vars k.vars
        (print_for_loop k.for_loop (print_answer k.answer (IsMark Mark.CloseBrace ∷ rest))))) }
{
    put_vars(out, &kernel.vars)?;
    put_loop(out, &kernel.body)?;
    put_answer(out, &kernel.answer)?;
    put_mark(out, Mark::CloseBrace)
}

/// The canonical text of a kernel: its tokens joined by single spaces, literals in decimal, and an operand in
/// parentheses where it is itself an operator or a negative literal.
pub fn print_kernel(alloc: Global, kernel: &Kernel) -> Result<String, AllocError>
    ensures canonical { IfOk result (λ text. string_bytes text ≡ canonical_text (program_of kernel.now)) }
    // The text of a kernel that is the tree of some tokens has that kernel as its tree.
    ensures reads_back { IfOk result (λ text. IsTree (program_of kernel.now)
        → IsTextOf (program_of kernel.now) (string_bytes text)) }
{
    let mut text = String::from_str(alloc, "kernel")?;
    put_head(&mut text, kernel)?;
    put_inside(&mut text, kernel)?;
    Ok(text)
}
