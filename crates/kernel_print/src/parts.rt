//! Prints the parts of a kernel.

ghost use Rattle.std.specs.Prelude.{◌≡◌, ◌∷◌, ◌++◌, List, [], IfOk, string_bytes, option_map, Option};
ghost use Rattle.kernel_tree.specs.TextToken.{TextToken, IsName, IsNumber, IsType, IsMark};
ghost use Rattle.kernel_tree.specs.Plain.{name_of, parameter_of, parameters_of, accumulator_of, accumulators_of, for_loop_of, returned_of};
ghost use Rattle.kernel_tree.specs.Printing.{spaced, print_shape, print_param, print_others, print_params, print_vars, print_for_loop, print_arrow, print_answer, print_term};

use crate::stmt::{print_before, print_statements};
use crate::token::{put_mark, put_name, put_number, put_type};
use kernel_tree::mark::Mark;
use kernel_tree::{Answer, Loop, Param, Shape, Var};
use std::alloc::AllocError;

fn put_shape(out: &mut String, shape: Shape) -> Result<(), AllocError>
    ensures { IfOk result (λ _. (rest : List TextToken)
        → string_bytes out.new ++ spaced rest ≡ string_bytes out.old ++ spaced (print_shape shape rest)) }
{
    match shape {
        Shape::Scalar(ty) => put_type(out, ty),
        Shape::Array(ty) => {
            put_mark(out, Mark::OpenBracket)?;
            put_type(out, ty)?;
            put_mark(out, Mark::CloseBracket)
        }
    }
}

fn put_param(out: &mut String, param: &Param) -> Result<(), AllocError>
    ensures { IfOk result (λ _. (rest : List TextToken)
        → string_bytes out.new ++ spaced rest
        ≡ string_bytes out.old ++ spaced (print_param (parameter_of param.now) rest)) }
{
    put_name(out, &param.name)?;
    put_mark(out, Mark::Colon)?;
    put_shape(out, param.shape)
}

// Parameters after a first one.
fn put_others(out: &mut String, others: &[Param]) -> Result<(), AllocError>
    ensures { IfOk result (λ _. (rest : List TextToken)
        → string_bytes out.new ++ spaced rest
        ≡ string_bytes out.old ++ spaced (print_others (parameters_of others.now) rest)) }
{
    for param in others {
        put_mark(out, Mark::Comma)?;
        put_param(out, param)?;
    }
    Ok(())
}

pub fn put_params(out: &mut String, params: &[Param]) -> Result<(), AllocError>
    ensures { IfOk result (λ _. (rest : List TextToken)
        → string_bytes out.new ++ spaced rest
        ≡ string_bytes out.old ++ spaced (print_params (parameters_of params.now) rest)) }
{
    match params.split_first() {
        None => Ok(()),
        Some((first, others)) => {
            put_param(out, first)?;
            put_others(out, others)
        }
    }
}

fn put_var(out: &mut String, var: &Var) -> Result<(), AllocError>
    ensures { IfOk result (λ _. (rest : List TextToken)
        → string_bytes out.new ++ spaced rest
        ≡ string_bytes out.old ++ spaced (print_vars (accumulator_of var.now ∷ []) rest)) }
{
    put_mark(out, Mark::Var)?;
    put_name(out, &var.name)?;
    put_mark(out, Mark::Colon)?;
    put_type(out, var.ty)?;
    put_mark(out, Mark::Equals)?;
    print_before(out, &var.init, Mark::Semicolon)
}

pub fn put_vars(out: &mut String, vars: &[Var]) -> Result<(), AllocError>
    ensures { IfOk result (λ _. (rest : List TextToken)
        → string_bytes out.new ++ spaced rest
        ≡ string_bytes out.old ++ spaced (print_vars (accumulators_of vars.now) rest)) }
{
    for var in vars {
        put_var(out, var)?;
    }
    Ok(())
}

// What stands in front of the body of a loop.
fn put_range(out: &mut String, for_loop: &Loop) -> Result<(), AllocError>
    ensures { IfOk result (λ _. (rest : List TextToken)
        → string_bytes out.new ++ spaced rest
        ≡ string_bytes out.old ++ spaced (IsMark Mark.For ∷ IsName (name_of for_loop.now.index) ∷ IsMark Mark.In
        ∷ IsNumber 0 ∷ IsMark Mark.Range ∷ IsName (name_of for_loop.now.bound) ∷ IsMark Mark.OpenBrace ∷ rest)) }
{
    put_mark(out, Mark::For)?;
    put_name(out, &for_loop.index)?;
    put_mark(out, Mark::In)?;
    put_number(out, 0)?;
    put_mark(out, Mark::Range)?;
    put_name(out, &for_loop.bound)?;
    put_mark(out, Mark::OpenBrace)
}

pub fn put_loop(out: &mut String, for_loop: &Option<Loop>) -> Result<(), AllocError>
    ensures { IfOk result (λ _. (rest : List TextToken)
        → string_bytes out.new ++ spaced rest
        ≡ string_bytes out.old ++ spaced (print_for_loop (option_map for_loop_of for_loop.now) rest)) }
{
    match for_loop {
        None => Ok(()),
        Some(for_loop) => {
            put_range(out, for_loop)?;
            print_statements(out, &for_loop.body)
        }
    }
}

// The type that is returned.
pub fn put_arrow(out: &mut String, answer: &Option<Answer>) -> Result<(), AllocError>
    ensures { IfOk result (λ _. (rest : List TextToken)
        → string_bytes out.new ++ spaced rest
        ≡ string_bytes out.old ++ spaced (print_arrow (option_map returned_of answer.now) rest)) }
{
    match answer {
        None => Ok(()),
        Some(answer) => {
            put_mark(out, Mark::Arrow)?;
            put_type(out, answer.ty)
        }
    }
}

pub fn put_answer(out: &mut String, answer: &Option<Answer>) -> Result<(), AllocError>
    ensures { IfOk result (λ _. (rest : List TextToken)
        → string_bytes out.new ++ spaced rest
        ≡ string_bytes out.old ++ spaced (print_answer (option_map returned_of answer.now) rest)) }
{
    match answer {
        None => Ok(()),
        Some(answer) => {
            put_mark(out, Mark::Return)?;
            print_before(out, &answer.value, Mark::Semicolon)
        }
    }
}
