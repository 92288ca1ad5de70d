//! The code of one item.

ghost use Rattle.std.specs.Prelude.{◌≡◌, ◌<◌, ◌++◌, [], true, OnOk, IfOk};
ghost use Rattle.loop_form.specs.LoopView.{op_of};
ghost use Rattle.lane_emit.specs.ItemCode.{op_code, value_code, truth_code, is_operator};
ghost use Rattle.lane_emit.specs.RegistersView.{registers_of};
ghost use Rattle.lane_emit.specs.View.{words_of, Adds};

use crate::code::{apply, cast, combine, shift, z_copy};
use crate::registers::LaneRegisters;
use crate::words::{logical, select, test, wide};
use guest_types::length::Width;
use loop_form::LoopOp;
use std::alloc::{AllocError, Global};
use sve_code::{GoverningReg, PredicateLogicalOp, Sve};

// The code of an operator with one operand or two, where it has a type.
fn emit_operator(
    words: &mut Vec<Sve>,
    width: Width,
    registers: &LaneRegisters<'_>,
    item: u32,
    op: &LoopOp<'_>,
) -> Result<(), AllocError>
    requires { is_operator (op_of op.now) ≡ true }
    ensures { OnOk result (Adds (value_code width (registers_of registers.now) item (op_of op.now))
        words.old.items words.new.items) }
{
    let d = registers.z(item);
    match *op {
        LoopOp::Unary {
            op,
            ty: Some(ty),
            arg,
        } => {
            apply(words, width, op, ty, d, registers.source(arg))?;
        }
        LoopOp::Binary {
            op,
            ty: Some(ty),
            left,
            right,
        } => {
            let a = registers.source(left);
            let b = registers.source(right);
            combine(words, width, op, ty, d, a, b)?;
        }
        _ => {}
    }
    Ok(())
}

// The code of an item that makes a value; none of another item.
fn emit_value(
    words: &mut Vec<Sve>,
    width: Width,
    registers: &LaneRegisters<'_>,
    item: u32,
    op: &LoopOp<'_>,
) -> Result<(), AllocError>
    ensures { OnOk result (Adds (value_code width (registers_of registers.now) item (op_of op.now))
        words.old.items words.new.items) }
{
    let d = registers.z(item);
    match *op {
        LoopOp::Unary { .. } | LoopOp::Binary { .. } => {
            emit_operator(words, width, registers, item, op)?;
        }
        LoopOp::Shift {
            left,
            count,
            ty: Some(ty),
            arg,
        } => {
            shift(words, width, left, count, ty, d, registers.source(arg))?;
        }
        LoopOp::Cast {
            from: Some(from),
            to,
            arg,
        } => {
            cast(words, width, from, to, d, registers.source(arg))?;
        }
        LoopOp::Let { arg, .. } => z_copy(words, d, registers.source(arg))?,
        LoopOp::Select { cond, yes, no, .. } => {
            let p = wide(registers.p(cond));
            words.push(select(width, d, p, registers.source(yes), registers.source(no)))?;
        }
        _ => {}
    }
    Ok(())
}

// The code of an item that makes a condition; none of another item.
fn emit_truth(
    words: &mut Vec<Sve>,
    width: Width,
    registers: &LaneRegisters<'_>,
    item: u32,
    mask: GoverningReg,
    op: &LoopOp<'_>,
) -> Result<(), AllocError>
    ensures { OnOk result (Adds (truth_code width (registers_of registers.now) item mask.number (op_of op.now))
        words.old.items words.new.items) }
{
    let d = wide(registers.p(item));
    let m = wide(mask);
    match *op {
        LoopOp::Compare {
            op,
            ty: Some(ty),
            left,
            right,
        } => {
            let a = registers.source(left);
            let b = registers.source(right);
            words.push(test(op, ty, width, d, mask, a, b))?;
        }
        LoopOp::Not(c) => {
            let c = wide(registers.p(c));
            words.push(logical(PredicateLogicalOp::Bic, d, m, m, c))?;
        }
        LoopOp::And(c) => {
            let c = wide(registers.p(c));
            words.push(logical(PredicateLogicalOp::And, d, m, c, c))?;
        }
        LoopOp::Or(a, b) => {
            let a = wide(registers.p(a));
            let b = wide(registers.p(b));
            words.push(logical(PredicateLogicalOp::Orr, d, m, a, b))?;
        }
        _ => {}
    }
    Ok(())
}

/// The code of an item under the mask in a predicate register: of an operation on values, of a `let`, and of a
/// condition. Reads, stores, updates and breaks have code of their own, and none here.
pub fn emit_item(
    alloc: Global,
    width: Width,
    registers: &LaneRegisters<'_>,
    item: u32,
    mask: GoverningReg,
    op: &LoopOp<'_>,
) -> Result<Vec<Sve>, AllocError>
    ensures { let kept = registers_of registers.now in
        IfOk result (λ code. words_of code.items ≡ op_code width kept item mask.number (op_of op.now)) }
{
    let mut words = Vec::new(alloc);
    emit_value(&mut words, width, registers, item, op)?;
    emit_truth(&mut words, width, registers, item, mask, op)?;
    Ok(words)
}
