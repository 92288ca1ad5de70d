//! Emits the code of operators, loads and branches, whose operands are in registers.

ghost use Rattle.std.specs.Prelude.{◌≡◌, ◌<◌, ◌+◌, ◌^◌, true, [], ◌∷◌, IfOk, OnOk, option_map};
ghost use Rattle.label_fix.specs.Draft.{word_view, kind_view};
ghost use Rattle.label_fix.specs.Emits.{Emits};
ghost use Rattle.label_fix.specs.Finished.{is_plain, has_register};
ghost use Rattle.a64_code.specs.Table as table;
ghost use Rattle.kernel_tree.specs.Wrap as wrap;
ghost use Rattle.label_fix.specs.DraftRun as plain;
ghost use Rattle.value_code.specs.ItemWords as words;
ghost use Rattle.scalar_words.specs.Words as common;
ghost use Rattle.scalar_words.specs.Layout as layouts;
ghost use Rattle.value_code.specs.Code as code;
ghost use Rattle.scalar_values.specs.Sides.{side_view};

use crate::registers::take;
use crate::side::Side;
use a64_code::{AddSubOp, Cond, LogicalOp, Reg, SelectOp, zero};
use kernel_meaning::fits;
use kernel_tree::{BinaryOp, CompareOp, Ty, UnaryOp};
use label_fix::registers::{ITERATION, SCRATCH};
use label_fix::{BranchKind, Draft, Label, Word};
use scalar_words::KernelLayout;
use scalar_words::instructions::{add_sub, condition, extending, is_narrow, logical, select};
use scalar_words::operations::{emit_copy, emit_operation, emit_settle};
use std::alloc::AllocError;
use value_code::instructions::{
    compare_word, load, product_word, shift_count, shift_word, shifted, sum_word, turned, zero_test,
};

/// What an operation makes: the type at which it is wanted, and whether it may have left the extended form of that.
#[derive(Clone, Copy)]
pub struct Made {
    pub want: Option<Ty>,
    pub leaves: bool,
}

// A word whose result is extended in place where it may have left the extended form.
fn emit_then_settle(
    draft: &mut Draft,
    word: Word,
    leaves: bool,
    ty: Ty,
    d: Reg,
) -> Result<(), AllocError>
    requires { is_plain (word_view word) ≡ true }
    ensures { OnOk result (Emits draft.old draft.new draft.old.labels
        (λ rest. plain.Put (word_view word) ∷ common.word_code (common.settle_word leaves ty d.number) rest)) }
{
    draft.put(word)?;
    emit_settle(draft, leaves, ty, d)
}

// The absolute value.
fn emit_abs(draft: &mut Draft, leaves: bool, ty: Ty, d: Reg, a: Reg) -> Result<(), AllocError>
    ensures { OnOk result (Emits draft.old draft.new draft.old.labels
        (words.abs_code leaves (wrap.is_signed ty) ty d.number a.number)) }
{
    if ty.is_signed() {
        draft.put(add_sub(AddSubOp::Subs, SCRATCH, zero(), a))?;
        let word = select(SelectOp::Csel, d, SCRATCH, Cond::Ge, a);
        emit_then_settle(draft, word, leaves, ty, d)
    } else {
        emit_copy(draft, d, a)
    }
}

// The code of an operator with one operand.
fn emit_unary(
    draft: &mut Draft,
    op: UnaryOp,
    leaves: bool,
    ty: Ty,
    d: Reg,
    a: Reg,
) -> Result<(), AllocError>
    ensures { OnOk result (Emits draft.old draft.new draft.old.labels
        (words.unary_code leaves op ty d.number a.number)) }
{
    match op {
        UnaryOp::Neg => {
            let word = add_sub(AddSubOp::Sub, d, zero(), a);
            emit_then_settle(draft, word, leaves, ty, d)
        }
        UnaryOp::Flip => {
            let word = logical(LogicalOp::Orn, d, zero(), a);
            emit_then_settle(draft, word, leaves, ty, d)
        }
        UnaryOp::Abs => emit_abs(draft, leaves, ty, d, a),
    }
}

/// Whether a type, if there is one, is signed.
pub fn signed_side(want: Option<Ty>) -> bool
    ensures { result ≡ code.signed_side want }
{
    match want {
        None => false,
        Some(ty) => ty.is_signed(),
    }
}

/// Where code goes to by the truth of a condition: the truth at which it does, and the label.
#[derive(Clone, Copy)]
pub struct Jump {
    pub sense: bool,
    pub to: Label,
}

/// The jump of a comparison.
pub fn emit_branch(
    draft: &mut Draft,
    op: CompareOp,
    jump: Jump,
    want: Option<Ty>,
    number: Option<u64>,
    sides: (Reg, Reg),
) -> Result<(), AllocError>
    requires { jump.to < draft.old.labels }
    ensures { OnOk result (Emits draft.old draft.new draft.old.labels
        (words.branch_code op jump.sense (code.signed_side want) number sides.0.number sides.1.number jump.to)) }
{
    let Jump { sense, to } = jump;
    let (a, b) = sides;
    let signed = signed_side(want);
    match zero_test(op, number) {
        Some(zero) => draft.branch(zero_branch(sense, zero, a), to),
        None => {
            draft.put(compare_word(number, a, b))?;
            draft.branch(BranchKind::If(turned(sense, op, signed)), to)
        }
    }
}

// A branch where the truth of a test of a register, which asks whether it is zero or else whether it is not, is `sense`.
fn zero_branch(sense: bool, zero: bool, r: Reg) -> BranchKind
    ensures register { has_register (kind_view result) ≡ true }
    ensures kind { kind_view result ≡ words.zero_kind (words.same_sense sense zero) r.number }
{
    if sense == zero {
        BranchKind::Zero(r.number)
    } else {
        BranchKind::NotZero(r.number)
    }
}

/// A choice by the flags of a comparison.
pub fn emit_chosen(
    draft: &mut Draft,
    layout: &KernelLayout,
    op: CompareOp,
    want: Option<Ty>,
    values: (Reg, Reg),
    item: &mut usize,
) -> Result<Reg, AllocError>
    requires { item.old < 2 ^ 32 }
    ensures register { IfOk result (λ r. r.number ≡ layouts.reg_of layout.now item.old) }
    ensures item { item.new ≡ item.old + 1 }
    ensures emits { OnOk result (Emits draft.old draft.new draft.old.labels
        (λ rest. plain.ins table.csel (layouts.reg_of layout.now item.old ∷ values.0.number
        ∷ common.condition op (code.signed_side want) ∷ values.1.number ∷ []) ∷ rest)) }
{
    let d = take(layout, item);
    let (a, b) = values;
    let word = select(SelectOp::Csel, d, a, condition(op, signed_side(want)), b);
    draft.put(word).and(Ok(d))
}

/// The first of two values into a register where the code before goes on, and the second where it goes to a label.
pub fn emit_pick(
    draft: &mut Draft,
    layout: &KernelLayout,
    values: (Reg, Reg),
    other: Label,
    end: Label,
    item: &mut usize,
) -> Result<Reg, AllocError>
    requires next { end ≡ other + 1 }
    requires given { end < draft.old.labels }
    requires fits { item.old < 2 ^ 32 }
    ensures register { IfOk result (λ r. r.number ≡ layouts.reg_of layout.now item.old) }
    ensures item { item.new ≡ item.old + 1 }
    ensures emits { OnOk result (Emits draft.old draft.new draft.old.labels
        (words.pick_code (layouts.reg_of layout.now item.old) values.0.number values.1.number other)) }
{
    let d = take(layout, item);
    let (a, b) = values;
    emit_copy(draft, d, a)?;
    draft.branch(BranchKind::Always, end)?;
    draft.place(other)?;
    emit_copy(draft, d, b)?;
    draft.place(end).and(Ok(d))
}

/// The place of a label, where it is wanted.
pub fn emit_placed(draft: &mut Draft, wanted: bool, label: Label) -> Result<(), AllocError>
    requires { label < draft.old.labels }
    ensures { OnOk result (Emits draft.old draft.new draft.old.labels (words.placed_code wanted label)) }
{
    if wanted { draft.place(label) } else { Ok(()) }
}

// The code of an operator, by what its word takes as its right side.
fn emit_operator(
    draft: &mut Draft,
    op: BinaryOp,
    side: Side,
    leaves: bool,
    ty: Ty,
    d: Reg,
    a: Reg,
) -> Result<(), AllocError>
    ensures { OnOk result (Emits draft.old draft.new draft.old.labels
        (words.operator_code (side_view side) leaves op ty d.number a.number)) }
{
    match side {
        Side::Register(c) => {
            emit_operation(draft, op, ty.is_signed(), d, a, c)?;
            emit_settle(draft, leaves, ty, d)
        }
        Side::Number(number) => {
            let word = sum_word(op, number, d, a);
            emit_then_settle(draft, word, leaves, ty, d)
        }
        Side::Product(p, q) => {
            let word = product_word(op, d, a, p, q);
            emit_then_settle(draft, word, leaves, ty, d)
        }
        Side::Moved {
            left,
            signed,
            count,
            register,
        } => {
            let word = shift_word(op, d, a, left, signed, count, register);
            emit_then_settle(draft, word, leaves, ty, d)
        }
    }
}

/// The same where a type is wanted.
pub fn want_operator(
    draft: &mut Draft,
    op: BinaryOp,
    side: Side,
    made: Made,
    d: Reg,
    a: Reg,
) -> Result<(), AllocError>
    ensures { OnOk result (Emits draft.old draft.new draft.old.labels
        (λ rest. common.at_type made.want (λ t. words.operator_code (side_view side) made.leaves op t d.number a.number
        rest) rest)) }
{
    match made.want {
        None => Ok(()),
        Some(ty) => emit_operator(draft, op, side, made.leaves, ty, d, a),
    }
}

/// The same of an operator on one value, into the register of its item.
pub fn want_unary(
    draft: &mut Draft,
    layout: &KernelLayout,
    op: UnaryOp,
    made: Made,
    a: Reg,
    item: &mut usize,
) -> Result<Reg, AllocError>
    requires { item.old < 2 ^ 32 }
    ensures register { IfOk result (λ r. r.number ≡ layouts.reg_of layout.now item.old) }
    ensures item { item.new ≡ item.old + 1 }
    ensures emits { OnOk result (Emits draft.old draft.new draft.old.labels
        (λ rest. common.at_type made.want (λ t. words.unary_code made.leaves op t
        (layouts.reg_of layout.now item.old) a.number rest) rest)) }
{
    let d = take(layout, item);
    match made.want {
        None => Ok(d),
        Some(ty) => emit_unary(draft, op, made.leaves, ty, d, a).and(Ok(d)),
    }
}

/// The same of a shift by a constant.
pub fn want_shift(
    draft: &mut Draft,
    layout: &KernelLayout,
    made: Made,
    left: bool,
    count: i128,
    a: Reg,
    item: &mut usize,
) -> Result<Reg, AllocError>
    requires { item.old < 2 ^ 32 }
    ensures register { IfOk result (λ r. r.number ≡ layouts.reg_of layout.now item.old) }
    ensures item { item.new ≡ item.old + 1 }
    ensures emits { OnOk result (Emits draft.old draft.new draft.old.labels
        (λ rest. common.at_type made.want (λ t. words.shift_code made.leaves left count t
        (layouts.reg_of layout.now item.old) a.number rest) rest)) }
{
    let d = take(layout, item);
    match made.want {
        None => Ok(d),
        Some(ty) => {
            let word = shifted(left, ty.is_signed(), shift_count(count), d, a);
            emit_then_settle(draft, word, made.leaves, ty, d).and(Ok(d))
        }
    }
}

// A value of one type as one of another, of which no more than the low bits of that type may be asked for.
fn emit_convert(
    draft: &mut Draft,
    low: bool,
    from: Ty,
    ty: Ty,
    d: Reg,
    a: Reg,
) -> Result<(), AllocError>
    ensures { OnOk result (Emits draft.old draft.new draft.old.labels
        (common.word_code (words.convert_word low from ty d.number a.number))) }
{
    if low || (fits(from, ty) || !is_narrow(ty)) {
        emit_copy(draft, d, a)
    } else {
        draft.put(extending(ty, d, a))
    }
}

/// A cast, where its operand has a type, into the register of its item.
pub fn want_cast(
    draft: &mut Draft,
    layout: &KernelLayout,
    low: bool,
    from: Option<Ty>,
    ty: Ty,
    a: Reg,
    item: &mut usize,
) -> Result<Reg, AllocError>
    requires { item.old < 2 ^ 32 }
    ensures register { IfOk result (λ r. r.number ≡ layouts.reg_of layout.now item.old) }
    ensures item { item.new ≡ item.old + 1 }
    ensures emits { OnOk result (Emits draft.old draft.new draft.old.labels
        (λ rest. common.at_type from (λ s. common.word_code (words.convert_word low s ty
        (layouts.reg_of layout.now item.old) a.number) rest) rest)) }
{
    let d = take(layout, item);
    match from {
        None => Ok(d),
        Some(from) => emit_convert(draft, low, from, ty, d, a).and(Ok(d)),
    }
}

/// The word of a stream index, if it takes one, and the register that holds the index.
pub fn emit_offset(draft: &mut Draft, moved: Option<Word>) -> Result<Reg, AllocError>
    requires plain { words.IsPlainIf (option_map word_view moved) }
    ensures register { IfOk result (λ r. r.number ≡ words.index_register (option_map word_view moved)) }
    ensures emits { OnOk result (Emits draft.old draft.new draft.old.labels
        (common.word_code (option_map word_view moved))) }
{
    match moved {
        None => Ok(ITERATION),
        Some(moved) => {
            draft.put(moved)?;
            Ok(SCRATCH)
        }
    }
}

/// A load, where the elements have a type, into the register of its item.
pub fn emit_load(
    draft: &mut Draft,
    layout: &KernelLayout,
    ty: Option<Ty>,
    p: Reg,
    r: Reg,
    item: &mut usize,
) -> Result<Reg, AllocError>
    requires { item.old < 2 ^ 32 }
    ensures register { IfOk result (λ r. r.number ≡ layouts.reg_of layout.now item.old) }
    ensures item { item.new ≡ item.old + 1 }
    ensures emits { OnOk result (Emits draft.old draft.new draft.old.labels
        (words.load_code ty (layouts.reg_of layout.now item.old) p.number r.number)) }
{
    let d = take(layout, item);
    match ty {
        None => Ok(d),
        Some(ty) => draft.put(load(ty, d, p, r)).and(Ok(d)),
    }
}
