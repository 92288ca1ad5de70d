//! Emits the code of expressions.

ghost use Rattle.std.specs.Prelude.{◌≡◌, ◌+◌, ◌<◌, ◌^◌, true, None, IfOk, OnOk};
ghost use Rattle.kernel_tree.specs.Plain.{Element, Operation, Both, Either, name_of, term_of};
ghost use Rattle.kernel_tree.specs.Items.{term_size, index_items};
ghost use Rattle.kernel_tree.specs.Kinds.{IsValue, IsTruth};
ghost use Rattle.kernel_scope.specs.Scopes.{scope_of};
ghost use Rattle.label_fix.specs.Emits.{Emits};
ghost use Rattle.scalar_words.specs.Sites.{at, at_index, index_at};
ghost use Rattle.value_code.specs.ValueRegisters as placed;
ghost use Rattle.scalar_words.specs.Layout as layouts;
ghost use Rattle.value_code.specs.declared.extent.Extent.TheVariants.{Whole};
ghost use Rattle.value_code.specs.Code as code;
ghost use Rattle.scalar_values.specs.Sides.{side_view};

use crate::fusion::{is_fused, is_led, part_side};
use crate::literal::emit_literal;
use crate::operations::{
    Jump, Made, emit_branch, emit_chosen, emit_load, emit_offset, emit_pick, emit_placed,
    want_cast, want_operator, want_shift, want_unary,
};
use crate::registers::{home_of, take, take_held};
use crate::side::Side;
use a64_code::Reg;
use kernel_scope::{array_type, first, own_type, side_type};
use kernel_tree::{BinaryOp, Expr, Name, Ty};
use label_fix::Draft;
use label_fix::registers::ITERATION;
use scalar_words::Site;
use std::alloc::AllocError;
use value_code::extent::{Asked, Extent, converted_extent, within_type};
use value_code::instructions::{added_number, compare_word, compared_number, index_word};
use value_code::leaving::{binary_asks, shift_asks, unary_asks};
use value_code::place::place_of;

/// The code of an expression of which a type is wanted and so much is asked for, and the register of its value.
#[cycle(terms)]
pub fn emit_loose(
    draft: &mut Draft,
    site: &Site,
    asked: Asked,
    expr: &Expr,
    item: &mut usize,
) -> Result<Reg, AllocError>
    requires kind { IsValue (term_of expr.now) }
    requires fits { item.old + term_size (index_at site.now) (term_of expr.now) < 2 ^ 32 }
    ensures register { IfOk result (λ r. r.number ≡ at_index site.now placed.home item.old (term_of expr.now)) }
    ensures item { OnOk result (item.new ≡ item.old + term_size (index_at site.now) (term_of expr.now)) }
    ensures emits { OnOk result (Emits draft.old draft.new
        (draft.old.labels + code.labels (index_at site.now) (term_of expr.now))
        (at site.now code.loose_code asked.extent asked.want item.old draft.old.labels (term_of expr.now))) }
{
    let Asked { extent, want } = asked;
    let scope = &site.scope;
    match expr {
        Expr::Lit(value) => emit_literal(draft, &site.layout, want, *value, item),
        Expr::Var(name) => Ok(take_held(site, name, item)),
        Expr::Unary { op, arg } => {
            let arg = &**arg;
            let (extent, leaves) = unary_asks(scope, want, *op, arg, extent);
            let a = emit_loose(draft, site, Asked { extent, want }, arg, item)?;
            want_unary(draft, &site.layout, *op, Made { want, leaves }, a, item)
        }
        Expr::Shift {
            left_shift,
            arg,
            count,
        } => {
            let arg = &**arg;
            let (extent, leaves) = shift_asks(scope, want, *left_shift, arg, *count, extent);
            let a = emit_loose(draft, site, Asked { extent, want }, arg, item)?;
            let made = Made { want, leaves };
            want_shift(draft, &site.layout, made, *left_shift, *count, a, item)
        }
        Expr::Cast { arg, ty } => {
            let arg = &**arg;
            let from = own_type(scope, arg);
            let extent = converted_extent(extent, from, *ty);
            let a = emit_loose(draft, site, Asked { extent, want: from }, arg, item)?;
            let low = within_type(asked.extent, *ty);
            want_cast(draft, &site.layout, low, from, *ty, a, item)
        }
        Expr::Binary { op, left, right } => emit_two(draft, site, asked, *op, left, right, item),
        Expr::Read { array, index } => emit_read(draft, site, extent, array, index, item),
        Expr::Select { cond, yes, no } => {
            let a = emit_loose(draft, site, asked, yes, item)?;
            let b = emit_loose(draft, site, asked, no, item)?;
            emit_one_of(draft, site, cond, a, b, item)
        }
        _ => unreachable!(),
    }
}

// An operator on two values.
#[cycle(terms)]
fn emit_two(
    draft: &mut Draft,
    site: &Site,
    asked: Asked,
    op: BinaryOp,
    left: &Expr,
    right: &Expr,
    item: &mut usize,
) -> Result<Reg, AllocError>
    requires left { IsValue (term_of left.now) }
    requires right { IsValue (term_of right.now) }
    requires fits { item.old + term_size (index_at site.now) (Operation op (term_of left.now)
        (term_of right.now)) < 2 ^ 32 }
    ensures register { IfOk result (λ r. r.number ≡ at_index site.now placed.home item.old (Operation op
        (term_of left.now) (term_of right.now))) }
    ensures item { OnOk result (item.new ≡ item.old + term_size (index_at site.now) (Operation op
        (term_of left.now) (term_of right.now))) }
    ensures emits { OnOk result (Emits draft.old draft.new
        (draft.old.labels + code.labels (index_at site.now)
        (Operation op (term_of left.now) (term_of right.now)))
        (at site.now code.loose_code asked.extent asked.want item.old draft.old.labels
        (Operation op (term_of left.now) (term_of right.now)))) }
{
    let Asked { extent, want } = asked;
    let (extent, leaves) = binary_asks(&site.scope, want, op, left, right, extent);
    let sides = emit_sides(draft, site, op, Asked { extent, want }, left, right, item)?;
    let r = take(&site.layout, item);
    want_operator(draft, op, sides.0, Made { want, leaves }, r, sides.1).and(Ok(r))
}

// Both sides of an operator, of which so much is asked for; answers what its word takes of one, and the register of the
// other.
#[cycle(terms)]
fn emit_sides(
    draft: &mut Draft,
    site: &Site,
    op: BinaryOp,
    asked: Asked,
    left: &Expr,
    right: &Expr,
    item: &mut usize,
) -> Result<(Side, Reg), AllocError>
    requires left { IsValue (term_of left.now) }
    requires right { IsValue (term_of right.now) }
    requires fits { item.old + term_size (index_at site.now) (Operation op (term_of left.now)
        (term_of right.now)) < 2 ^ 32 }
    ensures side { IfOk result (λ r. side_view r.0 ≡ at site.now code.taken_side op asked.extent asked.want item.old
        (term_of left.now) (term_of right.now)) }
    ensures other { IfOk result (λ r. r.1.number ≡ at site.now code.other_home op asked.extent asked.want item.old
        (term_of left.now) (term_of right.now)) }
    ensures item { OnOk result (item.new ≡ item.old + term_size (index_at site.now) (term_of left.now)
        + term_size (index_at site.now) (term_of right.now)) }
    ensures emits { OnOk result (Emits draft.old draft.new
        (draft.old.labels + code.labels (index_at site.now)
        (Operation op (term_of left.now) (term_of right.now)))
        (at site.now code.sides_code asked.extent asked.want item.old draft.old.labels op
        (term_of left.now) (term_of right.now))) }
{
    if is_led(site, op, asked, left, right, *item) {
        let side = part_side(site, asked.want, left, *item);
        emit_parts(draft, site, asked, left, item)?;
        *item += 1;
        let r = emit_loose(draft, site, asked, right, item)?;
        Ok((side, r))
    } else {
        let r = emit_loose(draft, site, asked, left, item)?;
        let side = emit_side(draft, site, op, asked, right, item)?;
        Ok((side, r))
    }
}

/// The right side of an operator, of which so much is asked for; answers what the operator's word takes of it.
#[cycle(terms)]
pub fn emit_side(
    draft: &mut Draft,
    site: &Site,
    op: BinaryOp,
    asked: Asked,
    expr: &Expr,
    item: &mut usize,
) -> Result<Side, AllocError>
    requires kind { IsValue (term_of expr.now) }
    requires fits { item.old + term_size (index_at site.now) (term_of expr.now) < 2 ^ 32 }
    ensures side { IfOk result (λ s. side_view s ≡ at site.now code.right_side op asked.extent asked.want
        item.old (term_of expr.now)) }
    ensures item { OnOk result (item.new ≡ item.old + term_size (index_at site.now) (term_of expr.now)) }
    ensures emits { OnOk result (Emits draft.old draft.new
        (draft.old.labels + code.labels (index_at site.now) (term_of expr.now))
        (code.side_code (code.added_number op asked.want (term_of expr.now))
        (code.is_fused (scope_of site.now.scope) op asked.extent asked.want (term_of expr.now))
        (at site.now code.loose_code asked.extent asked.want item.old draft.old.labels (term_of expr.now))
        (at site.now code.parts_code asked.extent asked.want item.old draft.old.labels
        (term_of expr.now)))) }
{
    let fused = is_fused(&site.scope, op, asked, expr);
    match added_number(op, asked.want, expr) {
        Some(number) => {
            *item += 1;
            Ok(Side::Number(number))
        }
        None => {
            if fused {
                let side = part_side(site, asked.want, expr, *item);
                emit_parts(draft, site, asked, expr, item)?;
                *item += 1;
                Ok(side)
            } else {
                let r = emit_loose(draft, site, asked, expr, item)?;
                Ok(Side::Register(r))
            }
        }
    }
}

// The operands of a value that stands in the word of its user, before its own item; answers the register of the last one.
#[cycle(terms)]
fn emit_parts(
    draft: &mut Draft,
    site: &Site,
    asked: Asked,
    expr: &Expr,
    item: &mut usize,
) -> Result<Reg, AllocError>
    requires kind { IsValue (term_of expr.now) }
    requires parts { code.HasParts true (term_of expr.now) }
    requires fits { item.old + term_size (index_at site.now) (term_of expr.now) < 2 ^ 32 }
    ensures item { OnOk result (item.new + 1 ≡ item.old + term_size (index_at site.now) (term_of expr.now)) }
    ensures emits { OnOk result (Emits draft.old draft.new
        (draft.old.labels + code.labels (index_at site.now) (term_of expr.now))
        (at site.now code.parts_code asked.extent asked.want item.old draft.old.labels (term_of expr.now))) }
{
    let Asked { extent, want } = asked;
    let scope = &site.scope;
    match expr {
        Expr::Binary { op, left, right } => {
            let (left, right) = (&**left, &**right);
            let (extent, _) = binary_asks(scope, want, *op, left, right, extent);
            emit_loose(draft, site, Asked { extent, want }, left, item)?;
            emit_loose(draft, site, Asked { extent, want }, right, item)
        }
        Expr::Shift {
            left_shift,
            arg,
            count,
        } => {
            let arg = &**arg;
            let (extent, _) = shift_asks(scope, want, *left_shift, arg, *count, extent);
            emit_loose(draft, site, Asked { extent, want }, arg, item)
        }
        Expr::Cast { arg, ty } => {
            let arg = &**arg;
            let from = own_type(scope, arg);
            let extent = converted_extent(extent, from, *ty);
            emit_loose(draft, site, Asked { extent, want: from }, arg, item)
        }
        _ => unreachable!(),
    }
}

// An element, by its index.
#[cycle(terms)]
#[tactic(auto, using(value_code::proofs::NearOffsets::no_items))]
fn emit_read(
    draft: &mut Draft,
    site: &Site,
    extent: Extent,
    array: &Name,
    index: &Expr,
    item: &mut usize,
) -> Result<Reg, AllocError>
    requires kind { IsValue (term_of index.now) }
    requires fits { item.old + term_size (index_at site.now) (Element (name_of array.now)
        (term_of index.now)) < 2 ^ 32 }
    ensures register { IfOk result (λ r. r.number
        ≡ at_index site.now placed.home item.old (Element
        (name_of array.now) (term_of index.now))) }
    ensures item { OnOk result (item.new ≡ item.old + term_size (index_at site.now) (Element
        (name_of array.now) (term_of index.now))) }
    ensures emits { OnOk result (Emits draft.old draft.new
        (draft.old.labels + code.labels (index_at site.now) (Element (name_of array.now) (term_of index.now)))
        (at site.now code.loose_code extent None item.old draft.old.labels
        (Element (name_of array.now) (term_of index.now)))) }
{
    let ty = array_type(&site.scope, array);
    match place_of(site, array, index) {
        Some(place) => emit_load(draft, &site.layout, ty, place, ITERATION, item),
        None => {
            let x = emit_number(draft, site, index, item)?;
            emit_load(draft, &site.layout, ty, site.register(array), x, item)
        }
    }
}

// One of two registers, by a condition.
#[cycle(terms)]
fn emit_one_of(
    draft: &mut Draft,
    site: &Site,
    cond: &Expr,
    a: Reg,
    b: Reg,
    item: &mut usize,
) -> Result<Reg, AllocError>
    requires kind { IsTruth (term_of cond.now) }
    requires fits { item.old + (term_size (index_at site.now) (term_of cond.now) + 1) < 2 ^ 32 }
    ensures register { IfOk result (λ r. r.number
        ≡ layouts.reg_of site.now.layout (item.old + term_size (index_at site.now) (term_of cond.now))) }
    ensures item { OnOk result (item.new
        ≡ item.old + term_size (index_at site.now) (term_of cond.now) + 1) }
    ensures emits { OnOk result (Emits draft.old draft.new
        (draft.old.labels + (2 + code.labels (index_at site.now) (term_of cond.now)))
        (at site.now code.one_of_code item.old draft.old.labels
        (term_of cond.now) a.number b.number)) }
{
    let other = draft.label()?;
    let end = draft.label()?;
    match cond {
        Expr::Compare { op, left, right } => {
            let (left, right) = (&**left, &**right);
            let want = side_type(&site.scope, left, right);
            let number = compared_number(want, right);
            let (p, q) = emit_compared(draft, site, want, number, left, right, item)?;
            *item += 1;
            draft.put(compare_word(number, p, q))?;
            emit_chosen(draft, &site.layout, *op, want, (a, b), item)
        }
        _ => {
            let past = Jump {
                sense: false,
                to: other,
            };
            emit_jump(draft, site, past, cond, item)?;
            emit_pick(draft, &site.layout, (a, b), other, end, item)
        }
    }
}

// Both sides of a comparison, the right one of which takes no code where its word holds it as a number; answers the registers
// of their values.
#[cycle(terms)]
fn emit_compared(
    draft: &mut Draft,
    site: &Site,
    want: Option<Ty>,
    number: Option<u64>,
    left: &Expr,
    right: &Expr,
    item: &mut usize,
) -> Result<(Reg, Reg), AllocError>
    requires left { IsValue (term_of left.now) }
    requires right { IsValue (term_of right.now) }
    requires held { code.IsHeld number (term_of right.now) }
    requires fits { item.old + term_size (index_at site.now) (term_of left.now)
        + term_size (index_at site.now) (term_of right.now) < 2 ^ 32 }
    ensures left { IfOk result (λ r. r.0.number
        ≡ at_index site.now placed.home item.old (term_of left.now)) }
    ensures right { IfOk result (λ r. r.1.number ≡ at_index site.now placed.home
        (item.old + term_size (index_at site.now) (term_of left.now)) (term_of right.now)) }
    ensures item { OnOk result (item.new ≡ item.old + term_size (index_at site.now) (term_of left.now)
        + term_size (index_at site.now) (term_of right.now)) }
    ensures emits { OnOk result (Emits draft.old draft.new
        (draft.old.labels + code.labels (index_at site.now) (term_of left.now)
        + code.labels (index_at site.now) (term_of right.now))
        (λ rest. at site.now code.loose_code Whole want item.old draft.old.labels (term_of left.now)
        (code.right_code number (at site.now code.loose_code Whole want
        (item.old + term_size (index_at site.now) (term_of left.now))
        (draft.old.labels + code.labels (index_at site.now) (term_of left.now)) (term_of right.now)) rest))) }
{
    let extent = Extent::Whole;
    let a = emit_loose(draft, site, Asked { extent, want }, left, item)?;
    match number {
        Some(_) => {
            let b = home_of(site, right, *item);
            *item += 1;
            Ok((a, b))
        }
        None => {
            let b = emit_loose(draft, site, Asked { extent, want }, right, item)?;
            Ok((a, b))
        }
    }
}

/// The code of a condition, which jumps where its truth is the one that is wanted, and else goes on.
#[cycle(terms)]
pub fn emit_jump(
    draft: &mut Draft,
    site: &Site,
    jump: Jump,
    expr: &Expr,
    item: &mut usize,
) -> Result<(), AllocError>
    requires given { jump.to < draft.old.labels }
    requires kind { IsTruth (term_of expr.now) }
    requires fits { item.old + term_size (index_at site.now) (term_of expr.now) < 2 ^ 32 }
    ensures item { OnOk result (item.new ≡ item.old + term_size (index_at site.now)
        (term_of expr.now)) }
    ensures emits { OnOk result (Emits draft.old draft.new
        (draft.old.labels + code.labels (index_at site.now) (term_of expr.now))
        (at site.now code.jump_code jump.sense jump.to item.old draft.old.labels (term_of expr.now))) }
{
    match expr {
        Expr::Compare { op, left, right } => {
            let (left, right) = (&**left, &**right);
            let want = side_type(&site.scope, left, right);
            let number = compared_number(want, right);
            let (a, b) = emit_compared(draft, site, want, number, left, right, item)?;
            *item += 1;
            emit_branch(draft, *op, jump, want, number, (a, b))
        }
        Expr::And { left, right } => emit_both(draft, site, jump, left, right, item),
        Expr::Or { left, right } => emit_either(draft, site, jump, left, right, item),
        Expr::Not { arg } => {
            let Jump { sense, to } = jump;
            emit_jump(draft, site, Jump { sense: !sense, to }, arg, item)?;
            *item += 1;
            Ok(())
        }
        _ => unreachable!(),
    }
}

// Two conditions, the second of which is passed over where the first does not hold.
#[cycle(terms)]
fn emit_both(
    draft: &mut Draft,
    site: &Site,
    jump: Jump,
    left: &Expr,
    right: &Expr,
    item: &mut usize,
) -> Result<(), AllocError>
    requires given { jump.to < draft.old.labels }
    requires left { IsTruth (term_of left.now) }
    requires right { IsTruth (term_of right.now) }
    requires fits { item.old + term_size (index_at site.now)
        (Both (term_of left.now) (term_of right.now)) < 2 ^ 32 }
    ensures item { OnOk result (item.new ≡ item.old + term_size (index_at site.now)
        (Both (term_of left.now) (term_of right.now))) }
    ensures emits { OnOk result (Emits draft.old draft.new
        (draft.old.labels + code.labels (index_at site.now) (Both (term_of left.now) (term_of right.now)))
        (at site.now code.jump_code jump.sense jump.to item.old draft.old.labels
        (Both (term_of left.now) (term_of right.now)))) }
{
    let Jump { sense, to } = jump;
    let over = draft.label()?;
    let to = if sense { over } else { to };
    emit_jump(draft, site, Jump { sense: false, to }, left, item)?;
    emit_jump(draft, site, jump, right, item)?;
    *item += 1;
    emit_placed(draft, sense, over)
}

// Two conditions, the second of which is passed over where the first holds.
#[cycle(terms)]
fn emit_either(
    draft: &mut Draft,
    site: &Site,
    jump: Jump,
    left: &Expr,
    right: &Expr,
    item: &mut usize,
) -> Result<(), AllocError>
    requires given { jump.to < draft.old.labels }
    requires left { IsTruth (term_of left.now) }
    requires right { IsTruth (term_of right.now) }
    requires fits { item.old + term_size (index_at site.now)
        (Either (term_of left.now) (term_of right.now)) < 2 ^ 32 }
    ensures item { OnOk result (item.new ≡ item.old + term_size (index_at site.now)
        (Either (term_of left.now) (term_of right.now))) }
    ensures emits { OnOk result (Emits draft.old draft.new
        (draft.old.labels + code.labels (index_at site.now) (Either (term_of left.now) (term_of right.now)))
        (at site.now code.jump_code jump.sense jump.to item.old draft.old.labels
        (Either (term_of left.now) (term_of right.now)))) }
{
    let Jump { sense, to } = jump;
    let over = draft.label()?;
    let to = if sense { to } else { over };
    emit_jump(draft, site, Jump { sense: true, to }, left, item)?;
    *item += 1;
    emit_jump(draft, site, jump, right, item)?;
    *item += 1;
    emit_placed(draft, !sense, over)
}

// The code of an index, and the register that holds it.
#[cycle(terms)]
#[tactic(auto, using(value_code::proofs::IndexCode::index_is))]
fn emit_number(
    draft: &mut Draft,
    site: &Site,
    number: &Expr,
    item: &mut usize,
) -> Result<Reg, AllocError>
    requires kind { IsValue (term_of number.now) }
    requires fits { item.old + index_items (index_at site.now) (term_of number.now) < 2 ^ 32 }
    ensures register { IfOk result (λ r. r.number
        ≡ at site.now code.index_home item.old (term_of number.now)) }
    ensures item { OnOk result (item.new ≡ item.old + index_items (index_at site.now) (term_of number.now)) }
    ensures emits { OnOk result (Emits draft.old draft.new
        (draft.old.labels + code.index_labels (index_at site.now) (term_of number.now))
        (at site.now code.index_code item.old draft.old.labels
        (term_of number.now))) }
{
    let scope = &site.scope;
    match index_word(scope, number) {
        Some(moved) => emit_offset(draft, moved),
        None => {
            let want = first(own_type(scope, number), Some(Ty::U64));
            let extent = Extent::Whole;
            emit_loose(draft, site, Asked { extent, want }, number, item)
        }
    }
}
