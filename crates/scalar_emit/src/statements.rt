//! Emits the code of statements.

ghost use Rattle.std.specs.Prelude.{◌≡◌, ◌+◌, ◌<◌, ◌^◌, IfOk, OnOk};
ghost use Rattle.kernel_tree.specs.Plain.{Define, Put, Update, Choose, Nothing, Else, name_of, term_of, action_of, block_of};
ghost use Rattle.kernel_tree.specs.Items.{term_size, action_size, block_size, stream_offset};
ghost use Rattle.kernel_tree.specs.Kinds.{IsValue, IsTruth, ActionKinds, BlockKinds};
ghost use Rattle.kernel_scope.specs.Scopes.{scope_of};
ghost use Rattle.label_fix.specs.Emits.{Emits};
ghost use Rattle.scalar_words.specs.Sites.{at, index_at};
ghost use Rattle.scalar_words.specs.View.{homes_of};
ghost use Rattle.kernel_tree.specs.Typing as typing;
ghost use Rattle.value_code.specs.Code as code;
ghost use Rattle.value_code.specs.ItemWords as words;
ghost use Rattle.loop_code.specs.Statements as statements;

use crate::branches::{branch_ahead, land};
use a64_code::Reg;
use kernel_meaning::binary_leaves;
use kernel_scope::{
    Scope, accumulator_type, array_type, define, first, leave, lookup, own_type, visible_count,
};
use kernel_tree::{Expr, Name, Part, Stmt, Ty, UpdateOp, parts};
use label_fix::registers::ITERATION;
use label_fix::{BranchKind, Draft, Label};
use scalar_values::operations::{Jump, Made, emit_offset, want_operator};
use scalar_values::{emit_jump, emit_loose, emit_side, emit_value};
use scalar_words::operations::{emit_copy, update_operator};
use scalar_words::{Home, KernelLayout, Site};
use std::alloc::AllocError;
use value_code::covers::held_extent;
use value_code::extent::{
    Asked, binary_extent, binary_joins, converted_extent, extent_at, fits_at, settles, within,
    within_type,
};
use value_code::instructions::{index_word, store};
use value_code::place::place_of;

// The value of a `let` into its register, where something reads it.
fn emit_kept(
    draft: &mut Draft,
    layout: &KernelLayout,
    item: usize,
    from: Reg,
) -> Result<(), AllocError>
    ensures { OnOk result (Emits draft.old draft.new draft.old.labels
        (statements.let_code layout.now item from.number)) }
{
    if item < layout.last_use(item) {
        emit_copy(draft, layout.reg(item), from)
    } else {
        Ok(())
    }
}

// The home of what a `let` defines, where it has a type.
fn declare_let<'a>(
    homes: &mut Vec<Home<'a>>,
    layout: &KernelLayout,
    item: usize,
    name: &'a Name,
    ty: Option<Ty>,
) -> Result<(), AllocError>
    ensures { OnOk result (homes_of homes.new.items
        ≡ statements.defined_homes layout.now item (homes_of homes.old.items) (name_of name.now) ty) }
{
    match ty {
        None => Ok(()),
        Some(_) => {
            homes.push(Home {
                name: name.text(),
                register: layout.reg(item),
                last_use: Some(layout.last_use(item)),
            })?;
            Ok(())
        }
    }
}

fn emit_let<'a>(
    draft: &mut Draft,
    site: &mut Site<'a>,
    name: &'a Name,
    ty: Option<Ty>,
    value: &Expr,
    item: &mut usize,
) -> Result<(), AllocError>
    requires kind { IsValue (term_of value.now) }
    requires fits { item.old + action_size (index_at site.old)
        (Define (name_of name.now) ty (term_of value.now)) < 2 ^ 32 }
    ensures layout { OnOk result (site.new.layout ≡ site.old.layout) }
    ensures scope { OnOk result (scope_of site.new.scope
        ≡ typing.after_action (scope_of site.old.scope) (Define (name_of name.now) ty (term_of value.now))) }
    ensures homes { OnOk result (homes_of site.new.homes.items
        ≡ at site.old statements.after_homes item.old
        (Define (name_of name.now) ty (term_of value.now))) }
    ensures item { OnOk result (item.new ≡ item.old + action_size (index_at site.old)
        (Define (name_of name.now) ty (term_of value.now))) }
    ensures emits { OnOk result (Emits draft.old draft.new
        (draft.old.labels + statements.action_labels (index_at site.old)
        (Define (name_of name.now) ty (term_of value.now)))
        (at site.old statements.action_code 0 item.old draft.old.labels
        (Define (name_of name.now) ty (term_of value.now)))) }
{
    let want = first(ty, own_type(&site.scope, value));
    let from = emit_value(draft, site, want, value, item)?;
    emit_kept(draft, &site.layout, *item, from)?;
    declare_let(&mut site.homes, &site.layout, *item, name, want)?;
    *item += 1;
    define(&mut site.scope, name, want)
}

// The word of a store, where the elements have a type.
fn emit_into(draft: &mut Draft, ty: Option<Ty>, from: Reg, p: Reg, r: Reg) -> Result<(), AllocError>
    ensures { OnOk result (Emits draft.old draft.new draft.old.labels
        (words.store_code ty from.number p.number r.number)) }
{
    match ty {
        None => Ok(()),
        Some(ty) => draft.put(store(ty, from, p, r)),
    }
}

// A value into an element, where the index is a stream index.
fn emit_put(
    draft: &mut Draft,
    scope: &Scope,
    number: &Expr,
    ty: Option<Ty>,
    from: Reg,
    p: Reg,
) -> Result<(), AllocError>
    ensures { OnOk result (Emits draft.old draft.new draft.old.labels
        (statements.put_code (stream_offset (scope_of scope.now).index (term_of number.now)) ty from.number
        p.number)) }
{
    match index_word(scope, number) {
        None => Ok(()),
        Some(moved) => {
            let r = emit_offset(draft, moved)?;
            emit_into(draft, ty, from, p, r)
        }
    }
}

// What is stored, of which so much is asked for; answers its register, or that of the operand of a cast that is no word.
fn emit_stored(
    draft: &mut Draft,
    site: &Site,
    asked: Asked,
    value: &Expr,
    item: &mut usize,
) -> Result<Reg, AllocError>
    requires kind { IsValue (term_of value.now) }
    requires fits { item.old + term_size (index_at site.now) (term_of value.now) < 2 ^ 32 }
    ensures register { IfOk result (λ r. r.number
        ≡ at site.now statements.stored_home asked.extent item.old
        (term_of value.now)) }
    ensures item { OnOk result (item.new ≡ item.old + term_size (index_at site.now) (term_of value.now)) }
    ensures emits { OnOk result (Emits draft.old draft.new
        (draft.old.labels + code.labels (index_at site.now) (term_of value.now))
        (at site.now statements.stored_code asked.extent asked.want item.old draft.old.labels
        (term_of value.now))) }
{
    if let Expr::Cast { arg, ty } = value {
        let from = own_type(&site.scope, arg);
        if within_type(asked.extent, *ty) || fits_at(from, *ty) {
            let extent = converted_extent(asked.extent, from, *ty);
            let r = emit_loose(draft, site, Asked { extent, want: from }, arg, item)?;
            *item += 1;
            return Ok(r);
        }
    }
    emit_loose(draft, site, asked, value, item)
}

fn emit_store(
    draft: &mut Draft,
    site: &Site,
    array: &Name,
    index: &Expr,
    value: &Expr,
    item: &mut usize,
) -> Result<(), AllocError>
    requires kind { IsValue (term_of value.now) }
    requires fits { item.old + action_size (index_at site.now)
        (Put (name_of array.now) (term_of index.now) (term_of value.now)) < 2 ^ 32 }
    ensures item { OnOk result (item.new ≡ item.old + action_size (index_at site.now)
        (Put (name_of array.now) (term_of index.now) (term_of value.now))) }
    ensures emits { OnOk result (Emits draft.old draft.new
        (draft.old.labels + statements.action_labels (index_at site.now)
        (Put (name_of array.now) (term_of index.now) (term_of value.now)))
        (at site.now statements.action_code 0 item.old draft.old.labels
        (Put (name_of array.now) (term_of index.now) (term_of value.now)))) }
{
    let ty = array_type(&site.scope, array);
    let extent = extent_at(ty);
    let from = emit_stored(draft, site, Asked { extent, want: ty }, value, item)?;
    *item += 1;
    match place_of(site, array, index) {
        Some(place) => emit_into(draft, ty, from, place, ITERATION),
        None => emit_put(draft, &site.scope, index, ty, from, site.register(array)),
    }
}

fn emit_update(
    draft: &mut Draft,
    site: &Site,
    name: &Name,
    op: UpdateOp,
    value: &Expr,
    item: &mut usize,
) -> Result<(), AllocError>
    requires kind { IsValue (term_of value.now) }
    requires fits { item.old + action_size (index_at site.now)
        (Update (name_of name.now) op (term_of value.now)) < 2 ^ 32 }
    ensures item { OnOk result (item.new ≡ item.old + action_size (index_at site.now)
        (Update (name_of name.now) op (term_of value.now))) }
    ensures emits { OnOk result (Emits draft.old draft.new
        (draft.old.labels + statements.action_labels (index_at site.now)
        (Update (name_of name.now) op (term_of value.now)))
        (at site.now statements.action_code 0 item.old draft.old.labels
        (Update (name_of name.now) op (term_of value.now)))) }
{
    let want = lookup(&site.scope, name).and_then(accumulator_type);
    let op = update_operator(op);
    let held = held_extent(site.layout.loose_form(name));
    let extent = binary_extent(op, held, want);
    let side = emit_side(draft, site, op, Asked { extent, want }, value, item)?;
    let leaves = settles(within(held, want), binary_joins(op), binary_leaves(op));
    let register = site.register(name);
    *item += 1;
    want_operator(draft, op, side, Made { want, leaves }, register, register)
}

#[cycle(statements)]
fn emit_stmt<'a>(
    draft: &mut Draft,
    site: &mut Site<'a>,
    exit: Label,
    stmt: &'a Stmt,
    item: &mut usize,
) -> Result<(), AllocError>
    requires exit { exit < draft.old.labels }
    requires kinds { ActionKinds (action_of stmt.now) }
    requires fits { item.old + action_size (index_at site.old) (action_of stmt.now) < 2 ^ 32 }
    ensures layout { OnOk result (site.new.layout ≡ site.old.layout) }
    ensures scope { OnOk result (scope_of site.new.scope
        ≡ typing.after_action (scope_of site.old.scope) (action_of stmt.now)) }
    ensures homes { OnOk result (homes_of site.new.homes.items
        ≡ at site.old statements.after_homes item.old (action_of stmt.now)) }
    ensures item { OnOk result (item.new ≡ item.old + action_size (index_at site.old) (action_of stmt.now)) }
    ensures emits { OnOk result (Emits draft.old draft.new
        (draft.old.labels + statements.action_labels (index_at site.old) (action_of stmt.now))
        (at site.old statements.action_code exit item.old draft.old.labels (action_of stmt.now))) }
{
    match parts(stmt) {
        Part::If { cond, block } => emit_if(draft, site, exit, cond, block, item),
        Part::IfElse { cond, block, other } => {
            emit_if_else(draft, site, exit, cond, block, other, item)
        }
        Part::Let { name, ty, value } => emit_let(draft, site, name, ty, value, item),
        Part::Store {
            array,
            index,
            value,
        } => emit_store(draft, site, array, index, value, item),
        Part::Update { name, op, value } => emit_update(draft, site, name, op, value, item),
        Part::Break { cond } => {
            let jump = Jump {
                sense: true,
                to: exit,
            };
            emit_jump(draft, site, jump, cond, item)?;
            *item += 1;
            Ok(())
        }
    }
}

#[cycle(statements)]
fn emit_if<'a>(
    draft: &mut Draft,
    site: &mut Site<'a>,
    exit: Label,
    cond: &Expr,
    block: &'a [Stmt],
    item: &mut usize,
) -> Result<(), AllocError>
    requires exit { exit < draft.old.labels }
    requires cond { IsTruth (term_of cond.now) }
    requires block { BlockKinds (block_of block.now) }
    requires fits { item.old + action_size (index_at site.old)
        (Choose (term_of cond.now) (block_of block.now) Nothing) < 2 ^ 32 }
    ensures layout { OnOk result (site.new.layout ≡ site.old.layout) }
    ensures scope { OnOk result (scope_of site.new.scope
        ≡ typing.after_action (scope_of site.old.scope) (Choose (term_of cond.now) (block_of block.now) Nothing)) }
    ensures homes { OnOk result (homes_of site.new.homes.items ≡ homes_of site.old.homes.items) }
    ensures item { OnOk result (item.new ≡ item.old + action_size (index_at site.old)
        (Choose (term_of cond.now) (block_of block.now) Nothing)) }
    ensures emits { OnOk result (Emits draft.old draft.new
        (draft.old.labels + statements.action_labels (index_at site.old)
        (Choose (term_of cond.now) (block_of block.now) Nothing))
        (at site.old statements.action_code exit item.old draft.old.labels
        (Choose (term_of cond.now) (block_of block.now) Nothing))) }
{
    let other = draft.label()?;
    let past = Jump {
        sense: false,
        to: other,
    };
    emit_jump(draft, site, past, cond, item)?;
    *item += 1;
    emit_inner(draft, site, exit, block, item)?;
    land(draft, other, item)
}

#[cycle(statements)]
fn emit_if_else<'a>(
    draft: &mut Draft,
    site: &mut Site<'a>,
    exit: Label,
    cond: &Expr,
    block: &'a [Stmt],
    second: &'a [Stmt],
    item: &mut usize,
) -> Result<(), AllocError>
    requires exit { exit < draft.old.labels }
    requires cond { IsTruth (term_of cond.now) }
    requires block { BlockKinds (block_of block.now) }
    requires second { BlockKinds (block_of second.now) }
    requires fits { item.old + action_size (index_at site.old)
        (Choose (term_of cond.now) (block_of block.now) (Else (block_of second.now))) < 2 ^ 32 }
    ensures layout { OnOk result (site.new.layout ≡ site.old.layout) }
    ensures scope { OnOk result (scope_of site.new.scope
        ≡ typing.after_action (scope_of site.old.scope)
        (Choose (term_of cond.now) (block_of block.now) (Else (block_of second.now)))) }
    ensures homes { OnOk result (homes_of site.new.homes.items ≡ homes_of site.old.homes.items) }
    ensures item { OnOk result (item.new ≡ item.old + action_size (index_at site.old)
        (Choose (term_of cond.now) (block_of block.now) (Else (block_of second.now)))) }
    ensures emits { OnOk result (Emits draft.old draft.new
        (draft.old.labels + statements.action_labels (index_at site.old)
        (Choose (term_of cond.now) (block_of block.now) (Else (block_of second.now))))
        (at site.old statements.action_code exit item.old draft.old.labels
        (Choose (term_of cond.now) (block_of block.now) (Else (block_of second.now))))) }
{
    let other = draft.label()?;
    let past = Jump {
        sense: false,
        to: other,
    };
    emit_jump(draft, site, past, cond, item)?;
    *item += 1;
    emit_inner(draft, site, exit, block, item)?;
    let end = branch_ahead(draft, BranchKind::Always)?;
    land(draft, other, item)?;
    emit_inner(draft, site, exit, second, item)?;
    land(draft, end, item)
}

// A block, after which its names are visible no more.
#[cycle(statements)]
fn emit_inner<'a>(
    draft: &mut Draft,
    site: &mut Site<'a>,
    exit: Label,
    block: &'a [Stmt],
    item: &mut usize,
) -> Result<(), AllocError>
    requires exit { exit < draft.old.labels }
    requires kinds { BlockKinds (block_of block.now) }
    requires fits { item.old + block_size (index_at site.old) (block_of block.now) < 2 ^ 32 }
    ensures layout { OnOk result (site.new.layout ≡ site.old.layout) }
    ensures scope { OnOk result (scope_of site.new.scope
        ≡ typing.left (scope_of site.old.scope) (typing.after_block (scope_of site.old.scope) (block_of block.now))) }
    ensures homes { OnOk result (homes_of site.new.homes.items ≡ homes_of site.old.homes.items) }
    ensures item { OnOk result (item.new ≡ item.old + block_size (index_at site.old) (block_of block.now)) }
    ensures emits { OnOk result (Emits draft.old draft.new
        (draft.old.labels + statements.block_labels (index_at site.old) (block_of block.now))
        (at site.old statements.block_code exit item.old draft.old.labels (block_of block.now))) }
{
    let visible = visible_count(&site.scope);
    let known = site.homes.len();
    emit_block(draft, site, exit, block, item)?;
    leave(&mut site.scope, visible);
    site.homes.truncate(known);
    Ok(())
}

/// The code of statements, after which their names stay visible. A `break` goes to the label `exit`.
#[cycle(statements)]
pub fn emit_block<'a>(
    draft: &mut Draft,
    site: &mut Site<'a>,
    exit: Label,
    block: &'a [Stmt],
    item: &mut usize,
) -> Result<(), AllocError>
    requires exit { exit < draft.old.labels }
    requires kinds { BlockKinds (block_of block.now) }
    requires fits { item.old + block_size (index_at site.old) (block_of block.now) < 2 ^ 32 }
    ensures layout { OnOk result (site.new.layout ≡ site.old.layout) }
    ensures scope { OnOk result (scope_of site.new.scope
        ≡ typing.after_block (scope_of site.old.scope) (block_of block.now)) }
    ensures homes { OnOk result (homes_of site.new.homes.items
        ≡ at site.old statements.block_homes item.old (block_of block.now)) }
    ensures item { OnOk result (item.new ≡ item.old + block_size (index_at site.old) (block_of block.now)) }
    ensures emits { OnOk result (Emits draft.old draft.new
        (draft.old.labels + statements.block_labels (index_at site.old) (block_of block.now))
        (at site.old statements.block_code exit item.old draft.old.labels (block_of block.now))) }
{
    for stmt in block {
        emit_stmt(draft, site, exit, stmt, item)?;
    }
    Ok(())
}
