//! Emits a loop.

ghost use Rattle.std.specs.Prelude.{◌≡◌, ◌+◌, ◌<◌, ◌^◌, [], ◌∷◌, Some, OnOk, IfOk, option_map};
ghost use Rattle.label_fix.specs.Draft.{word_view};
ghost use Rattle.a64_code.specs.Table as table;
ghost use Rattle.kernel_tree.specs.Plain.{name_of, for_loop_of, block_of};
ghost use Rattle.kernel_tree.specs.Kinds.{BlockKinds};
ghost use Rattle.kernel_tree.specs.Wrap.{log_bytes};
ghost use Rattle.kernel_scope.specs.Scopes.{scope_of};
ghost use Rattle.loop_code.specs.Statements.{block_labels, block_code};
ghost use Rattle.label_fix.specs.Emits.{Emits};
ghost use Rattle.scalar_words.specs.Sites.{at, index_at};
ghost use Rattle.scalar_words.specs.View.{form_of, homes_of, looses_of};
ghost use Rattle.scalar_words.specs.Words.{word_code};
ghost use Rattle.scalar_words.specs.Layout.{loose_in};
ghost use Rattle.kernel_tree.specs.Items as items;
ghost use Rattle.kernel_tree.specs.Typing as typing;
ghost use Rattle.label_fix.specs.DraftRun as plain;
ghost use Rattle.loop_code.specs.Loop as loops;

use crate::branches::branch_ahead;
use crate::numbers::emit_numbers;
use crate::statements::emit_block;
use a64_code::{A64, AddSubOp, AddSubShift, Cond, Reg};
use kernel_scope::{close, declare, declared_count, visible_count};
use kernel_tree::fault::Binding;
use kernel_tree::{Loop, Ty};
use label_fix::registers::{ITERATION, compare_iteration};
use label_fix::{BranchKind, Draft, Label, Word};
use scalar_words::instructions::add_sub;
use scalar_words::operations::emit_settle;
use scalar_words::{Form, Home, KernelLayout, Loose, Site, register_at, register_named};
use std::alloc::AllocError;
use value_code::instructions::next_iteration;
use word_rows::Bits;

// The statements of a loop whose variable is declared, after which the scope and the names are those before them.
fn emit_inside<'a>(
    draft: &mut Draft,
    site: &mut Site<'a>,
    last: Label,
    for_loop: &'a Loop,
    item: &mut usize,
) -> Result<(), AllocError>
    requires last { last < draft.old.labels }
    requires kinds { BlockKinds (block_of for_loop.now.body.items) }
    requires fits { item.old + items.block_size (index_at site.old) (block_of for_loop.now.body.items) < 2 ^ 32 }
    ensures layout { OnOk result (site.new.layout ≡ site.old.layout) }
    ensures scope { OnOk result (scope_of site.new.scope ≡ scope_of site.old.scope) }
    ensures homes { OnOk result (homes_of site.new.homes.items ≡ homes_of site.old.homes.items) }
    ensures item { OnOk result (item.new ≡ item.old + items.block_size (index_at site.old)
        (block_of for_loop.now.body.items)) }
    ensures emits { OnOk result (Emits draft.old draft.new
        (draft.old.labels + block_labels (index_at site.old) (block_of for_loop.now.body.items))
        (block_code site.old.layout (homes_of site.old.homes.items) (loops.inside_of (scope_of site.old.scope)) last
        item.old draft.old.labels (block_of for_loop.now.body.items))) }
{
    let known = site.homes.len();
    let visible = visible_count(&site.scope);
    let taken = declared_count(&site.scope);
    let inside = site.scope.inside;
    site.scope.inside = true;
    emit_block(draft, site, last, &for_loop.body, item)?;
    site.homes.truncate(known);
    close(&mut site.scope, visible, taken);
    site.scope.inside = inside;
    Ok(())
}

// The labels of a loop: at its head, after it, before its statements, and after its last iteration.
#[derive(Clone, Copy)]
struct LoopLabels {
    head: Label,
    exit: Label,
    top: Label,
    last: Label,
}

/// A new label at its place.
pub fn emit_head(draft: &mut Draft) -> Result<Label, AllocError>
    ensures head { IfOk result (λ l. l ≡ draft.old.labels) }
    ensures emits { OnOk result (Emits draft.old draft.new (draft.old.labels + 1)
        (λ rest. plain.Place draft.old.labels ∷ rest)) }
{
    let head = draft.label()?;
    draft.place(head)?;
    Ok(head)
}

// A register ahead by as many elements of a type as another has.
fn ahead_word(ty: Ty, to: Reg, bound: Reg) -> Word
    ensures { word_view result ≡ plain.word_of table.add
        (to.number ∷ to.number ∷ log_bytes ty ∷ bound.number ∷ 0 ∷ []) }
{
    Word::A(A64::AddSubShifted {
        op: AddSubOp::Add,
        rd: to,
        rn: to,
        imm6: Bits {
            number: ty.log_bytes(),
        },
        rm: bound,
        shift: AddSubShift::Lsl,
    })
}

// What is to stand in a register before the first iteration.
fn emit_form(draft: &mut Draft, bound: Reg, to: Reg, form: Form) -> Result<(), AllocError>
    ensures { OnOk result (Emits draft.old draft.new draft.old.labels
        (word_code (loops.enter_word bound.number to.number (form_of form)))) }
{
    match form {
        Form::LowBits(_) => Ok(()),
        Form::Ahead(ty) => draft.put(ahead_word(ty, to, bound)),
        Form::Behind => draft.put(add_sub(AddSubOp::Sub, to, to, bound)),
    }
}

// The same of the names that are held loosely.
fn emit_moves(
    draft: &mut Draft,
    bound: Reg,
    homes: &[Home],
    loose: &[Loose],
) -> Result<(), AllocError>
    ensures { OnOk result (Emits draft.old draft.new draft.old.labels
        (loops.enter_code bound.number (homes_of homes.now) (looses_of loose.now))) }
{
    for held in loose {
        emit_form(draft, bound, register_named(homes, held.name), held.form)?;
    }
    Ok(())
}

// The head of a loop: its first test, and what stands in registers while iterations last.
fn emit_entry(
    draft: &mut Draft,
    layout: &KernelLayout,
    homes: &[Home],
    bound: Reg,
) -> Result<LoopLabels, AllocError>
    ensures head { IfOk result (λ l. l.head ≡ draft.old.labels) }
    ensures exit { IfOk result (λ l. l.exit ≡ draft.old.labels + 1) }
    ensures top { IfOk result (λ l. l.top ≡ draft.old.labels + 2) }
    ensures last { IfOk result (λ l. l.last ≡ draft.old.labels + 3) }
    ensures emits { OnOk result (Emits draft.old draft.new (draft.old.labels + 4)
        (loops.entry_code bound.number draft.old.labels (homes_of homes.now) layout.now)) }
{
    let head = emit_head(draft)?;
    draft.put(compare_iteration(bound))?;
    let exit = branch_ahead(draft, BranchKind::If(Cond::Hs))?;
    emit_moves(draft, bound, homes, layout.loose())?;
    emit_numbers(draft, layout.constants())?;
    let top = emit_head(draft)?;
    let last = draft.label()?;
    Ok(LoopLabels {
        head,
        exit,
        top,
        last,
    })
}

// What stands in a register after the last iteration.
fn emit_form_back(draft: &mut Draft, bound: Reg, to: Reg, form: Form) -> Result<(), AllocError>
    ensures { OnOk result (Emits draft.old draft.new draft.old.labels
        (word_code (loops.settle_form bound.number to.number (form_of form)))) }
{
    match form {
        Form::LowBits(ty) => emit_settle(draft, true, ty, to),
        Form::Ahead(_) => Ok(()),
        Form::Behind => draft.put(add_sub(AddSubOp::Add, to, to, bound)),
    }
}

// The same of the names that were held loosely.
fn emit_moves_back(
    draft: &mut Draft,
    bound: Reg,
    homes: &[Home],
    loose: &[Loose],
) -> Result<(), AllocError>
    ensures { OnOk result (Emits draft.old draft.new draft.old.labels
        (loops.settle_code bound.number (homes_of homes.now) (looses_of loose.now))) }
{
    for held in loose {
        emit_form_back(draft, bound, register_named(homes, held.name), held.form)?;
    }
    Ok(())
}

// Back to another iteration, below the bound or where the loop variable is not zero.
fn emit_back(
    draft: &mut Draft,
    form: Option<Form>,
    bound: Reg,
    head: Label,
    top: Label,
) -> Result<(), AllocError>
    requires top { top ≡ head + 2 }
    requires given { top < draft.old.labels }
    ensures { OnOk result (Emits draft.old draft.new draft.old.labels
        (loops.back_code (option_map form_of form) bound.number head)) }
{
    match form {
        Some(Form::Behind) => draft.branch(BranchKind::NotZero(ITERATION.number), top),
        _ => {
            draft.put(compare_iteration(bound))?;
            draft.branch(BranchKind::If(Cond::Lo), top)
        }
    }
}

// The end of an iteration, and of the loop.
fn emit_again(
    draft: &mut Draft,
    layout: &KernelLayout,
    homes: &[Home],
    for_loop: &Loop,
    bound: Reg,
    labels: LoopLabels,
) -> Result<(), AllocError>
    requires exit { labels.exit ≡ labels.head + 1 }
    requires top { labels.top ≡ labels.head + 2 }
    requires last { labels.last ≡ labels.head + 3 }
    requires given { labels.last < draft.old.labels }
    ensures { OnOk result (Emits draft.old draft.new draft.old.labels
        (loops.again_code (loose_in layout.now.loose (name_of for_loop.now.index)) bound.number labels.head
        (homes_of homes.now) layout.now.loose)) }
{
    draft.put(next_iteration())?;
    let form = layout.loose_form(&for_loop.index);
    emit_back(draft, form, bound, labels.head, labels.top)?;
    draft.place(labels.last)?;
    emit_moves_back(draft, bound, homes, layout.loose())?;
    draft.place(labels.exit)
}

/// The loop from its head to its end; answers the label of the head.
pub fn emit_loop<'a>(
    draft: &mut Draft,
    site: &mut Site<'a>,
    for_loop: &'a Loop,
    item: &mut usize,
) -> Result<Label, AllocError>
    requires kinds { BlockKinds (block_of for_loop.now.body.items) }
    requires fits { item.old + (1 + items.block_size (index_at site.old) (block_of for_loop.now.body.items)) < 2 ^
        32 }
    ensures head { IfOk result (λ l. l ≡ draft.old.labels) }
    ensures layout { OnOk result (site.new.layout ≡ site.old.layout) }
    ensures scope { OnOk result (scope_of site.new.scope
        ≡ typing.after_for_loop (scope_of site.old.scope) (Some (for_loop_of for_loop.now))) }
    ensures homes { OnOk result (homes_of site.new.homes.items
        ≡ loops.with_index (homes_of site.old.homes.items) (for_loop_of for_loop.now)) }
    ensures item { OnOk result (item.new ≡ item.old +
        (1 + items.block_size (index_at site.old) (block_of for_loop.now.body.items))) }
    ensures emits { OnOk result (Emits draft.old draft.new
        (draft.old.labels + 4 + block_labels (index_at site.old) (block_of for_loop.now.body.items))
        (at site.old loops.iterations_code (for_loop_of for_loop.now) item.old draft.old.labels)) }
{
    let bound = register_at(&site.homes, &for_loop.bound);
    let name = for_loop.index.text();
    site.homes.push(Home {
        name,
        register: ITERATION,
        last_use: None,
    })?;
    declare(&mut site.scope, &for_loop.index, Binding::Index)?;
    let labels = emit_entry(draft, &site.layout, &site.homes, bound)?;
    let LoopLabels { head, last, .. } = labels;
    *item += 1;
    emit_inside(draft, site, last, for_loop, item)?;
    emit_again(draft, &site.layout, &site.homes, for_loop, bound, labels)?;
    Ok(head)
}
