//! What is held in registers throughout.

ghost use Rattle.std.specs.Prelude.{◌≡◌, [], ◌∷◌, ◌++◌, if◌then◌else◌, map, filter, length, IfOk, OnOk};
ghost use Rattle.std.specs.List.{list_any};
ghost use Rattle.kernel_tree.specs.Plain.{parameters_of, parameter_of, accumulators_of, accumulator_of};
ghost use Rattle.kernel_tree.specs.Items.{loop_index};
ghost use Rattle.reg_assign.specs.declared.interval.RegClass.TheVariants.{Z};
ghost use Rattle.loop_form.specs.HeldView.{view_of, view};
ghost use Rattle.loop_form.specs.Entries.{loop_entries};
ghost use Rattle.loop_form.specs.Listing.{names};
ghost use Rattle.loop_form.specs.Needs.{is_named_scalar, scalars, is_literal, is_constant, new_constant, constants, index_held, is_updated, accumulating_of, throughout};
ghost use Rattle.loop_form.specs.View.{program, content_of, entry_of, entries_view};

use crate::item_list::is_name;
use kernel_tree::{Checked, Param, Shape, Ty, Var};
use loop_form::laws::few_intervals;
use loop_form::{Content, Entry, Held, is_update_of};
use reg_assign::RegClass;
use std::alloc::{AllocError, Global};

/// Whether a name is an item among these.
pub fn is_named(entries: &[Entry<'_>], name: &str) -> bool
    ensures { result ≡ list_any (names name.now) (entries_view entries.now) }
{
    for entry in entries {
        if is_name(entry, name) {
            return true;
        }
    }
    false
}

fn is_scalar_named(entries: &[Entry<'_>], param: &Param) -> bool
    ensures { result ≡ is_named_scalar (entries_view entries.now) (parameter_of param.now) }
{
    match param.shape {
        Shape::Scalar(_) => is_named(entries, param.name.text()),
        Shape::Array(_) => false,
    }
}

// The scalar parameters that are named.
fn push_scalars<'a>(
    held: &mut Vec<Held<'a>>,
    entries: &[Entry<'_>],
    params: &'a [Param],
) -> Result<(), AllocError>
    ensures { OnOk result (view held.new.items ≡ view held.old.items ++ scalars (entries_view entries.now)
        (parameters_of params.now)) }
{
    for param in params {
        let is_held = is_scalar_named(entries, param);
        push_where(held, is_held, Held::Scalar(param.name.text()))?;
    }
    Ok(())
}

// Whether a content is a literal of this value.
fn is_literal_of(content: Content<'_>, value: i128) -> bool
    ensures { result ≡ is_literal value (content_of content.entry) }
{
    match content {
        Content::Literal(other) => other == value,
        _ => false,
    }
}

// Whether an item is the literal of the type.
fn is_constant_of(entry: &Entry<'_>, ty: Option<Ty>, value: i128) -> bool
    ensures { result ≡ is_constant ty value (entry_of entry.now) }
{
    entry.ty == ty && is_literal_of(entry.content, value)
}

fn occurs(before: &[Entry<'_>], ty: Option<Ty>, value: i128) -> bool
    ensures { result ≡ list_any (is_constant ty value) (entries_view before.now) }
{
    for entry in before {
        if is_constant_of(entry, ty, value) {
            return true;
        }
    }
    false
}

// One more that is held, where it is.
fn push_where<'a>(held: &mut Vec<Held<'a>>, is_held: bool, one: Held<'a>) -> Result<(), AllocError>
    ensures { OnOk result (view held.new.items ≡ view held.old.items
        ++ (if is_held then view_of one.entry ∷ [] else [])) }
{
    if is_held {
        held.push(one)?;
    }
    Ok(())
}

// An item that is a literal, where none of the items before it is the same.
fn push_new(
    held: &mut Vec<Held<'_>>,
    before: &[Entry<'_>],
    entry: &Entry<'_>,
) -> Result<(), AllocError>
    ensures { OnOk result (view held.new.items ≡ view held.old.items ++ new_constant
        (entries_view before.now) entry.now.ty (content_of entry.now.content)) }
{
    if let Content::Literal(value) = entry.content
        && !occurs(before, entry.ty, value)
    {
        held.push(Held::Constant(entry.ty, value))?;
    }
    Ok(())
}

// The pairs of a type and a literal.
#[tactic(auto, unfolding(loop_form::specs::Needs::constants))]
fn push_constants(held: &mut Vec<Held<'_>>, entries: &[Entry<'_>]) -> Result<(), AllocError>
    ensures { OnOk result (view held.new.items ≡ view held.old.items ++ constants [] (entries_view entries.now)) }
{
    let mut place = 0;
    for entry in entries {
        push_new(held, &entries[..place], entry)?;
        place += 1;
    }
    Ok(())
}

// The loop variable, where it is named.
#[tactic(auto, unfolding(loop_form::specs::View::program))]
fn push_index(
    kernel: &Checked,
    held: &mut Vec<Held<'_>>,
    entries: &[Entry<'_>],
) -> Result<(), AllocError>
    ensures { OnOk result (view held.new.items ≡ view held.old.items ++ index_held (entries_view entries.now)
        (loop_index (program kernel.now))) }
{
    match &kernel.kernel().body {
        Some(for_loop) => push_where(held, is_named(entries, for_loop.index.text()), Held::Index),
        None => Ok(()),
    }
}

fn is_var_updated(entries: &[Entry<'_>], var: &Var) -> bool
    ensures { result ≡ is_updated (entries_view entries.now) (accumulator_of var.now) }
{
    let name = var.name.text();
    for entry in entries {
        if is_update_of(entry, name) {
            return true;
        }
    }
    false
}

// The accumulators that are updated.
fn push_updated<'a>(
    held: &mut Vec<Held<'a>>,
    entries: &[Entry<'_>],
    vars: &'a [Var],
) -> Result<(), AllocError>
    ensures { OnOk result (view held.new.items ≡ view held.old.items ++ map accumulating_of
        (filter (is_updated (entries_view entries.now)) (accumulators_of vars.now))) }
{
    for var in vars {
        let is_held = is_var_updated(entries, var);
        push_where(held, is_held, Held::Accumulating(var.name.text()))?;
    }
    Ok(())
}

// All accumulators.
fn push_vars<'a>(held: &mut Vec<Held<'a>>, vars: &'a [Var]) -> Result<(), AllocError>
    ensures { OnOk result (view held.new.items ≡ view held.old.items ++ map accumulating_of
        (accumulators_of vars.now)) }
{
    for var in vars {
        held.push(Held::Accumulating(var.name.text()))?;
    }
    Ok(())
}

/// What is held in Z registers throughout: by the items of the loop, the scalar parameters that are named, each literal
/// of a type, the loop variable where it is named, and the accumulators that are updated.
#[tactic(auto, unfolding(loop_form::specs::View::program))]
pub fn push_of_loop<'a>(
    kernel: &'a Checked,
    held: &mut Vec<Held<'a>>,
    entries: &[Entry<'_>],
) -> Result<(), AllocError>
    requires { entries_view entries.now ≡ loop_entries (program kernel.now) }
    ensures { OnOk result (view held.new.items ≡ view held.old.items ++ throughout (program kernel.now) Z) }
{
    let tree = kernel.kernel();
    push_scalars(held, entries, &tree.params)?;
    push_constants(held, entries)?;
    push_index(kernel, held, entries)?;
    push_updated(held, entries, &tree.vars)
}

// What is held in the registers of a class throughout, in the order of its intervals, of which these are the first: in
// X registers all accumulators, and in Z registers, by the items of the loop alone, the scalar parameters that are
// named, each literal of a type, the loop variable where it is named, and the accumulators that are updated.
#[tactic(auto, unfolding(loop_form::specs::View::program))]
fn push_of_class<'a>(
    kernel: &'a Checked,
    held: &mut Vec<Held<'a>>,
    looped: &[Entry<'_>],
    class: RegClass,
) -> Result<(), AllocError>
    requires { entries_view looped.now ≡ loop_entries (program kernel.now) }
    ensures { OnOk result (view held.new.items ≡ view held.old.items ++ throughout (program kernel.now) class) }
{
    match class {
        RegClass::Z => push_of_loop(kernel, held, looped),
        RegClass::P => Ok(()),
        RegClass::X => push_vars(held, &kernel.kernel().vars),
    }
}

/// How much is held throughout in the registers of a class, by the items of the loop.
pub fn held_count(
    alloc: Global,
    kernel: &Checked,
    looped: &[Entry<'_>],
    class: RegClass,
) -> Result<u32, AllocError>
    requires { entries_view looped.now ≡ loop_entries (program kernel.now) }
    ensures { IfOk result (λ count. count ≡ length (throughout (program kernel.now) class)) }
{
    few_intervals(kernel, class);
    let mut held = Vec::new(alloc);
    push_of_class(kernel, &mut held, looped, class)?;
    Ok(held.len() as u32)
}
