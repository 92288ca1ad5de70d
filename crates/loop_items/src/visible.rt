//! The types and the places of what the names stand for that are visible in a loop.

ghost use Rattle.std.specs.Prelude.{◌≡◌, List, ℕ, Option, option_map, option_and_then};
ghost use Rattle.std.specs.List.{find};
ghost use Rattle.kernel_tree.specs.Plain.{term_of};
ghost use Rattle.kernel_tree.specs.Typing.{has_name, binding_of, value_type, element_type, accumulator_type, first, own, index_type, side_type, array_type};
ghost use Rattle.loop_form.specs.LoopItems.{operand_at, accumulator_of, index_source};
ghost use Rattle.loop_form.specs.LoopView.{locals, env_of, scope_of};

use kernel_tree::fault::Binding;
use kernel_tree::{Expr, Ty};
use loop_form::visible::Visible;
use loop_form::{Operand, widens};

// What a name stands for, where it is visible.
fn look_up(names: &[Visible<'_>], name: &str) -> Option<Binding>
    ensures { result ≡ option_map binding_of (find (has_name name.now) (locals names.now)) }
{
    for visible in names {
        if visible.name == name {
            return Some(visible.binding);
        }
    }
    None
}

/// Where the value of a name is held.
pub fn operand_of(names: &[Visible<'_>], name: &str) -> Operand
    ensures { result ≡ operand_at (env_of names.now) name.now }
{
    for visible in names {
        if visible.name == name {
            return visible.source;
        }
    }
    Operand::Constant(None, 0)
}

fn value_type(binding: Binding) -> Option<Ty>
    ensures { result ≡ value_type binding }
{
    match binding {
        Binding::Scalar(ty) | Binding::Accumulator(ty) | Binding::Value(ty) => Some(ty),
        Binding::Array(_) => None,
        Binding::Index => Some(Ty::U64),
    }
}

fn element_type(binding: Binding) -> Option<Ty>
    ensures { result ≡ element_type binding }
{
    match binding {
        Binding::Array(ty) => Some(ty),
        _ => None,
    }
}

fn accumulator_type(binding: Binding) -> Option<Ty>
    ensures { result ≡ accumulator_type binding }
{
    match binding {
        Binding::Accumulator(ty) => Some(ty),
        _ => None,
    }
}

// The type of a name as a value.
fn name_type(names: &[Visible<'_>], name: &str) -> Option<Ty>
    ensures { result ≡ option_and_then value_type (option_map binding_of
        (find (has_name name.now) (locals names.now))) }
{
    match look_up(names, name) {
        Some(binding) => value_type(binding),
        None => None,
    }
}

/// The type of an array's elements.
pub fn array_type_of(names: &[Visible<'_>], array: &str) -> Option<Ty>
    ensures { result ≡ option_and_then element_type (option_map binding_of
        (find (has_name array.now) (locals names.now))) }
{
    match look_up(names, array) {
        Some(binding) => element_type(binding),
        None => None,
    }
}

/// The type of an accumulator.
pub fn accumulator_type_of(names: &[Visible<'_>], name: &str) -> Option<Ty>
    ensures { result ≡ option_and_then accumulator_type
        (option_map binding_of (find (has_name name.now) (locals names.now))) }
{
    match look_up(names, name) {
        Some(binding) => accumulator_type(binding),
        None => None,
    }
}

/// The first type that there is.
pub fn first_type(left: Option<Ty>, right: Option<Ty>) -> Option<Ty>
    ensures { result ≡ first left right }
{
    match left {
        Some(ty) => Some(ty),
        None => right,
    }
}

/// The type that an expression has of its own.
pub fn own_type(names: &[Visible<'_>], expr: &Expr) -> Option<Ty>
    ensures { (index : Option (List ℕ)) (taken : List (List ℕ)) → result ≡ own
        (scope_of index names.now taken) (term_of expr.now) }
{
    match expr {
        Expr::Var(name) => name_type(names, name.text()),
        Expr::Read { array, .. } => array_type_of(names, array.text()),
        Expr::Unary { arg, .. } | Expr::Shift { arg, .. } => own_type(names, arg),
        Expr::Binary { left, right, .. } => {
            first_type(own_type(names, left), own_type(names, right))
        }
        Expr::Cast { ty, .. } => Some(*ty),
        Expr::Select { yes, no, .. } => first_type(own_type(names, yes), own_type(names, no)),
        Expr::Lit(_)
        | Expr::Compare { .. }
        | Expr::And { .. }
        | Expr::Or { .. }
        | Expr::Not { .. } => None,
    }
}

/// The type that is wanted of a computed index.
pub fn index_type_of(names: &[Visible<'_>], expr: &Expr) -> Option<Ty>
    ensures { (index : Option (List ℕ)) (taken : List (List ℕ)) → result ≡ index_type
        (scope_of index names.now taken) (term_of expr.now) }
{
    first_type(own_type(names, expr), Some(Ty::U64))
}

/// The type that the value of a computed index comes from.
pub fn index_source_of(names: &[Visible<'_>], expr: &Expr) -> Option<Ty>
    ensures { (index : Option (List ℕ)) (taken : List (List ℕ)) → result ≡ index_source
        (scope_of index names.now taken) (term_of expr.now) }
{
    match expr {
        Expr::Cast { arg, ty } => {
            if widens(own_type(names, arg), *ty) {
                index_source_of(names, arg)
            } else {
                Some(*ty)
            }
        }
        Expr::Var(name) => first_type(name_type(names, name.text()), Some(Ty::U64)),
        Expr::Read { array, .. } => first_type(array_type_of(names, array.text()), Some(Ty::U64)),
        Expr::Unary { arg, .. } | Expr::Shift { arg, .. } => index_type_of(names, arg),
        Expr::Binary { left, right, .. } => first_type(
            first_type(own_type(names, left), own_type(names, right)),
            Some(Ty::U64),
        ),
        Expr::Select { yes, no, .. } => first_type(
            first_type(own_type(names, yes), own_type(names, no)),
            Some(Ty::U64),
        ),
        Expr::Lit(_)
        | Expr::Compare { .. }
        | Expr::And { .. }
        | Expr::Or { .. }
        | Expr::Not { .. } => Some(Ty::U64),
    }
}
