//! The type that an expression has of its own, and whether it is the loop variable or a literal.

ghost use Rattle.std.specs.Prelude.{◌≡◌, option_map};
ghost use Rattle.kernel_tree.specs.Plain.{name_of, term_of, for_loop_of};
ghost use Rattle.kernel_tree.specs.Items as items;
ghost use Rattle.kernel_tree.specs.Typing as typing;
ghost use Rattle.kernel_scope.specs.Scopes.{scope_of, lent_text};

use crate::names::lookup;
use crate::scope::Scope;
use kernel_tree::fault::Binding;
use kernel_tree::{Expr, Loop, Name, Ty};

/// The type of a name as a value; an array has none.
pub fn value_type(binding: Binding) -> Option<Ty>
    ensures { result ≡ typing.value_type binding }
{
    match binding {
        Binding::Scalar(ty) | Binding::Accumulator(ty) | Binding::Value(ty) => Some(ty),
        Binding::Array(_) => None,
        Binding::Index => Some(Ty::U64),
    }
}

/// The type of an array's elements; no other name has one.
pub fn element_type(binding: Binding) -> Option<Ty>
    ensures { result ≡ typing.element_type binding }
{
    match binding {
        Binding::Array(ty) => Some(ty),
        _ => None,
    }
}

/// The type of an accumulator; no other name has one.
pub fn accumulator_type(binding: Binding) -> Option<Ty>
    ensures { result ≡ typing.accumulator_type binding }
{
    match binding {
        Binding::Accumulator(ty) => Some(ty),
        _ => None,
    }
}

/// The first of two types, where there is one.
pub fn first(left: Option<Ty>, right: Option<Ty>) -> Option<Ty>
    ensures { result ≡ typing.first left right }
{
    left.or(right)
}

/// The type that an expression has of its own.
pub fn own_type(scope: &Scope, expr: &Expr) -> Option<Ty>
    ensures { result ≡ typing.own (scope_of scope.now) (term_of expr.now) }
{
    match expr {
        Expr::Lit(_) => None,
        Expr::Var(name) => lookup(scope, name).and_then(value_type),
        Expr::Read { array, .. } => lookup(scope, array).and_then(element_type),
        Expr::Unary { arg, .. } => own_type(scope, arg),
        Expr::Binary { left, right, .. } => first(own_type(scope, left), own_type(scope, right)),
        Expr::Shift { arg, .. } => own_type(scope, arg),
        Expr::Cast { ty, .. } => Some(*ty),
        Expr::Select { yes, no, .. } => first(own_type(scope, yes), own_type(scope, no)),
        Expr::Compare { .. } => None,
        Expr::And { .. } => None,
        Expr::Or { .. } => None,
        Expr::Not { .. } => None,
    }
}

/// The name of the loop variable.
pub fn loop_index(for_loop: &Option<Loop>) -> Option<&str>
    ensures { option_map lent_text result ≡ option_map items.index_of (option_map for_loop_of for_loop.now) }
{
    match for_loop {
        None => None,
        Some(for_loop) => Some(for_loop.index.text()),
    }
}

/// Whether a name is that of the loop variable.
pub fn is_index(index: Option<&str>, name: &Name) -> bool
    ensures { result ≡ items.is_index (option_map lent_text index.entry) (name_of name.now) }
{
    match index {
        None => false,
        Some(index) => name.text() == index,
    }
}

/// Whether an expression is the loop variable.
pub fn is_index_term(index: Option<&str>, expr: &Expr) -> bool
    ensures { result ≡ items.is_index_term (option_map lent_text index.entry) (term_of expr.now) }
{
    match expr {
        Expr::Var(name) => is_index(index, name),
        _ => false,
    }
}

/// The value of a literal; no other expression has one.
pub fn literal_value(expr: &Expr) -> Option<i128>
    ensures { result ≡ items.literal_value (term_of expr.now) }
{
    match expr {
        Expr::Lit(value) => Some(*value),
        _ => None,
    }
}

/// The type of an array's elements.
pub fn array_type(scope: &Scope, array: &Name) -> Option<Ty>
    ensures { result ≡ typing.array_type (scope_of scope.now) (name_of array.now) }
{
    lookup(scope, array).and_then(element_type)
}

/// The type that both sides of a comparison have.
pub fn side_type(scope: &Scope, left: &Expr, right: &Expr) -> Option<Ty>
    ensures { result ≡ typing.side_type (scope_of scope.now) (term_of left.now) (term_of right.now) }
{
    first(own_type(scope, left), own_type(scope, right))
}
