//! Looks names up and declares them.

ghost use Rattle.std.specs.Prelude.{◌≡◌, IfOk, length, option_map};
ghost use Rattle.kernel_tree.specs.Plain.{name_of};
ghost use Rattle.kernel_tree.specs.Typing as typing;
ghost use Rattle.kernel_scope.specs.Scopes.{scope_of, lent_text, binding_among, reserved, kept, closed};

use crate::scope::{Local, Scope};
use indexmap::IndexSet;
use kernel_tree::fault::Binding;
use kernel_tree::{Name, Ty};
use std::alloc::{AllocError, Global};

/// A place outside the loop, before which nothing is declared.
pub fn empty<'a>(alloc: Global, index: Option<&'a str>) -> Scope<'a>
    ensures { scope_of result ≡ typing.empty (option_map lent_text index.entry) }
{
    Scope {
        visible: Vec::new(alloc),
        declared: IndexSet::new(alloc),
        index,
        inside: false,
    }
}

fn binding_among(locals: &[Local], text: &str) -> Option<Binding>
    ensures { result ≡ binding_among locals.now text.now }
{
    locals
        .iter()
        .find(|local| local.name == text)
        .map(|local| local.binding)
}

/// What a name stands for, where it is visible.
pub fn lookup(scope: &Scope, name: &Name) -> Option<Binding>
    ensures { result ≡ typing.lookup (scope_of scope.now) (name_of name.now) }
{
    binding_among(&scope.visible, name.text())
}

/// Whether a name is declared already.
pub fn is_taken(scope: &Scope, name: &Name) -> bool
    ensures { result ≡ typing.is_taken (scope_of scope.now) (name_of name.now) }
{
    scope.declared.contains(name.text())
}

/// How many names are visible.
pub fn visible_count(scope: &Scope) -> usize
    ensures { result ≡ length (scope_of scope.now).visible }
{
    scope.visible.len()
}

/// How many names are declared.
pub fn declared_count(scope: &Scope) -> usize
    ensures { result ≡ length (scope_of scope.now).taken }
{
    scope.declared.len()
}

/// Declares a name that is visible nowhere.
pub fn reserve<'a>(scope: &mut Scope<'a>, name: &'a Name) -> Result<(), AllocError>
    ensures { IfOk result (λ _. scope_of scope.new ≡ reserved (scope_of scope.old) (name_of name.now)) }
{
    scope.declared.insert(name.text())?;
    Ok(())
}

/// Declares a name that is visible from here on.
pub fn declare<'a>(
    scope: &mut Scope<'a>,
    name: &'a Name,
    binding: Binding,
) -> Result<(), AllocError>
    ensures { IfOk result (λ _. scope_of scope.new ≡ typing.declared (scope_of scope.old) (name_of name.now) binding) }
{
    let name = name.text();
    scope.visible.push(Local { name, binding })?;
    scope.declared.insert(name)?;
    Ok(())
}

/// Declares what a `let` defines. Without a type it is visible nowhere.
pub fn define<'a>(scope: &mut Scope<'a>, name: &'a Name, ty: Option<Ty>) -> Result<(), AllocError>
    ensures { IfOk result (λ _. scope_of scope.new ≡ typing.defined (scope_of scope.old) (name_of name.now) ty) }
{
    match ty {
        None => {
            reserve(scope, name)?;
            Ok(())
        }
        Some(ty) => {
            declare(scope, name, Binding::Value(ty))?;
            Ok(())
        }
    }
}

/// Takes the names that were declared last out of sight: so many stay visible.
pub fn leave(scope: &mut Scope, count: usize)
    ensures { scope_of scope.new ≡ kept count (scope_of scope.old) }
{
    scope.visible.truncate(count);
}

/// Leaves a loop: so many names stay visible, and so many declared.
pub fn close(scope: &mut Scope, visible: usize, taken: usize)
    ensures { scope_of scope.new ≡ closed visible taken (scope_of scope.old) }
{
    scope.visible.truncate(visible);
    scope.declared.truncate(taken);
    scope.inside = false;
}
