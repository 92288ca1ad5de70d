//! Goes over statements, item by item.

ghost use Rattle.std.specs.Prelude.{◌≡◌, ◌∷◌, ◌++◌, [], ◌+◌, ◌<◌, ◌^◌, None, IfOk};
ghost use Rattle.kernel_tree.specs.declared.ops.UpdateOp.TheVariants as update;
ghost use Rattle.kernel_tree.specs.Plain.{name_of, term_of, action_of, block_of, Define, Put, Update, Choose, Leave, Nothing, Else};
ghost use Rattle.kernel_tree.specs.Items as items;
ghost use Rattle.kernel_tree.specs.Typing as typing;
ghost use Rattle.kernel_scope.specs.Scopes.{scope_of};
ghost use Rattle.kernel_types.specs.Parts.{Adds};

use crate::notes::{Notes, Role};
use crate::rules::{
    sooner, stored_type, stream_fault, target_fault, twice, untyped, update_fault, updated_type,
};
use crate::terms::{end, walk_expr};
use kernel_scope::{Scope, define, first, is_taken, leave, lookup, own_type, visible_count};
use kernel_size::stream_distance;
use kernel_tree::{Expr, Name, Part, Stmt, Ty, parts};
use std::alloc::AllocError;

#[tactic(auto, using(crate::proofs::LeastFault::sooner_rules))]
fn walk_let<'a>(
    notes: &mut Notes,
    scope: &mut Scope<'a>,
    name: &'a Name,
    ty: Option<Ty>,
    value: &Expr,
) -> Result<(), AllocError>
    requires { notes.old.next + (items.action_size (scope_of scope.old).index
        (Define (name_of name.now) ty (term_of value.now))) < 2 ^ 32 }
    ensures scope { IfOk result (λ _. scope_of scope.new
        ≡ typing.after_action (scope_of scope.old) (Define (name_of name.now) ty (term_of value.now))) }
    ensures next { IfOk result (λ _. notes.new.next
        ≡ notes.old.next + (items.action_size (scope_of scope.old).index
        (Define (name_of name.now) ty (term_of value.now)))) }
    ensures found { IfOk result (λ _. notes.new.found
        ≡ typing.sooner notes.old.found (typing.least
        (typing.action_faults (scope_of scope.old) notes.old.next
        (Define (name_of name.now) ty (term_of value.now))))) }
    ensures types { IfOk result (λ _. Adds notes.old notes.new (typing.action_types (scope_of scope.old)
        (Define (name_of name.now) ty (term_of value.now)))) }
{
    let wanted = first(ty, own_type(scope, value));
    walk_expr(notes, scope, Role::Value(wanted), value);
    let item = notes.next;
    let found = sooner(twice(item, is_taken(scope, name)), untyped(item, wanted));
    end(notes, found, wanted);
    define(scope, name, wanted)
}

#[tactic(auto, using(crate::proofs::LeastFault::sooner_rules))]
fn walk_store(notes: &mut Notes, scope: &Scope, array: &Name, index: &Expr, value: &Expr)
    requires { notes.old.next + (items.action_size (scope_of scope.now).index
        (Put (name_of array.now) (term_of index.now) (term_of value.now))) < 2 ^ 32 }
    ensures next { notes.new.next
        ≡ notes.old.next + (items.action_size (scope_of scope.now).index
        (Put (name_of array.now) (term_of index.now) (term_of value.now))) }
    ensures found { notes.new.found
        ≡ typing.sooner notes.old.found (typing.least
        (typing.action_faults (scope_of scope.now) notes.old.next
        (Put (name_of array.now) (term_of index.now) (term_of value.now)))) }
    ensures types { Adds notes.old notes.new (typing.action_types (scope_of scope.now)
        (Put (name_of array.now) (term_of index.now) (term_of value.now))) }
{
    let target = lookup(scope, array);
    walk_expr(notes, scope, Role::Value(stored_type(target)), value);
    let item = notes.next;
    let distance = stream_distance(scope.index, index);
    let found = sooner(target_fault(item, target), stream_fault(item, distance));
    end(notes, found, None)
}

#[tactic(auto, using(crate::proofs::LeastFault::sooner_rules))]
fn walk_update(notes: &mut Notes, scope: &Scope, name: &Name, value: &Expr)
    requires { notes.old.next + (items.action_size (scope_of scope.now).index
        (Update (name_of name.now) update.Add (term_of value.now))) < 2 ^ 32 }
    ensures next { notes.new.next
        ≡ notes.old.next + (items.action_size (scope_of scope.now).index
        (Update (name_of name.now) update.Add (term_of value.now))) }
    ensures found { notes.new.found
        ≡ typing.sooner notes.old.found (typing.least
        (typing.action_faults (scope_of scope.now) notes.old.next
        (Update (name_of name.now) update.Add (term_of value.now)))) }
    ensures types { Adds notes.old notes.new (typing.action_types (scope_of scope.now)
        (Update (name_of name.now) update.Add (term_of value.now))) }
{
    let target = lookup(scope, name);
    walk_expr(notes, scope, Role::Value(updated_type(target)), value);
    end(notes, update_fault(notes.next, target), None)
}

// Goes over a condition and the mark after it.
#[tactic(auto, using(crate::proofs::LeastFault::sooner_rules))]
fn walk_marked(notes: &mut Notes, scope: &Scope, cond: &Expr)
    requires { notes.old.next + (items.action_size (scope_of scope.now).index (Leave (term_of cond.now))) < 2 ^ 32 }
    ensures next { notes.new.next
        ≡ notes.old.next + (items.action_size (scope_of scope.now).index (Leave (term_of cond.now))) }
    ensures found { notes.new.found
        ≡ typing.sooner notes.old.found (typing.least
        (typing.action_faults (scope_of scope.now) notes.old.next (Leave (term_of cond.now)))) }
    ensures types { Adds notes.old notes.new (typing.action_types (scope_of scope.now) (Leave (term_of cond.now))) }
{
    walk_expr(notes, scope, Role::Condition, cond);
    end(notes, None, None)
}

#[cycle(statements)]
#[tactic(auto, using(crate::proofs::LeastFault::sooner_rules))]
fn walk_stmt<'a>(notes: &mut Notes, scope: &mut Scope<'a>, stmt: &'a Stmt) -> Result<(), AllocError>
    requires { notes.old.next + (items.action_size (scope_of scope.old).index (action_of stmt.now)) < 2 ^ 32 }
    ensures scope { IfOk result (λ _. scope_of scope.new
        ≡ typing.after_action (scope_of scope.old) (action_of stmt.now)) }
    ensures next { IfOk result (λ _. notes.new.next
        ≡ notes.old.next + (items.action_size (scope_of scope.old).index (action_of stmt.now))) }
    ensures found { IfOk result (λ _. notes.new.found
        ≡ typing.sooner notes.old.found (typing.least
        (typing.action_faults (scope_of scope.old) notes.old.next (action_of stmt.now)))) }
    ensures types { IfOk result (λ _. Adds notes.old notes.new
        (typing.action_types (scope_of scope.old) (action_of stmt.now))) }
{
    match parts(stmt) {
        Part::Let { name, ty, value } => walk_let(notes, scope, name, ty, value),
        Part::Store {
            array,
            index,
            value,
        } => {
            walk_store(notes, scope, array, index, value);
            Ok(())
        }
        Part::Update { name, value, .. } => {
            walk_update(notes, scope, name, value);
            Ok(())
        }
        Part::If { cond, block } => walk_if(notes, scope, cond, block),
        Part::IfElse { cond, block, other } => walk_if_else(notes, scope, cond, block, other),
        Part::Break { cond } => {
            walk_marked(notes, scope, cond);
            Ok(())
        }
    }
}

// An `if` with one block.
#[cycle(statements)]
#[tactic(auto, using(crate::proofs::LeastFault::sooner_rules))]
fn walk_if<'a>(
    notes: &mut Notes,
    scope: &mut Scope<'a>,
    cond: &Expr,
    block: &'a [Stmt],
) -> Result<(), AllocError>
    requires { notes.old.next + items.action_size (scope_of scope.old).index
        (Choose (term_of cond.now) (block_of block.now) Nothing) < 2 ^ 32 }
    ensures scope { IfOk result (λ _. scope_of scope.new
        ≡ typing.after_action (scope_of scope.old) (Choose (term_of cond.now) (block_of block.now) Nothing)) }
    ensures next { IfOk result (λ _. notes.new.next
        ≡ notes.old.next + items.action_size (scope_of scope.old).index
        (Choose (term_of cond.now) (block_of block.now) Nothing)) }
    ensures found { IfOk result (λ _. notes.new.found
        ≡ typing.sooner notes.old.found (typing.least
        (typing.action_faults (scope_of scope.old) notes.old.next
        (Choose (term_of cond.now) (block_of block.now) Nothing)))) }
    ensures types { IfOk result (λ _. Adds notes.old notes.new (typing.action_types (scope_of scope.old)
        (Choose (term_of cond.now) (block_of block.now) Nothing))) }
{
    walk_marked(notes, scope, cond);
    walk_inner(notes, scope, block)
}

// An `if` with two blocks.
#[cycle(statements)]
#[tactic(auto, using(crate::proofs::LeastFault::sooner_rules))]
fn walk_if_else<'a>(
    notes: &mut Notes,
    scope: &mut Scope<'a>,
    cond: &Expr,
    block: &'a [Stmt],
    other: &'a [Stmt],
) -> Result<(), AllocError>
    requires { notes.old.next + items.action_size (scope_of scope.old).index
        (Choose (term_of cond.now) (block_of block.now) (Else (block_of other.now))) < 2 ^ 32 }
    ensures scope { IfOk result (λ _. scope_of scope.new
        ≡ typing.after_action (scope_of scope.old)
        (Choose (term_of cond.now) (block_of block.now) (Else (block_of other.now)))) }
    ensures next { IfOk result (λ _. notes.new.next
        ≡ notes.old.next + items.action_size (scope_of scope.old).index
        (Choose (term_of cond.now) (block_of block.now) (Else (block_of other.now)))) }
    ensures found { IfOk result (λ _. notes.new.found
        ≡ typing.sooner notes.old.found (typing.least
        (typing.action_faults (scope_of scope.old) notes.old.next
        (Choose (term_of cond.now) (block_of block.now) (Else (block_of other.now)))))) }
    ensures types { IfOk result (λ _. Adds notes.old notes.new (typing.action_types (scope_of scope.old)
        (Choose (term_of cond.now) (block_of block.now) (Else (block_of other.now))))) }
{
    walk_marked(notes, scope, cond);
    walk_inner(notes, scope, block)?;
    walk_inner(notes, scope, other)
}

// A block, after which its names are visible no more, and the mark after it.
#[cycle(statements)]
#[tactic(auto, using(crate::proofs::LeastFault::sooner_rules))]
fn walk_inner<'a>(
    notes: &mut Notes,
    scope: &mut Scope<'a>,
    block: &'a [Stmt],
) -> Result<(), AllocError>
    requires { notes.old.next + (items.block_size (scope_of scope.old).index (block_of block.now) + 1) < 2 ^ 32 }
    ensures scope { IfOk result (λ _. scope_of scope.new
        ≡ typing.left (scope_of scope.old) (typing.after_block (scope_of scope.old) (block_of block.now))) }
    ensures next { IfOk result (λ _. notes.new.next
        ≡ notes.old.next + (items.block_size (scope_of scope.old).index (block_of block.now) + 1)) }
    ensures found { IfOk result (λ _. notes.new.found
        ≡ typing.sooner notes.old.found (typing.least
        (typing.block_faults (scope_of scope.old) notes.old.next (block_of block.now)))) }
    ensures types { IfOk result (λ _. Adds notes.old notes.new
        (typing.block_types (scope_of scope.old) (block_of block.now) ++ None ∷ [])) }
{
    let count = visible_count(scope);
    walk_block(notes, scope, block)?;
    leave(scope, count);
    end(notes, None, None);
    Ok(())
}

/// Goes over statements, after which their names stay visible.
#[cycle(statements)]
#[tactic(auto, using(crate::proofs::LeastFault::sooner_rules))]
pub fn walk_block<'a>(
    notes: &mut Notes,
    scope: &mut Scope<'a>,
    block: &'a [Stmt],
) -> Result<(), AllocError>
    requires { notes.old.next + (items.block_size (scope_of scope.old).index (block_of block.now)) < 2 ^ 32 }
    ensures scope { IfOk result (λ _. scope_of scope.new
        ≡ typing.after_block (scope_of scope.old) (block_of block.now)) }
    ensures next { IfOk result (λ _. notes.new.next
        ≡ notes.old.next + (items.block_size (scope_of scope.old).index (block_of block.now))) }
    ensures found { IfOk result (λ _. notes.new.found
        ≡ typing.sooner notes.old.found (typing.least
        (typing.block_faults (scope_of scope.old) notes.old.next (block_of block.now)))) }
    ensures types { IfOk result (λ _. Adds notes.old notes.new
        (typing.block_types (scope_of scope.old) (block_of block.now))) }
{
    for stmt in block {
        walk_stmt(notes, scope, stmt)?;
    }
    Ok(())
}
