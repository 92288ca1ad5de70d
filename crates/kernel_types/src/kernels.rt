//! Goes over a kernel, item by item.

ghost use Rattle.std.specs.Prelude.{◌≡◌, ◌∷◌, ◌++◌, [], ◌+◌, ◌<◌, ◌^◌, false, None, Some, IfOk, length, option_map};
ghost use Rattle.kernel_tree.specs.Plain.{name_of, term_of, block_of, parameter_of, parameters_of, accumulator_of, accumulators_of, for_loop_of, returned_of, program_of};
ghost use Rattle.kernel_tree.specs.Items as items;
ghost use Rattle.kernel_tree.specs.Typing as typing;
ghost use Rattle.kernel_scope.specs.Scopes.{scope_of, in_body, after_param, after_var};
ghost use Rattle.kernel_types.specs.Parts.{Adds, var_faults, var_types};

use crate::notes::{Notes, Role};
use crate::rules::{bound_fault, sooner, twice};
use crate::statements::walk_block;
use crate::terms::{end, walk_expr};
use kernel_scope::{
    Scope, close, declare, declared_count, empty, is_taken, lookup, loop_index, visible_count,
};
use kernel_tree::fault::Binding;
use kernel_tree::{Answer, Kernel, Loop, Param, Stmt, Var};
use std::alloc::{AllocError, Global};

#[tactic(auto, using(crate::proofs::LeastFault::sooner_rules))]
fn walk_param<'a>(
    notes: &mut Notes,
    scope: &mut Scope<'a>,
    param: &'a Param,
) -> Result<(), AllocError>
    requires { notes.old.next + 1 < 2 ^ 32 }
    ensures scope { IfOk result (λ _. scope_of scope.new ≡ after_param (scope_of scope.old) (parameter_of param.now)) }
    ensures next { IfOk result (λ _. notes.new.next ≡ notes.old.next + 1) }
    ensures found { IfOk result (λ _. notes.new.found
        ≡ typing.sooner notes.old.found (typing.least
        (typing.twice notes.old.next (scope_of scope.old) (name_of param.now.name)))) }
    ensures types { IfOk result (λ _. Adds notes.old notes.new (None ∷ [])) }
{
    let found = twice(notes.next, is_taken(scope, &param.name));
    end(notes, found, None);
    declare(scope, &param.name, param.shape.binding())
}

fn walk_params<'a>(
    notes: &mut Notes,
    scope: &mut Scope<'a>,
    params: &'a [Param],
) -> Result<(), AllocError>
    requires { notes.old.next + length params.now < 2 ^ 32 }
    ensures scope { IfOk result (λ _. scope_of scope.new
        ≡ typing.after_params (scope_of scope.old) (parameters_of params.now)) }
    ensures next { IfOk result (λ _. notes.new.next ≡ notes.old.next + length params.now) }
    ensures found { IfOk result (λ _. notes.new.found
        ≡ typing.sooner notes.old.found (typing.least
        (typing.params_faults (scope_of scope.old) notes.old.next (parameters_of params.now)))) }
    ensures types { IfOk result (λ _. Adds notes.old notes.new (typing.params_types (parameters_of params.now))) }
{
    for param in params {
        walk_param(notes, scope, param)?;
    }
    Ok(())
}

#[tactic(auto, using(crate::proofs::LeastFault::sooner_rules))]
fn walk_var<'a>(notes: &mut Notes, scope: &mut Scope<'a>, var: &'a Var) -> Result<(), AllocError>
    requires { notes.old.next + items.term_size (scope_of scope.old).index (term_of var.now.init) + 1 < 2 ^ 32 }
    ensures scope { IfOk result (λ _. scope_of scope.new ≡ after_var (scope_of scope.old) (accumulator_of var.now)) }
    ensures next { IfOk result (λ _. notes.new.next
        ≡ notes.old.next + (items.term_size (scope_of scope.old).index (term_of var.now.init) + 1)) }
    ensures found { IfOk result (λ _. notes.new.found
        ≡ typing.sooner notes.old.found (typing.least
        (var_faults (scope_of scope.old) notes.old.next (accumulator_of var.now)))) }
    ensures types { IfOk result (λ _. Adds notes.old notes.new
        (var_types (scope_of scope.old) (accumulator_of var.now))) }
{
    walk_expr(notes, scope, Role::Value(Some(var.ty)), &var.init);
    let found = twice(notes.next, is_taken(scope, &var.name));
    end(notes, found, None);
    declare(scope, &var.name, Binding::Accumulator(var.ty))
}

fn walk_vars<'a>(
    notes: &mut Notes,
    scope: &mut Scope<'a>,
    vars: &'a [Var],
) -> Result<(), AllocError>
    requires { notes.old.next + items.vars_size (scope_of scope.old).index (accumulators_of vars.now) < 2 ^ 32 }
    ensures scope { IfOk result (λ _. scope_of scope.new
        ≡ typing.after_vars (scope_of scope.old) (accumulators_of vars.now)) }
    ensures next { IfOk result (λ _. notes.new.next
        ≡ notes.old.next + items.vars_size (scope_of scope.old).index (accumulators_of vars.now)) }
    ensures found { IfOk result (λ _. notes.new.found
        ≡ typing.sooner notes.old.found (typing.least
        (typing.vars_faults (scope_of scope.old) notes.old.next (accumulators_of vars.now)))) }
    ensures types { IfOk result (λ _. Adds notes.old notes.new
        (typing.vars_types (scope_of scope.old) (accumulators_of vars.now))) }
{
    for var in vars {
        walk_var(notes, scope, var)?;
    }
    Ok(())
}

// Goes over the body of a loop, after which what it declared is forgotten.
#[tactic(auto, using(crate::proofs::LeastFault::sooner_rules))]
fn walk_body<'a>(
    notes: &mut Notes,
    scope: &mut Scope<'a>,
    block: &'a [Stmt],
) -> Result<(), AllocError>
    requires room { notes.old.next + items.block_size (scope_of scope.old).index (block_of block.now) < 2 ^ 32 }
    requires outside { scope.old.inside ≡ false }
    ensures scope { IfOk result (λ _. scope_of scope.new ≡ (scope_of scope.old)) }
    ensures next { IfOk result (λ _. notes.new.next
        ≡ notes.old.next + items.block_size (scope_of scope.old).index (block_of block.now)) }
    ensures found { IfOk result (λ _. notes.new.found
        ≡ typing.sooner notes.old.found (typing.least
        (typing.block_faults (in_body (scope_of scope.old)) notes.old.next (block_of block.now)))) }
    ensures types { IfOk result (λ _. Adds notes.old notes.new
        (typing.block_types (in_body (scope_of scope.old)) (block_of block.now))) }
{
    let visible = visible_count(scope);
    let taken = declared_count(scope);
    scope.inside = true;
    walk_block(notes, scope, block)?;
    close(scope, visible, taken);
    Ok(())
}

#[tactic(auto, using(crate::proofs::LeastFault::sooner_rules))]
fn walk_loop<'a>(
    notes: &mut Notes,
    scope: &mut Scope<'a>,
    for_loop: &'a Loop,
) -> Result<(), AllocError>
    requires room { notes.old.next + items.for_loop_size (Some (for_loop_of for_loop.now)) < 2 ^ 32 }
    requires outside { scope.old.inside ≡ false }
    requires index { (scope_of scope.old).index ≡ Some (items.index_of (for_loop_of for_loop.now)) }
    ensures scope { IfOk result (λ _. scope_of scope.new
        ≡ typing.after_for_loop (scope_of scope.old) (Some (for_loop_of for_loop.now))) }
    ensures next { IfOk result (λ _. notes.new.next
        ≡ notes.old.next + items.for_loop_size (Some (for_loop_of for_loop.now))) }
    ensures found { IfOk result (λ _. notes.new.found
        ≡ typing.sooner notes.old.found (typing.least
        (typing.for_loop_faults (scope_of scope.old) notes.old.next (Some (for_loop_of for_loop.now))))) }
    ensures types { IfOk result (λ _. Adds notes.old notes.new
        (typing.for_loop_types (scope_of scope.old) (Some (for_loop_of for_loop.now)))) }
{
    let item = notes.next;
    let bound = bound_fault(item, lookup(scope, &for_loop.bound));
    let found = sooner(bound, twice(item, is_taken(scope, &for_loop.index)));
    end(notes, found, None);
    declare(scope, &for_loop.index, Binding::Index)?;
    walk_body(notes, scope, &for_loop.body)
}

fn walk_for_loop<'a>(
    notes: &mut Notes,
    scope: &mut Scope<'a>,
    for_loop: &'a Option<Loop>,
) -> Result<(), AllocError>
    requires room { notes.old.next + items.for_loop_size (option_map for_loop_of for_loop.now) < 2 ^ 32 }
    requires outside { scope.old.inside ≡ false }
    requires index { (scope_of scope.old).index ≡ option_map items.index_of (option_map for_loop_of for_loop.now) }
    ensures scope { IfOk result (λ _. scope_of scope.new
        ≡ typing.after_for_loop (scope_of scope.old) (option_map for_loop_of for_loop.now)) }
    ensures next { IfOk result (λ _. notes.new.next
        ≡ notes.old.next + items.for_loop_size (option_map for_loop_of for_loop.now)) }
    ensures found { IfOk result (λ _. notes.new.found
        ≡ typing.sooner notes.old.found (typing.least
        (typing.for_loop_faults (scope_of scope.old) notes.old.next (option_map for_loop_of for_loop.now)))) }
    ensures types { IfOk result (λ _. Adds notes.old notes.new
        (typing.for_loop_types (scope_of scope.old) (option_map for_loop_of for_loop.now))) }
{
    match for_loop {
        None => Ok(()),
        Some(for_loop) => walk_loop(notes, scope, for_loop),
    }
}

#[tactic(auto, using(crate::proofs::LeastFault::sooner_rules))]
fn walk_answer(notes: &mut Notes, scope: &Scope, answer: &Option<Answer>)
    requires room { notes.old.next + items.answer_size (scope_of scope.now).index
        (option_map returned_of answer.now) < 2 ^ 32 }
    ensures next { notes.new.next
        ≡ notes.old.next + items.answer_size (scope_of scope.now).index (option_map returned_of answer.now) }
    ensures found { notes.new.found
        ≡ typing.sooner notes.old.found (typing.least
        (typing.answer_faults (scope_of scope.now) notes.old.next (option_map returned_of answer.now))) }
    ensures types { Adds notes.old notes.new
        (typing.answer_types (scope_of scope.now) (option_map returned_of answer.now)) }
{
    match answer {
        None => {}
        Some(answer) => {
            walk_expr(notes, scope, Role::Value(Some(answer.ty)), &answer.value);
            end(notes, None, None)
        }
    }
}

// Whether there was memory for each type.
fn kept(notes: &Notes) -> Result<(), AllocError>
    ensures { IfOk result (λ _. notes.now.lost ≡ false) }
{
    if notes.lost { Err(AllocError) } else { Ok(()) }
}

// Goes over the parts of a kernel.
fn walk_parts<'a>(
    notes: &mut Notes,
    scope: &mut Scope<'a>,
    kernel: &'a Kernel,
) -> Result<(), AllocError>
    requires room { items.size_of (program_of kernel.now) < 2 ^ 32 }
    requires scope { scope_of scope.old ≡ typing.empty (items.loop_index (program_of kernel.now)) }
    requires next { notes.old.next ≡ 0 }
    requires found { notes.old.found ≡ None }
    requires types { notes.old.types.items ≡ [] }
    ensures found { IfOk result (λ _. notes.new.found ≡ typing.least (typing.kernel_faults (program_of kernel.now))) }
    ensures types { IfOk result (λ _. notes.new.types.items ≡ typing.types_of (program_of kernel.now)) }
{
    walk_params(notes, scope, &kernel.params)?;
    walk_vars(notes, scope, &kernel.vars)?;
    walk_for_loop(notes, scope, &kernel.body)?;
    walk_answer(notes, scope, &kernel.answer);
    kept(notes)
}

// Goes over a kernel, outside whose loop nothing is declared yet.
fn notes_in<'a>(
    alloc: Global,
    scope: &mut Scope<'a>,
    kernel: &'a Kernel,
) -> Result<Notes, AllocError>
    requires room { items.size_of (program_of kernel.now) < 2 ^ 32 }
    requires scope { scope_of scope.old ≡ typing.empty (items.loop_index (program_of kernel.now)) }
    ensures found { IfOk result (λ notes. notes.found ≡ typing.least (typing.kernel_faults (program_of kernel.now))) }
    ensures types { IfOk result (λ notes. notes.types.items ≡ typing.types_of (program_of kernel.now)) }
{
    let mut notes = Notes {
        next: 0,
        found: None,
        types: Vec::new(alloc),
        lost: false,
    };
    walk_parts(&mut notes, scope, kernel)?;
    Ok(notes)
}

/// The first fault of a kernel but for its size and depth, and the wanted type of each of its items.
pub fn walk_kernel(alloc: Global, kernel: &Kernel) -> Result<Notes, AllocError>
    requires { items.size_of (program_of kernel.now) < 2 ^ 32 }
    ensures found { IfOk result (λ notes. notes.found ≡ typing.least (typing.kernel_faults (program_of kernel.now))) }
    ensures types { IfOk result (λ notes. notes.types.items ≡ typing.types_of (program_of kernel.now)) }
{
    let mut scope = empty(alloc, loop_index(&kernel.body));
    notes_in(alloc, &mut scope, kernel)
}
