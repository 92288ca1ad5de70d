//! Resolves kernels.

ghost use Rattle.std.specs.Prelude.{◌≡◌, IfOk, option_map};
ghost use Rattle.kernel_tree.specs.Plain.{parameters_of, accumulators_of, for_loop_of, returned_of, program_of};
ghost use Rattle.kernel_tree.specs.Items as items;
ghost use Rattle.kernel_tree.specs.Typing as typing;
ghost use Rattle.kernel_plan.specs.Trees.{tree_of, tasks_of, followed};
ghost use Rattle.kernel_plan.specs.Plans as plans;
ghost use Rattle.kernel_scope.specs.Scopes.{scope_of};

use crate::names::slot;
use crate::node::Node;
use crate::plan::{Plan, ResolvedLoop};
use crate::resolve::resolve;
use crate::statements::resolve_inner;
use crate::step::Step;
use kernel_scope::{Scope, declare, empty, loop_index, visible_count};
use kernel_tree::fault::Binding;
use kernel_tree::{Answer, Kernel, Loop, Param, Var};
use std::alloc::{AllocError, Global};

fn declare_params<'a>(scope: &mut Scope<'a>, params: &'a [Param]) -> Result<(), AllocError>
    ensures { IfOk result (λ _. scope_of scope.new
        ≡ typing.after_params (scope_of scope.old) (parameters_of params.now)) }
{
    for param in params {
        declare(scope, &param.name, param.shape.binding())?;
    }
    Ok(())
}

// The accumulators in their order.
fn push_vars<'a>(
    alloc: Global,
    scope: &mut Scope<'a>,
    steps: &mut Vec<Step>,
    vars: &'a [Var],
) -> Result<(), AllocError>
    ensures steps { IfOk result (λ _. tasks_of steps.new.items ≡ followed (tasks_of steps.old.items)
        (plans.resolved_vars (scope_of scope.old) (accumulators_of vars.now))) }
    ensures scope { IfOk result (λ _. scope_of scope.new
        ≡ typing.after_vars (scope_of scope.old) (accumulators_of vars.now)) }
{
    for var in vars {
        let slot = visible_count(scope);
        let value = resolve(alloc, scope, Some(var.ty), &var.init)?;
        steps.push(Step::Set { slot, value })?;
        declare(scope, &var.name, Binding::Accumulator(var.ty))?;
    }
    Ok(())
}

fn resolve_answer(
    alloc: Global,
    scope: &Scope,
    answer: &Option<Answer>,
) -> Result<Option<Node>, AllocError>
    ensures { IfOk result (λ o. option_map tree_of o
        ≡ plans.resolved_answer (scope_of scope.now) (option_map returned_of answer.now)) }
{
    match answer {
        None => Ok(None),
        Some(answer) => { Ok(Some(resolve(alloc, scope, Some(answer.ty), &answer.value)?)) }
    }
}

// The loop, where there is one. Of its names the variable alone stays visible.
fn resolve_loop<'a>(
    alloc: Global,
    scope: &mut Scope<'a>,
    for_loop: &'a Option<Loop>,
) -> Result<Option<ResolvedLoop>, AllocError>
    ensures for_loop { IfOk result (λ o. option_map plans.loop_plan_of o
        ≡ plans.resolved_for_loop (scope_of scope.old) (option_map for_loop_of for_loop.now)) }
    ensures visible { IfOk result (λ _. (scope_of scope.new).visible
        ≡ (typing.after_for_loop (scope_of scope.old) (option_map for_loop_of for_loop.now)).visible) }
    ensures index { IfOk result (λ _. (scope_of scope.new).index
        ≡ (typing.after_for_loop (scope_of scope.old) (option_map for_loop_of for_loop.now)).index) }
{
    match for_loop {
        None => Ok(None),
        Some(for_loop) => {
            let bound = slot(scope, &for_loop.bound);
            let index = visible_count(scope);
            declare(scope, &for_loop.index, Binding::Index)?;
            scope.inside = true;
            let body = resolve_inner(alloc, scope, &for_loop.body)?;
            Ok(Some(ResolvedLoop { bound, index, body }))
        }
    }
}

// A kernel of which nothing is declared yet.
fn resolve_parts<'a>(
    alloc: Global,
    scope: &mut Scope<'a>,
    kernel: &'a Kernel,
) -> Result<Plan, AllocError>
    requires { scope_of scope.old ≡ typing.empty (items.loop_index (program_of kernel.now)) }
    ensures { IfOk result (λ p. plans.planned_of p ≡ plans.planned (program_of kernel.now)) }
{
    declare_params(scope, &kernel.params)?;
    let mut start = Vec::new(alloc);
    push_vars(alloc, scope, &mut start, &kernel.vars)?;
    let for_loop = resolve_loop(alloc, scope, &kernel.body)?;
    let answer = resolve_answer(alloc, scope, &kernel.answer)?;
    Ok(Plan {
        start,
        for_loop,
        answer,
    })
}

/// A kernel with its names and types resolved.
pub fn resolve_kernel(alloc: Global, kernel: &Kernel) -> Result<Plan, AllocError>
    ensures { IfOk result (λ p. plans.planned_of p ≡ plans.planned (program_of kernel.now)) }
{
    let mut scope = empty(alloc, loop_index(&kernel.body));
    resolve_parts(alloc, &mut scope, kernel)
}
