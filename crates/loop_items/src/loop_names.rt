//! The names that are visible at the head of a loop's body.

ghost use Rattle.std.specs.Prelude.{◌+◌, ◌≤◌, length, map, IfOk, OnOk};
ghost use Rattle.kernel_tree.specs.Plain.{parameters_of, accumulators_of, for_loop_of};
ghost use Rattle.kernel_tree.specs.Scopes.{param_local, var_local};
ghost use Rattle.loop_form.specs.LoopView.{AddsOuter, IsLoopHead};
ghost use Rattle.loop_form.specs.View.{program};

use kernel_tree::fault::Binding;
use kernel_tree::{Checked, Loop, Param, Var};
use loop_form::Operand;
use loop_form::laws::few_items;
use loop_form::visible::Visible;
use std::alloc::{AllocError, Global};

// The parameters, in their order.
fn add_params<'a>(names: &mut Vec<Visible<'a>>, params: &'a [Param]) -> Result<(), AllocError>
    requires { length names.old.items + length params.now ≤ 2000 }
    ensures { OnOk result (AddsOuter (map param_local (parameters_of params.now)) names.old.items names.new.items) }
{
    for param in params {
        let place = names.len() as u32;
        names.push(Visible {
            name: param.name.text(),
            binding: param.shape.binding(),
            source: Operand::Outer(place),
        })?;
    }
    Ok(())
}

// The accumulators, in their order.
fn add_vars<'a>(names: &mut Vec<Visible<'a>>, vars: &'a [Var]) -> Result<(), AllocError>
    requires { length names.old.items + length vars.now ≤ 2000 }
    ensures { OnOk result (AddsOuter (map var_local (accumulators_of vars.now)) names.old.items names.new.items) }
{
    for var in vars {
        let place = names.len() as u32;
        names.push(Visible {
            name: var.name.text(),
            binding: Binding::Accumulator(var.ty),
            source: Operand::Outer(place),
        })?;
    }
    Ok(())
}

/// The parameters, the accumulators and the loop variable.
#[tactic(auto, unfolding(loop_form::specs::View::program))]
pub fn loop_names<'a>(
    alloc: Global,
    kernel: &'a Checked,
    for_loop: &'a Loop,
) -> Result<Vec<Visible<'a>>, AllocError>
    ensures { IfOk result (λ names. IsLoopHead (program kernel.now) (for_loop_of for_loop.now) names.items) }
{
    few_items(kernel);
    let tree = kernel.kernel();
    let mut names = Vec::new(alloc);
    add_params(&mut names, &tree.params)?;
    add_vars(&mut names, &tree.vars)?;
    names.push(Visible {
        name: for_loop.index.text(),
        binding: Binding::Index,
        source: Operand::LoopIndex,
    })?;
    Ok(names)
}
