//! The names of a kernel, and the registers that hold them throughout.

ghost use Rattle.std.specs.Prelude.{◌≡◌, ◌+◌, ◌*◌, ◌<◌, ◌≤◌, ◌^◌, None, [], ◌∷◌, ◌++◌, OnOk, IfOk, length};
ghost use Rattle.kernel_tree.specs.Plain.{name_of, parameter_of, parameters_of, accumulator_of, accumulators_of, program_of};
ghost use Rattle.kernel_scope.specs.Scopes.{scope_of, after_var};
ghost use Rattle.reg_assign.specs.declared.interval.RegClass.TheVariants.{X};
ghost use Rattle.reg_assign.specs.Registers.{IsAssignment};
ghost use Rattle.loop_form.specs.Registers.{FitsKernel};
ghost use Rattle.loop_form.specs.View.{program};
ghost use Rattle.scalar_words.specs.KernelRegisters.{register_in};
ghost use Rattle.scalar_words.specs.View.{homes_of};
ghost use Rattle.kernel_tree.specs.Items as items;
ghost use Rattle.kernel_tree.specs.Typing as typing;
ghost use Rattle.scalar_words.specs.KernelRegisters as kernels;

use crate::home::Home;
use crate::kernel_layout::counted_register;
use crate::laws::each_has_a_register;
use a64_code::Reg;
use kernel_scope::{Scope, declare, empty, loop_index};
use kernel_tree::fault::Binding;
use kernel_tree::laws::few_params;
use kernel_tree::{Checked, Kernel, Name, Param, Var};
use reg_assign::Assigned;
use std::alloc::{AllocError, Global};
use word_rows::Bits;

// A name, and the register that holds its value throughout.
fn declare_held<'a>(
    scope: &mut Scope<'a>,
    homes: &mut Vec<Home<'a>>,
    name: &'a Name,
    register: Reg,
    binding: Binding,
) -> Result<(), AllocError>
    ensures scope { OnOk result (scope_of scope.new
        ≡ typing.declared (scope_of scope.old) (name_of name.now) binding) }
    ensures homes { OnOk result (homes_of homes.new.items
        ≡ homes_of homes.old.items ++ record { name = name_of name.now; register = register.number; last_use = None } ∷ []) }
{
    homes.push(Home {
        name: name.text(),
        register,
        last_use: None,
    })?;
    declare(scope, name, binding)
}

/// The parameters, the first of which stands in X0.
pub fn declare_params<'a>(
    scope: &mut Scope<'a>,
    homes: &mut Vec<Home<'a>>,
    params: &'a [Param],
) -> Result<(), AllocError>
    requires { length params.now ≤ 8 }
    ensures scope { OnOk result (scope_of scope.new
        ≡ typing.after_params (scope_of scope.old) (parameters_of params.now)) }
    ensures index { OnOk result ((scope_of scope.new).index ≡ (scope_of scope.old).index) }
    ensures homes { OnOk result (homes_of homes.new.items
        ≡ homes_of homes.old.items ++ kernels.param_homes 0 (parameters_of params.now)) }
{
    let mut place = 0;
    for param in params {
        let register = Bits { number: place };
        declare_held(scope, homes, &param.name, register, param.shape.binding())?;
        place += 1;
    }
    Ok(())
}

/// An accumulator, which has an interval of the same number.
pub fn declare_var<'a>(
    scope: &mut Scope<'a>,
    homes: &mut Vec<Home<'a>>,
    regs: &Assigned,
    place: usize,
    var: &'a Var,
) -> Result<(), AllocError>
    requires assigned { IsAssignment 15 regs.now }
    requires within { place < length regs.now.registers }
    ensures scope { OnOk result (scope_of scope.new ≡ after_var (scope_of scope.old) (accumulator_of var.now)) }
    ensures homes { OnOk result (homes_of homes.new.items
        ≡ homes_of homes.old.items ++ kernels.var_home (register_in regs.now) place (accumulator_of var.now) ∷ []) }
{
    let register = counted_register(regs, place);
    declare_held(
        scope,
        homes,
        &var.name,
        register,
        Binding::Accumulator(var.ty),
    )
}

// The accumulators, which have the first intervals.
fn declare_vars<'a>(
    scope: &mut Scope<'a>,
    homes: &mut Vec<Home<'a>>,
    regs: &Assigned,
    vars: &'a [Var],
) -> Result<(), AllocError>
    requires assigned { IsAssignment 15 regs.now }
    requires within { length vars.now ≤ length regs.now.registers }
    ensures scope { OnOk result (scope_of scope.new
        ≡ typing.after_vars (scope_of scope.old) (accumulators_of vars.now)) }
    ensures homes { OnOk result (homes_of homes.new.items
        ≡ homes_of homes.old.items ++ kernels.var_homes (register_in regs.now) 0 (accumulators_of vars.now)) }
{
    for (place, var) in vars.iter().enumerate() {
        declare_var(scope, homes, regs, place, var)?;
    }
    Ok(())
}

/// The names of a kernel before its loop.
pub fn declare_names<'a>(
    scope: &mut Scope<'a>,
    homes: &mut Vec<Home<'a>>,
    regs: &Assigned,
    kernel: &'a Kernel,
) -> Result<(), AllocError>
    requires assigned { IsAssignment 15 regs.now }
    requires vars { length (program_of kernel.now).vars ≤ length regs.now.registers }
    requires params { length (program_of kernel.now).params ≤ 8 }
    requires scope { scope_of scope.old ≡ typing.empty (items.loop_index (program_of kernel.now)) }
    requires homes { homes.old.items ≡ [] }
    ensures scope { OnOk result (scope_of scope.new ≡ typing.var_scope (program_of kernel.now)) }
    ensures index { OnOk result ((scope_of scope.new).index ≡ items.loop_index (program_of kernel.now)) }
    ensures homes { OnOk result (homes_of homes.new.items
        ≡ kernels.kernel_homes (register_in regs.now) (program_of kernel.now)) }
{
    declare_params(scope, homes, &kernel.params)?;
    declare_vars(scope, homes, regs, &kernel.vars)
}

/// The names at the loop of a kernel, each with the register that holds its value throughout.
#[tactic(auto, unfolding(loop_form::specs::View::program))]
pub fn kernel_homes<'a>(
    alloc: Global,
    kernel: &'a Checked,
    regs: &Assigned,
) -> Result<Vec<Home<'a>>, AllocError>
    requires fits { FitsKernel (program kernel.now) X regs.now }
    ensures { IfOk result (λ h. homes_of h.items
        ≡ kernels.kernel_homes (register_in regs.now) (program kernel.now)) }
{
    few_params(kernel);
    each_has_a_register(kernel, regs);
    let tree = kernel.kernel();
    let mut homes = Vec::new(alloc);
    let mut scope = empty(alloc, loop_index(&tree.body));
    let declared = declare_names(&mut scope, &mut homes, regs, tree);
    // both answers leave at one place, where no scope is left
    drop(scope);
    match declared {
        Ok(()) => Ok(homes),
        Err(full) => Err(full),
    }
}
