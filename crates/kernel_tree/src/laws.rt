//! Laws of the grammar, and what is known of a checked kernel.

ghost use Rattle.std.specs.Prelude.{◌≡◌, ◌≤◌, List, Some, length, true};
ghost use Rattle.kernel_tree.specs.Checked.{kernel_of};
ghost use Rattle.kernel_tree.specs.Grammar.{Tree};
ghost use Rattle.kernel_tree.specs.Kinds.{KernelKinds};
ghost use Rattle.kernel_tree.specs.Loops.{HasBound, has_outer_breaks};
ghost use Rattle.kernel_tree.specs.Plain.{PlainLoop, Program, program_of};
ghost use Rattle.kernel_tree.specs.TextToken.{TextToken};

use crate::checked::Checked;

/// A list of tokens is the tree of one kernel at most.
pub fn one_tree()
    ensures { (words : List TextToken) (j k : Program) → Tree words j → Tree words k → j ≡ k }
{}

/// A checked kernel has at most eight parameters.
pub fn few_params(kernel: &Checked)
    ensures { length (program_of (kernel_of kernel.now)).params ≤ 8 }
{}

/// Each of its breaks stands in the block of the loop itself.
pub fn outer_breaks(kernel: &Checked)
    ensures { (l : PlainLoop) → (program_of (kernel_of kernel.now)).for_loop ≡ Some l → has_outer_breaks l.body ≡ true }
{}

/// The bound of its loop is a scalar parameter of type u64.
pub fn bound_param(kernel: &Checked)
    ensures { (l : PlainLoop) → (program_of (kernel_of kernel.now)).for_loop ≡ Some l
        → HasBound (program_of (kernel_of kernel.now)).params l }
{}

/// Values stand where values are wanted, and conditions where conditions are.
pub fn right_kinds(kernel: &Checked)
    ensures { KernelKinds (program_of (kernel_of kernel.now)) }
{}
