//! How many steps a compiled kernel may take, by what a reader counts in it.
#![tactic(auto)]

ghost use Rattle.std.specs.Prelude.{ℕ, ◌≤◌, List, length};
ghost use Rattle.kernel_tree.specs.Plain.{Program};
ghost use Rattle.dependence.specs.Bound.{free_bound};
ghost use Rattle.close_bound.specs.CloseBound.{close_bound};

/// Of a kernel with at most eight parameters, as each checked kernel is, the close bound is the lower one.
pub fn close_bound_is_lower()
    ensures { (k : Program) (args : List ℕ) (vl m q : ℕ) → length k.params ≤ 8
        → close_bound k args vl m q ≤ free_bound k args vl m q }
{}
