//! The run of a kernel from an iteration on, and the types of its values.

ghost use Rattle.std.specs.Prelude.{◌≡◌, ℕ, ◌+◌, ◌<◌, ◌≤◌, ◌^◌, ℤ, List, [], Some};
ghost use Rattle.kernel_tree.specs.declared.ops.Ty.{Ty};
ghost use Rattle.kernel_tree.specs.Plain.{Term, PlainLoop, Program};
ghost use Rattle.kernel_tree.specs.Typing.{Scope, Value, param_scope, var_scope, in_loop, faults, vars_faults, block_faults};
ghost use Rattle.guest_types.specs.Memory.{Memory};
ghost use Rattle.kernel_meaning.specs.Ends.{Next, Broke, Faulted};
ghost use Rattle.kernel_meaning.specs.TypeValues.{IsOf};
ghost use Rattle.kernel_meaning.specs.Eval.{Names, value};
ghost use Rattle.kernel_meaning.specs.Iterate.{iterate};
ghost use Rattle.kernel_meaning.specs.ScalarRun.{bound_of, iterations, Fault, closed, started, scalar_run, run_from};
ghost use Rattle.kernel_meaning.specs.Ranges.{AreRanged, LeavesRanged};

/// From iteration 0 on it is the whole run.
pub fn whole_run()
    ensures { (k : Program) (args : List ℕ) (memory : Memory) (names : Names)
        → started k args memory ≡ Some names → run_from k 0 memory names ≡ scalar_run k args memory }
{}

/// One iteration more: from iteration i on it is the run from the next one on, where the iteration goes on and leaves the
/// loop's bound as it is; it ends where the iteration breaks or faults, and where none is left.
pub fn next_iteration()
    ensures next { (k : Program) (l : PlainLoop) (i : ℕ) (memory after : Memory) (names others : Names)
        → k.for_loop ≡ Some l → i < bound_of l names → bound_of l others ≡ bound_of l names
        → iterate (var_scope k) l i memory names ≡ Next after others
        → run_from k i memory names ≡ run_from k (i + 1) after others }
    ensures broke { (k : Program) (l : PlainLoop) (i : ℕ) (memory after : Memory) (names others : Names)
        → k.for_loop ≡ Some l → i < bound_of l names
        → iterate (var_scope k) l i memory names ≡ Broke after others
        → run_from k i memory names ≡ closed (var_scope k) l k.answer after others i (i + 1) }
    ensures faulted { (k : Program) (l : PlainLoop) (i : ℕ) (memory after : Memory) (names : Names)
        → k.for_loop ≡ Some l → i < bound_of l names
        → iterate (var_scope k) l i memory names ≡ Faulted after
        → run_from k i memory names ≡ Fault after (i + 1) }
    ensures over { (k : Program) (l : PlainLoop) (i : ℕ) (memory : Memory) (names : Names)
        → k.for_loop ≡ Some l → i ≡ bound_of l names
        → run_from k i memory names ≡ closed (var_scope k) l k.answer memory names i i }
{}

/// Where no rule of typing fails, the value of an expression is one of the wanted type, and the names have values of their
/// types when the loop starts and after any of its iterations.
pub fn values_of_their_types()
    ensures value { (scope : Scope) (from : ℕ) (t : Ty) (e : Term) (memory : Memory) (names : Names) (v : ℤ)
        → faults scope from (Value (Some t)) e ≡ [] → AreRanged scope.visible names
        → value scope (Some t) e memory names ≡ Some v → IsOf t v }
    ensures start { (k : Program) (args : List ℕ) (from : ℕ) (memory : Memory) (names : Names)
        → vars_faults (param_scope k) from k.vars ≡ []
        → started k args memory ≡ Some names → AreRanged (var_scope k).visible names }
    ensures iterations { (scope : Scope) (l : PlainLoop) (from count i : ℕ) (memory : Memory) (names : Names)
        → block_faults (in_loop scope l) from l.body ≡ [] → i + count ≤ 2 ^ 64 → AreRanged scope.visible names
        → LeavesRanged scope.visible (iterations scope l count i memory names) }
{}
