//! What holds of the bound on steps and of its test of Apart.

ghost use Rattle.std.specs.Prelude.{◌≡◌, ℕ, ◌≤◌, List};
ghost use Rattle.std.specs.Bool.{Decides};
ghost use Rattle.guest_types.specs.Length.{IsLength};
ghost use Rattle.kernel_tree.specs.Plain.{Program};
ghost use Rattle.dependence.specs.Apart.{Apart};
ghost use Rattle.dependence.specs.Bound.{bound, free_bound, is_apart, slow_bound};

/// The test that the bound goes by is Apart.
pub fn apart_is_tested()
    ensures { (k : Program) (args : List ℕ) → Decides (is_apart k args) (Apart k args) }
{}

/// Iterations that are run one by one take no fewer steps than those in chunks, and suppressed elements no fewer than none.
pub fn bounds_in_order()
    ensures slow { (k : Program) (args : List ℕ) (vl m : ℕ) → IsLength vl → bound k args vl m ≤ slow_bound k m }
    ensures free { (k : Program) (args : List ℕ) (vl m q : ℕ) → bound k args vl m ≤ free_bound k args vl m q }
    ensures none { (k : Program) (args : List ℕ) (vl m : ℕ) → free_bound k args vl m 0 ≡ bound k args vl m }
{}
