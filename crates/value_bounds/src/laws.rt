//! That values lie within their bounds.

ghost use Rattle.std.specs.Prelude.{◌≡◌, ℕ, ℤ, [], Bool, true, Some, is_some};
ghost use Rattle.kernel_tree.specs.declared.ops.Ty.{Ty};
ghost use Rattle.kernel_tree.specs.declared.ops.UnaryOp.{UnaryOp};
ghost use Rattle.kernel_tree.specs.declared.ops.BinaryOp.{BinaryOp};
ghost use Rattle.kernel_tree.specs.Plain.{Term};
ghost use Rattle.kernel_tree.specs.Typing.{Scope, Value, faults};
ghost use Rattle.kernel_tree.specs.Wrap.{wrap};
ghost use Rattle.guest_types.specs.Memory.{Memory};
ghost use Rattle.kernel_meaning.specs.Operators.{unary_on, binary_on, shift_on};
ghost use Rattle.kernel_meaning.specs.Eval.{Names, value};
ghost use Rattle.kernel_meaning.specs.Ranges.{AreRanged};
ghost use Rattle.value_bounds.specs.declared.bounds.Bounds.{Bounds};
ghost use Rattle.value_bounds.specs.ValueBounds.{IsWithin, bounds_of, in_type};
ghost use Rattle.value_bounds.specs.ValueBounds.{unary_bounds, binary_bounds, shift_bounds};

/// Where no rule of typing fails, the value of an expression lies within its bounds.
pub fn values_within_bounds()
    ensures { (scope : Scope) (from : ℕ) (t : Ty) (e : Term) (memory : Memory) (names : Names) (v : ℤ)
        → faults scope from (Value (Some t)) e ≡ [] → AreRanged scope.visible names
        → value scope (Some t) e memory names ≡ Some v → IsWithin (bounds_of scope (Some t) e) v }
{}

/// Where the bounds of an operator's integer lie in the type, it is not wrapped.
pub fn in_type_unwrapped()
    ensures unary { (t : Ty) (op : UnaryOp) (a : Bounds) (x : ℤ)
        → is_some (in_type (Some t) (unary_bounds op a)) ≡ true → IsWithin a x
        → wrap t (unary_on op x) ≡ unary_on op x }
    ensures binary { (t : Ty) (op : BinaryOp) (a b : Bounds) (x y : ℤ)
        → is_some (in_type (Some t) (binary_bounds op a b)) ≡ true → IsWithin a x → IsWithin b y
        → wrap t (binary_on op x y) ≡ binary_on op x y }
    ensures shift { (t : Ty) (left : Bool) (n : ℕ) (a : Bounds) (x : ℤ)
        → is_some (in_type (Some t) (Some (shift_bounds left n a))) ≡ true → IsWithin a x
        → wrap t (shift_on left n x) ≡ shift_on left n x }
{}
