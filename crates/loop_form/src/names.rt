//! Parameters and accumulators by their names.

ghost use Rattle.std.specs.Prelude.{◌≡◌, ◌<◌, ◌≤◌, IfSome, length};
ghost use Rattle.kernel_tree.specs.Plain.{parameters_of, accumulators_of};
ghost use Rattle.loop_form.specs.Lanes.{var_type};
ghost use Rattle.loop_form.specs.Streams.{place_of};

use kernel_tree::{Param, Ty, Var};

/// The place of the parameter with a name.
pub fn param_place(params: &[Param], name: &str) -> Option<u32>
    requires { length params.now ≤ 1000 }
    ensures place { result ≡ place_of name.now (parameters_of params.now) }
    ensures within { IfSome result (λ place. place < length params.now) }
{
    let mut place = 0;
    for param in params {
        if param.name.text() == name {
            return Some(place);
        }
        place += 1;
    }
    None
}

/// The type of the accumulator with a name.
pub fn var_type(vars: &[Var], name: &str) -> Option<Ty>
    ensures { result ≡ var_type name.now (accumulators_of vars.now) }
{
    for var in vars {
        if var.name.text() == name {
            return Some(var.ty);
        }
    }
    None
}
