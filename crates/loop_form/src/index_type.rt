//! What is known of a computed index by the type that its value comes from.

ghost use Rattle.std.specs.Prelude.{◌≡◌};
ghost use Rattle.loop_form.specs.Reaches.{is_widened, reach_of_type};

use kernel_tree::Ty;

/// Whether a cast leaves each value as it is.
pub fn widens(from: Option<Ty>, to: Ty) -> bool
    ensures { result ≡ is_widened from to }
{
    match from {
        None => false,
        Some(from) => !from.is_signed() && !to.is_signed() && from.bits() <= to.bits(),
    }
}

/// The reach of an index that comes from a type.
pub fn type_reach(ty: Option<Ty>) -> Option<u32>
    ensures { result ≡ reach_of_type ty }
{
    match ty {
        Some(Ty::U8) => Some(256),
        Some(Ty::U16) => Some(65_536),
        _ => None,
    }
}
