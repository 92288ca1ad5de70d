//! Which of the values that are held throughout an operand is.

ghost use Rattle.std.specs.Prelude.{◌≡◌};
ghost use Rattle.loop_form.specs.HeldView.{view, view_of};
ghost use Rattle.lane_emit.specs.LoopRegisters as spec;

use loop_form::Held;

fn is_same(value: Held<'_>, wanted: Held<'_>) -> bool
    ensures { result ≡ spec.is_same (view_of value.entry) (view_of wanted.entry) }
{
    match (value, wanted) {
        (Held::Scalar(name), Held::Scalar(other)) => name == other,
        (Held::Constant(ty, number), Held::Constant(other, literal)) => {
            ty == other && number == literal
        }
        (Held::Index, Held::Index) => true,
        (Held::Accumulating(name), Held::Accumulating(other)) => name == other,
        _ => false,
    }
}

/// The place of a value among those that are held.
#[tactic(auto, using(crate::proofs::PlaceMoved::moved_next, crate::proofs::PlaceMoved::moved_none))]
pub fn place_among(held: &[Held<'_>], wanted: Held<'_>) -> Option<usize>
    ensures { result ≡ spec.place_in (view_of wanted.entry) (view held.now) }
{
    for (place, value) in held.iter().enumerate() {
        if is_same(*value, wanted) {
            return Some(place);
        }
    }
    None
}
