//! The width of a loop's lanes.

ghost use Rattle.std.specs.Prelude.{◌≡◌};
ghost use Rattle.kernel_tree.specs.Plain.{parameters_of, program_of};
ghost use Rattle.kernel_tree.specs.Checked.{kernel_of};
ghost use Rattle.kernel_tree.specs.Typing.{element_type, binding_of_shape};
ghost use Rattle.loop_form.specs.Entries.{loop_entries};
ghost use Rattle.loop_form.specs.Lanes.{type_width, wider, type_of_array, target_type, widest, lane_width_of};
ghost use Rattle.loop_form.specs.View.{program, content_of, entries_view};

use crate::entry_list::loop_entries;
use guest_types::length::Width;
use kernel_tree::{Checked, Param, Shape, Ty};
use loop_form::{Content, Entry, var_type};

/// The width of the values of a type.
pub fn type_width(ty: Ty) -> Width
    ensures { result ≡ type_width ty }
{
    Width::of(ty.log_bytes())
}

// The wider one of a width and that of a type.
fn wider_of(width: Width, ty: Option<Ty>) -> Width
    ensures { result ≡ wider width ty }
{
    match ty {
        None => width,
        Some(ty) => {
            let other = type_width(ty);
            if width.bits() < other.bits() {
                other
            } else {
                width
            }
        }
    }
}

fn element(shape: Shape) -> Option<Ty>
    ensures { result ≡ element_type (binding_of_shape shape) }
{
    match shape {
        Shape::Scalar(_) => None,
        Shape::Array(ty) => Some(ty),
    }
}

// The type of an array's elements.
fn array_element(params: &[Param], array: &str) -> Option<Ty>
    ensures { result ≡ type_of_array array.now (parameters_of params.now) }
{
    for param in params {
        if param.name.text() == array {
            return element(param.shape);
        }
    }
    None
}

// The type of what a statement stores or updates.
#[tactic(auto, unfolding(loop_form::specs::View::program))]
fn target(kernel: &Checked, content: Content<'_>) -> Option<Ty>
    ensures { result ≡ target_type (program kernel.now) (content_of content.entry) }
{
    match content {
        Content::Store { array, .. } => array_element(&kernel.kernel().params, array),
        Content::Update { name, .. } => var_type(&kernel.kernel().vars, name),
        _ => None,
    }
}

/// The width of the widest type among some items.
#[tactic(auto, unfolding(loop_form::specs::Lanes::widest))]
pub fn widest_of(kernel: &Checked, entries: &[Entry<'_>]) -> Width
    ensures { result ≡ widest (program kernel.now) Width.B (entries_view entries.now) }
{
    let mut width = Width::B;
    for entry in entries {
        width = wider_of(wider_of(width, entry.ty), target(kernel, entry.content));
    }
    width
}

/// The width of the loop's lanes: that of the widest type of a value, a stored element or an updated accumulator in
/// the loop, and 8 bits where there is none.
#[tactic(auto, unfolding(loop_form::specs::View::program))]
pub fn lane_width(kernel: &Checked) -> Width
    ensures { result ≡ lane_width_of (program_of (kernel_of kernel.now)) }
{
    lane_width_by(kernel, &loop_entries(kernel))
}

/// The same by the items of the loop.
#[tactic(auto, unfolding(loop_form::specs::View::program))]
pub fn lane_width_by(kernel: &Checked, looped: &[Entry<'_>]) -> Width
    requires items { entries_view looped.now ≡ loop_entries (program kernel.now) }
    ensures { result ≡ lane_width_of (program kernel.now) }
{
    widest_of(kernel, looped)
}
