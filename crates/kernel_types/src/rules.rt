//! The rules at one item. Each function gives the first fault of its rules there.

ghost use Rattle.std.specs.Prelude.{◌≡◌, [], ℤ, unsigned_abs, Option, option_and_then, if◌then◌else◌};
ghost use Rattle.kernel_tree.specs.declared.fault.Fault.TheVariants as fault;
ghost use Rattle.kernel_tree.specs.Wrap.{bits_of};
ghost use Rattle.kernel_tree.specs.Typing as typing;
ghost use Rattle.kernel_types.specs.Parts.{role_of};
ghost use Rattle.kernel_size.specs.Distances.{distance_of};

use crate::notes::Role;
use kernel_scope::{accumulator_type, element_type, value_type};
use kernel_tree::Ty;
use kernel_tree::fault::{Binding, Fault, Found};

// The greatest offset of a stream index, to either side.
const MOST_OFFSET: u128 = 1024;

fn number(fault: Fault) -> u64
    ensures { result ≡ typing.order_of fault }
{
    match fault {
        Fault::Unknown => 1,
        Fault::Twice => 2,
        Fault::WrongKind => 3,
        Fault::Mismatch { .. } => 4,
        Fault::Untyped => 5,
        Fault::LiteralRange => 6,
        Fault::ShiftRange => 7,
        Fault::OffsetRange => 8,
    }
}

fn is_before(one: Found, other: Found) -> bool
    ensures { result ≡ typing.is_before one other }
{
    16 * u64::from(one.item) + number(one.fault) < 16 * u64::from(other.item) + number(other.fault)
}

/// The one of two faults that comes first: at the lesser item, and at one item with the lesser number.
pub fn sooner(one: Option<Found>, other: Option<Found>) -> Option<Found>
    ensures { result ≡ typing.sooner one other }
{
    match one {
        None => other,
        Some(f) => match other {
            None => Some(f),
            Some(g) => Some(if is_before(g, f) { g } else { f }),
        },
    }
}

fn fault_at(item: u32, fault: Fault) -> Option<Found>
    ensures { result ≡ typing.least (typing.found_at item fault) }
{
    Some(Found { item, fault })
}

/// The type that a place wants.
pub fn wanted(role: Role) -> Option<Ty>
    ensures { result ≡ typing.wanted (role_of role) }
{
    match role {
        Role::Value(ty) => ty,
        Role::Condition => None,
    }
}

/// A value stands here.
pub fn as_value(item: u32, role: Role) -> Option<Found>
    ensures { result ≡ typing.least (typing.as_value item (role_of role)) }
{
    match role {
        Role::Value(_) => None,
        Role::Condition => fault_at(item, Fault::WrongKind),
    }
}

/// A condition stands here.
pub fn as_condition(item: u32, role: Role) -> Option<Found>
    ensures { result ≡ typing.least (typing.as_condition item (role_of role)) }
{
    match role {
        Role::Value(_) => fault_at(item, Fault::WrongKind),
        Role::Condition => None,
    }
}

/// A value of this type, where another may be wanted.
pub fn mismatch(item: u32, want: Option<Ty>, found: Ty) -> Option<Found>
    ensures { result ≡ typing.least (typing.mismatch item want found) }
{
    match want {
        None => None,
        Some(want) => {
            if want == found {
                None
            } else {
                fault_at(item, Fault::Mismatch { want, found })
            }
        }
    }
}

fn typed(item: u32, want: Option<Ty>, found: Option<Ty>) -> Option<Found>
    ensures { result ≡ typing.least (typing.typed_faults item want found) }
{
    match found {
        None => fault_at(item, Fault::WrongKind),
        Some(found) => mismatch(item, want, found),
    }
}

/// A name as a value.
pub fn name_fault(item: u32, want: Option<Ty>, binding: Option<Binding>) -> Option<Found>
    ensures { result ≡ typing.least (typing.name_faults item want binding) }
{
    match binding {
        None => fault_at(item, Fault::Unknown),
        Some(binding) => typed(item, want, value_type(binding)),
    }
}

// An array may be read inside the loop alone.
fn read_type(inside: bool, binding: Binding) -> Option<Ty>
    ensures { result ≡ typing.read_type inside binding }
{
    if inside { element_type(binding) } else { None }
}

/// The array of a read.
pub fn read_fault(
    item: u32,
    inside: bool,
    want: Option<Ty>,
    binding: Option<Binding>,
) -> Option<Found>
    ensures { result ≡ typing.least (typing.read_faults item inside want binding) }
{
    match binding {
        None => fault_at(item, Fault::Unknown),
        Some(binding) => typed(item, want, read_type(inside, binding)),
    }
}

fn fits(ty: Ty, value: i128) -> bool
    ensures { result ≡ typing.fits ty value }
{
    match ty {
        Ty::I8 => -0x80 <= value && value < 0x80,
        Ty::I16 => -0x8000 <= value && value < 0x8000,
        Ty::I32 => -0x8000_0000 <= value && value < 0x8000_0000,
        Ty::I64 => -0x8000_0000_0000_0000 <= value && value < 0x8000_0000_0000_0000,
        Ty::U8 => 0 <= value && value < 0x100,
        Ty::U16 => 0 <= value && value < 0x1_0000,
        Ty::U32 => 0 <= value && value < 0x1_0000_0000,
        Ty::U64 => 0 <= value && value < 0x1_0000_0000_0000_0000,
    }
}

/// A literal in a place that wants this type.
pub fn literal_fault(item: u32, want: Option<Ty>, value: i128) -> Option<Found>
    ensures { result ≡ typing.least (typing.literal_faults item want value) }
{
    match want {
        None => None,
        Some(ty) => {
            if fits(ty, value) {
                None
            } else {
                fault_at(item, Fault::LiteralRange)
            }
        }
    }
}

fn is_count(ty: Ty, count: i128) -> bool
    ensures { result ≡ typing.is_below count (bits_of ty) }
{
    0 <= count && count < i128::from(ty.bits())
}

/// The count of a shift in a place that wants this type.
pub fn shift_fault(item: u32, want: Option<Ty>, count: i128) -> Option<Found>
    ensures { result ≡ typing.least (typing.shift_faults item want count) }
{
    match want {
        None => None,
        Some(ty) => {
            if is_count(ty, count) {
                None
            } else {
                fault_at(item, Fault::ShiftRange)
            }
        }
    }
}

/// A place that needs a type of its own.
pub fn untyped(item: u32, ty: Option<Ty>) -> Option<Found>
    ensures { result ≡ typing.least (typing.untyped item ty) }
{
    match ty {
        None => fault_at(item, Fault::Untyped),
        Some(_) => None,
    }
}

fn offset_fault(item: u32, distance: u128) -> Option<Found>
    ensures { (c : ℤ) → distance ≡ unsigned_abs c → result ≡ typing.least (typing.offset_faults item c) }
{
    if distance <= MOST_OFFSET {
        None
    } else {
        fault_at(item, Fault::OffsetRange)
    }
}

fn signed_fault(item: u32, found: Option<Ty>) -> Option<Found>
    ensures { result ≡ typing.least (typing.signed_faults item found) }
{
    match found {
        None => None,
        Some(found) => {
            if found.is_signed() {
                fault_at(
                    item,
                    Fault::Mismatch {
                        want: Ty::U64,
                        found,
                    },
                )
            } else {
                None
            }
        }
    }
}

/// The index of a read: a stream index by its distance from the loop variable, any other by its own type.
pub fn index_fault(item: u32, distance: Option<u128>, own: Option<Ty>) -> Option<Found>
    ensures { (o : Option ℤ) → distance ≡ distance_of o → result ≡ typing.least (typing.index_faults item o own) }
{
    match distance {
        Some(distance) => offset_fault(item, distance),
        None => signed_fault(item, own),
    }
}

/// The index of a store.
pub fn stream_fault(item: u32, distance: Option<u128>) -> Option<Found>
    ensures { (o : Option ℤ) → distance ≡ distance_of o → result ≡ typing.least (typing.stream_faults item o) }
{
    match distance {
        Some(distance) => offset_fault(item, distance),
        None => fault_at(item, Fault::WrongKind),
    }
}

fn kind(item: u32, ty: Option<Ty>) -> Option<Found>
    ensures { result ≡ typing.least (typing.kind_faults item ty) }
{
    match ty {
        None => fault_at(item, Fault::WrongKind),
        Some(_) => None,
    }
}

/// The array of a store.
pub fn target_fault(item: u32, binding: Option<Binding>) -> Option<Found>
    ensures { result ≡ typing.least (typing.target_faults item binding) }
{
    match binding {
        None => fault_at(item, Fault::Unknown),
        Some(binding) => kind(item, element_type(binding)),
    }
}

/// The accumulator of an update.
pub fn update_fault(item: u32, binding: Option<Binding>) -> Option<Found>
    ensures { result ≡ typing.least (typing.update_faults item binding) }
{
    match binding {
        None => fault_at(item, Fault::Unknown),
        Some(binding) => kind(item, accumulator_type(binding)),
    }
}

/// The type that a store wants for its value.
pub fn stored_type(target: Option<Binding>) -> Option<Ty>
    ensures { result ≡ option_and_then typing.element_type target }
{
    target.and_then(element_type)
}

/// The type that an update wants for its value.
pub fn updated_type(target: Option<Binding>) -> Option<Ty>
    ensures { result ≡ option_and_then typing.accumulator_type target }
{
    target.and_then(accumulator_type)
}

/// The bound of a loop.
pub fn bound_fault(item: u32, binding: Option<Binding>) -> Option<Found>
    ensures { result ≡ typing.least (typing.bound_faults item binding) }
{
    match binding {
        None => fault_at(item, Fault::Unknown),
        Some(Binding::Scalar(ty)) => mismatch(item, Some(Ty::U64), ty),
        Some(_) => fault_at(item, Fault::WrongKind),
    }
}

/// A name that is declared.
pub fn twice(item: u32, taken: bool) -> Option<Found>
    ensures { result ≡ typing.least (if taken then typing.found_at item fault.Twice else []) }
{
    if taken {
        fault_at(item, Fault::Twice)
    } else {
        None
    }
}
