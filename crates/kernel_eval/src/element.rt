//! Elements of arrays.

ghost use Rattle.std.specs.Prelude.{◌≡◌, option_and_then};
ghost use Rattle.kernel_meaning.specs.Eval as eval;
ghost use Rattle.kernel_eval.specs.Slots.{Slots, block_end_of, store};

use crate::block_end::BlockEnd;
use guest_types::guest::GuestMemory;
use kernel_meaning::{word, wrap};
use kernel_tree::Ty;

/// The address of an element, by the address of its array and its number.
#[inline(always)]
fn address(ty: Ty, base: i128, number: i128) -> u64
    ensures { result ≡ eval.address ty base number }
{
    word(base).wrapping_add(u64::from(ty.bytes()).wrapping_mul(word(number)))
}

/// An element of an array, unless its number faults or the read does.
#[inline(always)]
pub fn read<M: GuestMemory>(
    memory: &M,
    ty: Option<Ty>,
    base: i128,
    number: Option<i128>,
) -> Option<i128>
    ensures { result ≡ option_and_then (eval.read_element ty (M.memory memory.now) base) number }
{
    match (number, ty) {
        (None, _) => None,
        (Some(_), None) => Some(0),
        (Some(number), Some(ty)) => {
            match memory.load(address(ty, base, number), ty.bytes()) {
                Ok(value) => Some(wrap(ty, value as i128)),
                Err(_) => None,
            }
        }
    }
}

/// Replaces an element of an array, unless its number or its new value faults or the write does.
#[inline(always)]
pub fn write<M: GuestMemory>(
    memory: &mut M,
    ty: Option<Ty>,
    base: i128,
    number: Option<i128>,
    value: Option<i128>,
) -> BlockEnd
    ensures { (slots : Slots) → block_end_of result (M.memory memory.new) slots
        ≡ store ty base (M.memory memory.old) slots value number }
{
    match (ty, value, number) {
        (Some(ty), Some(value), Some(number)) => {
            match memory.store(address(ty, base, number), ty.bytes(), word(value)) {
                Ok(()) => BlockEnd::Next,
                Err(_) => BlockEnd::Faulted,
            }
        }
        _ => BlockEnd::Faulted,
    }
}
