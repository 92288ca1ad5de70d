//! Addresses that registers hold.

ghost use Rattle.std.specs.Prelude.{◌≡◌, pos, ◌*ℤ◌, neg_ℤ, option_map, option_and_then};
ghost use Rattle.kernel_tree.specs.Plain.{term_of, name_of};
ghost use Rattle.kernel_scope.specs.Scopes.{scope_of};
ghost use Rattle.scalar_words.specs.View.{homes_of, key_of, register_number};
ghost use Rattle.scalar_words.specs.Sites.{index_at};
ghost use Rattle.scalar_words.specs.Layout as layouts;
ghost use Rattle.kernel_tree.specs.Items as items;
ghost use Rattle.kernel_tree.specs.Typing as typing;
ghost use Rattle.kernel_tree.specs.Wrap.{byte_count};
ghost use Rattle.value_code.specs.Code as code;

use a64_code::Reg;
use kernel_scope::{Scope, array_type, is_index, is_index_term, literal_value};
use kernel_tree::{BinaryOp, Expr, Name, Ty};
use scalar_words::{KernelLayout, Key, Site};

// A small offset.
fn near_up(by: i128) -> Option<i32>
    ensures { result ≡ code.near_one by }
{
    if by.unsigned_abs() < 512 {
        Some(by as i32)
    } else {
        None
    }
}

// The same to the other side.
#[tactic(auto, using(crate::proofs::NearOffsets::abs_neg))]
fn near_down(by: i128) -> Option<i32>
    ensures { result ≡ code.near_one (neg_ℤ by) }
{
    if by.unsigned_abs() < 512 {
        Some((-by) as i32)
    } else {
        None
    }
}

fn near_by(op: BinaryOp, by: Option<i128>) -> Option<i32>
    ensures { result ≡ code.near (option_and_then (items.moved_by op) by) }
{
    match by {
        None => None,
        Some(by) => match op {
            BinaryOp::Add => near_up(by),
            BinaryOp::Sub => near_down(by),
            _ => None,
        },
    }
}

/// The offset of a stream index, where it is small.
pub fn near_offset(scope: &Scope, index: &Expr) -> Option<i32>
    ensures { result ≡ code.near (items.stream_offset (scope_of scope.now).index (term_of index.now)) }
{
    match index {
        Expr::Var(name) => {
            if is_index(scope.index, name) {
                Some(0)
            } else {
                None
            }
        }
        Expr::Binary { op, left, right } => {
            if is_index_term(scope.index, left) {
                near_by(*op, literal_value(right))
            } else {
                None
            }
        }
        _ => None,
    }
}

// So many elements in bytes.
fn bytes_of(ty: Ty, offset: i32) -> i128
    ensures { result ≡ pos (byte_count ty) *ℤ offset }
{
    match ty {
        Ty::I8 | Ty::U8 => offset as i128,
        Ty::I16 | Ty::U16 => 2 * (offset as i128),
        Ty::I32 | Ty::U32 => 4 * (offset as i128),
        Ty::I64 | Ty::U64 => 8 * (offset as i128),
    }
}

/// What would hold the address of an element at an offset from the loop variable.
pub fn moved_key(array: Reg, ty: Option<Ty>, offset: Option<i32>) -> Option<Key>
    ensures { option_map key_of result ≡ code.key_at array.number ty offset }
{
    match (ty, offset) {
        (Some(ty), Some(offset)) => Some(Key::Address {
            array,
            by: bytes_of(ty, offset),
        }),
        _ => None,
    }
}

fn register_of(layout: &KernelLayout, key: Option<Key>) -> Option<Reg>
    ensures { option_map register_number result
        ≡ option_and_then (layouts.constant_at layout.now) (option_map key_of key) }
{
    match key {
        None => None,
        Some(key) => layout.constant(key),
    }
}

/// The register that holds the address of an element.
pub fn place_of(site: &Site, array: &Name, index: &Expr) -> Option<Reg>
    ensures { option_map register_number result ≡ code.place_of site.now.layout
        (layouts.register_at (homes_of site.now.homes.items) (name_of array.now))
        (option_and_then typing.element_type (typing.lookup (scope_of site.now.scope) (name_of array.now)))
        (items.stream_offset (index_at site.now) (term_of index.now)) }
{
    let scope = &site.scope;
    let ty = array_type(scope, array);
    let key = moved_key(site.register(array), ty, near_offset(scope, index));
    register_of(&site.layout, key)
}
