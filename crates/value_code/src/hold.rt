//! What is held in registers of its own while iterations last.

ghost use Rattle.std.specs.Prelude.{◌≡◌, ◌<◌, ◌≤◌, true, length, OnOk, Option, option_map};
ghost use Rattle.kernel_tree.specs.Plain.{name_of, term_of};
ghost use Rattle.kernel_scope.specs.Scopes.{scope_of};
ghost use Rattle.scalar_words.specs.View.{constants_of, homes_of, key_of};
ghost use Rattle.kernel_tree.specs.Items as items;
ghost use Rattle.value_code.specs.HeldNumbers as numbers;

use crate::instructions::{addend, held_addend, immediate, index_word};
use crate::place::{moved_key, near_offset};
use kernel_meaning::word;
use kernel_scope::{Scope, array_type, literal_value};
use kernel_tree::{BinaryOp, Expr, Name};
use label_fix::registers::HIGHEST_HELD;
use scalar_words::{Constant, Home, Key, constant_in, is_same_number, register_at};
use std::alloc::AllocError;
use word_rows::Bits;

// Whether one more has a register, after so many parameters.
#[tactic(auto, using(crate::proofs::NumberCounts::count_constants))]
fn has_room(params: usize, constants: &[Constant]) -> bool
    requires { params ≤ 8 }
    ensures { result ≡ numbers.has_room params (constants_of constants.now) }
{
    let count = constants.len();
    count < 5 && params + count <= 8
}

// One more, in the next register.
#[tactic(auto, using(crate::proofs::NumberCounts::count_constants))]
fn add_key(constants: &mut Vec<Constant>, key: Key) -> Result<(), AllocError>
    requires { length (constants_of constants.old.items) < 5 }
    ensures { OnOk result (constants_of constants.new.items
        ≡ numbers.add_key true (key_of key) (constants_of constants.old.items)) }
{
    let register = Bits {
        number: HIGHEST_HELD.number - constants.len() as u32,
    };
    constants.push(Constant { key, register })?;
    Ok(())
}

// One more, where no register holds it.
fn hold_key(constants: &mut Vec<Constant>, params: usize, key: Key) -> Result<(), AllocError>
    requires { params ≤ 8 }
    ensures { OnOk result (constants_of constants.new.items
        ≡ numbers.hold_key params (key_of key) (constants_of constants.old.items)) }
{
    match constant_in(constants, key) {
        Some(_) => Ok(()),
        None => {
            if has_room(params, constants) {
                add_key(constants, key)
            } else {
                Ok(())
            }
        }
    }
}

// Whether an address is worth a register, and may be held.
fn is_reached(params: usize, key: Key) -> bool
    ensures { result ≡ numbers.is_reached params (key_of key) }
{
    match key {
        Key::Number(_) => true,
        Key::Address { array, by } => {
            (array.number as usize) < params
                && (addend(word(by)).is_some() && !is_same_number(by, 0))
        }
    }
}

// An address, where it is worth a register.
fn hold_moved(
    constants: &mut Vec<Constant>,
    params: usize,
    key: Option<Key>,
) -> Result<(), AllocError>
    requires { params ≤ 8 }
    ensures { OnOk result (constants_of constants.new.items
        ≡ numbers.hold_moved params (option_map key_of key) (constants_of constants.old.items)) }
{
    match key {
        None => Ok(()),
        Some(key) => {
            if is_reached(params, key) {
                hold_key(constants, params, key)
            } else {
                Ok(())
            }
        }
    }
}

/// The address of an element, by its array and index.
pub fn hold_element(
    constants: &mut Vec<Constant>,
    params: usize,
    homes: &[Home],
    scope: &Scope,
    array: &Name,
    index: &Expr,
) -> Result<(), AllocError>
    requires { params ≤ 8 }
    ensures { OnOk result (constants_of constants.new.items
        ≡ numbers.hold_element params (homes_of homes.now) (scope_of scope.now) (name_of array.now)
        (items.stream_offset (scope_of scope.now).index (term_of index.now)) (constants_of constants.old.items)) }
{
    let ty = array_type(scope, array);
    let key = moved_key(register_at(homes, array), ty, near_offset(scope, index));
    hold_moved(constants, params, key)
}

/// The number that the word of an operator holds as its right side, whatever the type of the literal.
pub fn addend_of(op: BinaryOp, expr: &Expr) -> Option<u64>
    ensures { result ≡ numbers.addend_of op (term_of expr.now) }
{
    match literal_value(expr) {
        None => None,
        Some(value) => held_addend(op, word(value)),
    }
}

// The same of a comparison.
fn immediate_of(expr: &Expr) -> Option<u64>
    ensures { result ≡ numbers.immediate_of (term_of expr.now) }
{
    match literal_value(expr) {
        None => None,
        Some(value) => immediate(word(value)),
    }
}

/// What is held for an expression, after what is held before it.
#[cycle(terms)]
pub fn hold_term(
    constants: &mut Vec<Constant>,
    params: usize,
    homes: &[Home],
    scope: &Scope,
    expr: &Expr,
) -> Result<(), AllocError>
    requires { params ≤ 8 }
    ensures { OnOk result (constants_of constants.new.items
        ≡ numbers.hold_term params (homes_of homes.now) (scope_of scope.now) (term_of expr.now)
        (constants_of constants.old.items)) }
{
    match expr {
        Expr::Lit(value) => hold_key(constants, params, Key::Number(*value)),
        Expr::Var(_) => Ok(()),
        Expr::Read { array, index } => hold_read(constants, params, homes, scope, array, index),
        Expr::Unary { arg, .. }
        | Expr::Shift { arg, .. }
        | Expr::Cast { arg, .. }
        | Expr::Not { arg } => hold_term(constants, params, homes, scope, arg),
        Expr::Binary { op, left, right } => {
            let number = addend_of(*op, right);
            hold_sides(constants, params, homes, scope, left, number, right)
        }
        Expr::Compare { left, right, .. } => {
            let number = immediate_of(right);
            hold_sides(constants, params, homes, scope, left, number, right)
        }
        Expr::And { left, right } | Expr::Or { left, right } => {
            hold_both(constants, params, homes, scope, left, right)
        }
        Expr::Select { cond, yes, no } => {
            hold_both(constants, params, homes, scope, yes, no)?;
            hold_term(constants, params, homes, scope, cond)
        }
    }
}

// Two expressions, one after the other.
#[cycle(terms)]
fn hold_both(
    constants: &mut Vec<Constant>,
    params: usize,
    homes: &[Home],
    scope: &Scope,
    left: &Expr,
    right: &Expr,
) -> Result<(), AllocError>
    requires { params ≤ 8 }
    ensures { OnOk result (constants_of constants.new.items
        ≡ numbers.hold_term params (homes_of homes.now) (scope_of scope.now) (term_of right.now)
        (numbers.hold_term params (homes_of homes.now) (scope_of scope.now) (term_of left.now)
        (constants_of constants.old.items))) }
{
    hold_term(constants, params, homes, scope, left)?;
    hold_term(constants, params, homes, scope, right)
}

// Two sides, of which a word may hold the second as a number.
#[cycle(terms)]
fn hold_sides(
    constants: &mut Vec<Constant>,
    params: usize,
    homes: &[Home],
    scope: &Scope,
    left: &Expr,
    number: Option<u64>,
    right: &Expr,
) -> Result<(), AllocError>
    requires { params ≤ 8 }
    ensures { OnOk result (constants_of constants.new.items
        ≡ numbers.hold_side number
        (numbers.hold_term params (homes_of homes.now) (scope_of scope.now) (term_of right.now))
        (numbers.hold_term params (homes_of homes.now) (scope_of scope.now) (term_of left.now)
        (constants_of constants.old.items))) }
{
    hold_term(constants, params, homes, scope, left)?;
    match number {
        Some(_) => Ok(()),
        None => hold_term(constants, params, homes, scope, right),
    }
}

// An element that is read, after its index, where that is computed.
#[cycle(terms)]
#[tactic(auto, using(crate::proofs::IndexCode::held_stream, crate::proofs::IndexCode::held_computed))]
fn hold_read(
    constants: &mut Vec<Constant>,
    params: usize,
    homes: &[Home],
    scope: &Scope,
    array: &Name,
    index: &Expr,
) -> Result<(), AllocError>
    requires { params ≤ 8 }
    ensures { OnOk result (constants_of constants.new.items
        ≡ numbers.hold_element params (homes_of homes.now) (scope_of scope.now) (name_of array.now)
        (items.stream_offset (scope_of scope.now).index (term_of index.now))
        (numbers.hold_index (items.stream_offset (scope_of scope.now).index (term_of index.now))
        (numbers.hold_term params (homes_of homes.now) (scope_of scope.now) (term_of index.now))
        (constants_of constants.old.items))) }
{
    match index_word(scope, index) {
        Some(_) => hold_element(constants, params, homes, scope, array, index),
        None => {
            hold_term(constants, params, homes, scope, index)?;
            hold_element(constants, params, homes, scope, array, index)
        }
    }
}
