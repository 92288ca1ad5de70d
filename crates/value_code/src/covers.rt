//! Whether an expression asks no more of a name than stands in its register, where the registers of some names do not hold the
//! value itself.

ghost use Rattle.std.specs.Prelude.{◌≡◌, option_map, option_and_then};
ghost use Rattle.kernel_tree.specs.Items.{stream_offset};
ghost use Rattle.kernel_tree.specs.Plain.{name_of, term_of};
ghost use Rattle.kernel_tree.specs.Typing.{index_type};
ghost use Rattle.kernel_tree.specs.Typing as typing;
ghost use Rattle.kernel_scope.specs.Scopes.{lent_text, scope_of};
ghost use Rattle.scalar_words.specs.Layout.{loose_in};
ghost use Rattle.scalar_words.specs.View.{looses_of, form_of};
ghost use Rattle.value_code.specs.Extents.{Whole};
ghost use Rattle.value_code.specs.Covers as asked;

use crate::extent::{Extent, converted_extent, extent_of, within_type};
use crate::instructions::index_word;
use crate::leaving::{binary_asks, shift_asks, unary_asks};
use kernel_scope::{Scope, array_type, first, own_type, side_type};
use kernel_tree::{Expr, Name, Ty};
use scalar_words::{Form, Loose, loose_form, loose_form_named};

/// What a name that is held so tells.
pub fn held_extent(held: Option<Form>) -> Extent
    ensures { result ≡ asked.held_extent (option_map form_of held) }
{
    match held {
        Some(Form::LowBits(ty)) => extent_of(ty),
        _ => Extent::Whole,
    }
}

/// Whether that is as much as is asked for.
pub fn is_enough(held: Option<Form>, extent: Extent) -> bool
    ensures { result ≡ asked.is_enough (option_map form_of held) extent }
{
    match held {
        None => true,
        Some(Form::LowBits(ty)) => within_type(extent, ty),
        Some(Form::Ahead(_)) => false,
        Some(Form::Behind) => false,
    }
}

/// Whether the value itself stands in a name's register.
pub fn is_whole(loose: &[Loose], name: &Name) -> bool
    ensures { result ≡ asked.is_whole (looses_of loose.now) (name_of name.now) }
{
    loose_form(loose, name).is_none()
}

// What stands in the register of the loop variable.
fn index_form(loose: &[Loose], index: Option<&str>) -> Option<Form>
    ensures { option_map form_of result ≡ asked.index_form (looses_of loose.now) (option_map lent_text index.entry) }
{
    match index {
        None => None,
        Some(name) => loose_form_named(loose, name),
    }
}

/// Whether the address of each element of an array, at an offset from the loop variable, is the sum of what stands in the
/// registers of the two.
pub fn stands_together(array: Option<Form>, index: Option<Form>, want: Option<Ty>) -> bool
    ensures { result ≡ asked.stands_together (option_map form_of array) (option_map form_of index) want }
{
    match array {
        None => index.is_none(),
        Some(Form::Ahead(ty)) => match index {
            Some(Form::Behind) => match want {
                None => false,
                Some(element) => ty.bytes() == element.bytes(),
            },
            _ => false,
        },
        _ => false,
    }
}

/// Whether an expression, of which so much is asked for at a type, asks no more of a name than stands in its register.
#[cycle(terms)]
pub fn covers(loose: &[Loose], scope: &Scope, extent: Extent, want: Option<Ty>, term: &Expr) -> bool
    ensures { result ≡ asked.covers (looses_of loose.now) (scope_of scope.now) extent want (term_of term.now) }
{
    match term {
        Expr::Var(name) => is_enough(loose_form(loose, name), extent),
        Expr::Read { array, index } => covers_index(loose, scope, array, index),
        Expr::Unary { op, arg } => {
            let (asked, _) = unary_asks(scope, want, *op, arg, extent);
            covers(loose, scope, asked, want, arg)
        }
        Expr::Binary { op, left, right } => {
            let (asked, _) = binary_asks(scope, want, *op, left, right, extent);
            covers(loose, scope, asked, want, left) && covers(loose, scope, asked, want, right)
        }
        Expr::Shift {
            left_shift,
            arg,
            count,
        } => {
            let (asked, _) = shift_asks(scope, want, *left_shift, arg, *count, extent);
            covers(loose, scope, asked, want, arg)
        }
        Expr::Cast { arg, ty } => {
            let from = own_type(scope, arg);
            covers(loose, scope, converted_extent(extent, from, *ty), from, arg)
        }
        Expr::Select { cond, yes, no } => {
            covers(loose, scope, extent, want, yes)
                && (covers(loose, scope, extent, want, no) && covers_truth(loose, scope, cond))
        }
        _ => true,
    }
}

/// The same of an index of an array: an offset from the loop variable, or one that is computed.
#[cycle(terms)]
#[tactic(auto, using(crate::proofs::IndexCode::covers_stream, crate::proofs::IndexCode::covers_computed))]
pub fn covers_index(loose: &[Loose], scope: &Scope, array: &Name, index: &Expr) -> bool
    ensures { result ≡ asked.index_covers (looses_of loose.now) (scope_of scope.now).index
        (loose_in (looses_of loose.now) (name_of array.now))
        (option_and_then typing.element_type (typing.lookup (scope_of scope.now) (name_of array.now)))
        (stream_offset (scope_of scope.now).index (term_of index.now))
        (asked.covers (looses_of loose.now) (scope_of scope.now) Whole
        (index_type (scope_of scope.now) (term_of index.now)) (term_of index.now)) }
{
    match index_word(scope, index) {
        Some(_) => {
            let ty = array_type(scope, array);
            stands_together(loose_form(loose, array), index_form(loose, scope.index), ty)
        }
        None => {
            let want = first(own_type(scope, index), Some(Ty::U64));
            is_whole(loose, array) && covers(loose, scope, Extent::Whole, want, index)
        }
    }
}

/// The same of a condition.
#[cycle(terms)]
pub fn covers_truth(loose: &[Loose], scope: &Scope, term: &Expr) -> bool
    ensures { result ≡ asked.covers_truth (looses_of loose.now) (scope_of scope.now) (term_of term.now) }
{
    match term {
        Expr::Compare { left, right, .. } => {
            let want = side_type(scope, left, right);
            let whole = Extent::Whole;
            covers(loose, scope, whole, want, left) && covers(loose, scope, whole, want, right)
        }
        Expr::And { left, right } | Expr::Or { left, right } => {
            covers_truth(loose, scope, left) && covers_truth(loose, scope, right)
        }
        Expr::Not { arg } => covers_truth(loose, scope, arg),
        _ => true,
    }
}
