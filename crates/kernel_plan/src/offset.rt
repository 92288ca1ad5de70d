//! The offset of a stream index.

ghost use Rattle.std.specs.Prelude.{◌≡◌, option_map, option_and_then};
ghost use Rattle.kernel_tree.specs.declared.ops.Ty.TheVariants as ty;
ghost use Rattle.kernel_tree.specs.Plain.{term_of};
ghost use Rattle.kernel_tree.specs.Items as items;
ghost use Rattle.kernel_tree.specs.Wrap as wraps;
ghost use Rattle.kernel_scope.specs.Scopes.{lent_text};

use kernel_meaning::wrap;
use kernel_scope::{is_index, is_index_term, literal_value};
use kernel_tree::{BinaryOp, Expr, Ty};

// The offset that an operation with a literal makes, modulo 2^64.
fn moved_by(op: BinaryOp, by: Option<i128>) -> Option<i128>
    ensures { result ≡ option_map (wraps.wrap ty.U64) (option_and_then (items.moved_by op) by) }
{
    let by = by?;
    match op {
        BinaryOp::Add => Some(wrap(Ty::U64, by)),
        BinaryOp::Sub => Some(wrap(Ty::U64, by.wrapping_neg())),
        _ => None,
    }
}

/// The offset of a stream index, modulo 2^64; None for any other index.
pub fn stream_offset(index: Option<&str>, expr: &Expr) -> Option<i128>
    ensures { result ≡ option_map (wraps.wrap ty.U64)
        (items.stream_offset (option_map lent_text index.entry) (term_of expr.now)) }
{
    match expr {
        Expr::Var(name) => { if is_index(index, name) { Some(0) } else { None } }
        Expr::Binary { op, left, right } => {
            if is_index_term(index, left) {
                moved_by(*op, literal_value(right))
            } else {
                None
            }
        }
        _ => None,
    }
}
