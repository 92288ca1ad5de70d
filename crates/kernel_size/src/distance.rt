//! How far an index is from the loop variable.

ghost use Rattle.std.specs.Prelude.{◌≡◌, option_map, option_and_then};
ghost use Rattle.kernel_tree.specs.Plain.{term_of};
ghost use Rattle.kernel_tree.specs.Items as items;
ghost use Rattle.kernel_scope.specs.Scopes.{lent_text};
ghost use Rattle.kernel_size.specs.Distances.{distance_of};

use kernel_scope::{is_index, is_index_term, literal_value};
use kernel_tree::{BinaryOp, Expr};

// How far an operation with a literal moves.
fn moved_by(op: BinaryOp, by: Option<i128>) -> Option<u128>
    ensures { result ≡ distance_of (option_and_then (items.moved_by op) by) }
{
    match op {
        BinaryOp::Add | BinaryOp::Sub => match by {
            Some(by) => Some(by.unsigned_abs()),
            None => None,
        },
        _ => None,
    }
}

/// How far from the loop variable a stream index is; None for any other index.
pub fn stream_distance(index: Option<&str>, expr: &Expr) -> Option<u128>
    ensures { result ≡ distance_of (items.stream_offset (option_map lent_text index.entry) (term_of expr.now)) }
{
    match expr {
        Expr::Var(name) => { if is_index(index, name) { Some(0) } else { None } }
        Expr::Binary { op, left, right } => {
            if is_index_term(index, left) {
                moved_by(*op, literal_value(right))
            } else {
                None
            }
        }
        _ => None,
    }
}
