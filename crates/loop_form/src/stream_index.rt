//! The offset of a stream index.

ghost use Rattle.std.specs.Prelude.{◌≡◌};
ghost use Rattle.kernel_tree.specs.Plain.{term_of};
ghost use Rattle.kernel_tree.specs.Items.{stream_offset, loop_index, moved_by};
ghost use Rattle.loop_form.specs.Near.{IsNear};
ghost use Rattle.loop_form.specs.View.{program};

use crate::size::{is_bare, is_loop_variable};
use kernel_tree::{BinaryOp, Checked, Expr};

// The offset that an operation with a literal makes.
fn moved_by(op: BinaryOp, value: i128) -> Option<i32>
    requires { IsNear (moved_by op value) }
    ensures { result ≡ moved_by op value }
{
    match op {
        BinaryOp::Add => Some(value as i32),
        BinaryOp::Sub => Some((-value) as i32),
        _ => None,
    }
}

/// The offset of a stream index.
pub fn offset(kernel: &Checked, index: &Expr) -> Option<i32>
    requires { IsNear (stream_offset (loop_index (program kernel.now)) (term_of index.now)) }
    ensures { result ≡ stream_offset (loop_index (program kernel.now)) (term_of index.now) }
{
    match index {
        Expr::Var(name) => is_loop_variable(kernel, name).then_some(0),
        Expr::Binary { op, left, right } => {
            if !is_bare(kernel, left) {
                return None;
            }
            match **right {
                Expr::Lit(value) => moved_by(*op, value),
                _ => None,
            }
        }
        _ => None,
    }
}
