//! Where the values of expressions are held.

ghost use Rattle.std.specs.Prelude.{◌≡◌, ◌+◌, ◌≤◌};
ghost use Rattle.kernel_tree.specs.Plain.{term_of};
ghost use Rattle.kernel_tree.specs.Items.{loop_index, term_size};
ghost use Rattle.loop_form.specs.LoopItems.{home, truth_home};
ghost use Rattle.loop_form.specs.LoopView.{env_of};
ghost use Rattle.loop_form.specs.View.{program};

use crate::visible::operand_of;
use kernel_tree::{Checked, Expr, Ty};
use loop_form::Operand;
use loop_form::size::expr_size;
use loop_form::visible::Visible;

/// Where the value of an expression is held whose items begin at a number: the value itself is the last of them.
pub fn source(
    kernel: &Checked,
    names: &[Visible<'_>],
    want: Option<Ty>,
    from: u32,
    expr: &Expr,
) -> Operand
    requires { from + term_size (loop_index (program kernel.now)) (term_of expr.now) ≤ 1000 }
    ensures { result ≡ home (loop_index (program kernel.now)) want from (env_of names.now) (term_of expr.now) }
{
    match expr {
        Expr::Lit(value) => Operand::Constant(want, *value),
        Expr::Var(name) => operand_of(names, name.text()),
        Expr::Compare { .. } | Expr::And { .. } | Expr::Or { .. } | Expr::Not { .. } => {
            Operand::Constant(None, 0)
        }
        _ => Operand::Made(from + expr_size(kernel, expr) - 1),
    }
}

/// The item of a condition whose items begin at a number.
pub fn condition_item(kernel: &Checked, from: u32, expr: &Expr) -> u32
    requires { from + term_size (loop_index (program kernel.now)) (term_of expr.now) ≤ 1000 }
    ensures { result ≡ truth_home (loop_index (program kernel.now)) from (term_of expr.now) }
{
    match expr {
        Expr::Compare { .. } | Expr::And { .. } | Expr::Or { .. } | Expr::Not { .. } => {
            from + expr_size(kernel, expr) - 1
        }
        _ => from,
    }
}
