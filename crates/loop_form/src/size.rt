//! How many items the parts of a kernel make.

ghost use Rattle.std.specs.Prelude.{◌≡◌, ◌<◌, ◌≤◌, ◌^◌, is_some};
ghost use Rattle.kernel_tree.specs.Plain.{name_of, term_of, action_of, block_of, accumulators_of, for_loop_of};
ghost use Rattle.kernel_tree.specs.Items.{is_index, is_index_term, stream_offset, loop_index, term_size, index_items, action_size, block_size, vars_size};
ghost use Rattle.loop_form.specs.View.{program};

use kernel_tree::{BinaryOp, Checked, Expr, Name, Part, Stmt, Var, parts};

/// Whether a name is that of the loop variable.
#[tactic(auto, unfolding(crate::specs::View::program))]
pub fn is_loop_variable(kernel: &Checked, name: &Name) -> bool
    ensures { result ≡ is_index (loop_index (program kernel.now)) (name_of name.now) }
{
    match &kernel.kernel().body {
        None => false,
        Some(for_loop) => name.text() == for_loop.index.text(),
    }
}

/// Whether an expression is the loop variable.
pub fn is_bare(kernel: &Checked, expr: &Expr) -> bool
    ensures { result ≡ is_index_term (loop_index (program kernel.now)) (term_of expr.now) }
{
    match expr {
        Expr::Var(name) => is_loop_variable(kernel, name),
        _ => false,
    }
}

/// Whether an index is a stream index: the loop variable, or it and a literal more or less.
pub fn is_stream(kernel: &Checked, index: &Expr) -> bool
    ensures { result ≡ is_some (stream_offset (loop_index (program kernel.now)) (term_of index.now)) }
{
    match index {
        Expr::Var(name) => is_loop_variable(kernel, name),
        Expr::Binary { op, left, right } => {
            matches!(op, BinaryOp::Add | BinaryOp::Sub)
                && matches!(&**right, Expr::Lit(_))
                && is_bare(kernel, left)
        }
        _ => false,
    }
}

/// The items of an expression.
pub fn expr_size(kernel: &Checked, expr: &Expr) -> u32
    requires { term_size (loop_index (program kernel.now)) (term_of expr.now) < 2 ^ 32 }
    ensures { result ≡ term_size (loop_index (program kernel.now)) (term_of expr.now) }
{
    match expr {
        Expr::Lit(_) | Expr::Var(_) => 1,
        Expr::Read { index, .. } => {
            if is_stream(kernel, index) {
                1
            } else {
                expr_size(kernel, index) + 1
            }
        }
        Expr::Unary { arg, .. }
        | Expr::Shift { arg, .. }
        | Expr::Cast { arg, .. }
        | Expr::Not { arg } => expr_size(kernel, arg) + 1,
        Expr::Binary { left, right, .. }
        | Expr::Compare { left, right, .. }
        | Expr::And { left, right } => expr_size(kernel, left) + expr_size(kernel, right) + 1,
        Expr::Or { left, right } => expr_size(kernel, left) + 1 + expr_size(kernel, right) + 1,
        Expr::Select { cond, yes, no } => {
            expr_size(kernel, yes) + expr_size(kernel, no) + expr_size(kernel, cond) + 1
        }
    }
}

/// The items of a statement.
#[cycle(statements)]
pub fn stmt_size(kernel: &Checked, stmt: &Stmt) -> u32
    requires { action_size (loop_index (program kernel.now)) (action_of stmt.now) < 2 ^ 32 }
    ensures { result ≡ action_size (loop_index (program kernel.now)) (action_of stmt.now) }
{
    match parts(stmt) {
        Part::Let { value, .. } | Part::Store { value, .. } | Part::Update { value, .. } => {
            expr_size(kernel, value) + 1
        }
        Part::If { cond, block } => {
            expr_size(kernel, cond) + 1 + statements_size(kernel, block) + 1
        }
        Part::IfElse { cond, block, other } => {
            let front = expr_size(kernel, cond) + 1 + statements_size(kernel, block);
            front + (1 + statements_size(kernel, other)) + 1
        }
        Part::Break { cond } => expr_size(kernel, cond) + 1,
    }
}

/// The items of the statements of a block.
#[cycle(statements)]
pub fn statements_size(kernel: &Checked, block: &[Stmt]) -> u32
    requires { block_size (loop_index (program kernel.now)) (block_of block.now) < 2 ^ 32 }
    ensures { result ≡ block_size (loop_index (program kernel.now)) (block_of block.now) }
{
    let mut size = 0;
    for stmt in block {
        size += stmt_size(kernel, stmt);
    }
    size
}

/// The items of a statement, of which there is one at least.
pub fn count_items(kernel: &Checked, stmt: &Stmt) -> u32
    requires { action_size (loop_index (program kernel.now)) (action_of stmt.now) ≤ 1000 }
    ensures size { result ≡ action_size (loop_index (program kernel.now)) (action_of stmt.now) }
    ensures some { 1 ≤ result }
{
    stmt_size(kernel, stmt)
}

/// The items of the accumulators.
pub fn vars_size_of(kernel: &Checked, vars: &[Var]) -> u32
    requires { vars_size (loop_index (program kernel.now)) (accumulators_of vars.now) < 2 ^ 32 }
    ensures { result ≡ vars_size (loop_index (program kernel.now)) (accumulators_of vars.now) }
{
    let mut size = 0;
    for var in vars {
        size += expr_size(kernel, &var.init) + 1;
    }
    size
}
