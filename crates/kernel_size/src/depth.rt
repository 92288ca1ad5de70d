//! The depth of a kernel. A kernel may be some thousand levels deep here.

ghost use Rattle.std.specs.Prelude.{◌≡◌, ◌<◌, ◌^◌, option_map};
ghost use Rattle.kernel_tree.specs.Plain.{Choose, Nothing, Else, term_of, action_of, block_of, accumulators_of, for_loop_of, returned_of, program_of};
ghost use Rattle.kernel_tree.specs.Limits as limits;

use kernel_tree::{Answer, Expr, Kernel, Loop, Part, Stmt, Var, parts};

fn term_depth(expr: &Expr) -> u32
    requires { limits.term_depth (term_of expr.now) < 2 ^ 32 }
    ensures { result ≡ limits.term_depth (term_of expr.now) }
{
    match expr {
        Expr::Lit(_) | Expr::Var(_) => 1,
        Expr::Read { index: arg, .. }
        | Expr::Unary { arg, .. }
        | Expr::Shift { arg, .. }
        | Expr::Cast { arg, .. }
        | Expr::Not { arg } => term_depth(arg) + 1,
        Expr::Binary { left, right, .. }
        | Expr::Compare { left, right, .. }
        | Expr::And { left, right }
        | Expr::Or { left, right } => term_depth(left).max(term_depth(right)) + 1,
        Expr::Select { cond, yes, no } => {
            term_depth(cond).max(term_depth(yes).max(term_depth(no))) + 1
        }
    }
}

#[cycle(depths)]
fn stmt_depth(stmt: &Stmt) -> u32
    requires { limits.action_depth (action_of stmt.now) < 2 ^ 32 }
    ensures { result ≡ limits.action_depth (action_of stmt.now) }
{
    match parts(stmt) {
        Part::Let { value, .. } | Part::Update { value, .. } | Part::Break { cond: value } => {
            term_depth(value) + 1
        }
        Part::Store { index, value, .. } => term_depth(index).max(term_depth(value)) + 1,
        Part::If { cond, block } => if_depth(cond, block),
        Part::IfElse { cond, block, other } => if_else_depth(cond, block, other),
    }
}

#[cycle(depths)]
fn if_depth(cond: &Expr, block: &[Stmt]) -> u32
    requires { limits.action_depth (Choose (term_of cond.now) (block_of block.now) Nothing) < 2 ^ 32 }
    ensures { result ≡ limits.action_depth (Choose (term_of cond.now) (block_of block.now) Nothing) }
{
    term_depth(cond).max(block_depth(block)) + 1
}

#[cycle(depths)]
fn if_else_depth(cond: &Expr, block: &[Stmt], other: &[Stmt]) -> u32
    requires { limits.action_depth (Choose (term_of cond.now) (block_of block.now) (Else (block_of other.now))) < 2
        ^ 32 }
    ensures { result ≡ limits.action_depth (Choose (term_of cond.now) (block_of block.now)
        (Else (block_of other.now))) }
{
    let blocks = block_depth(block).max(block_depth(other));
    term_depth(cond).max(blocks) + 1
}

#[cycle(depths)]
fn block_depth(block: &[Stmt]) -> u32
    requires { limits.block_depth (block_of block.now) < 2 ^ 32 }
    ensures { result ≡ limits.block_depth (block_of block.now) }
{
    let mut depth: u32 = 0;
    for stmt in block {
        depth = depth.max(stmt_depth(stmt));
    }
    depth
}

fn vars_depth(vars: &[Var]) -> u32
    requires { limits.vars_depth (accumulators_of vars.now) < 2 ^ 32 }
    ensures { result ≡ limits.vars_depth (accumulators_of vars.now) }
{
    let mut depth: u32 = 0;
    for var in vars {
        depth = depth.max(term_depth(&var.init));
    }
    depth
}

fn for_loop_depth(for_loop: &Option<Loop>) -> u32
    requires { limits.for_loop_depth (option_map for_loop_of for_loop.now) < 2 ^ 32 }
    ensures { result ≡ limits.for_loop_depth (option_map for_loop_of for_loop.now) }
{
    match for_loop {
        None => 0,
        Some(for_loop) => block_depth(&for_loop.body),
    }
}

fn answer_depth(answer: &Option<Answer>) -> u32
    requires { limits.answer_depth (option_map returned_of answer.now) < 2 ^ 32 }
    ensures { result ≡ limits.answer_depth (option_map returned_of answer.now) }
{
    match answer {
        None => 0,
        Some(answer) => term_depth(&answer.value),
    }
}

/// The greatest depth of an initial value, a statement or the returned expression.
pub fn kernel_depth(kernel: &Kernel) -> u32
    requires { limits.depth_of (program_of kernel.now) < 2 ^ 32 }
    ensures { result ≡ limits.depth_of (program_of kernel.now) }
{
    let body = for_loop_depth(&kernel.body).max(answer_depth(&kernel.answer));
    vars_depth(&kernel.vars).max(body)
}
