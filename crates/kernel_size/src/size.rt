//! The size of a kernel. A kernel may be some thousand levels deep here.

ghost use Rattle.std.specs.Prelude.{◌≡◌, ◌<◌, ◌^◌, option_map};
ghost use Rattle.kernel_tree.specs.Plain.{Choose, Nothing, Else, term_of, action_of, block_of, accumulators_of, for_loop_of, returned_of, program_of};
ghost use Rattle.kernel_tree.specs.Items as items;
ghost use Rattle.kernel_scope.specs.Scopes.{lent_text};

use crate::distance::stream_distance;
use kernel_scope::loop_index;
use kernel_tree::{Answer, Expr, Kernel, Loop, Part, Stmt, Var, parts};

/// How many items an expression makes, where the loop variable has this name.
pub fn term_size(index: Option<&str>, expr: &Expr) -> u32
    requires { items.term_size (option_map lent_text index) (term_of expr.now) < 2 ^ 32 }
    ensures { result ≡ items.term_size (option_map lent_text index.entry) (term_of expr.now) }
{
    match expr {
        Expr::Lit(_) | Expr::Var(_) => 1,
        Expr::Read { index: at, .. } => match stream_distance(index, at) {
            Some(_) => 1,
            None => term_size(index, at) + 1,
        },
        Expr::Unary { arg, .. }
        | Expr::Shift { arg, .. }
        | Expr::Cast { arg, .. }
        | Expr::Not { arg } => term_size(index, arg) + 1,
        Expr::Binary { left, right, .. }
        | Expr::Compare { left, right, .. }
        | Expr::And { left, right } => term_size(index, left) + term_size(index, right) + 1,
        Expr::Or { left, right } => term_size(index, left) + term_size(index, right) + 2,
        Expr::Select { cond, yes, no } => {
            term_size(index, yes) + term_size(index, no) + term_size(index, cond) + 1
        }
    }
}

#[cycle(sizes)]
fn stmt_size(index: Option<&str>, stmt: &Stmt) -> u32
    requires { items.action_size (option_map lent_text index) (action_of stmt.now) < 2 ^ 32 }
    ensures { result ≡ items.action_size (option_map lent_text index.entry) (action_of stmt.now) }
{
    match parts(stmt) {
        Part::Let { value, .. }
        | Part::Store { value, .. }
        | Part::Update { value, .. }
        | Part::Break { cond: value } => term_size(index, value) + 1,
        Part::If { cond, block } => if_size(index, cond, block),
        Part::IfElse { cond, block, other } => if_else_size(index, cond, block, other),
    }
}

#[cycle(sizes)]
fn if_size(index: Option<&str>, cond: &Expr, block: &[Stmt]) -> u32
    requires { items.action_size (option_map lent_text index)
        (Choose (term_of cond.now) (block_of block.now) Nothing) < 2 ^ 32 }
    ensures { result ≡ items.action_size (option_map lent_text index.entry)
        (Choose (term_of cond.now) (block_of block.now) Nothing) }
{
    term_size(index, cond) + 1 + block_size(index, block) + 1
}

#[cycle(sizes)]
fn if_else_size(index: Option<&str>, cond: &Expr, block: &[Stmt], other: &[Stmt]) -> u32
    requires { items.action_size (option_map lent_text index)
        (Choose (term_of cond.now) (block_of block.now) (Else (block_of other.now))) < 2 ^ 32 }
    ensures { result ≡ items.action_size (option_map lent_text index.entry)
        (Choose (term_of cond.now) (block_of block.now) (Else (block_of other.now))) }
{
    let first = term_size(index, cond) + 1 + block_size(index, block);
    first + 1 + block_size(index, other) + 1
}

// How many items statements make.
#[cycle(sizes)]
fn block_size(index: Option<&str>, block: &[Stmt]) -> u32
    requires { items.block_size (option_map lent_text index) (block_of block.now) < 2 ^ 32 }
    ensures { result ≡ items.block_size (option_map lent_text index.entry) (block_of block.now) }
{
    let mut size = 0;
    for stmt in block {
        size += stmt_size(index, stmt);
    }
    size
}

fn vars_size(index: Option<&str>, vars: &[Var]) -> u32
    requires { items.vars_size (option_map lent_text index) (accumulators_of vars.now) < 2 ^ 32 }
    ensures { result ≡ items.vars_size (option_map lent_text index.entry) (accumulators_of vars.now) }
{
    let mut size = 0;
    for var in vars {
        size += term_size(index, &var.init) + 1;
    }
    size
}

fn for_loop_size(for_loop: &Option<Loop>) -> u32
    requires { items.for_loop_size (option_map for_loop_of for_loop.now) < 2 ^ 32 }
    ensures { result ≡ items.for_loop_size (option_map for_loop_of for_loop.now) }
{
    match for_loop {
        None => 0,
        Some(for_loop) => 1 + block_size(Some(for_loop.index.text()), &for_loop.body),
    }
}

fn answer_size(index: Option<&str>, answer: &Option<Answer>) -> u32
    requires { items.answer_size (option_map lent_text index) (option_map returned_of answer.now) < 2 ^ 32 }
    ensures { result ≡ items.answer_size (option_map lent_text index.entry) (option_map returned_of answer.now) }
{
    match answer {
        None => 0,
        Some(answer) => term_size(index, &answer.value) + 1,
    }
}

/// How many items a kernel makes.
pub fn kernel_size(kernel: &Kernel) -> u32
    requires { items.size_of (program_of kernel.now) < 2 ^ 32 }
    ensures { result ≡ items.size_of (program_of kernel.now) }
{
    let index = loop_index(&kernel.body);
    let before = kernel.params.len() as u32 + vars_size(index, &kernel.vars);
    before + for_loop_size(&kernel.body) + answer_size(index, &kernel.answer)
}
