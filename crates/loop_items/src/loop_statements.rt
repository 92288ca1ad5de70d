//! Lists what the items of statements in a loop do.

ghost use Rattle.std.specs.Prelude.{◌≡◌, ◌+◌, ◌≤◌, [], take, length, false};
ghost use Rattle.kernel_tree.specs.Plain.{Define, Put, Update, Leave, Choose, Nothing, Else, name_of, term_of, action_of, block_of};
ghost use Rattle.kernel_tree.specs.Items.{loop_index, term_size, action_size, block_size};
ghost use Rattle.loop_form.specs.LoopView.{AppendsBreak, AppendsAction, AppendsBlock, Declares};
ghost use Rattle.loop_form.specs.Near.{NearTerm, NearAction, NearBlock};
ghost use Rattle.loop_form.specs.View.{program};

use crate::context::Context;
use crate::listed::Listed;
use crate::loop_values::{append, list_operand, list_truth};
use crate::visible::{accumulator_type_of, array_type_of, first_type, operand_of, own_type};
use kernel_tree::fault::Binding;
use kernel_tree::{Checked, Expr, Name, Part, Stmt, Ty, UpdateOp, parts};
use loop_form::size::{count_items, expr_size, statements_size};
use loop_form::visible::Visible;
use loop_form::{LoopOp, Operand, offset};

// A `let`, whose name plays no part in its items, so that none stands for any: its value, and the `let`.
fn list_let<'a>(
    at: Context<'_>,
    names: &[Visible<'a>],
    listed: &mut Listed<'a>,
    ty: Option<Ty>,
    value: &'a Expr,
)
    requires fits { at.from + (term_size (loop_index (program at.kernel.now)) (term_of value.now) + 1) ≤ 1000 }
    requires near { NearTerm (loop_index (program at.kernel.now)) (term_of value.now) }
    ensures kept { listed.new.short ≡ false → listed.old.short ≡ false }
    ensures items { listed.new.short ≡ false → AppendsAction (loop_index (program at.entry.kernel.now)) names.now
        at.entry.mask at.entry.from (Define [] ty (term_of value.now)) listed.old.items.items listed.new.items.items }
{
    let want = first_type(ty, own_type(names, value));
    let op = LoopOp::Let {
        ty: want,
        arg: list_operand(at, names, listed, want, value),
    };
    append(listed, at.from + expr_size(at.kernel, value), at.mask, op);
}

// A store: its value, and the store.
fn list_store<'a>(
    at: Context<'_>,
    names: &[Visible<'a>],
    listed: &mut Listed<'a>,
    array: &'a Name,
    index: &'a Expr,
    value: &'a Expr,
)
    requires fits { at.from + action_size (loop_index (program at.kernel.now))
        (Put (name_of array.now) (term_of index.now) (term_of value.now)) ≤ 1000 }
    requires near { NearAction (loop_index (program at.kernel.now))
        (Put (name_of array.now) (term_of index.now) (term_of value.now)) }
    ensures kept { listed.new.short ≡ false → listed.old.short ≡ false }
    ensures items { listed.new.short ≡ false → AppendsAction (loop_index (program at.entry.kernel.now)) names.now
        at.entry.mask at.entry.from (Put (name_of array.now) (term_of index.now) (term_of value.now))
        listed.old.items.items listed.new.items.items }
{
    let array = array.text();
    let want = array_type_of(names, array);
    let stored = list_operand(at, names, listed, want, value);
    if let Some(offset) = offset(at.kernel, index) {
        let op = LoopOp::Store {
            array,
            base: operand_of(names, array),
            ty: want,
            offset,
            value: stored,
        };
        append(listed, at.from + expr_size(at.kernel, value), at.mask, op);
    }
}

// An update: its value, and the update.
fn list_update<'a>(
    at: Context<'_>,
    names: &[Visible<'a>],
    listed: &mut Listed<'a>,
    name: &'a Name,
    op: UpdateOp,
    value: &'a Expr,
)
    requires fits { at.from + (term_size (loop_index (program at.kernel.now)) (term_of value.now) + 1) ≤ 1000 }
    requires near { NearTerm (loop_index (program at.kernel.now)) (term_of value.now) }
    ensures kept { listed.new.short ≡ false → listed.old.short ≡ false }
    ensures items { listed.new.short ≡ false → AppendsAction (loop_index (program at.entry.kernel.now)) names.now
        at.entry.mask at.entry.from (Update (name_of name.now) op (term_of value.now))
        listed.old.items.items listed.new.items.items }
{
    let name = name.text();
    let want = accumulator_type_of(names, name);
    let op = LoopOp::Update {
        name,
        op,
        ty: want,
        value: list_operand(at, names, listed, want, value),
    };
    append(listed, at.from + expr_size(at.kernel, value), at.mask, op);
}

// A break on one condition: the condition, and the break.
fn list_one_break<'a>(
    at: Context<'_>,
    names: &[Visible<'a>],
    listed: &mut Listed<'a>,
    cond: &'a Expr,
)
    requires fits { at.from + (term_size (loop_index (program at.kernel.now)) (term_of cond.now) + 1) ≤ 1000 }
    requires near { NearTerm (loop_index (program at.kernel.now)) (term_of cond.now) }
    ensures kept { listed.new.short ≡ false → listed.old.short ≡ false }
    ensures items { listed.new.short ≡ false → AppendsBreak (loop_index (program at.entry.kernel.now)) names.now
        at.entry.mask at.entry.from (term_of cond.now) listed.old.items.items listed.new.items.items }
{
    let op = LoopOp::Break(list_truth(at, names, listed, cond));
    append(listed, at.from + expr_size(at.kernel, cond), at.mask, op);
}

// A `break`: one on the left side of a `||` and then one on the right side, or one on its condition.
fn list_break<'a>(at: Context<'_>, names: &[Visible<'a>], listed: &mut Listed<'a>, cond: &'a Expr)
    requires fits { at.from + (term_size (loop_index (program at.kernel.now)) (term_of cond.now) + 1) ≤ 1000 }
    requires near { NearTerm (loop_index (program at.kernel.now)) (term_of cond.now) }
    ensures kept { listed.new.short ≡ false → listed.old.short ≡ false }
    ensures items { listed.new.short ≡ false → AppendsAction (loop_index (program at.entry.kernel.now)) names.now
        at.entry.mask at.entry.from (Leave (term_of cond.now)) listed.old.items.items listed.new.items.items }
{
    match cond {
        Expr::Or { left, right } => {
            let next = at.from + expr_size(at.kernel, left) + 1;
            list_break(at, names, listed, left);
            list_one_break(Context { from: next, ..at }, names, listed, right);
        }
        _ => list_one_break(at, names, listed, cond),
    }
}

// A statement; the names after it are not yet declared.
#[cycle(loop_statements)]
fn list_stmt<'a>(
    at: Context<'_>,
    names: &mut Vec<Visible<'a>>,
    listed: &mut Listed<'a>,
    stmt: &'a Stmt,
)
    requires fits { at.from + action_size (loop_index (program at.kernel.now)) (action_of stmt.now) ≤ 1000 }
    requires near { NearAction (loop_index (program at.kernel.now)) (action_of stmt.now) }
    ensures names { names.new.items ≡ names.old.items }
    ensures kept { listed.new.short ≡ false → listed.old.short ≡ false }
    ensures items { listed.new.short ≡ false → AppendsAction (loop_index (program at.entry.kernel.now)) names.old.items
        at.entry.mask at.entry.from (action_of stmt.now) listed.old.items.items listed.new.items.items }
{
    match parts(stmt) {
        Part::Let { ty, value, .. } => list_let(at, names, listed, ty, value),
        Part::Store {
            array,
            index,
            value,
        } => list_store(at, names, listed, array, index, value),
        Part::Update { name, op, value } => list_update(at, names, listed, name, op, value),
        Part::If { cond, block } => list_if(at, names, listed, cond, block),
        Part::IfElse { cond, block, other } => list_if_else(at, names, listed, cond, block, other),
        Part::Break { cond } => list_break(at, names, listed, cond),
    }
}

#[cycle(loop_statements)]
fn list_if<'a>(
    at: Context<'_>,
    names: &mut Vec<Visible<'a>>,
    listed: &mut Listed<'a>,
    cond: &'a Expr,
    block: &'a [Stmt],
)
    requires fits { at.from + action_size (loop_index (program at.kernel.now))
        (Choose (term_of cond.now) (block_of block.now) Nothing) ≤ 1000 }
    requires near { NearAction (loop_index (program at.kernel.now))
        (Choose (term_of cond.now) (block_of block.now) Nothing) }
    ensures names { names.new.items ≡ names.old.items }
    ensures kept { listed.new.short ≡ false → listed.old.short ≡ false }
    ensures items { listed.new.short ≡ false → AppendsAction (loop_index (program at.entry.kernel.now)) names.old.items
        at.entry.mask at.entry.from (Choose (term_of cond.now)
        (block_of block.now) Nothing) listed.old.items.items listed.new.items.items }
{
    let inner = at.from + expr_size(at.kernel, cond) + 1;
    let first = list_truth(at, names, listed, cond);
    list_inner(
        Context {
            mask: Some(first),
            from: inner,
            ..at
        },
        names,
        listed,
        block,
    );
}

#[cycle(loop_statements)]
fn list_if_else<'a>(
    at: Context<'_>,
    names: &mut Vec<Visible<'a>>,
    listed: &mut Listed<'a>,
    cond: &'a Expr,
    block: &'a [Stmt],
    other: &'a [Stmt],
)
    requires fits { at.from + action_size (loop_index (program at.kernel.now))
        (Choose (term_of cond.now) (block_of block.now) (Else (block_of other.now))) ≤ 1000 }
    requires near { NearAction (loop_index (program at.kernel.now))
        (Choose (term_of cond.now) (block_of block.now) (Else (block_of other.now))) }
    ensures names { names.new.items ≡ names.old.items }
    ensures kept { listed.new.short ≡ false → listed.old.short ≡ false }
    ensures items { listed.new.short ≡ false → AppendsAction (loop_index (program at.entry.kernel.now)) names.old.items
        at.entry.mask at.entry.from (Choose (term_of cond.now) (block_of block.now)
        (Else (block_of other.now))) listed.old.items.items listed.new.items.items }
{
    let inner = at.from + expr_size(at.kernel, cond) + 1;
    let other_side = inner + statements_size(at.kernel, block);
    let first = list_truth(at, names, listed, cond);
    list_inner(
        Context {
            mask: Some(first),
            from: inner,
            ..at
        },
        names,
        listed,
        block,
    );
    append(listed, other_side, at.mask, LoopOp::Not(first));
    list_inner(
        Context {
            mask: Some(other_side),
            from: other_side + 1,
            ..at
        },
        names,
        listed,
        other,
    );
}

// A block inside another, whose names end with it.
#[cycle(loop_statements)]
fn list_inner<'a>(
    at: Context<'_>,
    names: &mut Vec<Visible<'a>>,
    listed: &mut Listed<'a>,
    block: &'a [Stmt],
)
    requires fits { at.from + block_size (loop_index (program at.kernel.now)) (block_of block.now) ≤ 1000 }
    requires near { NearBlock (loop_index (program at.kernel.now)) (block_of block.now) }
    ensures names { names.new.items ≡ names.old.items }
    ensures kept { listed.new.short ≡ false → listed.old.short ≡ false }
    ensures items { listed.new.short ≡ false → AppendsBlock (loop_index (program at.entry.kernel.now)) names.old.items
        at.entry.mask at.entry.from (block_of block.now) listed.old.items.items listed.new.items.items }
{
    let outer = names.len();
    list_block(at, names, listed, block);
    names.truncate(outer);
}

/// Lists the statements of a block, whose names come after those that are visible.
#[cycle(loop_statements)]
pub fn list_block<'a>(
    at: Context<'_>,
    names: &mut Vec<Visible<'a>>,
    listed: &mut Listed<'a>,
    block: &'a [Stmt],
)
    requires fits { at.from + block_size (loop_index (program at.kernel.now)) (block_of block.now) ≤ 1000 }
    requires near { NearBlock (loop_index (program at.kernel.now)) (block_of block.now) }
    ensures names { take (length names.old.items) names.new.items ≡ names.old.items }
    ensures kept { listed.new.short ≡ false → listed.old.short ≡ false }
    ensures items { listed.new.short ≡ false → AppendsBlock (loop_index (program at.entry.kernel.now)) names.old.items
        at.entry.mask at.entry.from (block_of block.now) listed.old.items.items listed.new.items.items }
{
    let [stmt, rest @ ..] = block else {
        return;
    };
    list_stmt(at, names, listed, stmt);
    declare(at.kernel, names, &mut listed.short, at.from, stmt);
    let next = at.from + count_items(at.kernel, stmt);
    list_block(Context { from: next, ..at }, names, listed, rest);
}

// The name that a statement declares.
fn declare<'a>(
    kernel: &Checked,
    names: &mut Vec<Visible<'a>>,
    short: &mut bool,
    from: u32,
    stmt: &'a Stmt,
)
    requires { from + action_size (loop_index (program kernel.now)) (action_of stmt.now) ≤ 1000 }
    ensures names { take (length names.old.items) names.new.items ≡ names.old.items }
    ensures kept { short.new ≡ false → short.old ≡ false }
    ensures declares { short.new ≡ false → Declares (loop_index (program kernel.now)) from
        (action_of stmt.now) names.old.items names.new.items }
{
    if let Part::Let { name, ty, value } = parts(stmt)
        && let Some(ty) = first_type(ty, own_type(names, value))
    {
        let visible = Visible {
            name: name.text(),
            binding: Binding::Value(ty),
            source: Operand::Made(from + expr_size(kernel, value)),
        };
        if names.push(visible).is_err() {
            *short = true;
        }
    }
}
