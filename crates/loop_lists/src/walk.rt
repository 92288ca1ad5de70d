//! Lists the items of a kernel, with what stands in them, into a buffer.

ghost use Rattle.std.specs.Prelude.{◌≡◌, ◌+◌, ◌<◌, ◌≤◌, [], ◌∷◌, ◌++◌};
ghost use Rattle.arrayvec.specs.ArrayVec.{array_vec_len};
ghost use Rattle.kernel_tree.specs.Plain.{Element, Either, Choice, Choose, Nothing, Else, name_of, term_of, action_of, block_of, accumulators_of};
ghost use Rattle.kernel_tree.specs.Items.{loop_index, term_size, index_items, action_size, block_size, vars_size};
ghost use Rattle.loop_form.specs.Entries.{entry, term_entries, action_entries, block_entries, vars_entries, item_type, IsPlain};
ghost use Rattle.loop_form.specs.View.{program, content_of, entries_view};

use kernel_tree::{Checked, Expr, Name, Part, Stmt, Ty, Var, parts};
use loop_form::entry::Entries;
use loop_form::size::{count_items, expr_size, statements_size};
use loop_form::{Content, Entry, ItemKind, is_stream};

/// Appends an item.
#[tactic(auto, unfolding(loop_form::specs::Entries::item_type, loop_form::specs::View::program))]
pub fn put<'a>(
    kernel: &Checked,
    entries: &mut Entries<'a>,
    item: u32,
    content: Content<'a>,
    last_use: u32,
)
    requires { array_vec_len entries.old < 1000 }
    ensures items { entries_view entries.new.items ≡ entries_view entries.old.items
        ++ entry (program kernel.now) item (content_of content.entry) last_use ∷ [] }
    ensures len { array_vec_len entries.new ≡ array_vec_len entries.old + 1 }
{
    let ty = kernel.ty(item);
    entries.push(Entry {
        item,
        content,
        ty,
        last_use,
    });
}

/// A place in the listing of a kernel: the number of the item that is next.
#[derive(Clone, Copy)]
pub struct Context<'k> {
    pub kernel: &'k Checked,
    pub from: u32,
}

/// Lists an expression whose items begin at a place and whose value is used by the item `last_use`.
#[cycle(terms)]
pub fn list_expr<'a>(at: Context<'_>, entries: &mut Entries<'a>, last_use: u32, expr: &'a Expr)
    requires following { array_vec_len entries.old ≤ at.from }
    requires fits { at.from + term_size (loop_index (program at.kernel.now)) (term_of expr.now) ≤ 1000 }
    ensures items { entries_view entries.new.items ≡ entries_view entries.old.items
        ++ term_entries (program at.entry.kernel.now) at.entry.from last_use (term_of expr.now) }
    ensures len { array_vec_len entries.new ≡ array_vec_len entries.old + term_size
        (loop_index (program at.entry.kernel.now)) (term_of expr.now) }
{
    match expr {
        Expr::Lit(value) => put(
            at.kernel,
            entries,
            at.from,
            Content::Literal(*value),
            last_use,
        ),
        Expr::Var(name) => put(
            at.kernel,
            entries,
            at.from,
            Content::Name(name.text()),
            last_use,
        ),
        Expr::Read { array, index } => list_read(at, entries, last_use, array, index),
        Expr::Unary { arg, .. } => list_one(at, entries, last_use, arg, ItemKind::Unary),
        Expr::Binary { left, right, .. } => {
            let kind = ItemKind::Binary;
            list_two(at, entries, last_use, left, right, kind);
        }
        Expr::Shift { arg, .. } => list_one(at, entries, last_use, arg, ItemKind::Shift),
        Expr::Cast { arg, .. } => list_one(at, entries, last_use, arg, ItemKind::Cast),
        Expr::Select { cond, yes, no } => list_select(at, entries, last_use, yes, no, cond),
        Expr::Compare { left, right, .. } => {
            let kind = ItemKind::Compare;
            list_two(at, entries, last_use, left, right, kind);
        }
        Expr::And { left, right } => list_two(at, entries, last_use, left, right, ItemKind::And),
        Expr::Or { left, right } => list_or(at, entries, last_use, left, right),
        Expr::Not { arg } => list_one(at, entries, last_use, arg, ItemKind::Not),
    }
}

// A read: its index where it is computed, and the read.
#[cycle(terms)]
fn list_read<'a>(
    at: Context<'_>,
    entries: &mut Entries<'a>,
    last_use: u32,
    array: &'a Name,
    index: &'a Expr,
)
    requires following { array_vec_len entries.old ≤ at.from }
    requires fits { at.from + (index_items (loop_index (program at.kernel.now)) (term_of index.now) + 1) ≤ 1000 }
    ensures items { let k = program at.entry.kernel.now in entries_view entries.new.items
        ≡ entries_view entries.old.items
        ++ term_entries k at.entry.from last_use (Element (name_of array.now) (term_of index.now)) }
    ensures len { array_vec_len entries.new ≡ array_vec_len entries.old +
        (index_items (loop_index (program at.entry.kernel.now)) (term_of index.now) + 1) }
{
    let content = Content::Read {
        array: array.text(),
        index,
    };
    if is_stream(at.kernel, index) {
        put(at.kernel, entries, at.from, content, last_use);
    } else {
        let item = at.from + expr_size(at.kernel, index);
        list_expr(at, entries, item, index);
        put(at.kernel, entries, item, content, last_use);
    }
}

// An operand and what is made of it.
#[cycle(terms)]
fn list_one<'a>(
    at: Context<'_>,
    entries: &mut Entries<'a>,
    last_use: u32,
    arg: &'a Expr,
    kind: ItemKind,
)
    requires following { array_vec_len entries.old ≤ at.from }
    requires fits { at.from + (term_size (loop_index (program at.kernel.now)) (term_of arg.now) + 1) ≤ 1000 }
    ensures items { let k = program at.entry.kernel.now in let item = at.entry.from + term_size (loop_index k)
        (term_of arg.now) in entries_view entries.new.items
        ≡ entries_view entries.old.items ++ (term_entries k at.entry.from item (term_of arg.now)
        ++ entry k item (IsPlain kind) last_use ∷ []) }
    ensures len { array_vec_len entries.new ≡ array_vec_len entries.old +
        (term_size (loop_index (program at.entry.kernel.now)) (term_of arg.now) + 1) }
{
    let item = at.from + expr_size(at.kernel, arg);
    list_expr(at, entries, item, arg);
    put(at.kernel, entries, item, Content::Plain(kind), last_use);
}

// Two operands and what is made of them.
#[cycle(terms)]
fn list_two<'a>(
    at: Context<'_>,
    entries: &mut Entries<'a>,
    last_use: u32,
    left: &'a Expr,
    right: &'a Expr,
    kind: ItemKind,
)
    requires following { array_vec_len entries.old ≤ at.from }
    requires fits { let i = loop_index (program at.kernel.now) in at.from +
        (term_size i (term_of left.now) + term_size i (term_of right.now) + 1) ≤ 1000 }
    ensures items { let k = program at.entry.kernel.now in let next = at.entry.from + term_size (loop_index k)
        (term_of left.now) in let item = next + term_size (loop_index k) (term_of right.now) in
        entries_view entries.new.items
        ≡ entries_view entries.old.items ++ (term_entries k at.entry.from item (term_of left.now)
        ++ (term_entries k next item (term_of right.now) ++ entry k item (IsPlain kind) last_use ∷ [])) }
    ensures len { let i = loop_index (program at.entry.kernel.now) in array_vec_len entries.new
        ≡ array_vec_len entries.old + (term_size i (term_of left.now) + term_size i (term_of right.now) + 1) }
{
    let next = at.from + expr_size(at.kernel, left);
    let item = next + expr_size(at.kernel, right);
    list_expr(at, entries, item, left);
    list_expr(Context { from: next, ..at }, entries, item, right);
    put(at.kernel, entries, item, Content::Plain(kind), last_use);
}

// `||` and its operands, with the mark after the left one.
#[cycle(terms)]
fn list_or<'a>(
    at: Context<'_>,
    entries: &mut Entries<'a>,
    last_use: u32,
    left: &'a Expr,
    right: &'a Expr,
)
    requires following { array_vec_len entries.old ≤ at.from }
    requires fits { at.from + term_size (loop_index (program at.kernel.now))
        (Either (term_of left.now) (term_of right.now)) ≤ 1000 }
    ensures items { entries_view entries.new.items ≡ entries_view entries.old.items
        ++ term_entries (program at.entry.kernel.now) at.entry.from last_use
        (Either (term_of left.now) (term_of right.now)) }
    ensures len { array_vec_len entries.new ≡ array_vec_len entries.old + term_size
        (loop_index (program at.entry.kernel.now)) (Either (term_of left.now) (term_of right.now)) }
{
    let mark = at.from + expr_size(at.kernel, left);
    let item = mark + 1 + expr_size(at.kernel, right);
    list_expr(at, entries, item, left);
    let content = Content::Plain(ItemKind::Mark);
    put(at.kernel, entries, mark, content, item);
    list_expr(
        Context {
            from: mark + 1,
            ..at
        },
        entries,
        item,
        right,
    );
    let content = Content::Plain(ItemKind::Or);
    put(at.kernel, entries, item, content, last_use);
}

// `select`: both values, the condition, and the choice.
#[cycle(terms)]
fn list_select<'a>(
    at: Context<'_>,
    entries: &mut Entries<'a>,
    last_use: u32,
    yes: &'a Expr,
    no: &'a Expr,
    cond: &'a Expr,
)
    requires following { array_vec_len entries.old ≤ at.from }
    requires fits { at.from + term_size (loop_index (program at.kernel.now))
        (Choice (term_of cond.now) (term_of yes.now) (term_of no.now)) ≤ 1000 }
    ensures items { entries_view entries.new.items ≡ entries_view entries.old.items
        ++ term_entries (program at.entry.kernel.now) at.entry.from last_use
        (Choice (term_of cond.now) (term_of yes.now) (term_of no.now)) }
    ensures len { array_vec_len entries.new ≡ array_vec_len entries.old + term_size
        (loop_index (program at.entry.kernel.now)) (Choice (term_of cond.now) (term_of yes.now) (term_of no.now)) }
{
    let next = at.from + expr_size(at.kernel, yes);
    let last = next + expr_size(at.kernel, no);
    let item = last + expr_size(at.kernel, cond);
    list_expr(at, entries, item, yes);
    list_expr(Context { from: next, ..at }, entries, item, no);
    list_expr(Context { from: last, ..at }, entries, item, cond);
    let content = Content::Plain(ItemKind::Select);
    put(at.kernel, entries, item, content, last_use);
}

/// Lists a statement.
#[cycle(statements)]
fn list_stmt<'a>(at: Context<'_>, entries: &mut Entries<'a>, stmt: &'a Stmt)
    requires following { array_vec_len entries.old ≤ at.from }
    requires fits { at.from + action_size (loop_index (program at.kernel.now)) (action_of stmt.now) ≤ 1000 }
    ensures items { entries_view entries.new.items ≡ entries_view entries.old.items
        ++ action_entries (program at.entry.kernel.now) at.entry.from (action_of stmt.now) }
    ensures len { array_vec_len entries.new ≡ array_vec_len entries.old + action_size
        (loop_index (program at.entry.kernel.now)) (action_of stmt.now) }
{
    match parts(stmt) {
        Part::Let { name, value, .. } => {
            list_ended(at, entries, value, Content::Let(name.text()));
        }
        Part::Store {
            array,
            index,
            value,
        } => {
            let array = array.text();
            list_ended(at, entries, value, Content::Store { array, index });
        }
        Part::Update { name, op, value } => {
            let name = name.text();
            list_ended(at, entries, value, Content::Update { name, op });
        }
        Part::If { cond, block } => list_if(at, entries, cond, block),
        Part::IfElse { cond, block, other } => {
            list_if_else(at, entries, cond, block, other);
        }
        Part::Break { cond } => {
            list_ended(at, entries, cond, Content::Plain(ItemKind::Break));
        }
    }
}

/// Lists an expression and the item that it ends in.
pub fn list_ended<'a>(
    at: Context<'_>,
    entries: &mut Entries<'a>,
    value: &'a Expr,
    content: Content<'a>,
)
    requires following { array_vec_len entries.old ≤ at.from }
    requires fits { at.from + (term_size (loop_index (program at.kernel.now)) (term_of value.now) + 1) ≤ 1000 }
    ensures items { let k = program at.entry.kernel.now in let item = at.entry.from + term_size (loop_index k)
        (term_of value.now) in entries_view entries.new.items
        ≡ entries_view entries.old.items ++ (term_entries k at.entry.from item (term_of value.now)
        ++ entry k item (content_of content.entry) item ∷ []) }
    ensures len { array_vec_len entries.new ≡ array_vec_len entries.old +
        (term_size (loop_index (program at.entry.kernel.now)) (term_of value.now) + 1) }
{
    let item = at.from + expr_size(at.kernel, value);
    list_expr(at, entries, item, value);
    put(at.kernel, entries, item, content, item);
}

// A condition, `then` and a block; the condition is used by the item after the block.
#[cycle(statements)]
fn list_then<'a>(
    at: Context<'_>,
    entries: &mut Entries<'a>,
    cond: &'a Expr,
    block: &'a [Stmt],
) -> u32
    requires following { array_vec_len entries.old ≤ at.from }
    requires fits { let i = loop_index (program at.kernel.now) in at.from +
        (term_size i (term_of cond.now) + 1 + block_size i (block_of block.now)) ≤ 1000 }
    ensures following { let i = loop_index (program at.entry.kernel.now) in result
        ≡ at.entry.from + term_size i (term_of cond.now) + 1 + block_size i (block_of block.now) }
    ensures items { let k = program at.entry.kernel.now in let first = at.entry.from + term_size (loop_index k)
        (term_of cond.now) in entries_view entries.new.items
        ≡ entries_view entries.old.items ++ (term_entries k at.entry.from result (term_of cond.now)
        ++ (entry k first (IsPlain ItemKind.Then) first ∷ block_entries k (first + 1) (block_of block.now))) }
    ensures len { let i = loop_index (program at.entry.kernel.now) in array_vec_len entries.new
        ≡ array_vec_len entries.old + (term_size i (term_of cond.now) + 1 + block_size i (block_of block.now)) }
{
    let first = at.from + expr_size(at.kernel, cond);
    let following = first + 1 + statements_size(at.kernel, block);
    list_expr(at, entries, following, cond);
    let content = Content::Plain(ItemKind::Then);
    put(at.kernel, entries, first, content, first);
    list_block(
        Context {
            from: first + 1,
            ..at
        },
        entries,
        block,
    );
    following
}

#[cycle(statements)]
fn list_if<'a>(at: Context<'_>, entries: &mut Entries<'a>, cond: &'a Expr, block: &'a [Stmt])
    requires following { array_vec_len entries.old ≤ at.from }
    requires fits { at.from + action_size (loop_index (program at.kernel.now))
        (Choose (term_of cond.now) (block_of block.now) Nothing) ≤ 1000 }
    ensures items { entries_view entries.new.items ≡ entries_view entries.old.items
        ++ action_entries (program at.entry.kernel.now) at.entry.from
        (Choose (term_of cond.now) (block_of block.now) Nothing) }
    ensures len { array_vec_len entries.new ≡ array_vec_len entries.old + action_size
        (loop_index (program at.entry.kernel.now)) (Choose (term_of cond.now) (block_of block.now) Nothing) }
{
    let end = list_then(at, entries, cond, block);
    put(at.kernel, entries, end, Content::Plain(ItemKind::End), end);
}

#[cycle(statements)]
fn list_if_else<'a>(
    at: Context<'_>,
    entries: &mut Entries<'a>,
    cond: &'a Expr,
    block: &'a [Stmt],
    other: &'a [Stmt],
)
    requires following { array_vec_len entries.old ≤ at.from }
    requires fits { at.from + action_size (loop_index (program at.kernel.now))
        (Choose (term_of cond.now) (block_of block.now) (Else (block_of other.now))) ≤ 1000 }
    ensures items { entries_view entries.new.items ≡ entries_view entries.old.items
        ++ action_entries (program at.entry.kernel.now) at.entry.from
        (Choose (term_of cond.now) (block_of block.now) (Else (block_of other.now))) }
    ensures len { array_vec_len entries.new ≡ array_vec_len entries.old + action_size
        (loop_index (program at.entry.kernel.now))
        (Choose (term_of cond.now) (block_of block.now) (Else (block_of other.now))) }
{
    let place = list_then(at, entries, cond, block);
    let end = place + (1 + statements_size(at.kernel, other));
    let content = Content::Plain(ItemKind::Else);
    put(at.kernel, entries, place, content, end);
    list_block(
        Context {
            from: place + 1,
            ..at
        },
        entries,
        other,
    );
    put(at.kernel, entries, end, Content::Plain(ItemKind::End), end);
}

/// Lists the statements of a block.
#[cycle(statements)]
pub fn list_block<'a>(at: Context<'_>, entries: &mut Entries<'a>, block: &'a [Stmt])
    requires following { array_vec_len entries.old ≤ at.from }
    requires fits { at.from + block_size (loop_index (program at.kernel.now)) (block_of block.now) ≤ 1000 }
    ensures items { entries_view entries.new.items ≡ entries_view entries.old.items
        ++ block_entries (program at.entry.kernel.now) at.entry.from (block_of block.now) }
    ensures len { array_vec_len entries.new ≡ array_vec_len entries.old + block_size
        (loop_index (program at.entry.kernel.now)) (block_of block.now) }
{
    let [stmt, rest @ ..] = block else {
        return;
    };
    let next = at.from + count_items(at.kernel, stmt);
    list_stmt(at, entries, stmt);
    list_block(Context { from: next, ..at }, entries, rest);
}

/// Lists the accumulators with their initial values.
pub fn list_vars<'a>(at: Context<'_>, entries: &mut Entries<'a>, vars: &'a [Var])
    requires following { array_vec_len entries.old ≤ at.from }
    requires fits { at.from + vars_size (loop_index (program at.kernel.now)) (accumulators_of vars.now) ≤ 1000 }
    ensures items { entries_view entries.new.items ≡ entries_view entries.old.items
        ++ vars_entries (program at.entry.kernel.now) at.entry.from (accumulators_of vars.now) }
    ensures len { array_vec_len entries.new ≡ array_vec_len entries.old + vars_size
        (loop_index (program at.entry.kernel.now)) (accumulators_of vars.now) }
{
    let [var, rest @ ..] = vars else {
        return;
    };
    let next = at.from + expr_size(at.kernel, &var.init) + 1;
    let content = Content::Plain(ItemKind::Var);
    list_ended(at, entries, &var.init, content);
    list_vars(Context { from: next, ..at }, entries, rest);
}
