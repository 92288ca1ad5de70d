//! Lists what the items of expressions in a loop do.

ghost use Rattle.std.specs.Prelude.{◌≡◌, ◌+◌, ◌≤◌, List, ℕ, ◌∷◌, ◌++◌, None, false};
ghost use Rattle.kernel_tree.specs.Plain.{Element, Unary, Operation, Shift, Conversion, Choice, Comparison, Both, Either, Not, name_of, term_of};
ghost use Rattle.kernel_tree.specs.Items.{loop_index, term_size};
ghost use Rattle.kernel_tree.specs.Typing.{index_type};
ghost use Rattle.loop_form.specs.LoopItems.{Item, item, gather_item, term_items, home, truth_home};
ghost use Rattle.loop_form.specs.LoopView.{op_of, view, env_of, scope_of, AppendsValue, AppendsCondition};
ghost use Rattle.loop_form.specs.Near.{NearTerm};
ghost use Rattle.loop_form.specs.View.{program};

use crate::context::Context;
use crate::listed::Listed;
use crate::operands::{condition_item, source};
use crate::visible::{
    array_type_of, first_type, index_source_of, index_type_of, operand_of, own_type,
};
use kernel_tree::{BinaryOp, CompareOp, Expr, Name, Ty, UnaryOp};
use loop_form::size::expr_size;
use loop_form::visible::Visible;
use loop_form::{LoopItem, LoopOp, Operand, offset, type_reach};

/// Appends an item.
pub fn append<'a>(listed: &mut Listed<'a>, number: u32, mask: Option<u32>, op: LoopOp<'a>)
    ensures kept { listed.new.short ≡ false → listed.old.short ≡ false }
    ensures items { listed.new.short ≡ false → (rest : List Item) →
        view listed.new.items.items ++ rest ≡ view listed.old.items.items ++ item number mask (op_of op.entry) ∷ rest }
{
    let item = LoopItem {
        item: number,
        mask,
        op,
    };
    if listed.items.push(item).is_err() {
        listed.short = true;
    }
}

// Lists the items of a value of a type.
#[cycle(loop_values)]
fn list_value<'a>(
    at: Context<'_>,
    names: &[Visible<'a>],
    listed: &mut Listed<'a>,
    want: Option<Ty>,
    expr: &'a Expr,
)
    requires fits { at.from + term_size (loop_index (program at.kernel.now)) (term_of expr.now) ≤ 1000 }
    requires near { NearTerm (loop_index (program at.kernel.now)) (term_of expr.now) }
    ensures kept { listed.new.short ≡ false → listed.old.short ≡ false }
    ensures items { listed.new.short ≡ false → AppendsValue (loop_index (program at.entry.kernel.now)) names.now want
        at.entry.mask at.entry.from (term_of expr.now) listed.old.items.items listed.new.items.items }
{
    match expr {
        Expr::Read { array, index } => list_read(at, names, listed, array, index),
        Expr::Unary { op, arg } => list_unary(at, names, listed, want, *op, arg),
        Expr::Binary { op, left, right } => list_binary(at, names, listed, want, *op, left, right),
        Expr::Shift {
            left_shift: left,
            arg,
            count,
        } => list_shift(at, names, listed, want, *left, arg, count),
        Expr::Cast { arg, ty } => list_cast(at, names, listed, arg, *ty),
        Expr::Select { cond, yes, no } => list_select(at, names, listed, want, yes, no, cond),
        _ => (),
    }
}

// A read of an element.
#[cycle(loop_values)]
fn list_read<'a>(
    at: Context<'_>,
    names: &[Visible<'a>],
    listed: &mut Listed<'a>,
    array: &'a Name,
    index: &'a Expr,
)
    requires fits { at.from + term_size (loop_index (program at.kernel.now))
        (Element (name_of array.now) (term_of index.now)) ≤ 1000 }
    requires near { NearTerm (loop_index (program at.kernel.now))
        (Element (name_of array.now) (term_of index.now)) }
    ensures kept { listed.new.short ≡ false → listed.old.short ≡ false }
    ensures items { listed.new.short ≡ false → AppendsValue (loop_index (program at.entry.kernel.now)) names.now None
        at.entry.mask at.entry.from (Element (name_of array.now) (term_of index.now))
        listed.old.items.items listed.new.items.items }
{
    match offset(at.kernel, index) {
        Some(offset) => {
            let array = array.text();
            let op = LoopOp::Load {
                array,
                base: operand_of(names, array),
                ty: array_type_of(names, array),
                offset,
            };
            append(listed, at.from, at.mask, op);
        }
        None => list_gather(at, names, listed, array, index),
    }
}

// A read at a computed index: what makes the index, and then the read.
#[cycle(loop_values)]
fn list_gather<'a>(
    at: Context<'_>,
    names: &[Visible<'a>],
    listed: &mut Listed<'a>,
    array: &'a Name,
    index: &'a Expr,
)
    requires fits { at.from + (term_size (loop_index (program at.kernel.now)) (term_of index.now) + 1) ≤ 1000 }
    requires near { NearTerm (loop_index (program at.kernel.now)) (term_of index.now) }
    ensures kept { listed.new.short ≡ false → listed.old.short ≡ false }
    ensures items { listed.new.short ≡ false → (taken : List (List ℕ)) (rest : List Item) → let i = loop_index
        (program at.entry.kernel.now) in let scope = scope_of i names.now taken in
        view listed.new.items.items ++ rest ≡ view listed.old.items.items ++ term_items
        scope (index_type scope (term_of index.now)) at.entry.mask at.entry.from (env_of names.now) (term_of index.now)
        (gather_item scope at.entry.mask at.entry.from (at.entry.from + term_size i (term_of index.now))
        (env_of names.now) (name_of array.now) (term_of index.now) ∷ rest) }
{
    let want = index_type_of(names, index);
    let array = array.text();
    let op = LoopOp::Gather {
        array,
        base: operand_of(names, array),
        ty: array_type_of(names, array),
        reach: type_reach(index_source_of(names, index)),
        index_ty: want,
        index: source(at.kernel, names, want, at.from, index),
    };
    list_value(at, names, listed, want, index);
    append(listed, at.from + expr_size(at.kernel, index), at.mask, op);
}

/// Lists an operand, and says where it is held.
#[cycle(loop_values)]
pub fn list_operand<'a>(
    at: Context<'_>,
    names: &[Visible<'a>],
    listed: &mut Listed<'a>,
    want: Option<Ty>,
    arg: &'a Expr,
) -> Operand
    requires fits { at.from + term_size (loop_index (program at.kernel.now)) (term_of arg.now) ≤ 1000 }
    requires near { NearTerm (loop_index (program at.kernel.now)) (term_of arg.now) }
    ensures source { result ≡ home (loop_index (program at.entry.kernel.now)) want at.entry.from (env_of names.now)
        (term_of arg.now) }
    ensures kept { listed.new.short ≡ false → listed.old.short ≡ false }
    ensures items { listed.new.short ≡ false → AppendsValue (loop_index (program at.entry.kernel.now)) names.now want
        at.entry.mask at.entry.from (term_of arg.now) listed.old.items.items listed.new.items.items }
{
    list_value(at, names, listed, want, arg);
    source(at.kernel, names, want, at.from, arg)
}

// A unary operator.
#[cycle(loop_values)]
fn list_unary<'a>(
    at: Context<'_>,
    names: &[Visible<'a>],
    listed: &mut Listed<'a>,
    want: Option<Ty>,
    op: UnaryOp,
    arg: &'a Expr,
)
    requires fits { at.from + (term_size (loop_index (program at.kernel.now)) (term_of arg.now) + 1) ≤ 1000 }
    requires near { NearTerm (loop_index (program at.kernel.now)) (term_of arg.now) }
    ensures kept { listed.new.short ≡ false → listed.old.short ≡ false }
    ensures items { listed.new.short ≡ false → AppendsValue (loop_index (program at.entry.kernel.now)) names.now want
        at.entry.mask at.entry.from (Unary op (term_of arg.now)) listed.old.items.items listed.new.items.items }
{
    let value = list_operand(at, names, listed, want, arg);
    let op = LoopOp::Unary {
        op,
        ty: want,
        arg: value,
    };
    append(listed, at.from + expr_size(at.kernel, arg), at.mask, op);
}

// A binary operator.
#[cycle(loop_values)]
fn list_binary<'a>(
    at: Context<'_>,
    names: &[Visible<'a>],
    listed: &mut Listed<'a>,
    want: Option<Ty>,
    op: BinaryOp,
    left: &'a Expr,
    right: &'a Expr,
)
    requires fits { at.from + term_size (loop_index (program at.kernel.now))
        (Operation op (term_of left.now) (term_of right.now)) ≤ 1000 }
    requires near { NearTerm (loop_index (program at.kernel.now))
        (Operation op (term_of left.now) (term_of right.now)) }
    ensures kept { listed.new.short ≡ false → listed.old.short ≡ false }
    ensures items { listed.new.short ≡ false → AppendsValue (loop_index (program at.entry.kernel.now)) names.now want
        at.entry.mask at.entry.from (Operation op (term_of left.now) (term_of right.now))
        listed.old.items.items listed.new.items.items }
{
    let next = at.from + expr_size(at.kernel, left);
    let first = list_operand(at, names, listed, want, left);
    let second = list_operand(Context { from: next, ..at }, names, listed, want, right);
    let op = LoopOp::Binary {
        op,
        ty: want,
        left: first,
        right: second,
    };
    append(listed, next + expr_size(at.kernel, right), at.mask, op);
}

// A conversion: its operand has its own type, and what is wanted of the whole plays no part.
#[cycle(loop_values)]
fn list_cast<'a>(
    at: Context<'_>,
    names: &[Visible<'a>],
    listed: &mut Listed<'a>,
    arg: &'a Expr,
    ty: Ty,
)
    requires fits { at.from + (term_size (loop_index (program at.kernel.now)) (term_of arg.now) + 1) ≤ 1000 }
    requires near { NearTerm (loop_index (program at.kernel.now)) (term_of arg.now) }
    ensures kept { listed.new.short ≡ false → listed.old.short ≡ false }
    ensures items { listed.new.short ≡ false → AppendsValue (loop_index (program at.entry.kernel.now)) names.now None
        at.entry.mask at.entry.from (Conversion (term_of arg.now) ty) listed.old.items.items listed.new.items.items }
{
    let own = own_type(names, arg);
    let value = list_operand(at, names, listed, own, arg);
    let op = LoopOp::Cast {
        from: own,
        to: ty,
        arg: value,
    };
    append(listed, at.from + expr_size(at.kernel, arg), at.mask, op);
}

// A shift by a count.
#[cycle(loop_values)]
fn list_shift<'a>(
    at: Context<'_>,
    names: &[Visible<'a>],
    listed: &mut Listed<'a>,
    want: Option<Ty>,
    left: bool,
    arg: &'a Expr,
    count: &i128,
)
    requires fits { at.from + (term_size (loop_index (program at.kernel.now)) (term_of arg.now) + 1) ≤ 1000 }
    requires near { NearTerm (loop_index (program at.kernel.now)) (term_of arg.now) }
    ensures kept { listed.new.short ≡ false → listed.old.short ≡ false }
    ensures items { listed.new.short ≡ false → AppendsValue (loop_index (program at.entry.kernel.now)) names.now want
        at.entry.mask at.entry.from (Shift left (term_of arg.now) count.now)
        listed.old.items.items listed.new.items.items }
{
    let value = list_operand(at, names, listed, want, arg);
    let op = LoopOp::Shift {
        left,
        count: *count,
        ty: want,
        arg: value,
    };
    append(listed, at.from + expr_size(at.kernel, arg), at.mask, op);
}

// `select`: both values, the condition, and the choice.
#[cycle(loop_values)]
fn list_select<'a>(
    at: Context<'_>,
    names: &[Visible<'a>],
    listed: &mut Listed<'a>,
    want: Option<Ty>,
    yes: &'a Expr,
    no: &'a Expr,
    cond: &'a Expr,
)
    requires fits { at.from + term_size (loop_index (program at.kernel.now))
        (Choice (term_of cond.now) (term_of yes.now) (term_of no.now)) ≤ 1000 }
    requires near { NearTerm (loop_index (program at.kernel.now))
        (Choice (term_of cond.now) (term_of yes.now) (term_of no.now)) }
    ensures kept { listed.new.short ≡ false → listed.old.short ≡ false }
    ensures items { listed.new.short ≡ false → AppendsValue (loop_index (program at.entry.kernel.now)) names.now want
        at.entry.mask at.entry.from (Choice (term_of cond.now) (term_of yes.now)
        (term_of no.now)) listed.old.items.items listed.new.items.items }
{
    let next = at.from + expr_size(at.kernel, yes);
    let last = next + expr_size(at.kernel, no);
    let first = list_operand(at, names, listed, want, yes);
    let second = list_operand(Context { from: next, ..at }, names, listed, want, no);
    let op = LoopOp::Select {
        ty: want,
        cond: list_truth(Context { from: last, ..at }, names, listed, cond),
        yes: first,
        no: second,
    };
    append(listed, last + expr_size(at.kernel, cond), at.mask, op);
}

// Lists the items of a condition.
#[cycle(loop_values)]
fn list_condition<'a>(
    at: Context<'_>,
    names: &[Visible<'a>],
    listed: &mut Listed<'a>,
    expr: &'a Expr,
)
    requires fits { at.from + term_size (loop_index (program at.kernel.now)) (term_of expr.now) ≤ 1000 }
    requires near { NearTerm (loop_index (program at.kernel.now)) (term_of expr.now) }
    ensures kept { listed.new.short ≡ false → listed.old.short ≡ false }
    ensures items { listed.new.short ≡ false → AppendsCondition (loop_index (program at.entry.kernel.now)) names.now
        at.entry.mask at.entry.from (term_of expr.now) listed.old.items.items listed.new.items.items }
{
    match expr {
        Expr::Compare { op, left, right } => { list_compared(at, names, listed, *op, left, right) }
        Expr::And { left, right } => list_and(at, names, listed, left, right),
        Expr::Or { left, right } => list_or(at, names, listed, left, right),
        Expr::Not { arg } => list_not(at, names, listed, arg),
        _ => (),
    }
}

/// Lists a condition, and says which item it is.
#[cycle(loop_values)]
pub fn list_truth<'a>(
    at: Context<'_>,
    names: &[Visible<'a>],
    listed: &mut Listed<'a>,
    cond: &'a Expr,
) -> u32
    requires fits { at.from + term_size (loop_index (program at.kernel.now)) (term_of cond.now) ≤ 1000 }
    requires near { NearTerm (loop_index (program at.kernel.now)) (term_of cond.now) }
    ensures item { result ≡ truth_home (loop_index (program at.entry.kernel.now)) at.entry.from (term_of cond.now) }
    ensures kept { listed.new.short ≡ false → listed.old.short ≡ false }
    ensures items { listed.new.short ≡ false → AppendsCondition (loop_index (program at.entry.kernel.now)) names.now
        at.entry.mask at.entry.from (term_of cond.now) listed.old.items.items listed.new.items.items }
{
    list_condition(at, names, listed, cond);
    condition_item(at.kernel, at.from, cond)
}

// A comparison: both sides have the first type that one of them has of its own.
#[cycle(loop_values)]
fn list_compared<'a>(
    at: Context<'_>,
    names: &[Visible<'a>],
    listed: &mut Listed<'a>,
    op: CompareOp,
    left: &'a Expr,
    right: &'a Expr,
)
    requires fits { at.from + term_size (loop_index (program at.kernel.now))
        (Comparison op (term_of left.now) (term_of right.now)) ≤ 1000 }
    requires near { NearTerm (loop_index (program at.kernel.now))
        (Comparison op (term_of left.now) (term_of right.now)) }
    ensures kept { listed.new.short ≡ false → listed.old.short ≡ false }
    ensures items { listed.new.short ≡ false → AppendsCondition (loop_index (program at.entry.kernel.now)) names.now
        at.entry.mask at.entry.from (Comparison op (term_of left.now) (term_of right.now))
        listed.old.items.items listed.new.items.items }
{
    let want = first_type(own_type(names, left), own_type(names, right));
    let next = at.from + expr_size(at.kernel, left);
    let first = list_operand(at, names, listed, want, left);
    let second = list_operand(Context { from: next, ..at }, names, listed, want, right);
    let op = LoopOp::Compare {
        op,
        ty: want,
        left: first,
        right: second,
    };
    append(listed, next + expr_size(at.kernel, right), at.mask, op);
}

// `&&`: its right side is done where the left one holds.
#[cycle(loop_values)]
fn list_and<'a>(
    at: Context<'_>,
    names: &[Visible<'a>],
    listed: &mut Listed<'a>,
    left: &'a Expr,
    right: &'a Expr,
)
    requires fits { at.from + term_size (loop_index (program at.kernel.now))
        (Both (term_of left.now) (term_of right.now)) ≤ 1000 }
    requires near { NearTerm (loop_index (program at.kernel.now)) (Both (term_of left.now) (term_of right.now)) }
    ensures kept { listed.new.short ≡ false → listed.old.short ≡ false }
    ensures items { listed.new.short ≡ false → AppendsCondition (loop_index (program at.entry.kernel.now)) names.now
        at.entry.mask at.entry.from (Both (term_of left.now) (term_of right.now))
        listed.old.items.items listed.new.items.items }
{
    let next = at.from + expr_size(at.kernel, left);
    let first = list_truth(at, names, listed, left);
    let second = list_truth(
        Context {
            mask: Some(first),
            from: next,
            ..at
        },
        names,
        listed,
        right,
    );
    append(
        listed,
        next + expr_size(at.kernel, right),
        at.mask,
        LoopOp::And(second),
    );
}

// `||`: its right side is done where its mark holds, which does where the left one does not.
#[cycle(loop_values)]
fn list_or<'a>(
    at: Context<'_>,
    names: &[Visible<'a>],
    listed: &mut Listed<'a>,
    left: &'a Expr,
    right: &'a Expr,
)
    requires fits { at.from + term_size (loop_index (program at.kernel.now))
        (Either (term_of left.now) (term_of right.now)) ≤ 1000 }
    requires near { NearTerm (loop_index (program at.kernel.now)) (Either (term_of left.now) (term_of right.now)) }
    ensures kept { listed.new.short ≡ false → listed.old.short ≡ false }
    ensures items { listed.new.short ≡ false → AppendsCondition (loop_index (program at.entry.kernel.now)) names.now
        at.entry.mask at.entry.from (Either (term_of left.now) (term_of right.now))
        listed.old.items.items listed.new.items.items }
{
    let mark = at.from + expr_size(at.kernel, left);
    let first = list_truth(at, names, listed, left);
    append(listed, mark, at.mask, LoopOp::Not(first));
    let second = list_truth(
        Context {
            mask: Some(mark),
            from: mark + 1,
            ..at
        },
        names,
        listed,
        right,
    );
    append(
        listed,
        mark + 1 + expr_size(at.kernel, right),
        at.mask,
        LoopOp::Or(first, second),
    );
}

// `!`: it holds where its operand does not.
#[cycle(loop_values)]
fn list_not<'a>(at: Context<'_>, names: &[Visible<'a>], listed: &mut Listed<'a>, arg: &'a Expr)
    requires fits { at.from + term_size (loop_index (program at.kernel.now)) (Not (term_of arg.now)) ≤ 1000 }
    requires near { NearTerm (loop_index (program at.kernel.now)) (term_of arg.now) }
    ensures kept { listed.new.short ≡ false → listed.old.short ≡ false }
    ensures items { listed.new.short ≡ false → AppendsCondition (loop_index (program at.entry.kernel.now)) names.now
        at.entry.mask at.entry.from (Not (term_of arg.now)) listed.old.items.items listed.new.items.items }
{
    let first = list_truth(at, names, listed, arg);
    append(
        listed,
        at.from + expr_size(at.kernel, arg),
        at.mask,
        LoopOp::Not(first),
    );
}
