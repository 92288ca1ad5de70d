//! Goes over expressions, item by item.

ghost use Rattle.std.specs.Prelude.{◌≡◌, ◌∷◌, ◌++◌, [], ◌+◌, ◌<◌, ◌^◌, true, None};
ghost use Rattle.kernel_tree.specs.declared.ops.UnaryOp.TheVariants as unary;
ghost use Rattle.kernel_tree.specs.declared.ops.BinaryOp.TheVariants as binary;
ghost use Rattle.kernel_tree.specs.declared.ops.CompareOp.TheVariants as compare;
ghost use Rattle.kernel_tree.specs.Plain.{name_of, term_of, Element, Unary, Operation, Shift, Conversion, Choice, Comparison, Both, Either, Not};
ghost use Rattle.kernel_tree.specs.Items as items;
ghost use Rattle.kernel_tree.specs.Typing as typing;
ghost use Rattle.kernel_tree.specs.Typing.{Value};
ghost use Rattle.kernel_scope.specs.Scopes.{scope_of};
ghost use Rattle.kernel_types.specs.Parts.{role_of, Adds};

use crate::notes::{Notes, Role};
use crate::rules::{
    as_condition, as_value, index_fault, literal_fault, mismatch, name_fault, read_fault,
    shift_fault, sooner, untyped, wanted,
};
use kernel_scope::{Scope, first, lookup, own_type};
use kernel_size::stream_distance;
use kernel_tree::fault::Found;
use kernel_tree::{Expr, Name, Ty};

/// Goes past an item, at which this fault stands first and whose wanted type this is.
pub fn end(notes: &mut Notes, found: Option<Found>, ty: Option<Ty>)
    requires { notes.old.next + 1 < 2 ^ 32 }
    ensures next { notes.new.next ≡ notes.old.next + 1 }
    ensures found { notes.new.found ≡ typing.sooner notes.old.found found }
    ensures types { Adds notes.old notes.new (ty ∷ []) }
{
    if notes.types.push(ty).is_err() {
        notes.lost = true;
    }
    notes.found = sooner(notes.found, found);
    notes.next += 1;
}

fn walk_literal(notes: &mut Notes, role: Role, value: i128)
    requires { notes.old.next + 1 < 2 ^ 32 }
    ensures next { notes.new.next ≡ notes.old.next + 1 }
    ensures found { notes.new.found
        ≡ typing.sooner notes.old.found (typing.least
        (typing.as_value notes.old.next (role_of role)
        ++ typing.literal_faults notes.old.next (typing.wanted (role_of role)) value)) }
    ensures types { Adds notes.old notes.new (typing.wanted (role_of role) ∷ []) }
{
    let ty = wanted(role);
    let item = notes.next;
    let found = sooner(as_value(item, role), literal_fault(item, ty, value));
    end(notes, found, ty)
}

fn walk_name(notes: &mut Notes, scope: &Scope, role: Role, name: &Name)
    requires { notes.old.next + 1 < 2 ^ 32 }
    ensures next { notes.new.next ≡ notes.old.next + 1 }
    ensures found { notes.new.found
        ≡ typing.sooner notes.old.found (typing.least
        (typing.as_value notes.old.next (role_of role)
        ++ typing.name_faults notes.old.next (typing.wanted (role_of role))
        (typing.lookup (scope_of scope.now) (name_of name.now)))) }
    ensures types { Adds notes.old notes.new (typing.wanted (role_of role) ∷ []) }
{
    let ty = wanted(role);
    let item = notes.next;
    let found = sooner(
        as_value(item, role),
        name_fault(item, ty, lookup(scope, name)),
    );
    end(notes, found, ty)
}

// Goes past a shift by a count.
fn end_shift(notes: &mut Notes, role: Role, count: i128)
    requires { notes.old.next + 1 < 2 ^ 32 }
    ensures next { notes.new.next ≡ notes.old.next + 1 }
    ensures found { notes.new.found
        ≡ typing.sooner notes.old.found (typing.least
        (typing.as_value notes.old.next (role_of role)
        ++ typing.shift_faults notes.old.next (typing.wanted (role_of role)) count)) }
    ensures types { Adds notes.old notes.new (typing.wanted (role_of role) ∷ []) }
{
    let ty = wanted(role);
    let item = notes.next;
    let found = sooner(as_value(item, role), shift_fault(item, ty, count));
    end(notes, found, ty)
}

/// Goes over an expression in a place of this role.
#[cycle(terms)]
pub fn walk_expr(notes: &mut Notes, scope: &Scope, role: Role, expr: &Expr)
    requires { notes.old.next + items.term_size (scope_of scope.now).index (term_of expr.now) < 2 ^ 32 }
    ensures next { notes.new.next
        ≡ notes.old.next + items.term_size (scope_of scope.now).index (term_of expr.now) }
    ensures found { notes.new.found
        ≡ typing.sooner notes.old.found (typing.least
        (typing.faults (scope_of scope.now) notes.old.next (role_of role) (term_of expr.now))) }
    ensures types { Adds notes.old notes.new
        (typing.term_types (scope_of scope.now) (role_of role) (term_of expr.now)) }
{
    match expr {
        Expr::Lit(value) => walk_literal(notes, role, *value),
        Expr::Var(name) => walk_name(notes, scope, role, name),
        Expr::Read { array, index } => walk_read(notes, scope, role, array, index),
        Expr::Unary { arg, .. } => walk_unary(notes, scope, role, arg),
        Expr::Binary { left, right, .. } => walk_binary(notes, scope, role, left, right),
        Expr::Shift { arg, count, .. } => walk_shift(notes, scope, role, arg, *count),
        Expr::Cast { arg, ty } => walk_cast(notes, scope, role, arg, *ty),
        Expr::Select { cond, yes, no } => walk_select(notes, scope, role, cond, yes, no),
        Expr::Compare { left, right, .. } => walk_compare(notes, scope, role, left, right),
        Expr::And { left, right } => walk_and(notes, scope, role, left, right),
        Expr::Or { left, right } => walk_or(notes, scope, role, left, right),
        Expr::Not { arg } => walk_not(notes, scope, role, arg),
    }
}

// Goes over the items of an index, of which a stream index has none.
#[cycle(terms)]
#[tactic(auto, using(crate::proofs::LeastFault::sooner_rules))]
fn walk_index(notes: &mut Notes, scope: &Scope, index: &Expr)
    requires { notes.old.next + items.index_items (scope_of scope.now).index (term_of index.now) < 2 ^ 32 }
    ensures next { notes.new.next
        ≡ notes.old.next + items.index_items (scope_of scope.now).index (term_of index.now) }
    ensures found { notes.new.found
        ≡ typing.sooner notes.old.found (typing.least
        (typing.inner_faults (items.stream_offset (scope_of scope.now).index (term_of index.now))
        (typing.faults (scope_of scope.now) notes.old.next
        (Value (typing.index_type (scope_of scope.now) (term_of index.now))) (term_of index.now)))) }
    ensures types { Adds notes.old notes.new (typing.inner_types
        (items.stream_offset (scope_of scope.now).index (term_of index.now))
        (typing.term_types (scope_of scope.now) (Value (typing.index_type (scope_of scope.now) (term_of index.now)))
        (term_of index.now))) }
{
    match stream_distance(scope.index, index) {
        Some(_) => {}
        None => {
            let ty = first(own_type(scope, index), Some(Ty::U64));
            walk_expr(notes, scope, Role::Value(ty), index)
        }
    }
}

#[cycle(terms)]
fn walk_read(notes: &mut Notes, scope: &Scope, role: Role, array: &Name, index: &Expr)
    requires { notes.old.next + items.term_size (scope_of scope.now).index
        (Element (name_of array.now) (term_of index.now)) < 2 ^ 32 }
    ensures next { notes.new.next
        ≡ notes.old.next + items.term_size (scope_of scope.now).index
        (Element (name_of array.now) (term_of index.now)) }
    ensures found { notes.new.found
        ≡ typing.sooner notes.old.found (typing.least
        (typing.faults (scope_of scope.now) notes.old.next (role_of role)
        (Element (name_of array.now) (term_of index.now)))) }
    ensures types { Adds notes.old notes.new (typing.term_types (scope_of scope.now) (role_of role)
        (Element (name_of array.now) (term_of index.now))) }
{
    walk_index(notes, scope, index);
    let ty = wanted(role);
    let item = notes.next;
    let read = read_fault(item, scope.inside, ty, lookup(scope, array));
    let distance = stream_distance(scope.index, index);
    let at = index_fault(item, distance, own_type(scope, index));
    end(notes, sooner(as_value(item, role), sooner(read, at)), ty)
}

#[cycle(terms)]
fn walk_unary(notes: &mut Notes, scope: &Scope, role: Role, arg: &Expr)
    requires { notes.old.next + items.term_size (scope_of scope.now).index
        (Unary unary.Neg (term_of arg.now)) < 2 ^ 32 }
    ensures next { notes.new.next
        ≡ notes.old.next + items.term_size (scope_of scope.now).index (Unary unary.Neg (term_of arg.now)) }
    ensures found { notes.new.found
        ≡ typing.sooner notes.old.found (typing.least
        (typing.faults (scope_of scope.now) notes.old.next (role_of role) (Unary unary.Neg (term_of arg.now)))) }
    ensures types { Adds notes.old notes.new (typing.term_types (scope_of scope.now) (role_of role)
        (Unary unary.Neg (term_of arg.now))) }
{
    let ty = wanted(role);
    walk_expr(notes, scope, Role::Value(ty), arg);
    end(notes, as_value(notes.next, role), ty)
}

#[cycle(terms)]
fn walk_binary(notes: &mut Notes, scope: &Scope, role: Role, left: &Expr, right: &Expr)
    requires { notes.old.next + items.term_size (scope_of scope.now).index
        (Operation binary.Add (term_of left.now) (term_of right.now)) < 2 ^ 32 }
    ensures next { notes.new.next
        ≡ notes.old.next + items.term_size (scope_of scope.now).index
        (Operation binary.Add (term_of left.now) (term_of right.now)) }
    ensures found { notes.new.found
        ≡ typing.sooner notes.old.found (typing.least
        (typing.faults (scope_of scope.now) notes.old.next (role_of role)
        (Operation binary.Add (term_of left.now) (term_of right.now)))) }
    ensures types { Adds notes.old notes.new (typing.term_types (scope_of scope.now) (role_of role)
        (Operation binary.Add (term_of left.now) (term_of right.now))) }
{
    let ty = wanted(role);
    walk_expr(notes, scope, Role::Value(ty), left);
    walk_expr(notes, scope, Role::Value(ty), right);
    end(notes, as_value(notes.next, role), ty)
}

#[cycle(terms)]
fn walk_shift(notes: &mut Notes, scope: &Scope, role: Role, arg: &Expr, count: i128)
    requires { notes.old.next + items.term_size (scope_of scope.now).index
        (Shift true (term_of arg.now) count) < 2 ^ 32 }
    ensures next { notes.new.next
        ≡ notes.old.next + items.term_size (scope_of scope.now).index (Shift true (term_of arg.now) count) }
    ensures found { notes.new.found
        ≡ typing.sooner notes.old.found (typing.least
        (typing.faults (scope_of scope.now) notes.old.next (role_of role) (Shift true (term_of arg.now) count))) }
    ensures types { Adds notes.old notes.new (typing.term_types (scope_of scope.now) (role_of role)
        (Shift true (term_of arg.now) count)) }
{
    walk_expr(notes, scope, Role::Value(wanted(role)), arg);
    end_shift(notes, role, count)
}

#[cycle(terms)]
fn walk_cast(notes: &mut Notes, scope: &Scope, role: Role, arg: &Expr, ty: Ty)
    requires { notes.old.next + items.term_size (scope_of scope.now).index (Conversion (term_of arg.now) ty) < 2 ^ 32 }
    ensures next { notes.new.next
        ≡ notes.old.next + items.term_size (scope_of scope.now).index (Conversion (term_of arg.now) ty) }
    ensures found { notes.new.found
        ≡ typing.sooner notes.old.found (typing.least
        (typing.faults (scope_of scope.now) notes.old.next (role_of role) (Conversion (term_of arg.now) ty))) }
    ensures types { Adds notes.old notes.new (typing.term_types (scope_of scope.now) (role_of role)
        (Conversion (term_of arg.now) ty)) }
{
    let own = own_type(scope, arg);
    walk_expr(notes, scope, Role::Value(own), arg);
    let want = wanted(role);
    let item = notes.next;
    let found = sooner(mismatch(item, want, ty), untyped(item, own));
    end(notes, sooner(as_value(item, role), found), want)
}

#[cycle(terms)]
fn walk_select(notes: &mut Notes, scope: &Scope, role: Role, cond: &Expr, yes: &Expr, no: &Expr)
    requires { notes.old.next + items.term_size (scope_of scope.now).index
        (Choice (term_of cond.now) (term_of yes.now) (term_of no.now)) < 2 ^ 32 }
    ensures next { notes.new.next
        ≡ notes.old.next + items.term_size (scope_of scope.now).index
        (Choice (term_of cond.now) (term_of yes.now) (term_of no.now)) }
    ensures found { notes.new.found
        ≡ typing.sooner notes.old.found (typing.least
        (typing.faults (scope_of scope.now) notes.old.next (role_of role)
        (Choice (term_of cond.now) (term_of yes.now) (term_of no.now)))) }
    ensures types { Adds notes.old notes.new (typing.term_types (scope_of scope.now) (role_of role)
        (Choice (term_of cond.now) (term_of yes.now) (term_of no.now))) }
{
    let ty = wanted(role);
    walk_expr(notes, scope, Role::Value(ty), yes);
    walk_expr(notes, scope, Role::Value(ty), no);
    walk_expr(notes, scope, Role::Condition, cond);
    end(notes, as_value(notes.next, role), ty)
}

#[cycle(terms)]
fn walk_compare(notes: &mut Notes, scope: &Scope, role: Role, left: &Expr, right: &Expr)
    requires { notes.old.next + items.term_size (scope_of scope.now).index
        (Comparison compare.Eq (term_of left.now) (term_of right.now)) < 2 ^ 32 }
    ensures next { notes.new.next
        ≡ notes.old.next + items.term_size (scope_of scope.now).index
        (Comparison compare.Eq (term_of left.now) (term_of right.now)) }
    ensures found { notes.new.found
        ≡ typing.sooner notes.old.found (typing.least
        (typing.faults (scope_of scope.now) notes.old.next (role_of role)
        (Comparison compare.Eq (term_of left.now) (term_of right.now)))) }
    ensures types { Adds notes.old notes.new (typing.term_types (scope_of scope.now) (role_of role)
        (Comparison compare.Eq (term_of left.now) (term_of right.now))) }
{
    let side = first(own_type(scope, left), own_type(scope, right));
    walk_expr(notes, scope, Role::Value(side), left);
    walk_expr(notes, scope, Role::Value(side), right);
    let item = notes.next;
    let found = sooner(as_condition(item, role), untyped(item, side));
    end(notes, found, None)
}

#[cycle(terms)]
fn walk_and(notes: &mut Notes, scope: &Scope, role: Role, left: &Expr, right: &Expr)
    requires { notes.old.next + items.term_size (scope_of scope.now).index
        (Both (term_of left.now) (term_of right.now)) < 2 ^ 32 }
    ensures next { notes.new.next
        ≡ notes.old.next + items.term_size (scope_of scope.now).index (Both (term_of left.now) (term_of right.now)) }
    ensures found { notes.new.found
        ≡ typing.sooner notes.old.found (typing.least
        (typing.faults (scope_of scope.now) notes.old.next (role_of role)
        (Both (term_of left.now) (term_of right.now)))) }
    ensures types { Adds notes.old notes.new (typing.term_types (scope_of scope.now) (role_of role)
        (Both (term_of left.now) (term_of right.now))) }
{
    walk_expr(notes, scope, Role::Condition, left);
    walk_expr(notes, scope, Role::Condition, right);
    end(notes, as_condition(notes.next, role), None)
}

#[cycle(terms)]
fn walk_or(notes: &mut Notes, scope: &Scope, role: Role, left: &Expr, right: &Expr)
    requires { notes.old.next + items.term_size (scope_of scope.now).index
        (Either (term_of left.now) (term_of right.now)) < 2 ^ 32 }
    ensures next { notes.new.next
        ≡ notes.old.next + items.term_size (scope_of scope.now).index (Either (term_of left.now) (term_of right.now)) }
    ensures found { notes.new.found
        ≡ typing.sooner notes.old.found (typing.least
        (typing.faults (scope_of scope.now) notes.old.next (role_of role)
        (Either (term_of left.now) (term_of right.now)))) }
    ensures types { Adds notes.old notes.new (typing.term_types (scope_of scope.now) (role_of role)
        (Either (term_of left.now) (term_of right.now))) }
{
    walk_expr(notes, scope, Role::Condition, left);
    end(notes, None, None);
    walk_expr(notes, scope, Role::Condition, right);
    end(notes, as_condition(notes.next, role), None)
}

#[cycle(terms)]
fn walk_not(notes: &mut Notes, scope: &Scope, role: Role, arg: &Expr)
    requires { notes.old.next + items.term_size (scope_of scope.now).index (Not (term_of arg.now)) < 2 ^ 32 }
    ensures next { notes.new.next
        ≡ notes.old.next + items.term_size (scope_of scope.now).index (Not (term_of arg.now)) }
    ensures found { notes.new.found
        ≡ typing.sooner notes.old.found (typing.least
        (typing.faults (scope_of scope.now) notes.old.next (role_of role) (Not (term_of arg.now)))) }
    ensures types { Adds notes.old notes.new
        (typing.term_types (scope_of scope.now) (role_of role) (Not (term_of arg.now))) }
{
    walk_expr(notes, scope, Role::Condition, arg);
    end(notes, as_condition(notes.next, role), None)
}
