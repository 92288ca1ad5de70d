//! The registers of values.

ghost use Rattle.std.specs.Prelude.{◌≡◌, ◌+◌, ◌<◌, ◌^◌};
ghost use Rattle.kernel_tree.specs.Plain.{name_of, term_of};
ghost use Rattle.kernel_tree.specs.Items.{term_size};
ghost use Rattle.kernel_scope.specs.Scopes.{scope_of};
ghost use Rattle.scalar_words.specs.View.{homes_of};
ghost use Rattle.value_code.specs.ValueRegisters as placed;
ghost use Rattle.scalar_words.specs.Layout as layouts;
ghost use Rattle.scalar_words.specs.Sites.{at_index, index_at};

use a64_code::{Reg, zero};
use kernel_scope::Scope;
use kernel_size::term_size;
use kernel_tree::{Expr, Name};
use scalar_words::{KernelLayout, Key, Site};

/// The register of an item's value, after which the next item stands.
pub fn take(layout: &KernelLayout, item: &mut usize) -> Reg
    requires { item.old < 2 ^ 32 }
    ensures register { result.number ≡ layouts.reg_of layout.now item.old }
    ensures item { item.new ≡ item.old + 1 }
{
    let r = layout.reg(*item);
    *item += 1;
    r
}

/// The register in which a name is held, after which the next item stands.
pub fn take_held(site: &Site, name: &Name, item: &mut usize) -> Reg
    requires { item.old < 2 ^ 32 }
    ensures register { result.number ≡ layouts.register_at (homes_of site.now.homes.items) (name_of name.now) }
    ensures item { item.new ≡ item.old + 1 }
{
    *item += 1;
    site.register(name)
}

// The register in which a literal stands.
fn number_home(layout: &KernelLayout, value: i128, item: usize) -> Reg
    ensures { result.number ≡ placed.literal_home layout.now item value }
{
    match layout.constant(Key::Number(value)) {
        Some(held) => held,
        None => layout.reg(item),
    }
}

/// The items of an expression.
pub fn expr_size(scope: &Scope, expr: &Expr) -> usize
    requires { term_size (scope_of scope.now).index (term_of expr.now) < 2 ^ 32 }
    ensures { result ≡ term_size (scope_of scope.now).index (term_of expr.now) }
{
    term_size(scope.index, expr) as usize
}

/// The register of the value of an expression, whose items begin at one.
pub fn home_of(site: &Site, expr: &Expr, item: usize) -> Reg
    requires { item + term_size (index_at site.now) (term_of expr.now) < 2 ^ 32 }
    ensures { result.number ≡ at_index site.now placed.home item (term_of expr.now) }
{
    match expr {
        Expr::Lit(value) => number_home(&site.layout, *value, item),
        Expr::Var(name) => site.register(name),
        Expr::Read { .. }
        | Expr::Unary { .. }
        | Expr::Shift { .. }
        | Expr::Cast { .. }
        | Expr::Binary { .. }
        | Expr::Select { .. } => site.layout.reg(item + expr_size(&site.scope, expr) - 1),
        _ => zero(),
    }
}
