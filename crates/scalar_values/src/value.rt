//! Emits the code of whole values.

ghost use Rattle.std.specs.Prelude.{◌≡◌, ◌+◌, ◌<◌, ◌^◌, IfOk, OnOk};
ghost use Rattle.kernel_tree.specs.Plain.{term_of};
ghost use Rattle.kernel_tree.specs.Items.{term_size};
ghost use Rattle.kernel_tree.specs.Kinds.{IsValue};
ghost use Rattle.label_fix.specs.Emits.{Emits};
ghost use Rattle.scalar_words.specs.Sites.{at, at_index, index_at};
ghost use Rattle.value_code.specs.ValueRegisters as placed;
ghost use Rattle.value_code.specs.Code as code;

use crate::emit::emit_loose;
use a64_code::Reg;
use kernel_tree::{Expr, Ty};
use label_fix::Draft;
use scalar_words::Site;
use std::alloc::AllocError;
use value_code::extent::{Asked, Extent};

/// The code of an expression of which a type is wanted, and the register of its value.
pub fn emit_value(
    draft: &mut Draft,
    site: &Site,
    want: Option<Ty>,
    expr: &Expr,
    item: &mut usize,
) -> Result<Reg, AllocError>
    requires kind { IsValue (term_of expr.now) }
    requires fits { item.old + term_size (index_at site.now) (term_of expr.now) < 2 ^ 32 }
    ensures register { IfOk result (λ r. r.number
        ≡ at_index site.now placed.home item.old (term_of expr.now)) }
    ensures item { OnOk result (item.new ≡ item.old + term_size (index_at site.now) (term_of expr.now)) }
    ensures emits { OnOk result (Emits draft.old draft.new
        (draft.old.labels + code.labels (index_at site.now) (term_of expr.now))
        (at site.now code.value_code want item.old draft.old.labels
        (term_of expr.now))) }
{
    let extent = Extent::Whole;
    emit_loose(draft, site, Asked { extent, want }, expr, item)
}
