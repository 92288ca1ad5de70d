//! Emits the code of literals.

ghost use Rattle.std.specs.Prelude.{◌≡◌, ◌+◌, ◌<◌, ◌^◌, IfOk, OnOk};
ghost use Rattle.label_fix.specs.Emits.{Emits};
ghost use Rattle.value_code.specs.ValueRegisters as placed;
ghost use Rattle.value_code.specs.Code as code;

use crate::registers::take;
use a64_code::Reg;
use kernel_meaning::{word, wrapped};
use kernel_tree::Ty;
use label_fix::Draft;
use scalar_words::operations::emit_const;
use scalar_words::{KernelLayout, Key};
use std::alloc::AllocError;

/// A literal, wrapped to the type that is wanted, into the register of its item, where no register holds it.
pub fn emit_literal(
    draft: &mut Draft,
    layout: &KernelLayout,
    want: Option<Ty>,
    value: i128,
    item: &mut usize,
) -> Result<Reg, AllocError>
    requires { item.old < 2 ^ 32 }
    ensures register { IfOk result (λ r. r.number ≡ placed.literal_home layout.now item.old value) }
    ensures item { OnOk result (item.new ≡ item.old + 1) }
    ensures emits { OnOk result (Emits draft.old draft.new draft.old.labels
        (code.literal_code layout.now want item.old value)) }
{
    let own = take(layout, item);
    match layout.constant(Key::Number(value)) {
        Some(held) => Ok(held),
        None => emit_const(draft, own, word(wrapped(want, value))).and(Ok(own)),
    }
}
