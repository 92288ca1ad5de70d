//! Branches to labels that are placed further on.

ghost use Rattle.std.specs.Prelude.{◌≡◌, ◌+◌, ◌<◌, ◌^◌, true, ◌∷◌, IfOk, OnOk};
ghost use Rattle.label_fix.specs.Emits.{Emits};
ghost use Rattle.label_fix.specs.Draft.{kind_view};
ghost use Rattle.label_fix.specs.Finished.{has_register};
ghost use Rattle.label_fix.specs.DraftRun as plain;

use label_fix::{BranchKind, Draft, Label};
use std::alloc::AllocError;

/// A branch to a new label.
pub fn branch_ahead(draft: &mut Draft, kind: BranchKind) -> Result<Label, AllocError>
    requires { has_register (kind_view kind) ≡ true }
    ensures label { IfOk result (λ l. l ≡ draft.old.labels) }
    ensures emits { OnOk result (Emits draft.old draft.new (draft.old.labels + 1)
        (λ rest. plain.Branch (kind_view kind) draft.old.labels ∷ rest)) }
{
    let ahead = draft.label()?;
    draft.branch(kind, ahead)?;
    Ok(ahead)
}

/// The place of a label, which is an item.
pub fn land(draft: &mut Draft, label: Label, item: &mut usize) -> Result<(), AllocError>
    requires given { label < draft.old.labels }
    requires room { item.old < 2 ^ 32 }
    ensures item { OnOk result (item.new ≡ item.old + 1) }
    ensures emits { OnOk result (Emits draft.old draft.new draft.old.labels (λ rest. plain.Place label ∷ rest)) }
{
    *item += 1;
    draft.place(label)
}
