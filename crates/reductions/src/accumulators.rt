//! Accumulators of a loop: their operators, their types and their vector registers.

ghost use Rattle.std.specs.Prelude.{◌≡◌, ◌<◌, length, slice_index, unwrap_or};
ghost use Rattle.std.specs.List.{find};
ghost use Rattle.kernel_tree.specs.declared.ops.Ty.TheVariants.{U64};
ghost use Rattle.kernel_tree.specs.Plain.{accumulators_of};
ghost use Rattle.reg_assign.specs.Registers.{IsAssignment};
ghost use Rattle.loop_form.specs.Lanes as lanes;
ghost use Rattle.loop_form.specs.Needs.{updates};
ghost use Rattle.loop_form.specs.View.{program, content_of, entries_view};
ghost use Rattle.chunk_emit.specs.KernelLayout.{operator_in, operator_of, update_of};

use kernel_tree::{Ty, UpdateOp, Var};
use loop_form::{Content, Entry, LoopFacts, is_update_of, var_type};
use reg_assign::Assigned;
use sve_code::VectorReg;
use word_rows::Bits;

// The operator of an update.
fn operator(entry: &Entry<'_>) -> UpdateOp
    ensures { result ≡ operator_in (content_of entry.now.content) }
{
    match entry.content {
        Content::Update { op, .. } => op,
        _ => UpdateOp::Add,
    }
}

// The operator of the first update of an accumulator among some items.
fn operator_among(entries: &[Entry<'_>], name: &str) -> UpdateOp
    ensures { result ≡ operator_of (find (updates name.now) (entries_view entries.now)) }
{
    for entry in entries {
        if is_update_of(entry, name) {
            return operator(entry);
        }
    }
    UpdateOp::Add
}

/// The operator of the first update of an accumulator.
pub fn first_operator(facts: &LoopFacts<'_>, name: &str) -> UpdateOp
    ensures { result ≡ update_of (program facts.now.kernel.now) name.now }
{
    operator_among(&facts.entries, name)
}

/// The type of an accumulator.
pub fn type_of(vars: &[Var], name: &str) -> Ty
    ensures { result ≡ unwrap_or (lanes.var_type name.now (accumulators_of vars.now)) U64 }
{
    var_type(vars, name).unwrap_or(Ty::U64)
}

/// The vector register of an interval, by the numbers of the registers of all of them.
pub fn counted_vector(regs: &Assigned, place: usize) -> VectorReg
    requires assigned { IsAssignment 30 regs.now }
    requires within { place < length regs.now.registers }
    ensures { result.number ≡ slice_index regs.now.registers place }
{
    Bits {
        number: regs.register(place),
    }
}
