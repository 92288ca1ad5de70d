//! Emits the code of a kernel.

ghost use Rattle.std.specs.Prelude.{◌≡◌, false, ◌+◌, ◌*◌, ◌≤◌, All, IfOk, length};
ghost use Rattle.kernel_tree.specs.Items.{size_of};
ghost use Rattle.reg_assign.specs.declared.interval.RegClass.TheVariants.{X, Z, P};
ghost use Rattle.loop_form.specs.Entries.{entries_of, loop_entries};
ghost use Rattle.loop_form.specs.Registers.{FitsKernel};
ghost use Rattle.loop_form.specs.View.{program, entries_view};
ghost use Rattle.machine_model.specs.Written.{file_of};
ghost use Rattle.dependence.specs.Bound.{is_vector};
ghost use Rattle.dependence.specs.Classes.{class_of};
ghost use Rattle.dependence.specs.declared.reason.Class.TheVariants.{Vector};
ghost use Rattle.close_bound.specs.CloseBound.{outside_steps, iteration_steps};
ghost use Rattle.loop_code.specs.Loosening.{held_loosely};
ghost use Rattle.promises.specs.Faithful.{FreeEnds, CloseFaithful, CloseSlowFaithful};
ghost use Rattle.promises.specs.OneExit.{HasOneExit};
ghost use Rattle.promises.specs.Reserved.{LeavesReserved};
ghost use Rattle.kernel_compile.specs.Drafted.{AreDrafted, FollowsSlowly, FollowsClosely};
ghost use Rattle.kernel_compile.specs.Words.{close_words};

use crate::laws;
use kernel_tree::Checked;
use label_fix::{BranchKind, Draft};
use loop_form::{Entry, LoopFacts};
use loop_lists::listing_by;
use overlap_guard::guard_by;
use reg_assign::{Assigned, VectorRegs};
use scalar_emit::{emit_begin, emit_scalar};
use std::alloc::{AllocError, Global};
use vector_emit::emit_vector;

/// The words of the code that runs iterations one by one, with registers for the intervals of class X.
pub fn emit_scalar_code(
    alloc: Global,
    kernel: &Checked,
    all: &[Entry<'_>],
    regs: &Assigned,
) -> Result<Vec<u32>, AllocError>
    requires class { is_vector (class_of (program kernel.now)) ≡ false }
    requires items { entries_view all.now ≡ entries_of (program kernel.now) }
    requires fits { FitsKernel (program kernel.now) X regs.now }
    ensures faithful { IfOk result (λ words. CloseSlowFaithful (program kernel.now) (file_of words.items)) }
    ensures short { IfOk result (λ words. length words.items ≤ 1000 + 60 * size_of (program kernel.now)) }
    ensures counted { let k = program kernel.now in
        IfOk result (λ words. length words.items ≤ outside_steps k + iteration_steps k + 2 * length (held_loosely k) + 32) }
    ensures reserved { IfOk result (λ words. All LeavesReserved words.items) }
    ensures one_exit { IfOk result (λ words. HasOneExit words.items) }
    ensures drafted { IfOk result (λ words. AreDrafted (FollowsSlowly (program kernel.now)) words.items) }
{
    laws::few_items(kernel);
    laws::begin_runs(kernel, regs);
    laws::scalar_runs(kernel, regs);
    laws::scalar_code_leaves(kernel, regs);
    laws::words_leave();
    laws::words_exit();
    let items = listing_by(alloc, kernel, all)?;
    let mut draft = Draft::new(alloc);
    emit_begin(alloc, kernel, &items, regs, &mut draft)?;
    emit_scalar(alloc, kernel, &items, regs, &mut draft)?;
    let words = draft.finish()?;
    laws::have_32_bits(&words);
    Ok(words)
}

/// The words of the code that runs a chunk of iterations at once where arrays lie apart. The vector part stands last, since
/// it ends in scalar code, and so does the guard before it where they do not.
pub fn emit_vector_code(
    alloc: Global,
    looped: &[Entry<'_>],
    facts: &LoopFacts<'_>,
    regs: &VectorRegs,
) -> Result<Vec<u32>, AllocError>
    requires items { entries_view looped.now ≡ loop_entries (program facts.now.kernel.now) }
    requires class { class_of (program facts.now.kernel.now) ≡ Vector }
    requires vectors { FitsKernel (program facts.now.kernel.now) Z regs.now.z }
    requires predicates { FitsKernel (program facts.now.kernel.now) P regs.now.p }
    requires scalars { FitsKernel (program facts.now.kernel.now) X regs.now.x }
    ensures close { IfOk result (λ words. CloseFaithful (program facts.now.kernel.now) (file_of words.items)) }
    ensures ends { IfOk result (λ words. FreeEnds (program facts.now.kernel.now) (file_of words.items)) }
    ensures short { IfOk result (λ words. length words.items ≤ 1000 + 60 * size_of (program facts.now.kernel.now)) }
    ensures counted { IfOk result (λ words. length words.items ≤ close_words (program facts.now.kernel.now)) }
    ensures reserved { IfOk result (λ words. All LeavesReserved words.items) }
    ensures one_exit { IfOk result (λ words. HasOneExit words.items) }
    ensures drafted { IfOk result (λ words. AreDrafted (FollowsClosely (program facts.now.kernel.now)) words.items) }
{
    let kernel = facts.kernel;
    laws::few_items(kernel);
    laws::begin_runs(kernel, &regs.x);
    laws::scalar_runs(kernel, &regs.x);
    laws::meets_apart(kernel);
    laws::vector_runs();
    laws::scalar_code_leaves(kernel, &regs.x);
    laws::guard_leaves();
    laws::vector_code_leaves(kernel, &regs.x);
    laws::words_leave();
    laws::words_exit();
    let mut draft = Draft::new(alloc);
    let vector = draft.label()?;
    emit_begin(alloc, kernel, &facts.listing, &regs.x, &mut draft)?;
    draft.branch(BranchKind::Always, vector)?;
    let scalar = emit_scalar(alloc, kernel, &facts.listing, &regs.x, &mut draft)?.at_iteration;
    draft.place(vector)?;
    guard_by(kernel, looped, scalar, &mut draft)?;
    emit_vector(alloc, facts, regs, scalar, &mut draft)?;
    let words = draft.finish()?;
    laws::have_32_bits(&words);
    Ok(words)
}
