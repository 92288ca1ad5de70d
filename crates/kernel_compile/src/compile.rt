//! Compiles a kernel.

ghost use Rattle.std.specs.Prelude.{◌≡◌, ◌+◌, ◌*◌, ◌≤◌, None, false, All, IfErr, IfOk, OnOk, length};
ghost use Rattle.kernel_tree.specs.Items.{size_of};
ghost use Rattle.loop_form.specs.View.{program};
ghost use Rattle.loop_lists.specs.ItemLists.{AreItems};
ghost use Rattle.machine_model.specs.Written.{file_of};
ghost use Rattle.dependence.specs.Bound.{is_vector};
ghost use Rattle.dependence.specs.Classes.{class_of};
ghost use Rattle.dependence.specs.declared.reason.Class.TheVariants.{Vector};
ghost use Rattle.promises.specs.Faithful.{FreeFaithful, FreeEnds, CloseFaithful};
ghost use Rattle.promises.specs.Refusals.{too_many, IsRefusal};
ghost use Rattle.promises.specs.OneExit.{HasOneExit};
ghost use Rattle.promises.specs.Reserved.{LeavesReserved};
ghost use Rattle.kernel_compile.specs.Drafted.{AreDrafted, FollowsClosely};
ghost use Rattle.kernel_compile.specs.Words.{close_words};

use crate::emit::{emit_scalar_code, emit_vector_code};
use crate::laws;
use crate::registers::{scalar_registers, vector_registers};
use dependence::reason::Class;
use kernel_tree::Checked;
use loop_class::class_by;
use loop_lists::{Items, list_items, loop_facts_by};
use promises::CompileFault;
use std::alloc::Global;

/// The words of a compiled kernel, in their order from the first to be executed.
#[derive(Drop)]
pub struct Code {
    pub words: Vec<u32>,
}

/// The code of a kernel. Where its class is Vector it runs a chunk of iterations at once, unless arrays overlap; all else runs
/// iterations one by one.
pub fn compile_kernel(alloc: Global, kernel: &Checked) -> Result<Code, CompileFault>
    ensures faithful { IfOk result (λ code. FreeFaithful (program kernel.now) (file_of code.words.items)) }
    ensures close { IfOk result (λ code. CloseFaithful (program kernel.now) (file_of code.words.items)) }
    ensures ends { IfOk result (λ code. FreeEnds (program kernel.now) (file_of code.words.items)) }
    ensures short { IfOk result (λ code. length code.words.items ≤ 1000 + 60 * size_of (program kernel.now)) }
    ensures counted { IfOk result (λ code. length code.words.items ≤ close_words (program kernel.now)) }
    ensures reserved { IfOk result (λ code. All LeavesReserved code.words.items) }
    ensures one_exit { IfOk result (λ code. HasOneExit code.words.items) }
    ensures drafted { IfOk result (λ code. AreDrafted (FollowsClosely (program kernel.now)) code.words.items) }
    ensures enough { OnOk result (too_many (program kernel.now) ≡ None) }
    ensures refusal { IfErr result (IsRefusal (program kernel.now)) }
{
    laws::few_params(kernel);
    laws::faithful_files();
    let words = words_of_class(alloc, kernel)?;
    Ok(Code { words })
}

#[tactic(auto, unfolding(loop_form::specs::View::program))]
fn words_of_class(alloc: Global, kernel: &Checked) -> Result<Vec<u32>, CompileFault>
    ensures close { IfOk result (λ words. CloseFaithful (program kernel.now) (file_of words.items)) }
    ensures ends { IfOk result (λ words. FreeEnds (program kernel.now) (file_of words.items)) }
    ensures short { IfOk result (λ words. length words.items ≤ 1000 + 60 * size_of (program kernel.now)) }
    ensures counted { IfOk result (λ words. length words.items ≤ close_words (program kernel.now)) }
    ensures reserved { IfOk result (λ words. All LeavesReserved words.items) }
    ensures one_exit { IfOk result (λ words. HasOneExit words.items) }
    ensures drafted { IfOk result (λ words. AreDrafted (FollowsClosely (program kernel.now)) words.items) }
    ensures enough { OnOk result (too_many (program kernel.now) ≡ None) }
    ensures refusal { IfErr result (IsRefusal (program kernel.now)) }
{
    let items = list_items(kernel);
    match class_by(kernel, &items.looped) {
        Class::Vector => vector_words(alloc, kernel, &items),
        Class::Scalar { .. } => scalar_words(alloc, kernel, &items),
    }
}

fn scalar_words(
    alloc: Global,
    kernel: &Checked,
    items: &Items<'_>,
) -> Result<Vec<u32>, CompileFault>
    requires items { AreItems (program kernel.now) items.now }
    requires class { is_vector (class_of (program kernel.now)) ≡ false }
    ensures close { IfOk result (λ words. CloseFaithful (program kernel.now) (file_of words.items)) }
    ensures ends { IfOk result (λ words. FreeEnds (program kernel.now) (file_of words.items)) }
    ensures short { IfOk result (λ words. length words.items ≤ 1000 + 60 * size_of (program kernel.now)) }
    ensures counted { IfOk result (λ words. length words.items ≤ close_words (program kernel.now)) }
    ensures reserved { IfOk result (λ words. All LeavesReserved words.items) }
    ensures one_exit { IfOk result (λ words. HasOneExit words.items) }
    ensures drafted { IfOk result (λ words. AreDrafted (FollowsClosely (program kernel.now)) words.items) }
    ensures enough { OnOk result (too_many (program kernel.now) ≡ None) }
    ensures refusal { IfErr result (IsRefusal (program kernel.now)) }
{
    laws::few_params(kernel);
    laws::faithful_files();
    laws::scalar_files();
    let regs = scalar_registers(alloc, kernel, items)?;
    let words = emit_scalar_code(alloc, kernel, &items.all, &regs)?;
    Ok(words)
}

fn vector_words(
    alloc: Global,
    kernel: &Checked,
    items: &Items<'_>,
) -> Result<Vec<u32>, CompileFault>
    requires items { AreItems (program kernel.now) items.now }
    requires class { class_of (program kernel.now) ≡ Vector }
    ensures close { IfOk result (λ words. CloseFaithful (program kernel.now) (file_of words.items)) }
    ensures ends { IfOk result (λ words. FreeEnds (program kernel.now) (file_of words.items)) }
    ensures short { IfOk result (λ words. length words.items ≤ 1000 + 60 * size_of (program kernel.now)) }
    ensures counted { IfOk result (λ words. length words.items ≤ close_words (program kernel.now)) }
    ensures reserved { IfOk result (λ words. All LeavesReserved words.items) }
    ensures one_exit { IfOk result (λ words. HasOneExit words.items) }
    ensures drafted { IfOk result (λ words. AreDrafted (FollowsClosely (program kernel.now)) words.items) }
    ensures enough { OnOk result (too_many (program kernel.now) ≡ None) }
    ensures refusal { IfErr result (IsRefusal (program kernel.now)) }
{
    let regs = vector_registers(alloc, kernel, items)?;
    let facts = loop_facts_by(alloc, kernel, items)?;
    let words = emit_vector_code(alloc, &items.looped, &facts, &regs)?;
    Ok(words)
}
