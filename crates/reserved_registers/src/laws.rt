//! Which code leaves X18, X29, X30 and SP alone, and what that says of the machine; and that code has one exit call.

ghost use Rattle.std.specs.Prelude.{◌≡◌, ℕ, List, All};
ghost use Rattle.kernel_tree.specs.Plain.{Program};
ghost use Rattle.reg_assign.specs.declared.interval.RegClass.TheVariants.{X};
ghost use Rattle.reg_assign.specs.Registers.{Assignment};
ghost use Rattle.loop_form.specs.Registers.{FitsKernel};
ghost use Rattle.loop_form.specs.View.{program};
ghost use Rattle.promises.specs.OneExit.{HasOneExit};
ghost use Rattle.promises.specs.Reserved.{LeavesReserved};
ghost use Rattle.label_fix.specs.DraftRun.{DraftEntry};
ghost use Rattle.label_fix.specs.Finished.{AreFit, words_of};
ghost use Rattle.scalar_words.specs.KernelRegisters.{register_in};
ghost use Rattle.loop_code.specs.Kernel.{begin_code, scalar_code};
ghost use Rattle.vector_emit.specs.VectorCode.{vector_code};
ghost use Rattle.overlap_guard.specs.Guard.{guard_code};
ghost use Rattle.reserved_registers.specs.Alone.{AreAlone, StaysAlone, ExitsOnce};
ghost use Rattle.reserved_registers.specs.Kept.{StepsKeep};

use kernel_tree::Checked;
use reg_assign::Assigned;

// ---- code

/// The code before the loop leaves these registers alone, and so does the code that runs iterations one by one, which alone has an
/// exit call.
pub fn scalar_code_leaves(kernel: &Checked, regs: &Assigned)
    requires fits { FitsKernel (program kernel.now) X regs.now }
    ensures begin { (label : ℕ) → StaysAlone (begin_code (register_in regs.now) (program kernel.now) label) }
    ensures scalar { (label : ℕ) → ExitsOnce (scalar_code (register_in regs.now) (program kernel.now) label) }
{}

/// The code that tests whether arrays lie apart does.
pub fn guard_leaves()
    ensures { (k : Program) (fail label : ℕ) → StaysAlone (guard_code k fail label) }
{}

/// The vector code of a loop does, whichever vector and predicate registers its values have.
pub fn vector_code_leaves(kernel: &Checked, regs: &Assigned)
    requires fits { FitsKernel (program kernel.now) X regs.now }
    ensures { (z p : Assignment) (scalar label : ℕ)
        → StaysAlone (vector_code (register_in regs.now) (program kernel.now) z p scalar label) }
{}

// ---- words

/// The words of entries that leave these registers alone do.
pub fn words_leave()
    ensures { (labels exits : ℕ) (entries : List DraftEntry) → AreFit labels entries → AreAlone exits entries
        → All LeavesReserved (words_of entries) }
{}

/// The words of entries with one exit call have one.
pub fn words_exit()
    ensures { (labels : ℕ) (entries : List DraftEntry) → AreFit labels entries → AreAlone 1 entries
        → HasOneExit (words_of entries) }
{}

/// A step at a word that leaves these registers alone keeps what they hold.
pub fn step_keeps()
    ensures { StepsKeep }
{}
