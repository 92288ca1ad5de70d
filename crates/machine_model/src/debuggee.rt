//! Machines that are run step by step and looked at.

ghost use Rattle.std.specs.Prelude.{◌≡◌, ℕ, ◌+◌, ◌-◌, ◌^◌, ◌<◌, ◌≤◌, None, IfSome, IsTrue};
ghost use Rattle.guest_types.specs.Memory.{byte_at};
ghost use Rattle.guest_types.specs.Elements.{nzcv};
ghost use Rattle.machine_model.specs.Machine.{x_at, z_at, p_at};
ghost use Rattle.machine_model.specs.OneStep.{step as model_step};
ghost use Rattle.machine_model.specs.Answers.{IsAnswer};
ghost use Rattle.machine_model.specs.Debugged.{View, ending_by, answer_by};

use crate::outcome::Step;
use guest_types::length::Vl;
use guest_types::predicate::PReg;
use guest_types::register::ZReg;

/// A machine that is run step by step, and whose registers and bytes are looked at between steps.
pub trait Debuggee: Drop {
    ghost view_of: { Self → View };

    /// One step. After an end or a stop it answers the same again and changes nothing.
    fn step(&mut self) -> Step
        requires { (view_of self.old).steps < 2 ^ 64 - 1 }
        ensures again { IfSome (view_of self.old).over (λ ending. result ≡ answer_by ending) }
        ensures unchanged { IfSome (view_of self.old).over (λ ending. view_of self.new ≡ view_of self.old) }
        ensures answer { (view_of self.old).over ≡ None → IsTrue (view_of self.old).quiet →
            IsAnswer (model_step (view_of self.old).state) result (view_of self.old).state (view_of self.new).state }
        ensures steps { (view_of self.old).over ≡ None → (view_of self.new).steps ≡ (view_of self.old).steps + 1 }
        ensures over { (view_of self.old).over ≡ None → (view_of self.new).over ≡ ending_by result }
        ensures quiet { IsTrue (view_of self.old).quiet → IsTrue (view_of self.new).quiet }
        ensures past { (view_of self.new).past ≡ (view_of self.old).past };

    /// One step of a machine that has not come to an end or a stop: `step` without the test whether it has.
    fn step_on(&mut self) -> Step
        requires running { (view_of self.old).over ≡ None }
        requires few { (view_of self.old).steps < 2 ^ 64 - 1 }
        ensures answer { IsTrue (view_of self.old).quiet →
            IsAnswer (model_step (view_of self.old).state) result (view_of self.old).state (view_of self.new).state }
        ensures steps { (view_of self.new).steps ≡ (view_of self.old).steps + 1 }
        ensures over { (view_of self.new).over ≡ ending_by result }
        ensures quiet { IsTrue (view_of self.old).quiet → IsTrue (view_of self.new).quiet }
        ensures past { (view_of self.new).past ≡ (view_of self.old).past };

    /// The place of the next instruction.
    fn pc(&self) -> u64
        ensures { result ≡ (view_of self.now).state.pc };

    /// The stack pointer.
    fn sp(&self) -> u64
        ensures { result ≡ (view_of self.now).state.sp };

    /// The flags N, Z, C and V as bits 3 to 0.
    fn nzcv(&self) -> u8
        ensures { result ≡ nzcv (view_of self.now).state.flags };

    /// A general register, where 31 is the zero register.
    fn x(&self, n: u32) -> u64
        requires { n ≤ 31 }
        ensures { result ≡ x_at (view_of self.now).state n };

    /// A vector register.
    fn z(&self, n: u32) -> &ZReg
        requires { n < 32 }
        ensures { result.now.bytes ≡ z_at (view_of self.now).state n };

    /// A predicate register.
    fn p(&self, n: u32) -> &PReg
        requires { n < 16 }
        ensures { result.now.bits ≡ p_at (view_of self.now).state n };

    /// The first-fault register.
    fn ffr(&self) -> &PReg
        ensures { result.now.bits ≡ (view_of self.now).state.ffr };

    /// The byte at an address, where a page is mapped.
    fn byte(&self, address: u64) -> Option<u8>
        ensures { result ≡ byte_at (view_of self.now).state.memory address };

    /// The vector length.
    fn vl(&self) -> Vl
        ensures { result ≡ (view_of self.now).state.vl };

    /// How many steps were done; one that ended or stopped is counted.
    fn steps_done(&self) -> u64
        ensures { result ≡ (view_of self.now).steps };
}
