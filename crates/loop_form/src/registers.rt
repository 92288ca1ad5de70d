//! How many registers there are for the values of a kernel.

ghost use Rattle.std.specs.Prelude.{◌≡◌};
ghost use Rattle.loop_form.specs.Registers.{counted_registers};

use reg_assign::RegClass;

/// How many registers of a class hold values: Z0 to Z29, P2 to P7, X10 to X17 and X19 to X25.
pub fn counted_registers(class: RegClass) -> u32
    ensures { result ≡ counted_registers class }
{
    match class {
        RegClass::Z => 30,
        RegClass::P => 6,
        RegClass::X => 15,
    }
}
