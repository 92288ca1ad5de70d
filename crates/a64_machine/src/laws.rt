//! Laws of the definitions.

ghost use Rattle.std.specs.Prelude.{◌≡◌};
ghost use Rattle.guest_types.specs.Elements.{Flags, nzcv};
ghost use Rattle.a64_machine.specs.Cores.{flags_in};

/// Flags that are kept as a number are those that it is read as.
pub fn flags_are_kept()
    ensures { (flags : Flags) → flags_in (nzcv flags) ≡ flags }
{}
