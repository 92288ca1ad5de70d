//! The laws of the kernel of a sweep.

ghost use Rattle.sweep_kernel.specs.Accepted.{AllAccepted};
ghost use Rattle.sweep_kernel.specs.Ends.{AllEnd};
ghost use Rattle.sweep_kernel.specs.Runs.{FaithfulEnds};

/// Each text is a sound kernel, of which no more values are live than there are registers.
pub fn accepts_sweep()
    ensures { AllAccepted }
{}

/// With a program's pages beside those of the seed, the kernel's own run ends.
pub fn kernel_ends()
    ensures { AllEnd }
{}

/// A file that is faithful to the kernel within the higher bound ends at every vector length, with the memory and the
/// result of the kernel's own run, within the steps of a sweep.
pub fn faithful_ends()
    ensures { FaithfulEnds }
{}
