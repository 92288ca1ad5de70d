//! The law of the lines of a sweep.

ghost use Rattle.sweep_run.specs.Lines.{SweepRunsEnd, SweepLines};

use promises::faithful_files;
use sweep_kernel::laws::{faithful_ends, kernel_ends};

/// The runs of a sweep's file end, and the file's pages are not those of the number.
pub fn sweep_runs_end()
    ensures { SweepRunsEnd }
{
    faithful_files();
    faithful_ends();
}

/// Each line of a sweep is that of a run that ends with the memory and the result of the kernel's own run.
pub fn sweep_lines()
    ensures { SweepLines }
{
    sweep_runs_end();
    kernel_ends();
}
