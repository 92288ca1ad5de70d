//! The break region of a loop as vector code: its items up to the last `break`, over a chunk by loads that may stop early,
//! and over one lane by plain loads.
#![tactic(auto)]

mod break_region;
mod emit;
mod laws;
pub mod mode;
mod words;

ghost use Rattle.first_fault.specs.KernelFits.{KernelFits, TreeIsSpelled};
ghost use Rattle.first_fault.specs.RegionRuns.{ExitsRun, SingleRuns};
ghost use Rattle.first_fault.specs.Rest.{AlwaysFew, RestHolds, WayIsRun};
ghost use Rattle.first_fault.specs.BreakRegion.{RegionSplits};
ghost use Rattle.first_fault.specs.IterationWays.{WayIsIteration};

pub use break_region::{has_break, region, rest};
pub use emit::{emit_exits, emit_single};
pub use laws::writable_items;

/// The code of the region over a chunk, with every stop list: a prefix of the lanes comes through, with their values in the
/// registers and P0 exactly these lanes; the first lane left out breaks, faults, or a free element of that lane was
/// suppressed, by a load of this code. It stops with Read only where the first lane comes to a read and faults there. Memory,
/// P1, the general registers but X26 and the vector registers of values from before the loop are as they were. It takes at
/// most as many steps as it has words.
pub fn exits_run()
    ensures { ExitsRun }
{}

/// The code of the region over one lane: the lane comes through, or it breaks and P0 is empty. It stops with Read exactly
/// where the lane faults. No stop list has a say.
pub fn single_runs()
    ensures { SingleRuns }
{}

/// How an iteration fares in the region is what its items do in its lane.
pub fn way_is_run()
    ensures { WayIsRun }
{}

/// After the region the state holds the lanes that came through, as the code of the rest of the body wants it.
pub fn rest_holds()
    ensures { RestHolds }
{}

/// The region has at most as many words as the bound counts steps of its items, and over a chunk one more.
pub fn always_few()
    ensures { AlwaysFew }
{}

/// The items of a loop of class Vector are those of the region and of the rest; the region stores and updates nothing, and
/// the rest has no break.
pub fn region_splits()
    ensures { RegionSplits }
{}

/// An iteration that breaks, or faults, in the region does so in the scalar loop, with the memory as it was.
pub fn way_is_iteration()
    ensures { WayIsIteration }
{}

/// Registers that fit a checked kernel of class Vector make a layout of its loop that its items fit: those of the break region
/// and those of the rest, after which no condition of the region is used. The kernel has at most eight parameters, and its
/// breaks stand in the loop's own block, as the grammar has it.
pub fn kernel_fits()
    ensures { KernelFits }
{}

/// A kernel that some text spells has at most eight parameters, and its breaks stand in the loop's own block.
pub fn as_spelled()
    ensures { TreeIsSpelled }
{}
