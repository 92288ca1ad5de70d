//! Assigns registers to intervals.

ghost use Rattle.std.specs.Prelude.{◌≡◌, ◌<◌, ◌≤◌, ◌^◌, length, position, IfOk, IfErr};
ghost use Rattle.reg_assign.specs.Intervals.{need_of, Ascend};
ghost use Rattle.reg_assign.specs.Registers.{IsAssignment, IsRefusal};
ghost use Rattle.reg_assign.specs.Taking.{is_ended, Takes};

use crate::assigned::Assigned;
use crate::fault::AssignFault;
use crate::interval::{Interval, RegClass};
use crate::live::need;
use std::alloc::{AllocError, Global};

// Whether an interval has ended by a point.
fn is_ended(last_use: u32, point: u32) -> bool
    ensures { result ≡ is_ended point last_use }
{
    last_use <= point
}

// The least register whose interval has ended by a point.
fn first_ended(ends: &[u32], point: u32) -> Option<usize>
    ensures { result ≡ position (is_ended point) ends.now }
{
    ends.iter().position(|last_use| is_ended(*last_use, point))
}

// The register of an interval among n of them, by the last uses of the intervals that have each register now.
fn take_register(ends: &mut Vec<u32>, interval: Interval, n: u32) -> Result<Option<u32>, AllocError>
    requires { length ends.old.items ≤ n }
    ensures { IfOk result (Takes n interval ends.old.items ends.new.items) }
{
    if interval.last_use <= interval.from {
        return Ok(Some(0));
    }
    if let Some(register) = first_ended(ends, interval.from) {
        ends[register] = interval.last_use;
        return Ok(Some(register as u32));
    }
    let register = ends.len() as u32;
    if register == n {
        return Ok(None);
    }
    ends.push(interval.last_use)?;
    Ok(Some(register))
}

/// Assigns each interval one of n registers: the least one that no earlier interval has that is still needed. An empty
/// interval gets number 0, and holds nothing there.
pub fn assign(
    alloc: Global,
    intervals: &[Interval],
    class: RegClass,
    n: u32,
) -> Result<Assigned, AssignFault>
    requires some { 1 ≤ n }
    requires few { length intervals.now < 2 ^ 32 }
    requires ascending { Ascend intervals.now }
    ensures kept { IfOk result (λ a. a.intervals ≡ intervals.now) }
    ensures fits { IfOk result (λ a. IsAssignment n a) }
    ensures enough { IfOk result (λ a. need_of intervals.now ≤ n) }
    ensures refusal { IfErr result (IsRefusal class intervals.now n) }
{
    let mut registers = Vec::new(alloc);
    let mut ends = Vec::new(alloc);
    for interval in intervals {
        let Some(register) = take_register(&mut ends, *interval, n)? else {
            let need = need(intervals);
            return Err(AssignFault::TooMany { class, need });
        };
        registers.push(register)?;
    }
    let intervals = Vec::from_slice(alloc, intervals)?;
    Ok(Assigned {
        intervals,
        registers,
    })
}
