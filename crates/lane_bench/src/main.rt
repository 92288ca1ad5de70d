//! Times each kernel of lanes as a machine calls it beside a plain loop over elements, both in the same run, and says on the
//! error output for each: what is done, the bits of an element, the mask, and at three vector lengths the nanoseconds of a call
//! by the kernel and by the loop, with the one as a hundredth of the other. `bench/lanes` runs it.
#![tactic(auto)]

mod access;
mod bank;
mod kernels;
mod operands;
mod plain;
mod report;
mod work;

use crate::access::built;
use crate::report::{access_line, work_line};
use crate::work::{ACCESSES, WORKS};
use guest_types::length::Width;
use std::io;

fn main(rt: HostRuntime) -> io::Result<()> {
    eprintln!(rt;
        "nanoseconds of a call by the kernel / by a plain loop, and the one in hundredths of the other"
    )?;
    let mut pages = built(rt.alloc())?;
    for width in [Width::B, Width::D] {
        for work in WORKS {
            work_line(&rt, work, width, false)?;
            if work.is_masked() {
                work_line(&rt, work, width, true)?;
            }
        }
        for access in ACCESSES {
            access_line(&rt, &mut pages, access, width, false)?;
            access_line(&rt, &mut pages, access, width, true)?;
        }
    }
    Ok(())
}
