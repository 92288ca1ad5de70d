//! Pages one after another.

ghost use Rattle.std.specs.Prelude.{◌≡◌, ◌+◌, ◌≤◌, ◌<◌, ◌^◌, length, IfOk};
ghost use Rattle.guest_types.specs.Memory.{IsPage};
ghost use Rattle.guest_types.specs.declared.memory.TheConstants.{PAGE_BYTES};
ghost use Rattle.paged_memory.specs.Runs.{BeginsWith, IsRun};

use crate::head::PAGE_LEN;
use guest_types::memory::{PageBytes, PageNo, PageSpec, Perm};
use std::alloc::{AllocError, Global};

fn page(alloc: Global, number: u64, perm: Perm, front: &[u8]) -> Result<PageSpec, AllocError>
    requires number { number < 2 ^ 36 }
    requires front { length front.now ≤ PAGE_BYTES }
    ensures number { IfOk result (λ page. page.page ≡ number) }
    ensures begins { IfOk result (λ page. BeginsWith perm front.now page) }
    ensures valid { IfOk result IsPage }
{
    let Some(number) = PageNo::new(number) else {
        unreachable!()
    };
    let zeros = vec![in alloc; 0u8; PAGE_LEN - front.len()]?;
    let mut bytes = Vec::from_slice(alloc, front)?;
    bytes.extend_from_slice(zeros.as_slice())?;
    Ok(PageSpec::new(number, perm, PageBytes::new(bytes)))
}

/// So many pages from a number on, which may be used for the same and begin with the same bytes. Above these they are zero.
pub fn run(
    alloc: Global,
    from: u64,
    count: u64,
    perm: Perm,
    front: &[u8],
) -> Result<Vec<PageSpec>, AllocError>
    requires numbers { from + count ≤ 2 ^ 36 }
    requires front { length front.now ≤ PAGE_BYTES }
    ensures { IfOk result (λ pages. IsRun from count perm front.now pages.items) }
{
    let mut pages = Vec::new(alloc);
    for k in 0..count {
        pages.push(page(alloc, from + k, perm, front)?)?;
    }
    Ok(pages)
}
