//! A kernel that counts, over a memory with no pages.

ghost use Rattle.std.specs.Prelude.{[]};

use guest_types::guest::GuestMemory;
use guest_types::memory::AccessFault;
use kernel_eval::scalar_run;
use kernel_front::accept;
use kernel_meaning::ScalarOutcome;
use std::test::Fail;

// A memory in which each access faults.
#[derive(Drop)]
struct Unmapped {
    stores: u64,
}

impl GuestMemory for Unmapped {
    ghost memory = { λ memory. [] };

    ghost past = { λ memory. [] };

    fn load(&self, address: u64, size: u32) -> Result<u64, AccessFault> {
        let write = size == 0;
        Err(AccessFault { address, write })
    }

    fn store(&mut self, address: u64, size: u32, value: u64) -> Result<(), AccessFault> {
        self.stores = value;
        let write = size != 0;
        Err(AccessFault { address, write })
    }
}

// An argument, the most iterations, and what is counted, where they are enough.
static COUNTED: [(u64, u64, Option<u64>); 4] = [
    (3, 5, Some(3)),
    (3, 3, Some(3)),
    (3, 2, None),
    (0, 0, Some(0)),
];

#[test]
fn counts_iterations(rt: HostRuntime) -> Result<(), Fail> {
    let text = b"kernel f(n: u64) -> u64 { for i in 0..n { } return i; }";
    let kernel = accept(rt.alloc(), text)?;
    let mut memory = Unmapped { stores: 0 };
    for &(argument, limit, counted) in &COUNTED {
        let want = match counted {
            Some(n) => ScalarOutcome::End {
                result: n,
                begun: n,
            },
            None => ScalarOutcome::Spent,
        };
        let outcome = scalar_run(rt.alloc(), &kernel, &[argument], &mut memory, limit)?;
        assert!(rt; outcome == want, "{argument}, {limit}");
    }
    let none = ScalarOutcome::End {
        result: 0,
        begun: 0,
    };
    assert!(rt; scalar_run(rt.alloc(), &kernel, &[], &mut memory, 9)? == none);
    Ok(())
}
