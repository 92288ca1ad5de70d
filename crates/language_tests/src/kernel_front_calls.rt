//! A text that is accepted, and one for each way to be refused.

use kernel_front::{KernelFault, accept};
use kernel_syntax::ReadFault;
use kernel_tree::Ty;
use kernel_types::TypeFault;
use std::alloc::Global;
use std::test::Fail;

fn fault_of(alloc: Global, text: &str) -> Option<KernelFault> {
    accept(alloc, text.as_bytes()).err()
}

#[test]
fn accepts_a_sound_kernel(rt: HostRuntime) -> Result<(), Fail> {
    let kernel = accept(rt.alloc(), b"kernel f(x: u64) -> u64 { return x + 1; }")?;
    let types = [kernel.ty(0), kernel.ty(1), kernel.ty(3), kernel.ty(4)];
    assert!(rt; types == [None, Some(Ty::U64), Some(Ty::U64), None]);
    assert!(rt; kernel.kernel().name.text() == "f");
    Ok(())
}

#[test]
fn refuses_the_others(rt: HostRuntime) {
    let faults = [
        fault_of(rt.alloc(), "kernel @"),
        fault_of(rt.alloc(), "kernel f(x: u64) -> u64 { return x + ; }"),
        fault_of(rt.alloc(), "kernel f(x: u8) -> u8 { return x + 300; }"),
    ];
    let want = [
        Some(KernelFault::Unread(ReadFault::BadByte { at: 7 })),
        Some(KernelFault::Unread(ReadFault::Syntax { token: 13 })),
        Some(KernelFault::Broken(TypeFault::LiteralRange { item: 2 })),
    ];
    assert!(rt; faults == want);
}
