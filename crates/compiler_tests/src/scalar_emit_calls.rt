//! The words of a kernel that counts, as GNU `as` writes them.

use crate::registers::registers_of;
use kernel_front::accept;
use label_fix::Draft;
use loop_form::laws::few_items;
use loop_lists::listing;
use reg_assign::RegClass;
use scalar_emit::{emit_begin, emit_scalar};
use std::test::Fail;

#[test]
fn counts(rt: HostRuntime) -> Result<(), Fail> {
    let alloc = rt.alloc();
    let text = b"kernel f(n: u64) -> u64 { for i in 0..n { } return i; }";
    let kernel = accept(alloc, text)?;
    let regs = registers_of(alloc, &kernel, RegClass::X)?;
    let items = listing(alloc, &kernel)?;
    let mut draft = Draft::new(alloc);
    few_items(&kernel);
    emit_begin(alloc, &kernel, &items, &regs, &mut draft)?;
    let entry = emit_scalar(alloc, &kernel, &items, &regs, &mut draft)?;
    let _head = entry.at_iteration;
    let words = draft.finish()?;
    assert!(rt;
        words.as_slice()
            == [
                0xd280_0009,
                0xeb00_013f,
                0x5400_00a2,
                0xcb00_0129,
                0x9100_0529,
                0xb5ff_ffe9,
                0x8b00_0129,
                0xaa09_03e0,
                0xd280_0ba8,
                0xd400_0001,
            ]
            .as_slice()
    );
    Ok(())
}
