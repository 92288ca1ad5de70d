//! Words of a worked draft, as GNU `as` writes them.

use a64_code::{A64, Cond};
use label_fix::{BranchKind, Draft, Word};
use std::alloc::AllocError;
use sve_code::{Size, Sve};
use word_rows::Bits;

// head: nop; cbz x28, head; b.hs exit; ptrue p1.b; cbnz x26, exit; b head; exit:
#[test]
fn branches(rt: HostRuntime) -> Result<(), AllocError> {
    let mut draft = Draft::new(rt.alloc());
    let head = draft.label()?;
    let exit = draft.label()?;
    draft.place(head)?;
    draft.put(Word::A(A64::Nop))?;
    draft.branch(BranchKind::Zero(28), head)?;
    draft.branch(BranchKind::If(Cond::Hs), exit)?;
    draft.put(Word::V(Sve::Ptrue {
        pd: Bits::new(1),
        size: Size::B,
    }))?;
    draft.branch(BranchKind::NotZero(26), exit)?;
    draft.branch(BranchKind::Always, head)?;
    draft.place(exit)?;
    let words = draft.finish()?;
    assert!(rt;
        words.as_slice()
            == [
                0xd503_201f,
                0xb4ff_fffc,
                0x5400_0082,
                0x2518_e3e1,
                0xb500_005a,
                0x17ff_fffb,
            ]
            .as_slice()
    );
    Ok(())
}
