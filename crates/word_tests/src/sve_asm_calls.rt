//! Words read by hand, whose values come from an assembler.

use std::test::Fail;
use sve_asm::{AsmFault, assemble, read_word};

#[test]
fn words(rt: HostRuntime) {
    for (text, word) in [
        ("add x0, x0, #1", 0x9100_0400_u32),
        ("movz x8, #93", 0xd280_0ba8),
        ("svc #0", 0xd400_0001),
        ("cntb x0", 0x0420_e3e0),
        ("whilelo p0.b, x0, x1", 0x2521_1c00),
        ("cmpeq p2.s, p0/z, z1.s, z2.s", 0x2482_a022),
        (".word 0x00000000", 0),
    ] {
        assert!(rt; read_word(text.as_bytes()) == Some(word), "{text}");
    }
    for text in [
        "",
        "ADD x0, x0, #1",
        "add x0, x0, #0x1",
        "add x0, x0, #01",
        "add x0, x0,  #1",
        "add x0, x0, #1 ",
        "add x0, x0, #4096",
        ".word 0x91000400",
        ".word 0x0000000A",
    ] {
        assert!(rt; read_word(text.as_bytes()).is_none(), "{text}");
    }
}

#[test]
fn lines(rt: HostRuntime) -> Result<(), Fail> {
    let text = b"# E1\n\n0000000000400078: 91000400 add x0, x0, #1\nmovz x8, #93\nsvc #0";
    let words = assemble(rt.alloc(), text)?;
    assert!(rt; words.as_slice() == [0x9100_0400, 0xd280_0ba8, 0xd400_0001].as_slice());
    assert!(rt;
        matches!(
            assemble(rt.alloc(), b"ADD x0, x0, #1"),
            Err(AsmFault::BadLine { line: 1 })
        )
    );
    assert!(rt;
        matches!(
            assemble(rt.alloc(), b"\n0000000000400078: 91000401 add x0, x0, #1"),
            Err(AsmFault::Differs {
                line: 2,
                want: 0x9100_0400,
                found: 0x9100_0401
            })
        )
    );
    Ok(())
}
