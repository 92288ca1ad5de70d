//! Texts of faults; the others are rows of commands.

use kernel_tree::Ty;
use kernel_types::TypeFault;
use std::test::Fail;

#[test]
fn faults_print_as_their_texts(rt: HostRuntime) -> Result<(), Fail> {
    let mismatch = TypeFault::Mismatch {
        item: 4,
        want: Ty::U64,
        found: Ty::I8,
    };
    let texts = [
        (mismatch, "want u64 found i8 at item 4"),
        (TypeFault::Memory, "out of memory"),
    ];
    for (fault, want) in texts {
        let text = format!(in rt.alloc(); "{fault}")?;
        assert!(rt; text.as_str() == want, "{text}");
    }
    Ok(())
}
