//! Texts of the runs of a kernel that looks for the end of a string.

use kernel_meaning::ScalarOutcome;
use scalar_text::scalar_text;
use std::test::Fail;

static TOLD: [(ScalarOutcome, &str); 3] = [
    (
        ScalarOutcome::End {
            result: 2,
            begun: 3,
        },
        "result 0x0000000000000002\niterations 3\n",
    ),
    (ScalarOutcome::Fault { begun: 4 }, "fault\niterations 4\n"),
    (ScalarOutcome::Spent, "spent\n"),
];

#[test]
fn outcomes_are_told(rt: HostRuntime) -> Result<(), Fail> {
    for (outcome, want) in &TOLD {
        let text = scalar_text(rt.alloc(), *outcome)?;
        assert!(rt; text.as_slice() == want.as_bytes(), "{want}");
    }
    Ok(())
}
