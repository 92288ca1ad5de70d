//! A sweep's text, with the result and the sum of another program.

use std::test::Fail;
use sweep_run::{sweep_file, sweep_text};

#[test]
fn a_sweep_has_a_line_for_each_length(rt: HostRuntime) -> Result<(), Fail> {
    let file = sweep_file(rt.alloc(), 1)?;
    let text = String::from_utf8(sweep_text(rt.alloc(), 1, &file)?)?;
    let mut vl = 0u32;
    for line in text.lines() {
        vl = vl.saturating_add(128);
        let front = format!(in rt.alloc(); "vl {vl} result 0x000012ac4883693c steps ")?;
        let told = line.starts_with(front.as_str()) && line.ends_with(" sum 20465644");
        assert!(rt; told, "{line}");
    }
    assert!(rt; vl == 2048);
    Ok(())
}
