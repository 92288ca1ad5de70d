//! Maps beside no pages. What other texts come to is in the rows of sve_top (`malformed`).

use guest_types::image::Image;
use guest_types::memory::Perm;
use map_text::{MapFault, read_map};
use std::test::Fail;

// Lines of any bytes that are no maps, and pages in another order than that of their numbers.
#[test]
fn pages_ascend(rt: HostRuntime) -> Result<(), Fail> {
    let text = b"\n\n# \x00\xff\r\nmap 0x3000 1 r\nmap 4096 0x01 rw\nset 0x1fff aA\nset 12288 0c";
    let map = read_map(rt.alloc(), text, &Image::empty(rt.alloc()))?;
    let [low, high] = map.pages.as_slice() else {
        return Err("not two pages".into());
    };
    assert!(rt; low.page.number() == 1 && low.perm == Perm::ReadWrite);
    assert!(rt; high.page.number() == 3 && high.perm == Perm::Read);
    assert!(rt;
        low.bytes.as_slice().ends_with(&[0, 0xaa]) && high.bytes.as_slice().starts_with(&[0x0c, 0])
    );
    Ok(())
}

#[test]
fn a_line_ends_at_its_newline(rt: HostRuntime) {
    let text = b"map 0x1000 1 r\nset 0x1000 00\r\n";
    let fault = read_map(rt.alloc(), text, &Image::empty(rt.alloc())).err();
    assert!(rt; fault == Some(MapFault::BadLine { line: 2 }));
}
