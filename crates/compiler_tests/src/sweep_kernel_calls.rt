//! Texts, arguments, pages and lines, with numbers from another program.

use guest_types::guest::GuestMemory;
use guest_types::image::Image;
use paged_memory::pages::Pages;
use std::test::Fail;
use sweep_kernel::input::{arguments, kernel_text};
use sweep_kernel::line::{length_at, push_line};
use sweep_kernel::pages::{byte_sum, pages};

#[test]
fn a_seed_makes_a_kernel(rt: HostRuntime) -> Result<(), Fail> {
    let text = kernel_text(rt.alloc(), 1)?;
    assert!(rt;
        text.as_slice()
            == b"kernel sweep(a: [i16], b: [u8], y: [i32], k: i32, n: u64) -> i64 { var s: i64 = 0; var m: i32 = 90; for i in 0..n { let t = a[i] as i32 * k + b[i + 6] as i32; if t > 384 || b[i] == 7 { y[i] = t; s += t as i64; } else { m max= t; } } return s + m as i64; }".as_slice()
    );
    Ok(())
}

#[test]
fn a_seed_makes_arguments(rt: HostRuntime) {
    let some = arguments(42);
    assert!(rt; [some[2], some[3], some[4]] == [0x300_0000, 41_313, 100_574]);
}

#[test]
fn a_seed_makes_pages(rt: HostRuntime) -> Result<(), Fail> {
    let map = pages(rt.alloc(), 0)?;
    let mut pages = Pages::build(rt.alloc(), &Image::empty(rt.alloc()), &map)?;
    let loaded = [pages.load(0x100_0000, 4), pages.load(0x200_0000, 4)];
    assert!(rt; loaded == [Ok(0x9821_4094), Ok(0x9ab7_856f)]);
    let bytes = [pages.byte(0x201_8fff), pages.byte(0x201_9000)];
    assert!(rt; bytes == [Some(116), None] && byte_sum(&pages) == 0);
    assert!(rt; pages.store(0x306_3ffc, 4, 0x0102_03ff).is_ok() && byte_sum(&pages) == 261);
    Ok(())
}

#[test]
fn a_line_has_four_numbers(rt: HostRuntime) -> Result<(), Fail> {
    let mut text = Vec::new(rt.alloc());
    push_line(&mut text, length_at(15), 255, 7, 261)?;
    let line = b"vl 2048 result 0x00000000000000ff steps 7 sum 261\n";
    assert!(rt; text.as_slice() == line.as_slice());
    Ok(())
}
