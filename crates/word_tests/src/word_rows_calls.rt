//! Calls of word_rows.

use word_rows::*;

/// The fields of `add x0, x0, #1` and of `cmpeq p2.s, p0/z, z1.s, z2.s`.
#[test]
fn fields_of_checked_words(rt: HostRuntime) {
    for (word, low, width, number) in [
        (0x9100_0400_u32, 10, 12, 1),
        (0x9100_0400, 24, 8, 0x91),
        (0x2482_a022, 0, 4, 2),
        (0x2482_a022, 16, 5, 2),
        (0x2482_a022, 22, 2, 2),
    ] {
        prove!(low < 32 && width < 32 && low + width <= 32);
        assert_eq!(rt; field(word, low, width), number, "bit {low}");
    }
    assert_eq!(rt; Bits::<5>::at(0x2482_a022, 5).number, 1);
    assert_eq!(rt; Bits::<5>::new(2).put(16) | shifted(2, 22, 2), 0x0082_0000);
    assert!(rt; flag(0x9140_0400, 22) && flag_at(true, 22) == 0x0040_0000);
}
