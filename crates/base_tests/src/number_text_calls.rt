//! Words, and the numbers that they spell.

use number_text::{decimal, following, number};

static NUMBERS: [(&str, Option<u64>); 9] = [
    ("0x1F", Some(31)),
    ("0x1f", Some(31)),
    ("007", Some(7)),
    ("18446744073709551615", Some(0xffff_ffff_ffff_ffff)),
    ("18446744073709551616", None),
    ("0x", None),
    ("", None),
    ("-1", None),
    ("1f", None),
];

#[test]
fn numbers(rt: HostRuntime) {
    for (word, want) in &NUMBERS {
        assert!(rt; number(word.as_bytes()) == *want, "{word}");
    }
    assert!(rt;
        following(b"0x", b"0x1f") == Some(b"1f".as_slice()) && decimal(b"0042") == Some(42)
    );
}
