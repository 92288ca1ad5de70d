//! Parts of texts, by hand.

use text_parts::cut;

// A text, its first part and the rest; where nothing follows, `-` stands for it.
static CUTS: [(&str, &str, &str); 5] = [
    ("set 0x10 05", "set", "0x10 05"),
    (" set", "", "set"),
    ("set ", "set", ""),
    ("set", "set", "-"),
    ("", "", "-"),
];

#[test]
fn first_parts(rt: HostRuntime) {
    for (text, first, rest) in &CUTS {
        let (part, after) = cut(b' ', text.as_bytes());
        let after = after.unwrap_or(b"-");
        assert!(rt;
            part == first.as_bytes() && after == rest.as_bytes(),
            "{text}"
        );
    }
}
