//! The texts of words.
use crate::listed_words::{A64_WORDS, SVE_WORDS};
use list_text::*;
use std::process::Abort;

/// Words of no row.
static OTHERS: &str = "\
00000000 .word 0x00000000
8bc20c20 .word 0x8bc20c20
11001420 .word 0x11001420
a41f4000 .word 0xa41f4000
ffffffff .word 0xffffffff
d503203f .word 0xd503203f
";

fn has_texts(rt: &impl Abort, lines: &str) {
    let mut into = LineBuf::new();
    for line in lines.lines() {
        let Some((digits, text)) = line.split_once(' ') else {
            panic!(rt; "no word in {line}");
        };
        let word = u32::from_str_radix(digits, 16).expect(rt, "a word");
        word_text(word, &mut into);
        assert_eq!(rt; into.as_str(), text);
    }
}

#[test]
fn writes_texts_of_a64_words(rt: HostRuntime) {
    has_texts(&rt, A64_WORDS);
}

#[test]
fn writes_texts_of_sve_words(rt: HostRuntime) {
    has_texts(&rt, SVE_WORDS);
}

#[test]
fn writes_other_words_as_numbers(rt: HostRuntime) {
    has_texts(&rt, OTHERS);
}

#[test]
fn writes_a_listing(rt: HostRuntime) {
    let mut into = ListLine::new();
    line_text(0x40_0078, 0x9100_0400, &mut into);
    assert_eq!(rt;
        into.as_str(),
        "0000000000400078: 91000400 add x0, x0, #1\n"
    );
    line_text(0xffff_fffc_0000_007c, 0xd280_0ba8, &mut into);
    assert_eq!(rt; into.as_str(), "fffffffc0000007c: d2800ba8 movz x8, #93\n");
}
