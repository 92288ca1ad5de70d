//! Words that are read and written again, and words of no row.
use crate::listed_words::A64_WORDS;
use a64_code::*;

/// Reserved numbers, neighbours that are in no row, and an SVE word.
static UNLISTED: [u32; 25] = [
    0x8bc2_0c20, // add x0, x1, x2, ror #3
    0xcbc2_0020, // sub, shift 3
    0xebc2_0020, // subs, shift 3
    0x9a82_f020, // csel, nv
    0x9a82_f420, // csinc, nv
    0x5400_000f, // b.nv
    0x3862_7820, // ldrb w0, [x1, x2, lsl #0]
    0x38a2_7820, // ldrsb x0, [x1, x2, lsl #0]
    0x3822_7820, // strb w0, [x1, x2, lsl #0]
    0x1100_1420, // add w0, w1, #5
    0xb100_1420, // adds x0, x1, #5
    0x8b22_4020, // add x0, x1, w2, uxtw
    0x8a22_0020, // bic x0, x1, x2
    0xea02_0020, // ands x0, x1, x2
    0x9400_0000, // bl #0
    0xd61f_0000, // br x0
    0x9bc2_7c20, // umulh x0, x1, x2
    0x9ac2_2c20, // rorv x0, x1, x2
    0xda82_0020, // csinv x0, x1, x2, eq
    0xd440_0000, // hlt #0
    0xd503_203f, // yield
    0x39c0_0020, // ldrsb w0, [x1]
    0xf862_4820, // ldr x0, [x1, w2, uxtw]
    0x2518_e3e1, // ptrue p1.b
    0x0000_0000, // udf #0
];

#[test]
fn reads_and_writes_listed_a64_words(rt: HostRuntime) {
    for line in A64_WORDS.lines() {
        let Some((digits, _)) = line.split_once(' ') else {
            panic!(rt; "no word in {line}");
        };
        let word = u32::from_str_radix(digits, 16).expect(&rt, "a word");
        let Some(found) = decode(word) else {
            panic!(rt; "no instruction in {line}");
        };
        assert_eq!(rt; encode(found), word, "{line}");
    }
}

#[test]
fn reads_no_other_a64_word(rt: HostRuntime) {
    for word in UNLISTED {
        assert!(rt; decode(word).is_none(), "{word:#010x}");
    }
}
