//! Words that are read and written again, and words of no row.
use crate::listed_words::SVE_WORDS;
use sve_code::encode;
use sve_decode::*;

/// Reserved numbers, neighbours that are in no row, and an A64 word.
static UNLISTED: [u32; 30] = [
    0x2518_e3c1, // ptrue p1.b, mul3
    0x0420_e3c0, // cntb x0, mul3
    0x0421_e3e0, // cntb x0, all, mul #2
    0xa41f_4000, // ld1b, Rm 31
    0xe41f_4000, // st1b, Rm 31
    0xa411_a000, // ldnf1b {z0.b}, p0/z, [x0, #1, mul vl]
    0xe480_4000, // st1, size B below msz H
    0xe520_4000, // st1, size H below msz S
    0xe5c0_4000, // st1, size S below msz D
    0x0420_9c20, // lsl, tszh:tszl 0
    0x0427_9420, // lsr, tszh:tszl 0
    0x0410_a020, // sxtb z0.b
    0x0411_a020, // uxtb z0.b
    0x0412_a020, // sxth z0.b
    0x0453_a020, // uxth z0.h
    0x0414_a020, // sxtw z0.b
    0x0494_a020, // sxtw z0.s
    0x2520_0d20, // whilelo p0.b, w9, w1
    0x2521_1d30, // whilels p0.b, x9, x1
    0x0521_0c20, // unallocated
    0x0520_3c20, // unallocated
    0xa400_a000, // ld1b {z0.b}, p0/z, [x0]
    0xe400_e000, // st1b {z0.b}, p0, [x0]
    0xc440_e000, // ldff1b {z0.d}, p0/z, [x0, z0.d]
    0xc4e0_c000, // ld1h {z0.d}, p0/z, [x0, z0.d, lsl #1]
    0xc400_4000, // ld1b {z0.d}, p0/z, [x0, z0.d, uxtw]
    0xc420_c000, // ld1b {z0.d}, p0/z, [z0.d]
    0xc5c0_8000, // unallocated
    0x9100_0400, // add x0, x0, #1
    0x0000_0000, // udf #0
];

#[test]
fn reads_and_writes_listed_sve_words(rt: HostRuntime) {
    for line in SVE_WORDS.lines() {
        let Some((digits, _)) = line.split_once(' ') else {
            panic!(rt; "no word in {line}");
        };
        let word = u32::from_str_radix(digits, 16).expect(&rt, "a word");
        let Some(found) = decode(word) else {
            panic!(rt; "no instruction in {line}");
        };
        assert_eq!(rt; encode(found), word, "{line}");
    }
}

#[test]
fn reads_no_other_sve_word(rt: HostRuntime) {
    for word in UNLISTED {
        assert!(rt; decode(word).is_none(), "{word:#010x}");
    }
}
