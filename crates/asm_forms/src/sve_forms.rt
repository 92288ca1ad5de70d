//! The forms of the SVE rows.

ghost use Rattle.std.specs.Prelude.{◌≡◌, map};
ghost use Rattle.asm_forms.specs.Rules.{predicates, counts, vectors, vector_accesses};
ghost use Rattle.asm_forms.specs.View.{form_view};

use crate::forms::{Form, Places, Row};

static PREDICATES: [Form; 8] = [
    Form {
        operands: " p.T",
        adds: Places::Factors(&[1, 1 << 22]),
        rows: &[Row("ptrue", 0x2518_e3e0)],
    },
    Form {
        operands: " p.T",
        adds: Places::Factors(&[1]),
        rows: &[Row("pfalse", 0x2518_e400), Row("rdffr", 0x2519_f000)],
    },
    Form {
        operands: " p.T",
        adds: Places::Factors(&[32]),
        rows: &[Row("wrffr", 0x2528_9000)],
    },
    Form {
        operands: " p.T, x, x",
        adds: Places::Factors(&[1, 1 << 22, 32, 1 << 16]),
        rows: &[Row("whilelo", 0x2520_1c00)],
    },
    Form {
        operands: " p, p.T",
        adds: Places::Factors(&[1 << 10, 32]),
        rows: &[Row("ptest", 0x2550_c000)],
    },
    Form {
        operands: " p.T, p/z, p.T, p.T",
        adds: Places::Factors(&[1, 0, 1 << 10, 32, 0, 1 << 16]),
        rows: &[
            Row("and", 0x2500_4000),
            Row("bic", 0x2500_4010),
            Row("eor", 0x2500_4200),
            Row("orr", 0x2580_4000),
            Row("ands", 0x2540_4000),
        ],
    },
    Form {
        operands: " p.T, p/z, p.T",
        adds: Places::Factors(&[1, 0, 1 << 10, 32]),
        rows: &[Row("brka", 0x2510_4000), Row("brkb", 0x2590_4000)],
    },
    Form {
        operands: " p.T, p/z",
        adds: Places::Factors(&[1, 0, 32]),
        rows: &[Row("rdffr", 0x2518_f000)],
    },
];

/// Predicates.
#[tactic(auto, unfolding(crate::specs::Rules::predicates))]
pub fn predicates() -> &'static [Form]
    ensures { map form_view result.now ≡ predicates }
{
    &PREDICATES
}

static COUNTS: [Form; 10] = [
    Form {
        operands: " x",
        adds: Places::Factors(&[1]),
        rows: &[
            Row("cntb", 0x0420_e3e0),
            Row("cnth", 0x0460_e3e0),
            Row("cntw", 0x04a0_e3e0),
            Row("cntd", 0x04e0_e3e0),
        ],
    },
    Form {
        operands: " x, p.T",
        adds: Places::Factors(&[1, 32, 1 << 22]),
        rows: &[Row("incp", 0x252c_8800)],
    },
    Form {
        operands: " x, p, p.T",
        adds: Places::Factors(&[1, 1 << 10, 32, 1 << 22]),
        rows: &[Row("cntp", 0x2520_8000)],
    },
    Form {
        operands: " z.T, w",
        adds: Places::Factors(&[1, 1 << 22, 32]),
        rows: &[Row("dup", 0x0520_3800)],
    },
    Form {
        operands: " z.T, x",
        adds: Places::Factors(&[1, 1 << 22, 32]),
        rows: &[Row("dup", 0x0520_3800)],
    },
    Form {
        operands: " z.T, w, #0",
        adds: Places::Factors(&[1, 1 << 22, 32, 1 << 16]),
        rows: &[Row("index", 0x0420_4400)],
    },
    Form {
        operands: " z.T, w, #-0",
        adds: Places::Factors(&[1, 1 << 22, 32, 0xffff_ffff_ffff_0000]),
        rows: &[Row("index", 0x0440_4400)],
    },
    Form {
        operands: " z.T, x, #0",
        adds: Places::Factors(&[1, 1 << 22, 32, 1 << 16]),
        rows: &[Row("index", 0x0420_4400)],
    },
    Form {
        operands: " z.T, x, #-0",
        adds: Places::Factors(&[1, 1 << 22, 32, 0xffff_ffff_ffff_0000]),
        rows: &[Row("index", 0x0440_4400)],
    },
    Form {
        operands: " z.T, p, z.T, z.T",
        adds: Places::Factors(&[1, 1 << 22, 1 << 10, 32, 0, 1 << 16]),
        rows: &[Row("sel", 0x0520_c000)],
    },
];

/// Counts of elements, and vectors made of scalars.
#[tactic(auto, unfolding(crate::specs::Rules::counts))]
pub fn counts() -> &'static [Form]
    ensures { map form_view result.now ≡ counts }
{
    &COUNTS
}

static VECTORS: [Form; 9] = [
    Form {
        operands: " z.T, z.T, z.T",
        adds: Places::Factors(&[1, 1 << 22, 32, 0, 1 << 16]),
        rows: &[Row("add", 0x0420_0000), Row("sub", 0x0420_0400)],
    },
    Form {
        operands: " z.T, z.T, z.T",
        adds: Places::Factors(&[1, 0, 32, 0, 1 << 16]),
        rows: &[
            Row("and", 0x0420_3000),
            Row("orr", 0x0460_3000),
            Row("eor", 0x04a0_3000),
            Row("bic", 0x04e0_3000),
        ],
    },
    Form {
        operands: " z.T, z.T, #0",
        adds: Places::LeftShift,
        rows: &[Row("lsl", 0x0420_9c00)],
    },
    Form {
        operands: " z.T, z.T, #0",
        adds: Places::RightShift,
        rows: &[Row("lsr", 0x0420_9400), Row("asr", 0x0420_9000)],
    },
    Form {
        operands: " z.T, p/m, z.T, z.T",
        adds: Places::Factors(&[1, 1 << 22, 1 << 10, 0, 0, 32]),
        rows: &[
            Row("add", 0x0400_0000),
            Row("sub", 0x0401_0000),
            Row("smax", 0x0408_0000),
            Row("umax", 0x0409_0000),
            Row("smin", 0x040a_0000),
            Row("umin", 0x040b_0000),
            Row("mul", 0x0410_0000),
            Row("orr", 0x0418_0000),
            Row("eor", 0x0419_0000),
            Row("and", 0x041a_0000),
        ],
    },
    Form {
        operands: " z.T, p/m, z.T",
        adds: Places::Factors(&[1, 1 << 22, 1 << 10, 32]),
        rows: &[
            Row("abs", 0x0416_a000),
            Row("neg", 0x0417_a000),
            Row("not", 0x041e_a000),
            Row("sxtb", 0x0410_a000),
            Row("uxtb", 0x0411_a000),
            Row("sxth", 0x0412_a000),
            Row("uxth", 0x0413_a000),
        ],
    },
    Form {
        operands: " z.T, p/m, z.T",
        adds: Places::Factors(&[1, 0, 1 << 10, 32]),
        rows: &[Row("sxtw", 0x04d4_a000), Row("uxtw", 0x04d5_a000)],
    },
    Form {
        operands: " v, p, z.T",
        adds: Places::Factors(&[1, 1 << 10, 32, 1 << 22]),
        rows: &[
            Row("uaddv", 0x0401_2000),
            Row("smaxv", 0x0408_2000),
            Row("umaxv", 0x0409_2000),
            Row("sminv", 0x040a_2000),
            Row("uminv", 0x040b_2000),
            Row("orv", 0x0418_2000),
            Row("eorv", 0x0419_2000),
            Row("andv", 0x041a_2000),
        ],
    },
    Form {
        operands: " p.T, p/z, z.T, z.T",
        adds: Places::Factors(&[1, 1 << 22, 1 << 10, 32, 0, 1 << 16]),
        rows: &[
            Row("cmphs", 0x2400_0000),
            Row("cmphi", 0x2400_0010),
            Row("cmpge", 0x2400_8000),
            Row("cmpgt", 0x2400_8010),
            Row("cmpeq", 0x2400_a000),
            Row("cmpne", 0x2400_a010),
        ],
    },
];

/// Arithmetic and compares of vectors.
#[tactic(auto, unfolding(crate::specs::Rules::vectors))]
pub fn vectors() -> &'static [Form]
    ensures { map form_view result.now ≡ vectors }
{
    &VECTORS
}

static VECTOR_ACCESSES: [Form; 9] = [
    Form {
        operands: " {z.T}, p/z, [x, x]",
        adds: Places::Factors(&[1, 1 << 21, 1 << 10, 32, 1 << 16]),
        rows: &[Row("ld1b", 0xa400_4000), Row("ldff1b", 0xa400_6000)],
    },
    Form {
        operands: " {z.T}, p/z, [x, x]",
        adds: Places::Factors(&[1, 0xffff_ffff_ffe0_0000, 1 << 10, 32, 1 << 16]),
        rows: &[Row("ld1sb", 0xa5e0_4000), Row("ldff1sb", 0xa5e0_6000)],
    },
    Form {
        operands: " {z.T}, p/z, [x, x, l #0]",
        adds: Places::Factors(&[1, 1 << 21, 1 << 10, 32, 1 << 16]),
        rows: &[
            Row("ld1h", 0xa480_4000),
            Row("ld1w", 0xa500_4000),
            Row("ld1d", 0xa580_4000),
            Row("ldff1h", 0xa480_6000),
            Row("ldff1w", 0xa500_6000),
            Row("ldff1d", 0xa580_6000),
        ],
    },
    Form {
        operands: " {z.T}, p/z, [x, x, l #0]",
        adds: Places::Factors(&[1, 0xffff_ffff_ffe0_0000, 1 << 10, 32, 1 << 16]),
        rows: &[
            Row("ld1sh", 0xa560_4000),
            Row("ld1sw", 0xa4e0_4000),
            Row("ldff1sh", 0xa560_6000),
            Row("ldff1sw", 0xa4e0_6000),
        ],
    },
    Form {
        operands: " {z.T}, p/z, [x]",
        adds: Places::Factors(&[1, 1 << 21, 1 << 10, 32]),
        rows: &[
            Row("ldnf1b", 0xa410_a000),
            Row("ldnf1h", 0xa490_a000),
            Row("ldnf1w", 0xa510_a000),
            Row("ldnf1d", 0xa590_a000),
        ],
    },
    Form {
        operands: " {z.T}, p/z, [x]",
        adds: Places::Factors(&[1, 0xffff_ffff_ffe0_0000, 1 << 10, 32]),
        rows: &[
            Row("ldnf1sb", 0xa5f0_a000),
            Row("ldnf1sh", 0xa570_a000),
            Row("ldnf1sw", 0xa4f0_a000),
        ],
    },
    Form {
        operands: " {z.T}, p/z, [x, z.T]",
        adds: Places::Factors(&[1, 0, 1 << 10, 32, 1 << 16]),
        rows: &[
            Row("ld1b", 0xc440_c000),
            Row("ld1h", 0xc4c0_c000),
            Row("ld1w", 0xc540_c000),
            Row("ld1d", 0xc5c0_c000),
            Row("ld1sb", 0xc440_8000),
            Row("ld1sh", 0xc4c0_8000),
            Row("ld1sw", 0xc540_8000),
        ],
    },
    Form {
        operands: " {z.T}, p, [x, x]",
        adds: Places::Factors(&[1, 1 << 21, 1 << 10, 32, 1 << 16]),
        rows: &[Row("st1b", 0xe400_4000)],
    },
    Form {
        operands: " {z.T}, p, [x, x, l #0]",
        adds: Places::Factors(&[1, 1 << 21, 1 << 10, 32, 1 << 16]),
        rows: &[
            Row("st1h", 0xe480_4000),
            Row("st1w", 0xe500_4000),
            Row("st1d", 0xe580_4000),
        ],
    },
];

/// Accesses of vectors.
#[tactic(auto, unfolding(crate::specs::Rules::vector_accesses))]
pub fn vector_accesses() -> &'static [Form]
    ensures { map form_view result.now ≡ vector_accesses }
{
    &VECTOR_ACCESSES
}
