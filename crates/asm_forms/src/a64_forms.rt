//! The forms of the A64 rows.

ghost use Rattle.std.specs.Prelude.{◌≡◌, map};
ghost use Rattle.asm_forms.specs.Rules.{data_processing, branches, offset_accesses, indexed_accesses};
ghost use Rattle.asm_forms.specs.View.{form_view};

use crate::forms::{Form, Places, Row};

static DATA_PROCESSING: [Form; 9] = [
    Form {
        operands: " x, x, #0",
        adds: Places::Factors(&[1, 32, 1 << 10]),
        rows: &[
            Row("add", 0x9100_0000),
            Row("sub", 0xd100_0000),
            Row("subs", 0xf100_0000),
        ],
    },
    Form {
        operands: " x, x, #0, l #0",
        adds: Places::Factors(&[1, 32, 1 << 10]),
        rows: &[
            Row("add", 0x9140_0000),
            Row("sub", 0xd140_0000),
            Row("subs", 0xf140_0000),
        ],
    },
    Form {
        operands: " x, x, x",
        adds: Places::Factors(&[1, 32, 1 << 16]),
        rows: &[
            Row("add", 0x8b00_0000),
            Row("sub", 0xcb00_0000),
            Row("subs", 0xeb00_0000),
            Row("and", 0x8a00_0000),
            Row("orr", 0xaa00_0000),
            Row("eor", 0xca00_0000),
            Row("orn", 0xaa20_0000),
            Row("lslv", 0x9ac0_2000),
            Row("lsrv", 0x9ac0_2400),
            Row("asrv", 0x9ac0_2800),
        ],
    },
    Form {
        operands: " x, x, x, l #0",
        adds: Places::Factors(&[1, 32, 1 << 16, 1 << 22, 1 << 10]),
        rows: &[
            Row("add", 0x8b00_0000),
            Row("sub", 0xcb00_0000),
            Row("subs", 0xeb00_0000),
            Row("and", 0x8a00_0000),
            Row("orr", 0xaa00_0000),
            Row("eor", 0xca00_0000),
            Row("orn", 0xaa20_0000),
        ],
    },
    Form {
        operands: " x, #0",
        adds: Places::Factors(&[1, 32]),
        rows: &[
            Row("movz", 0xd280_0000),
            Row("movk", 0xf280_0000),
            Row("movn", 0x9280_0000),
        ],
    },
    Form {
        operands: " x, #0, l #0",
        adds: Places::Factors(&[1, 32, 0, 1 << 17]),
        rows: &[
            Row("movz", 0xd280_0000),
            Row("movk", 0xf280_0000),
            Row("movn", 0x9280_0000),
        ],
    },
    Form {
        operands: " x, x, x, x",
        adds: Places::Factors(&[1, 32, 1 << 16, 1 << 10]),
        rows: &[Row("madd", 0x9b00_0000), Row("msub", 0x9b00_8000)],
    },
    Form {
        operands: " x, x, #0, #0",
        adds: Places::Factors(&[1, 32, 1 << 16, 1 << 10]),
        rows: &[Row("sbfm", 0x9340_0000), Row("ubfm", 0xd340_0000)],
    },
    Form {
        operands: " x, x, x, c",
        adds: Places::Factors(&[1, 32, 1 << 16, 1 << 12]),
        rows: &[Row("csel", 0x9a80_0000), Row("csinc", 0x9a80_0400)],
    },
];

/// Adding, shifting, moving and selecting.
#[tactic(auto, unfolding(crate::specs::Rules::data_processing))]
pub fn data_processing() -> &'static [Form]
    ensures { map form_view result.now ≡ data_processing }
{
    &DATA_PROCESSING
}

static BRANCHES: [Form; 10] = [
    Form {
        operands: " #0",
        adds: Places::Quarter(1),
        rows: &[Row("b", 0x1400_0000)],
    },
    Form {
        operands: " #-0",
        adds: Places::Quarter(0xffff_ffff_ffff_ffff),
        rows: &[Row("b", 0x1800_0000)],
    },
    Form {
        operands: ".c #0",
        adds: Places::Factors(&[1, 8]),
        rows: &[Row("b", 0x5400_0000)],
    },
    Form {
        operands: ".c #-0",
        adds: Places::Factors(&[1, 0xffff_ffff_ffff_fff8]),
        rows: &[Row("b", 0x5500_0000)],
    },
    Form {
        operands: " x, #0",
        adds: Places::Factors(&[1, 8]),
        rows: &[Row("cbz", 0xb400_0000), Row("cbnz", 0xb500_0000)],
    },
    Form {
        operands: " x, #-0",
        adds: Places::Factors(&[1, 0xffff_ffff_ffff_fff8]),
        rows: &[Row("cbz", 0xb500_0000), Row("cbnz", 0xb600_0000)],
    },
    Form {
        operands: " x",
        adds: Places::Factors(&[32]),
        rows: &[Row("ret", 0xd65f_0000)],
    },
    Form {
        operands: " #0",
        adds: Places::Factors(&[32]),
        rows: &[Row("svc", 0xd400_0001), Row("brk", 0xd420_0000)],
    },
    Form {
        operands: "",
        adds: Places::Factors(&[]),
        rows: &[Row("nop", 0xd503_201f), Row("setffr", 0x252c_9000)],
    },
    Form {
        operands: " x, v.T[0]",
        adds: Places::Factors(&[1, 32]),
        rows: &[Row("umov", 0x4e08_3c00)],
    },
];

/// Branches, and words of few operands.
#[tactic(auto, unfolding(crate::specs::Rules::branches))]
pub fn branches() -> &'static [Form]
    ensures { map form_view result.now ≡ branches }
{
    &BRANCHES
}

static OFFSET_ACCESSES: [Form; 9] = [
    Form {
        operands: " w, [x]",
        adds: Places::Factors(&[1, 32]),
        rows: &[
            Row("ldrb", 0x3940_0000),
            Row("strb", 0x3900_0000),
            Row("ldrh", 0x7940_0000),
            Row("strh", 0x7900_0000),
            Row("ldr", 0xb940_0000),
            Row("str", 0xb900_0000),
        ],
    },
    Form {
        operands: " x, [x]",
        adds: Places::Factors(&[1, 32]),
        rows: &[
            Row("ldrsb", 0x3980_0000),
            Row("ldrsh", 0x7980_0000),
            Row("ldrsw", 0xb980_0000),
            Row("ldr", 0xf940_0000),
            Row("str", 0xf900_0000),
        ],
    },
    Form {
        operands: " w, [x, #0]",
        adds: Places::Factors(&[1, 32, 1 << 10]),
        rows: &[Row("ldrb", 0x3940_0000), Row("strb", 0x3900_0000)],
    },
    Form {
        operands: " w, [x, #0]",
        adds: Places::Factors(&[1, 32, 1 << 9]),
        rows: &[Row("ldrh", 0x7940_0000), Row("strh", 0x7900_0000)],
    },
    Form {
        operands: " w, [x, #0]",
        adds: Places::Factors(&[1, 32, 1 << 8]),
        rows: &[Row("ldr", 0xb940_0000), Row("str", 0xb900_0000)],
    },
    Form {
        operands: " x, [x, #0]",
        adds: Places::Factors(&[1, 32, 1 << 10]),
        rows: &[Row("ldrsb", 0x3980_0000)],
    },
    Form {
        operands: " x, [x, #0]",
        adds: Places::Factors(&[1, 32, 1 << 9]),
        rows: &[Row("ldrsh", 0x7980_0000)],
    },
    Form {
        operands: " x, [x, #0]",
        adds: Places::Factors(&[1, 32, 1 << 8]),
        rows: &[Row("ldrsw", 0xb980_0000)],
    },
    Form {
        operands: " x, [x, #0]",
        adds: Places::Factors(&[1, 32, 1 << 7]),
        rows: &[Row("ldr", 0xf940_0000), Row("str", 0xf900_0000)],
    },
];

/// Accesses at an offset from a register.
#[tactic(auto, unfolding(crate::specs::Rules::offset_accesses))]
pub fn offset_accesses() -> &'static [Form]
    ensures { map form_view result.now ≡ offset_accesses }
{
    &OFFSET_ACCESSES
}

static INDEXED_ACCESSES: [Form; 4] = [
    Form {
        operands: " w, [x, x]",
        adds: Places::Factors(&[1, 32, 1 << 16]),
        rows: &[
            Row("ldrb", 0x3860_6800),
            Row("strb", 0x3820_6800),
            Row("ldrh", 0x7860_6800),
            Row("strh", 0x7820_6800),
            Row("ldr", 0xb860_6800),
            Row("str", 0xb820_6800),
        ],
    },
    Form {
        operands: " x, [x, x]",
        adds: Places::Factors(&[1, 32, 1 << 16]),
        rows: &[
            Row("ldrsb", 0x38a0_6800),
            Row("ldrsh", 0x78a0_6800),
            Row("ldrsw", 0xb8a0_6800),
            Row("ldr", 0xf860_6800),
            Row("str", 0xf820_6800),
        ],
    },
    Form {
        operands: " w, [x, x, l #0]",
        adds: Places::Factors(&[1, 32, 1 << 16]),
        rows: &[
            Row("ldrh", 0x7860_7800),
            Row("strh", 0x7820_7800),
            Row("ldr", 0xb860_7800),
            Row("str", 0xb820_7800),
        ],
    },
    Form {
        operands: " x, [x, x, l #0]",
        adds: Places::Factors(&[1, 32, 1 << 16]),
        rows: &[
            Row("ldrsh", 0x78a0_7800),
            Row("ldrsw", 0xb8a0_7800),
            Row("ldr", 0xf860_7800),
            Row("str", 0xf820_7800),
        ],
    },
];

/// Accesses at a register from another.
#[tactic(auto, unfolding(crate::specs::Rules::indexed_accesses))]
pub fn indexed_accesses() -> &'static [Form]
    ensures { map form_view result.now ≡ indexed_accesses }
{
    &INDEXED_ACCESSES
}
