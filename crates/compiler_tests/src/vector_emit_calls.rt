//! The words of worked kernels, as GNU `as` writes them.

ghost use Rattle.std.specs.Prelude.{IfOk};
ghost use Rattle.reg_assign.specs.declared.interval.RegClass.TheVariants as class;
ghost use Rattle.loop_form.specs.Registers.{FitsKernel};
ghost use Rattle.loop_form.specs.View.{program};

use crate::registers::registers_of;
use dependence::reason::Class;
use kernel_front::accept;
use kernel_tree::Checked;
use label_fix::Draft;
use loop_class::class;
use loop_form::laws::few_items;
use loop_lists::loop_facts;
use reg_assign::{RegClass, VectorRegs};
use std::alloc::Global;
use std::test::Fail;
use vector_emit::emit_vector;

fn registers(alloc: Global, kernel: &Checked) -> Result<VectorRegs, Fail>
    ensures z { IfOk result (λ regs. FitsKernel (program kernel.now) class.Z regs.z) }
    ensures p { IfOk result (λ regs. FitsKernel (program kernel.now) class.P regs.p) }
    ensures x { IfOk result (λ regs. FitsKernel (program kernel.now) class.X regs.x) }
{
    let z = registers_of(alloc, kernel, RegClass::Z)?;
    let p = registers_of(alloc, kernel, RegClass::P)?;
    let x = registers_of(alloc, kernel, RegClass::X)?;
    Ok(VectorRegs { z, p, x })
}

// The words of vector code, after which scalar code stands.
fn vector_words(alloc: Global, kernel: &Checked, regs: &VectorRegs) -> Result<Vec<u32>, Fail>
    requires z { FitsKernel (program kernel.now) class.Z regs.now.z }
    requires p { FitsKernel (program kernel.now) class.P regs.now.p }
    requires x { FitsKernel (program kernel.now) class.X regs.now.x }
{
    let mut draft = Draft::new(alloc);
    let scalar = draft.label()?;
    match class(kernel) {
        Class::Vector => {
            let facts = loop_facts(alloc, kernel)?;
            emit_vector(alloc, &facts, regs, scalar, &mut draft)?;
            draft.place(scalar)?;
            few_items(facts.kernel);
            let words = draft.finish()?;
            Ok(words)
        }
        Class::Scalar { .. } => Err(Fail::new("not of class Vector")),
    }
}

// Kernels with the words of their vector code, whose assembly text stands above each.
static KERNELS: [(&str, &[u32]); 5] = [
    // ptrue p1.b; movz x26, #0; dup z0.b,
    // w26; chunk: whilelo p0.b, x9, x1; setffr; ldff1b {z1.b}, p0/z, [x0, x9]; rdffr p0.b, p0/z; cmpeq p2.b,
    // p0/z, z1.b, z0.b; brkb p0.b, p0/z, p2.b; incp x9, p0.b; ptest p0, p0.b; b.ne chunk; cmp x9, x1; b.hs end;
    // movz x26, #1; whilelo p0.b, xzr, x26; ld1b {z1.b}, p0/z, [x0, x9]; cmpeq p2.b, p0/z, z1.b, z0.b; brkb p0.b,
    // p0/z, p2.b; incp x9, p0.b; ptest p0, p0.b; b.ne chunk; end: b scalar; scalar:
    (
        "kernel len(a: [u8], n: u64) -> u64 { for i in 0..n { break if a[i] == 0; } return i; }",
        &[
            0x2518_e3e1,
            0xd280_001a,
            0x0520_3b40,
            0x2521_1d20,
            0x252c_9000,
            0xa409_6001,
            0x2518_f000,
            0x2400_a022,
            0x2590_4040,
            0x252c_8809,
            0x2550_c000,
            0x54ff_ff01,
            0xeb01_013f,
            0x5400_0122,
            0xd280_003a,
            0x253a_1fe0,
            0xa409_4001,
            0x2400_a022,
            0x2590_4040,
            0x252c_8809,
            0x2550_c000,
            0x54ff_fdc1,
            0x1400_0001,
        ],
    ),
    // ptrue p1.b; movz x26, #0; dup z0.b,
    // w26; chunk: whilelo p0.b, x9, x2; setffr; ldff1b {z1.b}, p0/z, [x0, x9]; rdffr p0.b, p0/z; cmpeq p2.b,
    // p0/z, z1.b, z0.b; brkb p0.b, p0/z, p2.b; ldff1b {z1.b}, p0/z, [x1, x9]; rdffr p0.b, p0/z; cmpeq p4.b, p0/z,
    // z1.b, z0.b; brkb p0.b, p0/z, p4.b; incp x9, p0.b; ptest p0, p0.b; b.ne chunk; cmp x9, x2; b.hs end;
    // movz x26, #1; whilelo p0.b, xzr, x26; ld1b {z1.b}, p0/z, [x0, x9]; cmpeq p2.b, p0/z, z1.b, z0.b; brkb p0.b,
    // p0/z, p2.b; ld1b {z1.b}, p0/z, [x1, x9]; cmpeq p4.b, p0/z, z1.b, z0.b; brkb p0.b, p0/z, p4.b; incp x9, p0.b;
    // ptest p0, p0.b; b.ne chunk; end: b scalar; scalar:
    (
        "kernel either(a: [u8], b: [u8], n: u64) -> u64 { for i in 0..n { break if a[i] == 0 || b[i] == 0; } return i; }",
        &[
            0x2518_e3e1,
            0xd280_001a,
            0x0520_3b40,
            0x2522_1d20,
            0x252c_9000,
            0xa409_6001,
            0x2518_f000,
            0x2400_a022,
            0x2590_4040,
            0xa409_6021,
            0x2518_f000,
            0x2400_a024,
            0x2590_4080,
            0x252c_8809,
            0x2550_c000,
            0x54ff_fe81,
            0xeb02_013f,
            0x5400_0182,
            0xd280_003a,
            0x253a_1fe0,
            0xa409_4001,
            0x2400_a022,
            0x2590_4040,
            0xa409_4021,
            0x2400_a024,
            0x2590_4080,
            0x252c_8809,
            0x2550_c000,
            0x54ff_fce1,
            0x1400_0001,
        ],
    ),
    // A chunk of seventeen instructions: whilelo, setffr, four for each array, incp, ptest and the branch.
    (
        "kernel three(a: [u8], b: [u8], c: [u8], n: u64) -> u64 { for i in 0..n { break if a[i] == 0 || b[i] == 0 || c[i] == 0; } return i; }",
        &[
            0x2518_e3e1,
            0xd280_001a,
            0x0520_3b40,
            0x2523_1d20,
            0x252c_9000,
            0xa409_6001,
            0x2518_f000,
            0x2400_a022,
            0x2590_4040,
            0xa409_6021,
            0x2518_f000,
            0x2400_a024,
            0x2590_4080,
            0xa409_6041,
            0x2518_f000,
            0x2400_a024,
            0x2590_4080,
            0x252c_8809,
            0x2550_c000,
            0x54ff_fe01,
            0xeb03_013f,
            0x5400_01e2,
            0xd280_003a,
            0x253a_1fe0,
            0xa409_4001,
            0x2400_a022,
            0x2590_4040,
            0xa409_4021,
            0x2400_a024,
            0x2590_4080,
            0xa409_4041,
            0x2400_a024,
            0x2590_4080,
            0x252c_8809,
            0x2550_c000,
            0x54ff_fc01,
            0x1400_0001,
        ],
    ),
    // ptrue p1.b; movz x26, #0; dup z0.b,
    // w26; whilelo p0.b, x9, x3; b.eq end; cntb x8; subs x8, x3, x8, lsl #2; b.lo chunk; turn: four times what stands
    // from chunk to incp; cmp x9, x8; b.ls turn; whilelo p0.b, x9, x3; b.eq end; chunk: ld1b {z1.b}, p0/z, [x0, x9];
    // cmpne p2.b, p0/z, z1.b, z0.b; ld1b {z1.b}, p2/z, [x2, x9]; st1b {z1.b}, p2, [x1, x9]; incp x9, p0.b; whilelo p0.b,
    // x9, x3; b.ne chunk; end: b scalar; scalar:
    (
        "kernel copy(a: [u8], b: [u8], c: [u8], n: u64) { for i in 0..n { if a[i] != 0 { b[i] = c[i]; } } }",
        &[
            0x2518_e3e1,
            0xd280_001a,
            0x0520_3b40,
            0x2523_1d20,
            0x5400_0460,
            0x0420_e3e8,
            0xeb08_0868,
            0x5400_0323,
            0xa409_4001,
            0x2400_a032,
            0xa409_4841,
            0xe409_4821,
            0x252c_8809,
            0xa409_4001,
            0x2400_a032,
            0xa409_4841,
            0xe409_4821,
            0x252c_8809,
            0xa409_4001,
            0x2400_a032,
            0xa409_4841,
            0xe409_4821,
            0x252c_8809,
            0xa409_4001,
            0x2400_a032,
            0xa409_4841,
            0xe409_4821,
            0x252c_8809,
            0xeb08_013f,
            0x54ff_fd69,
            0x2523_1d20,
            0x5400_0100,
            0xa409_4001,
            0x2400_a032,
            0xa409_4841,
            0xe409_4821,
            0x252c_8809,
            0x2523_1d20,
            0x54ff_ff41,
            0x1400_0001,
        ],
    ),
    // ptrue p1.b; movz x26, #0; dup z0.d,
    // x26; whilelo p0.d, x9, x1; b.eq end; cntd x8; subs x8, x1, x8, lsl #2; b.lo chunk; turn: four times what stands
    // from chunk to incp; cmp x9, x8; b.ls turn; whilelo p0.d, x9, x1; b.eq end; chunk: add x26, x9, #1; ld1sw {z1.d},
    // p0/z, [x0, x26, lsl #2]; add z0.d, p0/m, z0.d, z1.d; incp x9, p0.d; whilelo p0.d, x9, x1; b.ne chunk; end: uaddv
    // d31, p1, z0.d; umov x27, v31.d[0]; add x10, x10, x27; b scalar; scalar:
    (
        "kernel sum(a: [i32], n: u64) -> i64 { var s: i64 = 0; for i in 0..n { s += a[i + 1] as i64; } return s; }",
        &[
            0x2518_e3e1,
            0xd280_001a,
            0x05e0_3b40,
            0x25e1_1d20,
            0x5400_03c0,
            0x04e0_e3e8,
            0xeb08_0828,
            0x5400_02a3,
            0x9100_053a,
            0xa49a_4001,
            0x04c0_0020,
            0x25ec_8809,
            0x9100_053a,
            0xa49a_4001,
            0x04c0_0020,
            0x25ec_8809,
            0x9100_053a,
            0xa49a_4001,
            0x04c0_0020,
            0x25ec_8809,
            0x9100_053a,
            0xa49a_4001,
            0x04c0_0020,
            0x25ec_8809,
            0xeb08_013f,
            0x54ff_fde9,
            0x25e1_1d20,
            0x5400_00e0,
            0x9100_053a,
            0xa49a_4001,
            0x04c0_0020,
            0x25ec_8809,
            0x25e1_1d20,
            0x54ff_ff61,
            0x04c1_241f,
            0x4e08_3ffb,
            0x8b1b_014a,
            0x1400_0001,
        ],
    ),
];

#[test]
fn words_of_kernels(rt: HostRuntime) -> Result<(), Fail> {
    for (text, words) in &KERNELS {
        let kernel = accept(rt.alloc(), text.as_bytes())?;
        let regs = registers(rt.alloc(), &kernel)?;
        let found = vector_words(rt.alloc(), &kernel, &regs)?;
        assert!(rt; found.as_slice() == *words, "{text}");
    }
    Ok(())
}
