//! Words of GNU `as` and `objdump` (binutils), with their texts. Where `objdump` writes a number in
//! hexadecimal, the address of a branch, `cs`, `ret` or `hint #0`, our text has the decimal number,
//! the offset, `hs`, `ret x30` and `nop`; `as` makes the same words of it.

/// Words of each A64 row, at least three.
pub static A64_WORDS: &str = "\
91001420 add x0, x1, #5
917fffbf add sp, x29, #4095, lsl #12
910043e7 add x7, sp, #16
d1001420 sub x0, x1, #5
d10083ff sub sp, sp, #32
d140045e sub x30, x2, #1, lsl #12
f1001420 subs x0, x1, #5
f13fffff subs xzr, sp, #4095
f1401d49 subs x9, x10, #7, lsl #12
8b020020 add x0, x1, x2
8b45fc83 add x3, x4, x5, lsr #63
8b9f04e6 add x6, x7, xzr, asr #1
cb020c20 sub x0, x1, x2, lsl #3
cb0503e3 sub x3, xzr, x5
cb9e7ce6 sub x6, x7, x30, asr #31
eb020020 subs x0, x1, x2
eb45089f subs xzr, x4, x5, lsr #2
eb08fce6 subs x6, x7, x8, lsl #63
8a020020 and x0, x1, x2
8ac5fc83 and x3, x4, x5, ror #63
8a8808e6 and x6, x7, x8, asr #2
aa021020 orr x0, x1, x2, lsl #4
aa0503e3 orr x3, xzr, x5
aa48f0e6 orr x6, x7, x8, lsr #60
ca020020 eor x0, x1, x2
cac50483 eor x3, x4, x5, ror #1
ca0824ff eor xzr, x7, x8, lsl #9
aa220020 orn x0, x1, x2
aa2503e3 orn x3, xzr, x5
aae844e6 orn x6, x7, x8, ror #17
d2800ba8 movz x8, #93
d2ffffe0 movz x0, #65535, lsl #48
d2a00021 movz x1, #1, lsl #16
f2800ba8 movk x8, #93
f2dfffe0 movk x0, #65535, lsl #32
f2e00021 movk x1, #1, lsl #48
92800ba8 movn x8, #93
92e00020 movn x0, #1, lsl #48
92a2469e movn x30, #4660, lsl #16
9b020c20 madd x0, x1, x2, x3
9b067ca4 madd x4, x5, x6, xzr
9b1d73df madd xzr, x30, x29, x28
9b028c20 msub x0, x1, x2, x3
9b06fca4 msub x4, x5, x6, xzr
9b13d251 msub x17, x18, x19, x20
9ac22020 lslv x0, x1, x2
9ac523e3 lslv x3, xzr, x5
9ade20ff lslv xzr, x7, x30
9ac22420 lsrv x0, x1, x2
9adf2483 lsrv x3, x4, xzr
9ac824fd lsrv x29, x7, x8
9ac22820 asrv x0, x1, x2
9ac52883 asrv x3, x4, x5
9ade2bde asrv x30, x30, x30
93431c20 sbfm x0, x1, #3, #7
93407c62 sbfm x2, x3, #0, #31
937f00a4 sbfm x4, x5, #63, #0
d3431c20 ubfm x0, x1, #3, #7
d37df062 ubfm x2, x3, #61, #60
d340ffe4 ubfm x4, xzr, #0, #63
9a820020 csel x0, x1, x2, eq
9a85e3e3 csel x3, xzr, x5, al
9a88d0e6 csel x6, x7, x8, le
9a821420 csinc x0, x1, x2, ne
9a9f27e3 csinc x3, xzr, xzr, hs
9a88c4e6 csinc x6, x7, x8, gt
17fffffe b #-8
15ffffff b #134217724
16000000 b #-134217728
54000060 b.eq #12
5480000e b.al #-1048576
547fffeb b.lt #1048572
b4000061 cbz x1, #12
b4ffffff cbz xzr, #-4
b47ffffe cbz x30, #1048572
b5000061 cbnz x1, #12
b5800002 cbnz x2, #-1048576
b500003d cbnz x29, #4
d65f03c0 ret x30
d65f0000 ret x0
d65f03e0 ret xzr
d4000001 svc #0
d41fffe1 svc #65535
d4024681 svc #4660
d4200000 brk #0
d43fffe0 brk #65535
d4200020 brk #1
d503201f nop
4e083c20 umov x0, v1.d[0]
4e083fff umov xzr, v31.d[0]
4e083dfe umov x30, v15.d[0]
39400020 ldrb w0, [x1]
397fffff ldrb wzr, [sp, #4095]
39400462 ldrb w2, [x3, #1]
79400020 ldrh w0, [x1]
797fffe2 ldrh w2, [sp, #8190]
794004a4 ldrh w4, [x5, #2]
b9400020 ldr w0, [x1]
b97fffe2 ldr w2, [sp, #16380]
b94004a4 ldr w4, [x5, #4]
f9400420 ldr x0, [x1, #8]
f97fffe2 ldr x2, [sp, #32760]
f94000bf ldr xzr, [x5]
39800020 ldrsb x0, [x1]
39bfffe2 ldrsb x2, [sp, #4095]
39800ca4 ldrsb x4, [x5, #3]
79800020 ldrsh x0, [x1]
79bfffe2 ldrsh x2, [sp, #8190]
79800ca4 ldrsh x4, [x5, #6]
b9800020 ldrsw x0, [x1]
b9bfffe2 ldrsw x2, [sp, #16380]
b9800ca4 ldrsw x4, [x5, #12]
39000020 strb w0, [x1]
393fffff strb wzr, [sp, #4095]
390024a4 strb w4, [x5, #9]
79000020 strh w0, [x1]
793fffe2 strh w2, [sp, #8190]
790004bf strh wzr, [x5, #2]
b9000020 str w0, [x1]
b93fffff str wzr, [sp, #16380]
b90004a4 str w4, [x5, #4]
f9000020 str x0, [x1]
f93fffff str xzr, [sp, #32760]
f90004a4 str x4, [x5, #8]
38626820 ldrb w0, [x1, x2]
387f6be3 ldrb w3, [sp, xzr]
387d6bdf ldrb wzr, [x30, x29]
78626820 ldrh w0, [x1, x2]
78657be3 ldrh w3, [sp, x5, lsl #1]
787f68e6 ldrh w6, [x7, xzr]
b8626820 ldr w0, [x1, x2]
b8657be3 ldr w3, [sp, x5, lsl #2]
b86868ff ldr wzr, [x7, x8]
f8627820 ldr x0, [x1, x2, lsl #3]
f8656be3 ldr x3, [sp, x5]
f87f68ff ldr xzr, [x7, xzr]
38a26820 ldrsb x0, [x1, x2]
38a56be3 ldrsb x3, [sp, x5]
38bf68e6 ldrsb x6, [x7, xzr]
78a26820 ldrsh x0, [x1, x2]
78a57be3 ldrsh x3, [sp, x5, lsl #1]
78a868e6 ldrsh x6, [x7, x8]
b8a26820 ldrsw x0, [x1, x2]
b8a57be3 ldrsw x3, [sp, x5, lsl #2]
b8a868e6 ldrsw x6, [x7, x8]
38226820 strb w0, [x1, x2]
38256bff strb wzr, [sp, x5]
382868e6 strb w6, [x7, x8]
78226820 strh w0, [x1, x2]
78257be3 strh w3, [sp, x5, lsl #1]
782868ff strh wzr, [x7, x8]
b8226820 str w0, [x1, x2]
b8257be3 str w3, [sp, x5, lsl #2]
b82868ff str wzr, [x7, x8]
f8226820 str x0, [x1, x2]
f8257be3 str x3, [sp, x5, lsl #3]
f83e68ff str xzr, [x7, x30]
91000400 add x0, x0, #1
";

/// Words of each SVE row, at least two.
pub static SVE_WORDS: &str = "\
2518e3e1 ptrue p1.b
25d8e3ef ptrue p15.d
2558e3e0 ptrue p0.h
2598e3e3 ptrue p3.s
2518e400 pfalse p0.b
2518e40f pfalse p15.b
25211d20 whilelo p0.b, x9, x1
25fe1fef whilelo p15.d, xzr, x30
25611d23 whilelo p3.h, x9, x1
2550c440 ptest p1, p2.b
2550fdc0 ptest p15, p14.b
25034022 and p2.b, p0/z, p1.b, p3.b
250c79af and p15.b, p14/z, p13.b, p12.b
25034032 bic p2.b, p0/z, p1.b, p3.b
250c79bf bic p15.b, p14/z, p13.b, p12.b
25034222 eor p2.b, p0/z, p1.b, p3.b
250c7baf eor p15.b, p14/z, p13.b, p12.b
25834022 orr p2.b, p0/z, p1.b, p3.b
258c79af orr p15.b, p14/z, p13.b, p12.b
25434022 ands p2.b, p0/z, p1.b, p3.b
254c79af ands p15.b, p14/z, p13.b, p12.b
25104022 brka p2.b, p0/z, p1.b
251079af brka p15.b, p14/z, p13.b
25904022 brkb p2.b, p0/z, p1.b
259079af brkb p15.b, p14/z, p13.b
2519f000 rdffr p0.b
2519f00f rdffr p15.b
2518f020 rdffr p0.b, p1/z
2518f1cf rdffr p15.b, p14/z
252c9000 setffr
25289000 wrffr p0.b
252891e0 wrffr p15.b
0420e3e0 cntb x0
0420e3fe cntb x30
0460e3e0 cnth x0
0460e3fd cnth x29
04a0e3e0 cntw x0
04a0e3ff cntw xzr
04e0e3e0 cntd x0
04e0e3fc cntd x28
252c8809 incp x9, p0.b
25ac8809 incp x9, p0.s
25ec89fe incp x30, p15.d
25e08440 cntp x0, p1, p2.d
2520bdde cntp x30, p15, p14.b
05203820 dup z0.b, w1
05e03bdf dup z31.d, x30
05a03be5 dup z5.s, wsp
05e03be6 dup z6.d, sp
04a14420 index z0.s, w1, #1
04f047df index z31.d, x30, #-16
042f47e2 index z2.b, wzr, #15
047f4483 index z3.h, w4, #-1
0522c820 sel z0.b, p2, z1.b, z2.b
05fdffdf sel z31.d, p15, z30.d, z29.d
04220020 add z0.b, z1.b, z2.b
04fd03df add z31.d, z30.d, z29.d
04620420 sub z0.h, z1.h, z2.h
04bd07df sub z31.s, z30.s, z29.s
04223020 and z0.d, z1.d, z2.d
043d33df and z31.d, z30.d, z29.d
04623020 orr z0.d, z1.d, z2.d
047d33df orr z31.d, z30.d, z29.d
04a23020 eor z0.d, z1.d, z2.d
04bd33df eor z31.d, z30.d, z29.d
04e23020 bic z0.d, z1.d, z2.d
04fd33df bic z31.d, z30.d, z29.d
04639c20 lsl z0.s, z1.s, #3
04289fdf lsl z31.b, z30.b, #0
042f9c62 lsl z2.b, z3.b, #7
043f9ca4 lsl z4.h, z5.h, #15
04ff9ce6 lsl z6.d, z7.d, #63
04609420 lsr z0.s, z1.s, #32
042897df lsr z31.b, z30.b, #8
043f9462 lsr z2.h, z3.h, #1
04a094a4 lsr z4.d, z5.d, #64
047f9020 asr z0.s, z1.s, #1
04a093df asr z31.d, z30.d, #64
042f9062 asr z2.b, z3.b, #1
043090a4 asr z4.h, z5.h, #16
04000020 add z0.b, p0/m, z0.b, z1.b
04c01fdf add z31.d, p7/m, z31.d, z30.d
04410420 sub z0.h, p1/m, z0.h, z1.h
04811fdf sub z31.s, p7/m, z31.s, z30.s
04080020 smax z0.b, p0/m, z0.b, z1.b
04c81fdf smax z31.d, p7/m, z31.d, z30.d
04490020 umax z0.h, p0/m, z0.h, z1.h
04c91fdf umax z31.d, p7/m, z31.d, z30.d
048a0020 smin z0.s, p0/m, z0.s, z1.s
04ca1fdf smin z31.d, p7/m, z31.d, z30.d
040b0020 umin z0.b, p0/m, z0.b, z1.b
04cb1fdf umin z31.d, p7/m, z31.d, z30.d
04100020 mul z0.b, p0/m, z0.b, z1.b
04d01fdf mul z31.d, p7/m, z31.d, z30.d
04180020 orr z0.b, p0/m, z0.b, z1.b
04d81fdf orr z31.d, p7/m, z31.d, z30.d
04190020 eor z0.b, p0/m, z0.b, z1.b
04d91fdf eor z31.d, p7/m, z31.d, z30.d
041a0020 and z0.b, p0/m, z0.b, z1.b
04da1fdf and z31.d, p7/m, z31.d, z30.d
0416a020 abs z0.b, p0/m, z1.b
04d6bfdf abs z31.d, p7/m, z30.d
0457a020 neg z0.h, p0/m, z1.h
04d7bfdf neg z31.d, p7/m, z30.d
049ea020 not z0.s, p0/m, z1.s
041ebfdf not z31.b, p7/m, z30.b
0450a020 sxtb z0.h, p0/m, z1.h
04d0bfdf sxtb z31.d, p7/m, z30.d
0490ac82 sxtb z2.s, p3/m, z4.s
0451a020 uxtb z0.h, p0/m, z1.h
04d1bfdf uxtb z31.d, p7/m, z30.d
0492a020 sxth z0.s, p0/m, z1.s
04d2bfdf sxth z31.d, p7/m, z30.d
0493a020 uxth z0.s, p0/m, z1.s
04d3bfdf uxth z31.d, p7/m, z30.d
04d4a020 sxtw z0.d, p0/m, z1.d
04d4bfdf sxtw z31.d, p7/m, z30.d
04d5a020 uxtw z0.d, p0/m, z1.d
04d5bfdf uxtw z31.d, p7/m, z30.d
04012020 uaddv d0, p0, z1.b
04c13fdf uaddv d31, p7, z30.d
04082020 smaxv b0, p0, z1.b
04c83fdf smaxv d31, p7, z30.d
04492020 umaxv h0, p0, z1.h
04c93fdf umaxv d31, p7, z30.d
048a2020 sminv s0, p0, z1.s
04ca3fdf sminv d31, p7, z30.d
040b2020 uminv b0, p0, z1.b
04cb3fdf uminv d31, p7, z30.d
04182020 orv b0, p0, z1.b
04d83fdf orv d31, p7, z30.d
04192020 eorv b0, p0, z1.b
04d93fdf eorv d31, p7, z30.d
041a2020 andv b0, p0, z1.b
04da3fdf andv d31, p7, z30.d
24820022 cmphs p2.s, p0/z, z1.s, z2.s
24de1fef cmphs p15.d, p7/z, z31.d, z30.d
24020032 cmphi p2.b, p0/z, z1.b, z2.b
24de1fff cmphi p15.d, p7/z, z31.d, z30.d
24428022 cmpge p2.h, p0/z, z1.h, z2.h
24de9fef cmpge p15.d, p7/z, z31.d, z30.d
24828032 cmpgt p2.s, p0/z, z1.s, z2.s
24de9fff cmpgt p15.d, p7/z, z31.d, z30.d
2482a022 cmpeq p2.s, p0/z, z1.s, z2.s
24debfef cmpeq p15.d, p7/z, z31.d, z30.d
2482a032 cmpne p2.s, p0/z, z1.s, z2.s
24debfff cmpne p15.d, p7/z, z31.d, z30.d
a4094000 ld1b {z0.b}, p0/z, [x0, x9]
a43e5fff ld1b {z31.h}, p7/z, [sp, x30]
a4444462 ld1b {z2.s}, p1/z, [x3, x4]
a46748c5 ld1b {z5.d}, p2/z, [x6, x7]
a4894000 ld1sw {z0.d}, p0/z, [x0, x9, lsl #2]
a4a94000 ld1h {z0.h}, p0/z, [x0, x9, lsl #1]
a4c94000 ld1h {z0.s}, p0/z, [x0, x9, lsl #1]
a4e94000 ld1h {z0.d}, p0/z, [x0, x9, lsl #1]
a5094000 ld1sh {z0.d}, p0/z, [x0, x9, lsl #1]
a5294000 ld1sh {z0.s}, p0/z, [x0, x9, lsl #1]
a5494000 ld1w {z0.s}, p0/z, [x0, x9, lsl #2]
a5694000 ld1w {z0.d}, p0/z, [x0, x9, lsl #2]
a5894000 ld1sb {z0.d}, p0/z, [x0, x9]
a5a94000 ld1sb {z0.s}, p0/z, [x0, x9]
a5c94000 ld1sb {z0.h}, p0/z, [x0, x9]
a5e94000 ld1d {z0.d}, p0/z, [x0, x9, lsl #3]
a4096000 ldff1b {z0.b}, p0/z, [x0, x9]
a43e7fff ldff1b {z31.h}, p7/z, [sp, x30]
a4896000 ldff1sw {z0.d}, p0/z, [x0, x9, lsl #2]
a4c96000 ldff1h {z0.s}, p0/z, [x0, x9, lsl #1]
a5296000 ldff1sh {z0.s}, p0/z, [x0, x9, lsl #1]
a5496000 ldff1w {z0.s}, p0/z, [x0, x9, lsl #2]
a5c96000 ldff1sb {z0.h}, p0/z, [x0, x9]
a5e96000 ldff1d {z0.d}, p0/z, [x0, x9, lsl #3]
a41f6000 ldff1b {z0.b}, p0/z, [x0, xzr]
a5ff73e3 ldff1d {z3.d}, p4/z, [sp, xzr, lsl #3]
a410a000 ldnf1b {z0.b}, p0/z, [x0]
a430bfff ldnf1b {z31.h}, p7/z, [sp]
a490a000 ldnf1sw {z0.d}, p0/z, [x0]
a4d0a000 ldnf1h {z0.s}, p0/z, [x0]
a510a000 ldnf1sh {z0.d}, p0/z, [x0]
a570a000 ldnf1w {z0.d}, p0/z, [x0]
a5b0a000 ldnf1sb {z0.s}, p0/z, [x0]
a5f0a000 ldnf1d {z0.d}, p0/z, [x0]
c441c000 ld1b {z0.d}, p0/z, [x0, z1.d]
c45edfff ld1b {z31.d}, p7/z, [sp, z30.d]
c4c1c000 ld1h {z0.d}, p0/z, [x0, z1.d]
c4dedfff ld1h {z31.d}, p7/z, [sp, z30.d]
c541c000 ld1w {z0.d}, p0/z, [x0, z1.d]
c55edfff ld1w {z31.d}, p7/z, [sp, z30.d]
c5c1c000 ld1d {z0.d}, p0/z, [x0, z1.d]
c5dedfff ld1d {z31.d}, p7/z, [sp, z30.d]
c4418000 ld1sb {z0.d}, p0/z, [x0, z1.d]
c4448462 ld1sb {z2.d}, p1/z, [x3, z4.d]
c4c18000 ld1sh {z0.d}, p0/z, [x0, z1.d]
c4de9fff ld1sh {z31.d}, p7/z, [sp, z30.d]
c5418000 ld1sw {z0.d}, p0/z, [x0, z1.d]
c54788c5 ld1sw {z5.d}, p2/z, [x6, z7.d]
e4094000 st1b {z0.b}, p0, [x0, x9]
e47e5fff st1b {z31.d}, p7, [sp, x30]
e4244861 st1b {z1.h}, p2, [x3, x4]
e4444861 st1b {z1.s}, p2, [x3, x4]
e4a94040 st1h {z0.h}, p0, [x2, x9, lsl #1]
e4c94040 st1h {z0.s}, p0, [x2, x9, lsl #1]
e4e94040 st1h {z0.d}, p0, [x2, x9, lsl #1]
e5494040 st1w {z0.s}, p0, [x2, x9, lsl #2]
e5694040 st1w {z0.d}, p0, [x2, x9, lsl #2]
e5e94040 st1d {z0.d}, p0, [x2, x9, lsl #3]
";
