//! Worked kernels.

use kernel_compile::compile_kernel;
use kernel_front::accept;
use promises::CompileFault;
use reg_assign::RegClass;
use std::test::Fail;

// The last two words are `movz x8, #93` and `svc #0`, as GNU `as` writes them.
#[test]
fn ends_by_the_exit_call(rt: HostRuntime) -> Result<(), Fail> {
    let kernel = accept(rt.alloc(), b"kernel f(x: u64) -> u64 { return x + 1; }")?;
    let words = compile_kernel(rt.alloc(), &kernel)?.words;
    assert!(rt; words.len() >= 3 && words.as_slice().ends_with(&[0xd280_0ba8, 0xd400_0001]));
    Ok(())
}

// `ptrue p1.b`, as GNU `as` writes it, stands at the head of vector code.
#[test]
fn chunks_are_run_at_once(rt: HostRuntime) -> Result<(), Fail> {
    let text = b"kernel fill(a: [u8], v: u8, n: u64) { for i in 0..n { a[i] = v; } }";
    let kernel = accept(rt.alloc(), text)?;
    let words = compile_kernel(rt.alloc(), &kernel)?.words;
    assert!(rt; words.contains(&0x2518_e3e1));
    Ok(())
}

// Forty values are live at once.
const MANY: &str = "kernel many(a: [u8], y: [u8], n: u64) { for i in 0..n {
    let v0 = a[i]; let v1 = a[i + 1]; let v2 = a[i + 2]; let v3 = a[i + 3]; let v4 = a[i + 4];
    let v5 = a[i + 5]; let v6 = a[i + 6]; let v7 = a[i + 7]; let v8 = a[i + 8]; let v9 = a[i + 9];
    let v10 = a[i + 10]; let v11 = a[i + 11]; let v12 = a[i + 12]; let v13 = a[i + 13]; let v14 = a[i + 14];
    let v15 = a[i + 15]; let v16 = a[i + 16]; let v17 = a[i + 17]; let v18 = a[i + 18]; let v19 = a[i + 19];
    let v20 = a[i + 20]; let v21 = a[i + 21]; let v22 = a[i + 22]; let v23 = a[i + 23]; let v24 = a[i + 24];
    let v25 = a[i + 25]; let v26 = a[i + 26]; let v27 = a[i + 27]; let v28 = a[i + 28]; let v29 = a[i + 29];
    let v30 = a[i + 30]; let v31 = a[i + 31]; let v32 = a[i + 32]; let v33 = a[i + 33]; let v34 = a[i + 34];
    let v35 = a[i + 35]; let v36 = a[i + 36]; let v37 = a[i + 37]; let v38 = a[i + 38]; let v39 = a[i + 39];
    y[i] = v0 + v1 + v2 + v3 + v4 + v5 + v6 + v7 + v8 + v9 + v10 + v11 + v12 + v13 + v14 + v15 + v16 + v17 + v18
        + v19 + v20 + v21 + v22 + v23 + v24 + v25 + v26 + v27 + v28 + v29 + v30 + v31 + v32 + v33 + v34 + v35
        + v36 + v37 + v38 + v39; } }";

#[test]
fn too_many_values(rt: HostRuntime) -> Result<(), Fail> {
    let kernel = accept(rt.alloc(), MANY.as_bytes())?;
    let fault = compile_kernel(rt.alloc(), &kernel).err().ok_or("compiled")?;
    let many = CompileFault::TooManyLive {
        class: RegClass::Z,
        need: 40,
    };
    let text = format!(in rt.alloc(); "{fault}")?;
    assert!(rt; fault == many && text.as_str() == "too many live z 40");
    Ok(())
}
