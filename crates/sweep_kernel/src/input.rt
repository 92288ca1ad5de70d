//! The text of the kernel, and the arguments of its runs.

ghost use Rattle.std.specs.Prelude.{◌≡◌, ◌++◌, OnOk, IfOk};
ghost use Rattle.sweep_kernel.specs.Numbers.{arguments_of};
ghost use Rattle.sweep_kernel.specs.KernelText.{text_with, kernel_text};

use crate::draw::Draw;
use crate::text::push_numbered;
use std::alloc::{AllocError, Global};

// Appends the text with an initial value, an offset and a level.
#[tactic(auto, unfolding(crate::specs::KernelText::text_with))]
fn push_text(text: &mut Vec<u8>, initial: u64, offset: u64, level: u64) -> Result<(), AllocError>
    ensures { OnOk result (text.new.items ≡ text.old.items ++ text_with initial offset level) }
{
    push_numbered(
        text,
        b"kernel sweep(a: [i16], b: [u8], y: [i32], k: i32, n: u64) -> i64 { var s: i64 = 0; var m: i32 = ",
        initial,
    )?;
    push_numbered(
        text,
        b"; for i in 0..n { let t = a[i] as i32 * k + b[i + ",
        offset,
    )?;
    push_numbered(text, b"] as i32; if t > ", level)?;
    text.extend_from_slice(
        b" || b[i] == 7 { y[i] = t; s += t as i64; } else { m max= t; } } return s + m as i64; }",
    )
}

/// The text of the kernel that a seed makes.
pub fn kernel_text(alloc: Global, seed: u64) -> Result<Vec<u8>, AllocError>
    ensures { IfOk result (λ text. text.items ≡ kernel_text seed) }
{
    let first = Draw::new(seed).after();
    let second = first.after();
    let third = second.after();
    let mut text = Vec::new(alloc);
    push_text(
        &mut text,
        third.number() % 100,
        first.number() % 9,
        second.number() % 1000,
    )?;
    Ok(text)
}

/// The arguments of each run of the kernel.
pub fn arguments(seed: u64) -> [u64; 5]
    ensures { result ≡ arguments_of seed }
{
    let fourth = Draw::new(seed).after().after().after().after();
    let fifth = fourth.after();
    [
        0x100_0000,
        0x200_0000,
        0x300_0000,
        fourth.number(),
        100_000 + fifth.number() % 1000,
    ]
}
