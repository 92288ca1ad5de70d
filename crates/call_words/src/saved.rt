//! The registers that a function has to keep.

ghost use Rattle.std.specs.Prelude.{◌≡◌, ◌<◌, ◌≤◌, ◌++◌, ◌∷◌, [], All, IfOk, length};
ghost use Rattle.promises.specs.Saved.{written_among};
ghost use Rattle.call_words.specs.Classes.{numbers_of, written_of};

use crate::class::Class;
use crate::written::is_written;
use a64_code::Reg;
use std::alloc::{AllocError, Global};
use word_rows::Bits;

// Appends a register.
fn put(kept: &mut Vec<Reg>, register: u32) -> Result<(), AllocError>
    requires { register < 32 }
    ensures { IfOk result (λ _. numbers_of kept.new.items ≡ numbers_of kept.old.items ++ register ∷ []) }
{
    kept.push(Bits::new(register))?;
    Ok(())
}

// Appends a register of a class, where the words write it.
fn put_written(
    kept: &mut Vec<Reg>,
    class: Class,
    words: &[u32],
    register: u32,
) -> Result<(), AllocError>
    requires { register < 32 }
    ensures { IfOk result (λ _. numbers_of kept.new.items
        ≡ numbers_of kept.old.items ++ written_among (written_of class) words.now (register ∷ [])) }
{
    if is_written(class, register, words) {
        put(kept, register)?;
        return Ok(());
    }
    Ok(())
}

/// Those of some registers of a class that the words write.
pub fn saved(
    alloc: Global,
    class: Class,
    words: &[u32],
    registers: &[u32],
) -> Result<Vec<Reg>, AllocError>
    requires { All (λ r. r < 32) registers.now }
    ensures kept { IfOk result (λ kept.
        numbers_of kept.items ≡ written_among (written_of class) words.now registers.now) }
    ensures few { IfOk result (λ kept. length kept.items ≤ length registers.now) }
{
    let mut kept = Vec::new(alloc);
    for register in registers {
        put_written(&mut kept, class, words, *register)?;
    }
    Ok(kept)
}
