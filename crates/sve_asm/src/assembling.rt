//! The words of lines.

ghost use Rattle.std.specs.Prelude.{◌≡◌, ◌+◌, ◌≤◌, ◌<◌, [], length, Some, Ok, IfOk, IfErr, OnOk, option_map};
ghost use Rattle.sve_asm.specs.Lines.{asm_line_of, after_line, after_lines, words_of};
ghost use Rattle.sve_asm.specs.View.{line_view, Refuses};
ghost use Rattle.text_parts.specs.Parts.{lines_of};

use crate::fault::AsmFault;
use crate::line::{Said, line_of};
use std::alloc::Global;
use text_parts::cut;

/// The most bytes of a text.
const MOST_BYTES: usize = 8_388_608;

/// The most words.
const MOST_WORDS: usize = 65_536;

// Adds what a line says to the words.
fn add_line(words: &mut Vec<u32>, line: u32, said: Option<Said>) -> Result<(), AsmFault>
    ensures added { OnOk result (after_line line (option_map line_view said) words.old.items ≡ Ok words.new.items) }
    ensures refused { IfErr result (λ fault.
        Refuses (after_line line (option_map line_view said) words.old.items) fault) }
    ensures few { OnOk result (length words.old.items ≤ 65536 → length words.new.items ≤ 65536) }
{
    match said {
        None => Err(AsmFault::BadLine { line }),
        Some(Said::Blank) => Ok(()),
        Some(Said::Unlike { want, found }) => Err(AsmFault::Differs { line, want, found }),
        Some(Said::Word(word)) => {
            if words.len() >= MOST_WORDS {
                return Err(AsmFault::TooManyWords);
            }
            match words.push(word) {
                Ok(()) => Ok(()),
                Err(_) => Err(AsmFault::Memory),
            }
        }
    }
}

// The words of lines.
#[tactic(auto, unfolding(crate::specs::Lines::after_lines))]
fn read_lines(alloc: Global, text: &[u8]) -> Result<Vec<u32>, AsmFault>
    requires { length text.now ≤ 8388608 }
    ensures words { IfOk result (λ words. after_lines 1 (lines_of text.now) [] ≡ Ok words.items) }
    ensures refused { IfErr result (λ fault. Refuses (after_lines 1 (lines_of text.now) []) fault) }
    ensures few { IfOk result (λ words. length words.items ≤ 65536) }
{
    let mut words = Vec::new(alloc);
    let mut line = 1;
    let mut rest = Some(text);
    while let Some(left) = rest {
        let (first, others) = cut(b'\n', left);
        add_line(&mut words, line, line_of(first))?;
        line += 1;
        rest = others;
    }
    Ok(words)
}

/// The words of a text, one for each line that has a word.
///
/// The first line that fails is told.
#[tactic(auto, unfolding(crate::specs::Lines::words_of))]
pub fn assemble(alloc: Global, text: &[u8]) -> Result<Vec<u32>, AsmFault>
    ensures words { IfOk result (λ words. words_of text.now ≡ Ok words.items) }
    ensures refused { IfErr result (λ fault. Refuses (words_of text.now) fault) }
    ensures few { IfOk result (λ words. length words.items ≤ 65536) }
{
    if text.len() > MOST_BYTES {
        return Err(AsmFault::TooLong);
    }
    read_lines(alloc, text)
}
