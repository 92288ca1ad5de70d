//! What a page is told.

ghost use Rattle.std.specs.Prelude.{◌≡◌, ◌≤◌, ◌<◌, ◌++◌, length, take, IfOk, Err, string_bytes};
ghost use Rattle.std.specs.Int.{to_le_bytes, w32};
ghost use Rattle.io_edges.specs.Files.{content};
ghost use Rattle.page.specs.Answer.{field, answer_bytes};
ghost use Rattle.page.specs.declared.answer.NoAnswer.TheVariants.{Memory, Room};

use crate::call::Done;
use std::alloc::{AllocError, Global};

/// Why no answer was written.
#[derive(Clone, Copy, Debug, PartialEq, Eq)]
pub enum NoAnswer {
    /// There was no memory for it.
    Memory,

    /// It is longer than its room.
    Room,
}

impl From<AllocError> for NoAnswer {
    ghost from_gives = { λ _ e. e ≡ Memory };

    fn from(_: AllocError) -> NoAnswer {
        NoAnswer::Memory
    }
}

fn put_number(text: &mut Vec<u8>, number: u32) -> Result<(), AllocError>
    ensures { IfOk result (λ _. text.new.items ≡ text.old.items ++ to_le_bytes w32 number) }
{
    text.extend_from_slice(&number.to_le_bytes())
}

fn put_field(text: &mut Vec<u8>, bytes: &[u8]) -> Result<(), AllocError>
    ensures { IfOk result (λ _. text.new.items ≡ text.old.items ++ field bytes.now) }
{
    let Ok(count) = u32::try_from(bytes.len()) else {
        return Err(AllocError);
    };
    put_number(text, count)?;
    text.extend_from_slice(bytes)
}

// The bytes of an answer.
fn answer_of(alloc: Global, done: &Done) -> Result<Vec<u8>, AllocError>
    ensures { IfOk result (λ text. text.items ≡ answer_bytes done.now.status done.now.out.taken done.now.err.taken
        (content done.now.files.held (string_bytes done.now.wanted))) }
{
    let mut text = Vec::new(alloc);
    put_number(&mut text, u32::from(done.status))?;
    put_field(&mut text, done.out.bytes())?;
    put_field(&mut text, done.err.bytes())?;
    if let Some(bytes) = done.files.bytes(done.wanted.as_str()) {
        put_field(&mut text, bytes)?;
    }
    Ok(text)
}

/// Writes what a command came to to the front of `answer`: its status, what the output and the error output took and, where there is one,
/// the file that is wanted. Answers how many bytes that are.
pub fn put_answer(alloc: Global, done: &Done, answer: &mut [u8]) -> Result<usize, NoAnswer>
    ensures within { IfOk result (λ n. n ≤ length answer.new) }
    ensures long { IfOk result (λ n. 12 ≤ n) }
    ensures told { IfOk result (λ n. take n answer.new ≡ answer_bytes done.now.status done.now.out.taken done.now.err.taken
        (content done.now.files.held (string_bytes done.now.wanted))) }
    ensures room { result ≡ Err Room → length answer.new < length (answer_bytes done.now.status done.now.out.taken
        done.now.err.taken (content done.now.files.held (string_bytes done.now.wanted))) }
{
    let text = answer_of(alloc, done)?;
    let length = text.len();
    if length > answer.len() {
        return Err(NoAnswer::Room);
    }
    answer[..length].copy_from_slice(&text);
    Ok(length)
}
