//! The program as one call, for a page: the words of a command, files and an input come in as bytes, and the status, the texts and a
//! file go out as bytes.
#![tactic(auto)]

mod answer;
mod call;
mod request;

ghost use Rattle.std.specs.Prelude.{◌≡◌, ◌≤◌, ◌<◌, ℕ, List, length, take};
ghost use Rattle.page.specs.Request.{IsNoRequest};
ghost use Rattle.page.specs.Told.{Tells, HasNoRoom};

use crate::answer::{NoAnswer, put_answer};
use crate::call::call;
use crate::request::{NoRequest, read_request};
use std::alloc::Global;

/// In place of the length of an answer, which has twelve bytes at least: memory was short.
pub const NO_MEMORY: usize = 0;

/// The request has another form.
pub const NO_REQUEST: usize = 1;

/// The answer is longer than its room.
pub const NO_ROOM: usize = 2;

/// Does the command that the request asks for, over the files that it holds, and writes the answer to the front of `answer`: how many
/// bytes of it are the answer, which `Tells` what `top` says of the request; or one of the three numbers below twelve that say why there
/// is none.
#[unsafe(no_mangle)]
pub extern "C" fn svec_call(alloc: Global, request: &[u8], answer: &mut [u8]) -> usize
    ensures within { 12 ≤ result → result ≤ length answer.new }
    ensures tells { 12 ≤ result → Tells request.now (take result answer.new) }
    ensures why { result < 12 → result ≤ NO_ROOM }
    ensures form { result ≡ NO_REQUEST → IsNoRequest request.now }
    ensures room { result ≡ NO_ROOM → HasNoRoom request.now (length answer.new) }
{
    let request = match read_request(alloc, request) {
        Ok(request) => request,
        Err(NoRequest::Form) => return NO_REQUEST,
        Err(NoRequest::Memory) => return NO_MEMORY,
    };
    let Ok(done) = call(alloc, request, answer.len()) else {
        return NO_MEMORY;
    };
    match put_answer(alloc, &done, answer) {
        Ok(length) => length,
        Err(NoAnswer::Room) => NO_ROOM,
        Err(NoAnswer::Memory) => NO_MEMORY,
    }
}
