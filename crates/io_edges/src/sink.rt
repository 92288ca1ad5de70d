//! Places for bytes to go to.

ghost use Rattle.std.specs.Prelude.{◌≡◌, ◌<◌, ◌≤◌, ℕ, List, ◌++◌, length, take, Option, None, IfSome, IfOk, OnOk};
ghost use Rattle.io_edges.specs.Sink.{Puts, HasCause, PutsText, text_in};

use thiserror::Error;

/// A call of a sink or a source that failed.
#[derive(Clone, Copy, Debug, PartialEq, Eq, Error)]
#[error("input or output failed")]
pub struct Failed;

/// A place for bytes to go to: an output, or a list of bytes in memory.
pub trait Sink {
    /// The bytes that it has taken, where they are told.
    ghost taken: { Self → Option (List ℕ) };

    /// How often a call has failed, in a number of 64 bits that stays at its last value.
    ghost faults: { Self → ℕ };

    /// Takes bytes from the front of the piece, at least one, and answers how many. A sink that
    /// can take none has failed.
    fn put(&mut self, bytes: &[u8]) -> Result<usize, Failed>
        requires { 0 < length bytes.now }
        ensures some { IfOk result (λ n. (0 < n) × (n ≤ length bytes.now)) }
        ensures bytes { Puts (taken self.old) (taken self.new) bytes.now result }
        ensures cause { HasCause (faults self.old) (faults self.new) result };
}

/// Puts all the bytes, piece by piece. Where the sink fails it has taken a prefix of them.
pub fn put_all<S: Sink>(sink: &mut S, bytes: &[u8]) -> Result<(), Failed>
    ensures all { OnOk result (IfSome (S.taken sink.old) (λ old. S.taken sink.new ≡ Some (old ++ bytes.now))) }
    ensures prefix { IfSome (S.taken sink.old)
        (λ old. (n : ℕ) × (n ≤ length bytes.now) × (S.taken sink.new ≡ Some (old ++ take n bytes.now))) }
    ensures untold { S.taken sink.old ≡ None → S.taken sink.new ≡ None }
    ensures cause { HasCause (S.faults sink.old) (S.faults sink.new) result }
{
    let mut at = 0;
    while at < bytes.len() {
        let n = sink.put(&bytes[at..])?;
        at += n;
    }
    Ok(())
}

/// Puts pieces one after another, as one text would be put.
pub fn put_pieces<S: Sink>(sink: &mut S, pieces: &[&[u8]]) -> Result<(), Failed>
    ensures { let text = text_in pieces.now in
        PutsText (S.taken sink.old) (S.taken sink.new) (S.faults sink.old) (S.faults sink.new) text result }
{
    let [first, rest @ ..] = pieces else {
        return Ok(());
    };
    put_all(sink, first)?;
    put_pieces(sink, rest)
}
