//! A session: the lines of an input, answered as they come.

ghost use Rattle.std.specs.Prelude.{◌≡◌, ◌≢◌, ◌+◌, ◌*◌, ◌-◌, ◌^◌, ◌≤◌, [], List, ℕ, drop, slice_get, not, Some, Err, IfOk, IfSome, OnOk, OnErr, IsErrOf};
ghost use Rattle.io_edges.specs.Files.{Rose};
ghost use Rattle.machine_model.specs.Machine.{State};
ghost use Rattle.sve_debug.specs.DebuggerState.{Stands};
ghost use Rattle.sve_debug.specs.Replies.{Session, after_line, line_text, quits};
ghost use Rattle.sve_debug.specs.declared.session.SessionFault.TheVariants as faults;
ghost use Rattle.sve_debug.specs.Sessions.{Tells, session_text, after_byte, byte_answer, pending, ends, AsItCame, AsksInTime};

use crate::debugger::Debugger;
use debug_history::keepable::Keepable;
use io_edges::sink::{Failed, Sink};
use io_edges::source::Source;
use std::alloc::{AllocFailed, Global};

/// What a session fails by.
#[derive(Clone, Copy, Debug, PartialEq, Eq)]
pub enum SessionFault {
    /// Memory was short.
    Memory,
    /// The input failed.
    Input,
    /// The output failed.
    Output,
}

// There is none from `Failed`, by which an input and an output fail alike.
impl From<AllocFailed<u8>> for SessionFault {
    ghost from_gives = { λ _ fault. fault ≡ faults.Memory };

    fn from(_refused: AllocFailed<u8>) -> SessionFault {
        SessionFault::Memory
    }
}

// So many bytes of the input are taken at most.
const LIMIT: u64 = 1_048_576;

// The next byte of an input, where it has not ended.
fn next<I: Source>(input: &mut I) -> Result<Option<u8>, SessionFault>
    requires { I.may_take input.old }
    ensures byte { IfSome (I.left input.old) (λ bytes. IfOk result (λ byte. byte ≡ slice_get bytes 0)) }
    ensures left { IfSome (I.left input.old) (λ bytes. OnOk result (I.left input.new ≡ Some (drop 1 bytes))) }
    ensures unread { IfSome (I.left input.old) (λ bytes. OnErr result (I.left input.new ≡ Some bytes)) }
    ensures later { I.faults input.old ≤ I.faults input.new }
    ensures input { IsErrOf result SessionFault.Input → Rose (I.faults input.old) (I.faults input.new) }
    ensures output { result ≢ Err SessionFault.Output }
{
    let mut piece = [0; 1];
    match input.take(&mut piece) {
        Ok(0) => Ok(None),
        Ok(_) => Ok(Some(piece[0])),
        Err(Failed) => Err(SessionFault::Input),
    }
}

// Answers a line.
fn tell<D: Keepable, S: Sink>(
    debugger: &mut Debugger<D>,
    line: &[u8],
    out: &mut S,
) -> Result<bool, SessionFault>
    requires { debugger.old.machine.steps ≤ 2 ^ 64 - 100000001 }
    ensures session { (start : State) (d : Session) → Stands debugger.old start d →
        Stands debugger.new start (after_line line.now d) }
    ensures steps { debugger.new.machine.steps ≤ debugger.old.machine.steps + 100000000 }
    ensures told { (start : State) (d : Session) → Stands debugger.old start d →
        Tells (S.taken out.old) (S.taken out.new) (line_text line.now d) result }
    ensures later { S.faults out.old ≤ S.faults out.new }
    ensures output { IsErrOf result SessionFault.Output → Rose (S.faults out.old) (S.faults out.new) }
    ensures input { result ≢ Err SessionFault.Input }
    ensures goes_on { IfOk result (λ on. on ≡ not (quits line.now)) }
{
    match debugger.command(line, out) {
        Ok(on) => Ok(on),
        Err(Failed) => Err(SessionFault::Output),
    }
}

// Takes a byte, which belongs to the line that is pending or ends it, and says whether the session goes on.
fn answer_byte<D: Keepable, S: Sink>(
    debugger: &mut Debugger<D>,
    line: &mut Vec<u8>,
    byte: u8,
    out: &mut S,
) -> Result<bool, SessionFault>
    requires { debugger.old.machine.steps ≤ 2 ^ 64 - 100000001 }
    ensures session { (start : State) (d : Session) → Stands debugger.old start d →
        Stands debugger.new start (after_byte line.old.items byte d) }
    ensures line { OnOk result (line.new.items ≡ pending line.old.items byte) }
    ensures steps { debugger.new.machine.steps ≤ debugger.old.machine.steps + 100000000 }
    ensures told { (start : State) (d : Session) → Stands debugger.old start d →
        Tells (S.taken out.old) (S.taken out.new) (byte_answer line.old.items byte d) result }
    ensures later { S.faults out.old ≤ S.faults out.new }
    ensures output { IsErrOf result SessionFault.Output → Rose (S.faults out.old) (S.faults out.new) }
    ensures input { result ≢ Err SessionFault.Input }
    ensures goes_on { IfOk result (λ on. on ≡ not (ends line.old.items byte)) }
{
    if byte == b'\n' {
        let on = tell(debugger, line.as_slice(), out)?;
        line.clear();
        return Ok(on);
    }
    line.push(byte)?;
    Ok(true)
}

// Answers the last line.
fn finish<D: Keepable, S: Sink>(
    debugger: &mut Debugger<D>,
    line: &[u8],
    out: &mut S,
) -> Result<(), SessionFault>
    requires { debugger.old.machine.steps ≤ 2 ^ 64 - 100000001 }
    ensures told { (start : State) (d : Session) → Stands debugger.old start d →
        Tells (S.taken out.old) (S.taken out.new) (line_text line.now d) result }
    ensures output { IsErrOf result SessionFault.Output → Rose (S.faults out.old) (S.faults out.new) }
    ensures input { result ≢ Err SessionFault.Input }
{
    tell(debugger, line, out)?;
    Ok(())
}

// Answers the lines of an input, the first of which begins with no bytes.
fn answer_lines<D: Keepable, I: Source, S: Sink>(
    debugger: &mut Debugger<D>,
    line: &mut Vec<u8>,
    input: &mut I,
    out: &mut S,
) -> Result<(), SessionFault>
    requires steps { debugger.old.machine.steps ≡ 0 }
    requires empty { line.old.items ≡ [] }
    requires in_time { AsksInTime debugger.old I.left S.taken I.may_take input.old out.old }
    ensures told { (start : State) (d : Session) → Stands debugger.old start d →
        IfSome (I.left input.old) (λ bytes. Tells (S.taken out.old) (S.taken out.new) (session_text d bytes) result) }
    ensures as_it_comes { (start : State) (d : Session) → Stands debugger.old start d → IsErrOf result SessionFault.Input →
        IfSome (I.left input.old) (λ bytes. AsItCame d bytes (I.left input.new) (S.taken out.old) (S.taken out.new)) }
    ensures output { IsErrOf result SessionFault.Output → Rose (S.faults out.old) (S.faults out.new) }
    ensures input { IsErrOf result SessionFault.Input → Rose (I.faults input.old) (I.faults input.new) }
{
    for taken in 0..LIMIT {
        let Some(byte) = next(input)? else {
            return finish(debugger, line.as_slice(), out);
        };
        let on = answer_byte(debugger, line, byte, out)?;
        if !on {
            return Ok(());
        }
    }
    finish(debugger, line.as_slice(), out)
}

/// Answers the lines of an input, each as it comes, up to one that ends the session, to the end of the input, or to the
/// last of the bytes that are taken at most. What is left of a line then is a line too.
pub fn session<D: Keepable, I: Source, S: Sink>(
    alloc: Global,
    debugger: &mut Debugger<D>,
    input: &mut I,
    out: &mut S,
) -> Result<(), SessionFault>
    requires steps { debugger.old.machine.steps ≡ 0 }
    requires in_time { AsksInTime debugger.old I.left S.taken I.may_take input.old out.old }
    ensures told { (start : State) (d : Session) → Stands debugger.old start d →
        IfSome (I.left input.old) (λ bytes. Tells (S.taken out.old) (S.taken out.new) (session_text d bytes) result) }
    ensures as_it_comes { (start : State) (d : Session) → Stands debugger.old start d → IsErrOf result SessionFault.Input →
        IfSome (I.left input.old) (λ bytes. AsItCame d bytes (I.left input.new) (S.taken out.old) (S.taken out.new)) }
    ensures output { IsErrOf result SessionFault.Output → Rose (S.faults out.old) (S.faults out.new) }
    ensures input { IsErrOf result SessionFault.Input → Rose (I.faults input.old) (I.faults input.new) }
{
    let mut line = Vec::new(alloc);
    answer_lines(debugger, &mut line, input, out)
}
