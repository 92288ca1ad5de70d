//! The call that does a command.

ghost use Rattle.std.specs.Prelude.{◌≡◌, ◌≢◌, ◌⊎◌, ℕ, List, Option, Some, None, IfSome, IsTrue, []};
ghost use Rattle.io_edges.specs.Files.{Rose};
ghost use Rattle.command_line.specs.Line.{Line};
ghost use Rattle.command_line.specs.View.{command_view};
ghost use Rattle.sve_top.specs.Asked.{asked};
ghost use Rattle.command_answers.specs.Answer.{HeldFiles, Expected};
ghost use Rattle.refusals.specs.Statuses.{status_of_refusal};
ghost use Rattle.sve_top.specs.Commands.{Expects, IsSettled, IsInput, IsListed, IsSilent, IsUnread, IsHeld, OnlyReads, StreamRose, NoneRose, Compiled, OthersKept, Swept, AsItComes, InTime};
ghost use Rattle.command_answers.specs.Works.{SomeExpected};
ghost use Rattle.sve_top.specs.Requested.{AsksTo};
ghost use Rattle.sve_top.specs.Leaves.{seen, Leaves};
ghost use Rattle.sve_top.specs.Does.{Does, outside};
ghost use Rattle.sve_top.specs.Complete.{Completes};
ghost use Rattle.command_answers.specs.Outputs.{Gains, error_line_by};
ghost use Rattle.refusals.specs.Lines.{line_of_refusal};

use command_line::command::Command;
use command_line::read::read_line;
use compile_command::compile::compile;
use io_edges::files::Files;
use io_edges::sink::Sink;
use io_edges::source::Source;
use kernel_commands::check::check;
use kernel_commands::eval::eval;
use object_command::object::object;
use pipe_command::pipe::pipe;
use program_commands::asm::asm;
use program_commands::debug::debug;
use program_commands::list::list;
use program_commands::run::run;
use refusals::put_refusal;
use refusals::refusal::{Done, Refusal};
use std::alloc::Global;
use sweep_command::sweep::sweep;

/// Does the command that the words spell, and answers its status. The words are those after the program's name.
///
/// 0 done; 2 the words are no command; 3 the kernel is refused; 4 a file is refused; 5 the program stopped; 6 its steps are
/// spent; 7 memory is short; 8 a file failed; 9 the output failed, or for `debug` the input. Every command but `compile`, `asm` and `object`
/// puts its text on `out`. At every status but 0, 5 and 6 one line on `err` tells the cause; a failure of `err` changes no status.
///
/// The input is asked for its next bytes only where the caller's `may_take` is met: for `debug` after the program was loaded and
/// while each line that was ended is answered on `out`, and for no other command.
///
/// Where the files tell what they hold, `does` says what status, text and line come of the words and the files (and for `debug` of
/// the bytes of the input), and `complete` that nothing else comes where nothing fails, but for want of memory; `sweep` has `swept` in
/// their place. Over files that tell nothing, as those of the system, `error_line_alike` and `error_line_some` pin the line by the
/// status, and no clause says which text is printed.
pub fn top<F: Files, I: Source, S: Sink, E: Sink>(
    alloc: Global,
    words: &[String],
    files: &mut F,
    input: &mut I,
    out: &mut S,
    err: &mut E,
) -> u8
    requires { (i : I) (s : S) → InTime (asked words.now) (F.held files.old)
        (I.left input.old) (I.left i) (S.taken out.old) (S.taken s) → I.may_take i }
    ensures does { (bytes : List ℕ) → IsInput (asked words.now) (I.left input.old) bytes
        → IsSettled (asked words.now)
        → IfSome (F.held files.old) (λ held. SomeExpected (Expects held bytes (asked words.now))
        (λ work. Does (asked words.now) work
        (outside (F.held files.old) (F.faults files.old) (S.taken out.old) (S.faults out.old) (E.taken err.old)
        (E.faults err.old) (I.faults input.old))
        (outside (F.held files.new) (F.faults files.new) (S.taken out.new) (S.faults out.new) (E.taken err.new)
        (E.faults err.new) (I.faults input.new))
        result)) }
    ensures complete { (bytes : List ℕ) → IsInput (asked words.now) (I.left input.old) bytes
        → IsTrue (F.steady files.old)
        → NoneRose (asked words.now) (S.faults out.old) (S.faults out.new)
        (I.faults input.old) (I.faults input.new)
        → IfSome (F.held files.old) (λ held. IfSome (asked words.now) (λ line. IsHeld held line)
        → Completes held bytes (asked words.now) (S.taken out.old) (S.taken out.new) result) }
    ensures usage { result ≡ 2 → asked words.now ≡ None }
    ensures listed { IsListed (asked words.now) result }
    ensures file { result ≡ 0 → IfSome (asked words.now)
        (λ line. IfSome (F.held files.old) (λ old. IfSome (F.held files.new) (λ new. Compiled old new line))) }
    ensures others { IfSome (F.held files.old)
        (λ old. IfSome (F.held files.new) (λ new. OthersKept old new (asked words.now))) }
    ensures swept { Swept (asked words.now) (F.held files.new) (S.taken out.old) (S.taken out.new) result }
    ensures kept { (result ≡ 2) ⊎ (result ≡ 3) ⊎ (result ≡ 4) → F.held files.new ≡ F.held files.old }
    ensures reads { OnlyReads (asked words.now) → F.held files.new ≡ F.held files.old }
    ensures failed { result ≡ 8 → Rose (F.faults files.old) (F.faults files.new) }
    ensures output { result ≡ 9 → StreamRose (asked words.now) (S.faults out.old) (S.faults out.new)
        (I.faults input.old) (I.faults input.new) }
    ensures steady { IsTrue (F.steady files.old)
        → IfSome (asked words.now) (λ line. IfSome (F.held files.old)
        (λ held. IsHeld held line → result ≢ 8)) }
    ensures requested { IfSome (F.held files.old) (λ held. AsksTo (asked words.now) held
        (F.requests files.old) (F.requests files.new) result) }
    ensures as_it_comes { AsItComes (asked words.now) (F.held files.old) (I.left input.old) (I.left input.new)
        (S.taken out.old) (S.taken out.new) (S.faults out.old) (S.faults out.new) (result ≡ 9) }
    ensures quiet { (result ≡ 2) ⊎ (result ≡ 3) ⊎ (result ≡ 4) ⊎ (result ≡ 8) → out.new ≡ out.old }
    ensures silent { IsSilent (asked words.now) → out.new ≡ out.old }
    ensures untold { (result ≡ 0) ⊎ (result ≡ 5) ⊎ (result ≡ 6) → err.new ≡ err.old }
    ensures unread { IsUnread (asked words.now) → input.new ≡ input.old }
    ensures error_line_alike { result ≢ 3 → result ≢ 4
        → Gains (E.taken err.old) (E.taken err.new) (E.faults err.old) (E.faults err.new) (error_line_by [] result) }
    ensures error_line_some { (result ≡ 3) ⊎ (result ≡ 4)
        → (refusal : Refusal) × (status_of_refusal refusal ≡ result)
        × Gains (E.taken err.old) (E.taken err.new) (E.faults err.old) (E.faults err.new) (line_of_refusal refusal) }
{
    match do_words(alloc, words, files, input, out) {
        Ok(done) => done.status(),
        Err(refusal) => {
            let _ = put_refusal(err, refusal);
            refusal.status()
        }
    }
}

// Does the command of some words.
fn do_words<F: Files, I: Source, S: Sink>(
    alloc: Global,
    words: &[String],
    files: &mut F,
    input: &mut I,
    out: &mut S,
) -> Result<Done, Refusal>
    requires { (i : I) (s : S) → InTime (asked words.now) (F.held files.old)
        (I.left input.old) (I.left i) (S.taken out.old) (S.taken s) → I.may_take i }
    ensures { Leaves (asked words.now)
        (seen (F.held files.old) (F.faults files.old) (F.requests files.old) (S.taken out.old) (S.faults out.old)
        (I.left input.old) (I.faults input.old))
        (seen (F.held files.new) (F.faults files.new) (F.requests files.new) (S.taken out.new) (S.faults out.new)
        (I.left input.new) (I.faults input.new))
        (IsTrue (F.steady files.old)) (out.new ≡ out.old) (input.new ≡ input.old) result }
{
    let Some(command) = read_line(alloc, words)? else {
        return Err(Refusal::Usage);
    };
    do_command(alloc, &command, files, input, out)
}

// Does a command.
fn do_command<F: Files, I: Source, S: Sink>(
    alloc: Global,
    command: &Command,
    files: &mut F,
    input: &mut I,
    out: &mut S,
) -> Result<Done, Refusal>
    requires { (i : I) (s : S) → InTime (Some (command_view command.now)) (F.held files.old)
        (I.left input.old) (I.left i) (S.taken out.old) (S.taken s) → I.may_take i }
    ensures { Leaves (Some (command_view command.now))
        (seen (F.held files.old) (F.faults files.old) (F.requests files.old) (S.taken out.old) (S.faults out.old)
        (I.left input.old) (I.faults input.old))
        (seen (F.held files.new) (F.faults files.new) (F.requests files.new) (S.taken out.new) (S.faults out.new)
        (I.left input.new) (I.faults input.new))
        (IsTrue (F.steady files.old)) (out.new ≡ out.old) (input.new ≡ input.old) result }
{
    match command {
        Command::Compile { from, to } => compile(alloc, from.as_str(), to.as_str(), files),
        Command::Check { from } => check(alloc, from.as_str(), files, out),
        Command::Eval(task) => eval(alloc, task, files, out),
        Command::List { from } => list(alloc, from.as_str(), files, out),
        Command::Run { vl, suppress, task } => run(alloc, *vl, *suppress, task, files, out),
        Command::Debug { vl, task } => debug(alloc, *vl, task, files, input, out),
        Command::Sweep { number, to } => sweep(alloc, *number, to.as_str(), files, out),
        Command::Asm { from, to } => asm(alloc, from.as_str(), to.as_str(), files),
        Command::Object { from, to } => object(alloc, from.as_str(), to.as_str(), files),
        Command::Pipe { vl, task } => pipe(alloc, *vl, task, files, out),
    }
}

/// Some work is wanted of each command that the files and the input settle.
pub fn some_expected()
    ensures { (held : HeldFiles) (bytes : List ℕ) (line : Option Line) → IsSettled line
        → (w : Expected) × Expects held bytes line w }
{}

/// One work alone is wanted of a command.
pub fn one_expected()
    ensures { (held : HeldFiles) (bytes : List ℕ) (line : Option Line) (v w : Expected) → IsSettled line
        → Expects held bytes line v → Expects held bytes line w → v ≡ w }
{}
