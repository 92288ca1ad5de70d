//! Reading the words of a command.

ghost use Rattle.std.specs.Prelude.{◌≡◌, ◌≤◌, IfOk, IfSome, option_map, option_and_then, is_some, length, [], string_bytes};
ghost use Rattle.command_line.specs.Line.{is_length, positional, arguments_from, arguments_of, task_of, run_with, run_of, debug_with, debug_of, compile_of, two_of, sweep_of, asm_of, object_of, pipe_with, pipe_of, file_of, eval_with, eval_of, line_of, CheckLine, ListLine};
ghost use Rattle.command_line.specs.View.{texts, all_left, all_in, options_view, settings_and_words, both_bytes, task_view, command_view};
ghost use Rattle.command_line.specs.Given.{given_of, options_and_words};
ghost use Rattle.number_text.specs.View.{items_in, bytes_left};

use crate::command::{Command, Task};
use crate::number::argument;
use crate::options::{Settings, positional, read_settings};
use crate::place::Allowed;
use crate::taken::taken;
use guest_types::length::Vl;
use number_text::number;
use std::alloc::{AllocError, Global};

const NO_OPTIONS: Allowed = Allowed {
    vl: false,
    steps: false,
    map: false,
    dump: false,
    suppress: false,
};

const EVAL_OPTIONS: Allowed = Allowed {
    vl: false,
    steps: true,
    map: true,
    dump: true,
    suppress: false,
};

const RUN_OPTIONS: Allowed = Allowed {
    vl: true,
    steps: true,
    map: true,
    dump: true,
    suppress: true,
};

const PIPE_OPTIONS: Allowed = Allowed {
    vl: true,
    steps: true,
    map: true,
    dump: true,
    suppress: false,
};

const DEBUG_OPTIONS: Allowed = Allowed {
    vl: true,
    steps: false,
    map: true,
    dump: false,
    suppress: false,
};

// The options and the positional words of a command that has options.
fn options_and_words<'a>(
    alloc: Global,
    name: &'a str,
    allowed: Allowed,
    words: &'a [String],
) -> Result<Option<(Settings<'a>, Vec<&'a str>)>, AllocError>
    ensures { IfOk result (λ o. option_map settings_and_words o
        ≡ options_and_words (given_of allowed (texts words.entry.now))) }
{
    let Some(found) = taken(alloc, name, allowed, words)? else {
        return Ok(None);
    };
    let Some(settings) = read_settings(&found) else {
        return Ok(None);
    };
    let words = positional(alloc, &found)?;
    Ok(Some((settings, words)))
}

// The positional words of a command that has no options.
#[tactic(auto, using(crate::proofs::Lines::words_alone))]
fn words_alone<'a>(
    alloc: Global,
    name: &'a str,
    words: &'a [String],
) -> Result<Option<Vec<&'a str>>, AllocError>
    ensures { IfOk result (λ o. option_map all_in o ≡ positional (texts words.entry.now)) }
{
    let Some(found) = taken(alloc, name, NO_OPTIONS, words)? else {
        return Ok(None);
    };
    let words = positional(alloc, &found)?;
    Ok(Some(words))
}

// The vector length of so many bits.
fn length_of(bits: u64) -> Option<Vl>
    ensures some { is_some result ≡ is_length bits }
    ensures value { IfSome result (λ vl. vl ≡ bits) }
{
    match u32::try_from(bits) {
        Ok(bits) => Vl::new(bits),
        Err(_) => None,
    }
}

// The arguments that these words spell.
#[tactic(auto, unfolding(crate::specs::Line::arguments_from))]
fn all_arguments(alloc: Global, words: &[&str]) -> Result<Option<Vec<u64>>, AllocError>
    ensures read { IfOk result (λ o. option_map items_in o ≡ arguments_from [] (all_left words.now)) }
    ensures count { IfOk result (λ o. IfSome o (λ args. length args.items ≡ length words.now)) }
{
    let mut args = Vec::new(alloc);
    for word in words {
        let Some(n) = argument(word.as_bytes()) else {
            return Ok(None);
        };
        args.push(n)?;
    }
    Ok(Some(args))
}

// At most eight arguments.
#[tactic(auto, unfolding(crate::specs::Line::arguments_of))]
fn arguments(alloc: Global, words: &[&str]) -> Result<Option<Vec<u64>>, AllocError>
    ensures read { IfOk result (λ o. option_map items_in o ≡ arguments_of (all_left words.now)) }
    ensures few { IfOk result (λ o. IfSome o (λ args. length args.items ≤ 8)) }
{
    if words.len() > 8 {
        return Ok(None);
    }
    all_arguments(alloc, words)
}

// A text of its own, where there is one.
fn owned(alloc: Global, text: Option<&str>) -> Result<Option<String>, AllocError>
    ensures { IfOk result (λ o. option_map string_bytes o ≡ option_map bytes_left text.entry) }
{
    match text {
        Some(text) => Ok(Some(String::from_str(alloc, text)?)),
        None => Ok(None),
    }
}

// What is to be run, by its options and positional words.
#[tactic(auto, unfolding(crate::specs::Line::task_of))]
fn task(alloc: Global, settings: Settings<'_>, words: &[&str]) -> Result<Option<Task>, AllocError>
    ensures { IfOk result (λ o. option_map task_view o ≡ task_of (options_view settings.entry) (all_left words.now)) }
{
    let [file, rest @ ..] = words else {
        return Ok(None);
    };
    let Some(args) = arguments(alloc, rest)? else {
        return Ok(None);
    };
    Ok(Some(Task {
        steps: settings.steps.unwrap_or(100_000_000),
        map: owned(alloc, settings.map)?,
        dump: settings.dump,
        file: String::from_str(alloc, file)?,
        args,
    }))
}

// A run with these options and positional words.
#[tactic(auto, unfolding(crate::specs::Line::run_with))]
fn run_with(
    alloc: Global,
    settings: Settings<'_>,
    words: &[&str],
) -> Result<Option<Command>, AllocError>
    ensures { IfOk result (λ o. option_map command_view o
        ≡ run_with (options_view settings.entry) (all_left words.now)) }
{
    let Some(vl) = length_of(settings.vl.unwrap_or(128)) else {
        return Ok(None);
    };
    let Some(task) = task(alloc, settings, words)? else {
        return Ok(None);
    };
    Ok(Some(Command::Run {
        vl,
        suppress: settings.suppress,
        task,
    }))
}

// The command of the words after `run`.
#[tactic(auto, using(crate::proofs::Lines::run_is))]
fn run(alloc: Global, words: &[String]) -> Result<Option<Command>, AllocError>
    ensures { IfOk result (λ o. option_map command_view o ≡ run_of (texts words.now)) }
{
    match options_and_words(alloc, "run", RUN_OPTIONS, words)? {
        Some((settings, words)) => run_with(alloc, settings, &words),
        None => Ok(None),
    }
}

// A debugging session with these options and positional words.
#[tactic(auto, unfolding(crate::specs::Line::debug_with))]
fn debug_with(
    alloc: Global,
    settings: Settings<'_>,
    words: &[&str],
) -> Result<Option<Command>, AllocError>
    ensures { IfOk result (λ o. option_map command_view o
        ≡ debug_with (options_view settings.entry) (all_left words.now)) }
{
    if settings.steps.is_some() || settings.dump.is_some() || settings.suppress.is_some() {
        return Ok(None);
    }
    let Some(vl) = length_of(settings.vl.unwrap_or(128)) else {
        return Ok(None);
    };
    let Some(task) = task(alloc, settings, words)? else {
        return Ok(None);
    };
    Ok(Some(Command::Debug { vl, task }))
}

// The command of the words after `debug`.
#[tactic(auto, using(crate::proofs::Lines::debug_is))]
fn debug(alloc: Global, words: &[String]) -> Result<Option<Command>, AllocError>
    ensures { IfOk result (λ o. option_map command_view o ≡ debug_of (texts words.now)) }
{
    match options_and_words(alloc, "debug", DEBUG_OPTIONS, words)? {
        Some((settings, words)) => debug_with(alloc, settings, &words),
        None => Ok(None),
    }
}

// A script with these options and positional words.
#[tactic(auto, unfolding(crate::specs::Line::pipe_with))]
fn pipe_with(
    alloc: Global,
    settings: Settings<'_>,
    words: &[&str],
) -> Result<Option<Command>, AllocError>
    ensures { IfOk result (λ o. option_map command_view o
        ≡ pipe_with (options_view settings.entry) (all_left words.now)) }
{
    if settings.suppress.is_some() || words.len() > 1 {
        return Ok(None);
    }
    let Some(vl) = length_of(settings.vl.unwrap_or(128)) else {
        return Ok(None);
    };
    let Some(task) = task(alloc, settings, words)? else {
        return Ok(None);
    };
    Ok(Some(Command::Pipe { vl, task }))
}

// The command of the words after `pipe`.
#[tactic(auto, using(crate::proofs::Lines::pipe_is))]
fn pipe(alloc: Global, words: &[String]) -> Result<Option<Command>, AllocError>
    ensures { IfOk result (λ o. option_map command_view o ≡ pipe_of (texts words.now)) }
{
    match options_and_words(alloc, "pipe", PIPE_OPTIONS, words)? {
        Some((settings, words)) => pipe_with(alloc, settings, &words),
        None => Ok(None),
    }
}

// The command of the words after `sweep`.
#[tactic(auto, unfolding(crate::specs::Line::sweep_of))]
fn sweep(alloc: Global, words: &[String]) -> Result<Option<Command>, AllocError>
    ensures { IfOk result (λ o. option_map command_view o ≡ sweep_of (texts words.now)) }
{
    let Some(found) = words_alone(alloc, "sweep", words)? else {
        return Ok(None);
    };
    let [number_word, to] = found.as_slice() else {
        return Ok(None);
    };
    let Some(number) = number(number_word.as_bytes()) else {
        return Ok(None);
    };
    Ok(Some(Command::Sweep {
        number,
        to: String::from_str(alloc, to)?,
    }))
}

// The two positional words, where there are no others.
fn two_words(
    alloc: Global,
    name: &'static str,
    words: &[String],
) -> Result<Option<(String, String)>, AllocError>
    ensures { IfOk result (λ o. option_map both_bytes o ≡ option_and_then two_of (positional (texts words.now))) }
{
    let Some(found) = words_alone(alloc, name, words)? else {
        return Ok(None);
    };
    let [from, to] = found.as_slice() else {
        return Ok(None);
    };
    Ok(Some((String::from_str(alloc, from)?, String::from_str(alloc, to)?)))
}

// The command of the words after `compile`.
#[tactic(auto, using(crate::proofs::Lines::compile_is))]
fn compile(alloc: Global, words: &[String]) -> Result<Option<Command>, AllocError>
    ensures { IfOk result (λ o. option_map command_view o ≡ compile_of (texts words.now)) }
{
    match two_words(alloc, "compile", words)? {
        Some((from, to)) => Ok(Some(Command::Compile { from, to })),
        None => Ok(None),
    }
}

// The command of the words after `asm`.
#[tactic(auto, using(crate::proofs::Lines::asm_is))]
fn asm(alloc: Global, words: &[String]) -> Result<Option<Command>, AllocError>
    ensures { IfOk result (λ o. option_map command_view o ≡ asm_of (texts words.now)) }
{
    match two_words(alloc, "asm", words)? {
        Some((from, to)) => Ok(Some(Command::Asm { from, to })),
        None => Ok(None),
    }
}

// The command of the words after `object`.
#[tactic(auto, using(crate::proofs::Lines::object_is))]
fn object(alloc: Global, words: &[String]) -> Result<Option<Command>, AllocError>
    ensures { IfOk result (λ o. option_map command_view o ≡ object_of (texts words.now)) }
{
    match two_words(alloc, "object", words)? {
        Some((from, to)) => Ok(Some(Command::Object { from, to })),
        None => Ok(None),
    }
}

// The one positional word, where there are no others.
#[tactic(auto, unfolding(crate::specs::Line::file_of))]
fn file(alloc: Global, name: &'static str, words: &[String]) -> Result<Option<String>, AllocError>
    ensures { IfOk result (λ o. option_map string_bytes o ≡ file_of (texts words.now)) }
{
    let Some(found) = words_alone(alloc, name, words)? else {
        return Ok(None);
    };
    let [from] = found.as_slice() else {
        return Ok(None);
    };
    Ok(Some(String::from_str(alloc, from)?))
}

// The command of the words after `check`.
fn check(alloc: Global, words: &[String]) -> Result<Option<Command>, AllocError>
    ensures { IfOk result (λ o. option_map command_view o ≡ option_map CheckLine (file_of (texts words.now))) }
{
    match file(alloc, "check", words)? {
        Some(from) => Ok(Some(Command::Check { from })),
        None => Ok(None),
    }
}

// The command of the words after `list`.
fn list(alloc: Global, words: &[String]) -> Result<Option<Command>, AllocError>
    ensures { IfOk result (λ o. option_map command_view o ≡ option_map ListLine (file_of (texts words.now))) }
{
    match file(alloc, "list", words)? {
        Some(from) => Ok(Some(Command::List { from })),
        None => Ok(None),
    }
}

// An evaluation with these options and positional words.
#[tactic(auto, unfolding(crate::specs::Line::eval_with))]
fn eval_with(
    alloc: Global,
    settings: Settings<'_>,
    words: &[&str],
) -> Result<Option<Command>, AllocError>
    ensures { IfOk result (λ o. option_map command_view o
        ≡ eval_with (options_view settings.entry) (all_left words.now)) }
{
    if settings.vl.is_some() || settings.suppress.is_some() {
        return Ok(None);
    }
    match task(alloc, settings, words)? {
        Some(task) => Ok(Some(Command::Eval(task))),
        None => Ok(None),
    }
}

// The command of the words after `eval`.
#[tactic(auto, using(crate::proofs::Lines::eval_is))]
fn eval(alloc: Global, words: &[String]) -> Result<Option<Command>, AllocError>
    ensures { IfOk result (λ o. option_map command_view o ≡ eval_of (texts words.now)) }
{
    match options_and_words(alloc, "eval", EVAL_OPTIONS, words)? {
        Some((settings, words)) => eval_with(alloc, settings, &words),
        None => Ok(None),
    }
}

/// The command that the words spell, where they are one. The words are those after the program's name.
///
/// The first word names the command, options stand next and positional words last:
/// `compile IN OUT`, `check IN`, `eval [--map M] [--steps N] [--dump A:L] IN [ARG]..`, `list FILE`,
/// `run [--vl N] [--steps N] [--map M] [--dump A:L] [--suppress N] FILE [ARG]..`,
/// `debug [--vl N] [--map M] FILE [ARG]..`, `sweep NUMBER OUT`, `asm IN OUT`, `object IN OUT` and
/// `pipe [--vl N] [--steps N] [--map M] [--dump A:L] SCRIPT`.
#[tactic(auto, unfolding(crate::specs::Line::line_of))]
pub fn read_line(alloc: Global, words: &[String]) -> Result<Option<Command>, AllocError>
    ensures { IfOk result (λ o. option_map command_view o ≡ line_of (texts words.now)) }
{
    let [name, rest @ ..] = words else {
        return Ok(None);
    };
    match name.as_str() {
        "compile" => compile(alloc, rest),
        "check" => check(alloc, rest),
        "eval" => eval(alloc, rest),
        "list" => list(alloc, rest),
        "run" => run(alloc, rest),
        "debug" => debug(alloc, rest),
        "sweep" => sweep(alloc, rest),
        "asm" => asm(alloc, rest),
        "object" => object(alloc, rest),
        "pipe" => pipe(alloc, rest),
        _ => Ok(None),
    }
}
