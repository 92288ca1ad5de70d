//! The options of a command.

ghost use Rattle.std.specs.Prelude.{◌≡◌, ◌≤◌, IfOk, IfSome, option_map};
ghost use Rattle.command_line.specs.Line.{extent, extent_of, period_of};
ghost use Rattle.command_line.specs.Numbers.{parted};
ghost use Rattle.command_line.specs.Given.{spelt_value, options_in};
ghost use Rattle.command_line.specs.Taken.{given_view};
ghost use Rattle.number_text.specs.Numbers.{number_of};
ghost use Rattle.command_line.specs.View.{both_left, extent_view, options_view, all_left};
ghost use Rattle.number_text.specs.View.{bytes_left};

use crate::command::Extent;
use clap::ArgMatches;
use number_text::number;
use std::alloc::{AllocError, Global};

/// The values of the options that were given.
#[derive(Clone, Copy)]
pub struct Settings<'a> {
    pub vl: Option<u64>,
    pub steps: Option<u64>,
    pub map: Option<&'a str>,
    pub dump: Option<Extent>,
    pub suppress: Option<u64>,
}

// The parts of a word around its first colon.
#[tactic(auto, unfolding(crate::specs::Numbers::parted))]
fn around_colon(word: &str) -> Option<(&str, &str)>
    ensures { option_map both_left result ≡ parted 58 word.now }
{
    word.split_once(':')
}

// Bytes of memory, where these are at least one and at most 65,536, none of them at 2^64 or above.
fn extent(address: u64, len: u64) -> Option<Extent>
    ensures { option_map extent_view result ≡ extent address len }
{
    if len < 1 || len > 65536 || address > 0u64.wrapping_sub(len) {
        return None;
    }
    Some(Extent { address, len })
}

// Bytes of memory as `A:L`.
#[tactic(auto, unfolding(crate::specs::Line::extent_of))]
fn extent_of(word: &str) -> Option<Extent>
    ensures { option_map extent_view result ≡ extent_of word.now }
{
    let (address, len) = around_colon(word)?;
    let address = number(address.as_bytes())?;
    let len = number(len.as_bytes())?;
    extent(address, len)
}

// The number of an option, where it is left out or spells one.
fn number_in(value: Option<&str>) -> Option<Option<u64>>
    ensures { result ≡ spelt_value number_of (option_map bytes_left value.entry) }
{
    match value {
        Some(text) => {
            let n = number(text.as_bytes())?;
            Some(Some(n))
        }
        None => Some(None),
    }
}

// A number of at least 1.
#[tactic(auto, unfolding(crate::specs::Line::period_of))]
fn period_of(word: &str) -> Option<u64>
    ensures { result ≡ period_of word.now }
{
    let n = number(word.as_bytes())?;
    if n < 1 {
        return None;
    }
    Some(n)
}

// The number of at least 1 of an option, where it is left out or spells one.
fn period_in(value: Option<&str>) -> Option<Option<u64>>
    ensures { result ≡ spelt_value period_of (option_map bytes_left value.entry) }
{
    match value {
        Some(text) => {
            let period = period_of(text)?;
            Some(Some(period))
        }
        None => Some(None),
    }
}

// The bytes of memory of an option, where it is left out or spells some.
fn extent_in(value: Option<&str>) -> Option<Option<Extent>>
    ensures { option_map (option_map extent_view) result ≡ spelt_value extent_of (option_map bytes_left value.entry) }
{
    match value {
        Some(text) => {
            let extent = extent_of(text)?;
            Some(Some(extent))
        }
        None => Some(None),
    }
}

/// The values of the options that were found, where they spell some.
#[tactic(auto, unfolding(crate::specs::Given::options_in))]
pub fn read_settings<'a>(found: &ArgMatches<'a>) -> Option<Settings<'a>>
    ensures { option_map options_view result ≡ options_in (given_view found.now) }
{
    let vl = number_in(found.get_str("vl"))?;
    let steps = number_in(found.get_str("steps"))?;
    let dump = extent_in(found.get_str("dump"))?;
    let suppress = period_in(found.get_str("suppress"))?;
    Some(Settings {
        vl,
        steps,
        map: found.get_str("map"),
        dump,
        suppress,
    })
}

/// The positional words that were found.
pub fn positional<'a>(alloc: Global, found: &ArgMatches<'a>) -> Result<Vec<&'a str>, AllocError>
    ensures { IfOk result (λ words. all_left words.items ≡ (given_view found.now).words) }
{
    match found.get_strs("words") {
        Some(words) => {
            let words = Vec::from_slice(alloc, words)?;
            Ok(words)
        }
        None => {
            let none = Vec::new(alloc);
            Ok(none)
        }
    }
}
