//! Whether words may follow the name of a command.

ghost use Rattle.std.specs.Prelude.{◌≡◌, option_map};
ghost use Rattle.command_line.specs.Given.{name_of, joined_of, allows, without, after_option, next, may_end, stands};
ghost use Rattle.command_line.specs.Numbers.{parted};
ghost use Rattle.command_line.specs.View.{texts, both_left, name_and_value};

use crate::place::{Allowed, OptionName, Place};
use crate::word::{is_end, is_positional};

// The parts of a word around its first equals sign.
#[tactic(auto, unfolding(crate::specs::Numbers::parted))]
fn around_equals(word: &str) -> Option<(&str, &str)>
    ensures { option_map both_left result ≡ parted 61 word.now }
{
    word.split_once('=')
}

// The option that a word names.
fn name_of(word: &str) -> Option<OptionName>
    ensures { result ≡ name_of word.now }
{
    match word {
        "--vl" => Some(OptionName::Vl),
        "--steps" => Some(OptionName::Steps),
        "--map" => Some(OptionName::Map),
        "--dump" => Some(OptionName::Dump),
        "--suppress" => Some(OptionName::Suppress),
        _ => None,
    }
}

// The option that a word names before its equals sign, and its value.
#[tactic(auto, unfolding(crate::specs::Given::joined_of))]
fn joined(word: &str) -> Option<(OptionName, &str)>
    ensures { option_map name_and_value result ≡ joined_of word.now }
{
    let (front, value) = around_equals(word)?;
    if !is_positional(true, value.as_bytes()) {
        return None;
    }
    let name = name_of(front)?;
    Some((name, value))
}

impl Allowed {
    fn allows(self, name: OptionName) -> bool
        ensures { result ≡ allows self name }
    {
        match name {
            OptionName::Vl => self.vl,
            OptionName::Steps => self.steps,
            OptionName::Map => self.map,
            OptionName::Dump => self.dump,
            OptionName::Suppress => self.suppress,
        }
    }

    fn without(mut self, name: OptionName) -> Allowed
        ensures { result ≡ without self name }
    {
        match name {
            OptionName::Vl => self.vl = false,
            OptionName::Steps => self.steps = false,
            OptionName::Map => self.map = false,
            OptionName::Dump => self.dump = false,
            OptionName::Suppress => self.suppress = false,
        }
        self
    }
}

// What may come after an option.
fn after_option(allowed: Allowed, word: &str) -> Option<Place>
    ensures { result ≡ after_option allowed word.now }
{
    if let Some(name) = name_of(word) {
        if allowed.allows(name) {
            return Some(Place::Value(name, allowed));
        }
        return None;
    }
    let (name, _) = joined(word)?;
    if allowed.allows(name) {
        Some(Place::Options(allowed.without(name)))
    } else {
        None
    }
}

// What may come after a word.
#[tactic(auto, unfolding(crate::specs::Given::next))]
fn next(place: Place, word: &str) -> Option<Place>
    ensures { result ≡ next place word.now }
{
    let end = is_end(word);
    let plain = is_positional(false, word.as_bytes());
    match place {
        Place::Options(_) | Place::Positional if end => Some(Place::Literal),
        Place::Options(_) | Place::Positional if plain => Some(Place::Positional),
        Place::Options(allowed) => after_option(allowed, word),
        Place::Value(name, allowed) if plain => Some(Place::Options(allowed.without(name))),
        Place::Literal if !end && !word.is_empty() => Some(Place::Literal),
        _ => None,
    }
}

/// Whether these words may follow the name of a command that has these options.
///
/// Options stand first, each at most once, as `--name value` or `--name=value`, and then positional words. One `--` may
/// stand after the options; positional words after it may begin with a minus.
#[tactic(auto, unfolding(crate::specs::Given::stands))]
pub fn may_follow(allowed: Allowed, words: &[String]) -> bool
    ensures { result ≡ stands (Place.Options allowed) (texts words.now) }
{
    let mut place = Place::Options(allowed);
    for word in words {
        match next(place, word.as_str()) {
            Some(after) => place = after,
            None => return false,
        }
    }
    !matches!(place, Place::Value(..))
}
