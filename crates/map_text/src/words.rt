//! The words of a line.

ghost use Rattle.std.specs.Prelude.{◌≡◌, None, IfOk, IfSome, IfNone, option_map};
ghost use Rattle.map_text.specs.Lines.{line_of_words, map_line_of};
ghost use Rattle.map_text.specs.View.{range_view, patch_view, line_view};
ghost use Rattle.map_text.specs.Worded.{words_view};
ghost use Rattle.text_parts.specs.Parts.{words_of};

use crate::line::{patch, span};
use crate::map_line::{MapLine, MappedRange, Patch};
use std::alloc::{AllocError, Global};
use text_parts::cut;

// The words of a line that has three or four.
#[derive(Clone, Copy)]
pub struct LineWords<'a> {
    name: &'a [u8],
    address: &'a [u8],
    third: &'a [u8],
    fourth: Option<&'a [u8]>,
}

// The words of a line, where there are three or four.
#[tactic(auto, unfolding(crate::specs::Lines::line_of_words), using(crate::proofs::LineWords::five_words, text_parts::proofs::Parts::some_part))]
fn words(line: &[u8]) -> Option<LineWords<'_>>
    ensures some { IfSome result (λ words. words_of line.now ≡ words_view words) }
    ensures none { IfNone result (line_of_words (words_of line.now) ≡ None) }
{
    let (name, Some(rest)) = cut(b' ', line) else {
        return None;
    };
    let (address, Some(rest)) = cut(b' ', rest) else {
        return None;
    };
    let (third, rest) = cut(b' ', rest);
    let Some(rest) = rest else {
        return Some(LineWords {
            name,
            address,
            third,
            fourth: None,
        });
    };
    let (fourth, None) = cut(b' ', rest) else {
        return None;
    };
    Some(LineWords {
        name,
        address,
        third,
        fourth: Some(fourth),
    })
}

fn maps(span: Option<MappedRange>) -> Option<MapLine>
    ensures { option_map line_view result ≡ option_map range_view span }
{
    match span {
        Some(span) => Some(MapLine::Maps(span)),
        None => None,
    }
}

fn sets(patch: Option<Patch>) -> Option<MapLine>
    ensures { option_map line_view result ≡ option_map patch_view patch }
{
    match patch {
        Some(patch) => Some(MapLine::Sets(patch)),
        None => None,
    }
}

// What some words say.
#[tactic(auto, unfolding(crate::specs::Lines::line_of_words))]
fn line_of_words(alloc: Global, words: LineWords<'_>) -> Result<Option<MapLine>, AllocError>
    ensures { IfOk result (λ o. option_map line_view o ≡ line_of_words (words_view words.entry)) }
{
    match words.fourth {
        None => {
            if words.name != b"set".as_slice() {
                return Ok(None);
            }
            Ok(sets(patch(alloc, words.address, words.third)?))
        }
        Some(perm) => {
            if words.name != b"map".as_slice() {
                return Ok(None);
            }
            Ok(maps(span(words.address, words.third, perm)))
        }
    }
}

// What a line says, where it has one of the forms.
#[tactic(auto, unfolding(crate::specs::Lines::map_line_of))]
pub fn form(alloc: Global, line: &[u8]) -> Result<Option<MapLine>, AllocError>
    ensures { IfOk result (λ o. option_map line_view o ≡ map_line_of line.now) }
{
    let [first, ..] = line else {
        return Ok(Some(MapLine::Blank));
    };
    if *first == b'#' {
        return Ok(Some(MapLine::Blank));
    }
    let Some(words) = words(line) else {
        return Ok(None);
    };
    let form = line_of_words(alloc, words)?;
    Ok(form)
}
