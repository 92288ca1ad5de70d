//! How deep tokens nest.

ghost use Rattle.std.specs.Prelude.{◌≡◌, ◌≤◌, ◌<◌, IfSome, length};
ghost use Rattle.kernel_tree.specs.Plain.{word_of, words_of};
ghost use Rattle.kernel_syntax.specs.Nesting.{open_by_mark, signs_by_mark, open_by, signs_by, deep_place};

use kernel_tree::mark::Mark;
use kernel_tree::token::Token;

const MOST_OPEN: usize = 64;

fn mark_open(depth: usize, mark: Mark) -> usize
    requires { depth ≤ 64 }
    ensures { result ≡ open_by_mark depth mark }
{
    match mark {
        Mark::OpenParen | Mark::OpenBracket | Mark::OpenBrace => depth + 1,
        Mark::CloseParen | Mark::CloseBracket | Mark::CloseBrace => depth.saturating_sub(1),
        _ => depth,
    }
}

fn mark_signs(signs: usize, mark: Mark) -> usize
    requires { signs ≤ 64 }
    ensures { result ≡ signs_by_mark signs mark }
{
    match mark {
        Mark::Minus | Mark::Tilde | Mark::Bang => signs + 1,
        _ => 0,
    }
}

fn open_after(depth: usize, token: &Token) -> usize
    requires { depth ≤ 64 }
    ensures { result ≡ open_by depth (word_of token.now) }
{
    match token {
        Token::Mark(mark) => mark_open(depth, *mark),
        _ => depth,
    }
}

fn signs_after(signs: usize, token: &Token) -> usize
    requires { signs ≤ 64 }
    ensures { result ≡ signs_by signs (word_of token.now) }
{
    match token {
        Token::Mark(mark) => mark_signs(signs, *mark),
        _ => 0,
    }
}

/// The first token at which too many brackets are open, or too many signs stand in a row.
pub fn too_deep(tokens: &[Token]) -> Option<usize>
    ensures value { result ≡ deep_place (words_of tokens.now) }
    ensures within { IfSome result (λ at. at < length tokens.now) }
{
    let mut depth = 0;
    let mut signs = 0;
    let mut at = 0;
    for token in tokens {
        depth = open_after(depth, token);
        signs = signs_after(signs, token);
        if depth > MOST_OPEN || signs > MOST_OPEN {
            return Some(at);
        }
        at += 1;
    }
    None
}
