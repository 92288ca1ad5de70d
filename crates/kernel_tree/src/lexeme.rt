//! Bytes of names, and reserved words.

ghost use Rattle.std.specs.Prelude.{◌≡◌, bytes_eq};
ghost use Rattle.std.specs.List.{list_all};
ghost use Rattle.kernel_tree.specs.Tokens.{is_letter, is_name_byte, is_run, is_name, unsigned_type, reserved_type, operation_mark, flow_mark, reserved_mark};

use crate::mark::Mark;
use crate::ops::Ty;
use number_text::is_digit_byte;

/// Whether a byte is an ASCII letter or `_`.
pub fn is_letter_byte(b: u8) -> bool
    ensures { result ≡ is_letter b }
{
    matches!(b, b'A'..=b'Z' | b'a'..=b'z' | b'_')
}

/// Whether a byte may stand in a name after its first one.
pub fn continues_name(b: u8) -> bool
    ensures { result ≡ is_name_byte b }
{
    is_letter_byte(b) || is_digit_byte(b)
}

// Whether a word is this text.
fn is(word: &[u8], text: &str) -> bool
    ensures { result ≡ bytes_eq word.now text.now }
{
    word == text.as_bytes()
}

// The type that a word names, where it is unsigned.
fn unsigned_word(word: &[u8]) -> Option<Ty>
    ensures { result ≡ unsigned_type word.now }
{
    if is(word, "u8") {
        Some(Ty::U8)
    } else if is(word, "u16") {
        Some(Ty::U16)
    } else if is(word, "u32") {
        Some(Ty::U32)
    } else if is(word, "u64") {
        Some(Ty::U64)
    } else {
        None
    }
}

/// The type that a reserved word names.
pub fn type_word(word: &[u8]) -> Option<Ty>
    ensures { result ≡ reserved_type word.now }
{
    if is(word, "i8") {
        Some(Ty::I8)
    } else if is(word, "i16") {
        Some(Ty::I16)
    } else if is(word, "i32") {
        Some(Ty::I32)
    } else if is(word, "i64") {
        Some(Ty::I64)
    } else {
        unsigned_word(word)
    }
}

// The mark of a word that stands within expressions.
fn operation_word(word: &[u8]) -> Option<Mark>
    ensures { result ≡ operation_mark word.now }
{
    if is(word, "select") {
        Some(Mark::Select)
    } else if is(word, "min") {
        Some(Mark::Min)
    } else if is(word, "max") {
        Some(Mark::Max)
    } else if is(word, "abs") {
        Some(Mark::Abs)
    } else if is(word, "as") {
        Some(Mark::As)
    } else {
        None
    }
}

// The mark of a word that says where a kernel goes on, or that stands within expressions.
fn flow_word(word: &[u8]) -> Option<Mark>
    ensures { result ≡ flow_mark word.now }
{
    if is(word, "if") {
        Some(Mark::If)
    } else if is(word, "else") {
        Some(Mark::Else)
    } else if is(word, "break") {
        Some(Mark::Break)
    } else if is(word, "return") {
        Some(Mark::Return)
    } else {
        operation_word(word)
    }
}

/// The mark that any other reserved word is.
pub fn mark_word(word: &[u8]) -> Option<Mark>
    ensures { result ≡ reserved_mark word.now }
{
    if is(word, "kernel") {
        Some(Mark::Kernel)
    } else if is(word, "var") {
        Some(Mark::Var)
    } else if is(word, "for") {
        Some(Mark::For)
    } else if is(word, "in") {
        Some(Mark::In)
    } else if is(word, "let") {
        Some(Mark::Let)
    } else {
        flow_word(word)
    }
}

fn continue_name(bytes: &[u8]) -> bool
    ensures { result ≡ list_all is_name_byte bytes.now }
{
    bytes.iter().all(|b| continues_name(*b))
}

/// Whether some bytes are a letter or `_` and then letters, digits and `_`.
pub fn is_run_of(bytes: &[u8]) -> bool
    ensures { result ≡ is_run bytes.now }
{
    match bytes.split_first() {
        None => false,
        Some((first, rest)) => is_letter_byte(*first) && continue_name(rest),
    }
}

/// Whether some bytes are a name: such a run that is no reserved word.
pub fn is_name_of(bytes: &[u8]) -> bool
    ensures { result ≡ is_name bytes.now }
{
    is_run_of(bytes) && type_word(bytes).is_none() && mark_word(bytes).is_none()
}
