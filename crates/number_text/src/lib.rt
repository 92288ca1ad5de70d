//! Numbers of 64 bits as texts.
#![tactic(auto)]

ghost use Rattle.std.specs.Prelude.{◌≡◌, ◌<◌, ◌≤◌, ◌^◌, MatchOption, option_map, List, ℕ};
ghost use Rattle.std.specs.List.{list_all};
ghost use Rattle.number_text.specs.Numbers.{following, is_digit, is_hex_digit, digit_value, value_of, small_value, are_digits, decimal_of, hexadecimal_of, number_of};
ghost use Rattle.number_text.specs.View.{bytes_left};

/// What stands after these bytes at the front of a word, where it begins with them.
#[tactic(auto, unfolding(crate::specs::Numbers::following))]
pub fn following<'a>(front: &[u8], word: &'a [u8]) -> Option<&'a [u8]>
    ensures { option_map bytes_left result ≡ following front.now word.now }
{
    let [byte, others @ ..] = front else {
        return Some(word);
    };
    let [first, rest @ ..] = word else {
        return None;
    };
    if *first == *byte {
        following(others, rest)
    } else {
        None
    }
}

/// Whether a byte is a decimal digit.
pub fn is_digit_byte(b: u8) -> bool
    ensures { result ≡ is_digit b }
{
    b.is_ascii_digit()
}

/// Whether a byte is a hexadecimal digit of either case.
pub fn is_hex_byte(b: u8) -> bool
    ensures { result ≡ is_hex_digit b }
{
    matches!(b, b'0'..=b'9' | b'A'..=b'F' | b'a'..=b'f')
}

/// The value of a decimal or hexadecimal digit, and of other bytes some number.
pub fn digit(b: u8) -> u8
    ensures { result ≡ digit_value b }
{
    if is_digit_byte(b) {
        b - b'0'
    } else if b <= b'F' {
        b.saturating_sub(55)
    } else {
        b.saturating_sub(87)
    }
}

// The number that digits spell in a base.
fn value(base: u64, digits: &[u8]) -> Option<u64>
    requires { 1 ≤ base }
    ensures { MatchOption result (2 ^ 64 ≤ value_of base digits.now)
        (λ n. (n ≡ value_of base digits.now) × (n < 2 ^ 64)) }
{
    let mut n: u64 = 0;
    for d in digits {
        let shifted = base.checked_mul(n)?;
        n = shifted.checked_add(u64::from(digit(*d)))?;
    }
    Some(n)
}

fn small_value(base: u64, digits: &[u8]) -> Option<u64>
    requires { 1 ≤ base }
    ensures { result ≡ small_value base digits.now }
{
    match value(base, digits) {
        Some(n) => Some(n),
        None => None,
    }
}

fn all_decimal(bytes: &[u8]) -> bool
    ensures { result ≡ list_all is_digit bytes.now }
{
    bytes.iter().all(|b| is_digit_byte(*b))
}

fn all_hexadecimal(bytes: &[u8]) -> bool
    ensures { result ≡ list_all is_hex_digit bytes.now }
{
    bytes.iter().all(|b| is_hex_byte(*b))
}

fn are_decimal(bytes: &[u8]) -> bool
    ensures { result ≡ are_digits is_digit bytes.now }
{
    bytes.len() > 0 && all_decimal(bytes)
}

fn are_hexadecimal(bytes: &[u8]) -> bool
    ensures { result ≡ are_digits is_hex_digit bytes.now }
{
    bytes.len() > 0 && all_hexadecimal(bytes)
}

/// The number that decimal digits spell, where it is one of 64 bits.
#[tactic(auto, unfolding(crate::specs::Numbers::decimal_of))]
pub fn decimal(digits: &[u8]) -> Option<u64>
    ensures { result ≡ decimal_of digits.now }
{
    if are_decimal(digits) {
        small_value(10, digits)
    } else {
        None
    }
}

#[tactic(auto, unfolding(crate::specs::Numbers::hexadecimal_of))]
fn hexadecimal(digits: &[u8]) -> Option<u64>
    ensures { result ≡ hexadecimal_of digits.now }
{
    if are_hexadecimal(digits) {
        small_value(16, digits)
    } else {
        None
    }
}

/// The number that a word spells, where it is one of 64 bits.
#[tactic(auto, unfolding(crate::specs::Numbers::number_of))]
pub fn number(word: &[u8]) -> Option<u64>
    ensures { result ≡ number_of word.now }
{
    match following(b"0x".as_slice(), word) {
        Some(digits) => hexadecimal(digits),
        None => decimal(word),
    }
}
