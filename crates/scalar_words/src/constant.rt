//! What registers hold while iterations last.

ghost use Rattle.std.specs.Prelude.{◌≡◌, option_map};
ghost use Rattle.loop_form.specs.Needs.{same_number};
ghost use Rattle.scalar_words.specs.View.{key_of, constants_of, register_number};
ghost use Rattle.scalar_words.specs.Layout.{same_key, constant_in};

use a64_code::Reg;

/// A number, or the address in a register and so many bytes more.
#[derive(Clone, Copy)]
pub enum Key {
    Number(i128),
    Address { array: Reg, by: i128 },
}

/// What a register holds while iterations last.
#[derive(Clone, Copy)]
pub struct Constant {
    pub key: Key,
    pub register: Reg,
}

/// Whether two numbers are the same.
pub fn is_same_number(number: i128, other: i128) -> bool
    ensures { result ≡ same_number number other }
{
    number == other
}

fn is_same(key: Key, other: Key) -> bool
    ensures { result ≡ same_key (key_of key) (key_of other) }
{
    match key {
        Key::Number(number) => match other {
            Key::Number(second) => is_same_number(number, second),
            Key::Address { .. } => false,
        },
        Key::Address { array, by } => match other {
            Key::Number(_) => false,
            Key::Address {
                array: second,
                by: distance,
            } => array.number == second.number && is_same_number(by, distance),
        },
    }
}

/// The register that holds it.
pub fn constant_in(constants: &[Constant], key: Key) -> Option<Reg>
    ensures { option_map register_number result ≡ constant_in (constants_of constants.now) (key_of key) }
{
    for constant in constants {
        if is_same(constant.key, key) {
            return Some(constant.register);
        }
    }
    None
}
