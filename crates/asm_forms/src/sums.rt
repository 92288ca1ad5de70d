//! What the numbers of a text add.

ghost use Rattle.std.specs.Prelude.{◌≡◌, ◌+◌, ◌%◌, ◌^◌, ◌<◌};
ghost use Rattle.asm_forms.specs.Rules.{sum_of, dot, quarter, left_shift, right_shift, shift_sum, element_bits};
ghost use Rattle.asm_forms.specs.View.{places_view};

use crate::forms::Places;

#[tactic(auto, unfolding(crate::specs::Rules::dot))]
fn dot(factors: &[u64], numbers: &[u64]) -> u64
    ensures { result ≡ dot factors.now numbers.now % 2 ^ 64 }
{
    let [factor, factors @ ..] = factors else {
        return 0;
    };
    let [number, numbers @ ..] = numbers else {
        return 0;
    };
    factor
        .wrapping_mul(*number)
        .wrapping_add(dot(factors, numbers))
}

#[tactic(auto, unfolding(crate::specs::Rules::quarter))]
fn quarter(factor: u64, numbers: &[u64]) -> u64
    ensures { result ≡ quarter factor numbers.now % 2 ^ 64 }
{
    match numbers {
        [number] => factor.wrapping_mul(*number / 4),
        _ => 0,
    }
}

fn bits_of_element(size: u64) -> u64
    ensures { result ≡ element_bits size }
{
    match size {
        0 => 8,
        1 => 16,
        2 => 32,
        _ => 64,
    }
}

fn shift_of(zd: u64, zn: u64, value: u64) -> u64
    requires { value < 256 }
    ensures { result ≡ shift_sum zd zn value % 2 ^ 64 }
{
    let field = ((value % 32) << 16) + ((value / 32) << 22);
    zn.wrapping_mul(32).wrapping_add(zd).wrapping_add(field)
}

#[tactic(auto, unfolding(crate::specs::Rules::left_shift))]
fn left_shift(numbers: &[u64]) -> u64
    ensures { result ≡ left_shift numbers.now % 2 ^ 64 }
{
    match numbers {
        [zd, size, zn, _, number] if *number <= 64 => shift_of(
            *zd,
            *zn,
            bits_of_element(*size) + *number,
        ),
        _ => 0,
    }
}

#[tactic(auto, unfolding(crate::specs::Rules::right_shift))]
fn right_shift(numbers: &[u64]) -> u64
    ensures { result ≡ right_shift numbers.now % 2 ^ 64 }
{
    match numbers {
        [zd, size, zn, _, number] if *number <= 64 => {
            shift_of(
                *zd,
                *zn,
                (2 * bits_of_element(*size)).saturating_sub(*number),
            )
        }
        _ => 0,
    }
}

fn sum(places: Places, numbers: &[u64]) -> u64
    ensures { result ≡ sum_of (places_view places) numbers.now % 2 ^ 64 }
{
    match places {
        Places::Factors(factors) => dot(factors, numbers),
        Places::Quarter(factor) => quarter(factor, numbers),
        Places::LeftShift => left_shift(numbers),
        Places::RightShift => right_shift(numbers),
    }
}

/// The word of a base and of numbers in their places.
pub fn word_of(places: Places, base: u32, numbers: &[u64]) -> u32
    ensures { result ≡ (base + sum_of (places_view places) numbers.now) % 2 ^ 32 }
{
    (u64::from(base).wrapping_add(sum(places, numbers)) % 0x1_0000_0000) as u32
}
