ghost use Rattle.std.specs.Prelude.{◌≡◌, ◌≤◌, ◌+◌, ◌-◌, ◌*◌, ◌%◌, ◌^◌, ◌==◌, IsTrue, length, min, if◌then◌else◌};
ghost use Rattle.sve_value.specs.Vector.{IsWidth};
ghost use Rattle.sve_value.specs.Moves.{filled_of};
ghost use Rattle.sve_literal.specs.Digits.{decimal_from, number_behind, is_number_letter, digit_number, digit_of, behind_of, digits_behind, pads_with, padding_of};

use sve_value::{Bit, Bits};

/// More than any decimal number by itself may be.
pub(crate) const TOO_LARGE: u64 = 1 << 32;

/// The number that digits spell, or `TOO_LARGE` where it is as large or larger (5.7.1).
#[tactic(auto, using(crate::proofs::DigitRows::decimal_end, crate::proofs::DigitRows::capped_step))]
pub(crate) fn small_number(digits: &[u8]) -> u64
    ensures { result ≡ min (decimal_from 0 digits.now) 4294967296 }
{
    let mut number = 0;
    'digits: for digit in digits {
        number = small_behind(number, *digit);
    }
    number
}

/// A digit behind a number; what is no digit says nothing.
fn small_behind(number: u64, digit: u8) -> u64
    requires { number ≤ 4294967296 }
    ensures { result ≡ min (number_behind number digit) 4294967296 }
{
    match digit {
        b'0'..=b'9' => (number * 10 + u64::from(digit - b'0')).min(TOO_LARGE),
        _ => number,
    }
}

/// The lowest 128 binary digits of the number that digits spell (5.7.1).
#[tactic(auto, using(crate::proofs::DigitRows::low_end, crate::proofs::DigitRows::low_step))]
pub(crate) fn wide_number(digits: &[u8]) -> u128
    ensures { result ≡ decimal_from 0 digits.now % 2 ^ 128 }
{
    let mut number = 0u128;
    'digits: for digit in digits {
        number = wide_behind(number, *digit);
    }
    number
}

/// The lowest 128 binary digits of a digit behind a number.
fn wide_behind(number: u128, digit: u8) -> u128
    ensures { result ≡ number_behind number digit % 2 ^ 128 }
{
    match digit {
        b'0'..=b'9' => number
            .wrapping_mul(10)
            .wrapping_add(u128::from(digit - b'0')),
        _ => number,
    }
}

/// Whether a letter is a digit of a number: one of base 16 at the most, x, z or `?`.
pub(crate) fn is_number_letter(letter: u8) -> bool
    ensures { result ≡ is_number_letter letter }
{
    matches!(letter, b'0'..=b'9' | b'a'..=b'f' | b'A'..=b'F' | b'x' | b'X' | b'z' | b'Z' | b'?')
}

/// The number of a digit of base 16 at the most.
pub(crate) fn digit_number(letter: u8) -> u8
    ensures { result ≡ digit_number letter }
{
    match letter {
        b'a'..=b'f' => letter - b'a' + 10,
        b'A'..=b'F' => letter - b'A' + 10,
        _ => letter.saturating_sub(b'0'),
    }
}

/// A digit as so many bits, 1 to 4.
#[tactic(auto, using(crate::proofs::DigitRows::number_bits))]
fn digit(places: u32, letter: u8) -> Bits
    requires { IsWidth places }
    ensures value { result ≡ digit_of places letter }
    ensures width { length result.bits ≡ places }
{
    match letter {
        b'x' | b'X' => Bits::filled(places, false, Bit::X),
        b'z' | b'Z' | b'?' => Bits::filled(places, false, Bit::Z),
        _ => Bits::number(places, false, u128::from(digit_number(letter))),
    }
}

/// What a letter pads a number with.
fn pads_with(letter: u8) -> Bit
    ensures { result ≡ pads_with letter }
{
    match letter {
        b'x' | b'X' => Bit::X,
        b'z' | b'Z' | b'?' => Bit::Z,
        _ => Bit::Zero,
    }
}

/// What pads a number on the left: its first digit where that is x or z, and else 0.
#[tactic(auto, using(crate::proofs::DigitRows::padding_here, crate::proofs::DigitRows::padding_later, crate::proofs::DigitRows::padding_end))]
pub(crate) fn padding(letters: &[u8]) -> Bit
    ensures { result ≡ padding_of letters.now }
{
    'letters: for letter in letters {
        if is_number_letter(*letter) {
            return pads_with(*letter);
        }
    }
    Bit::Zero
}

/// A value with a digit behind it: its bits come in on the right, and as many fall out on the left.
fn behind(value: Bits, digit: Bits) -> Bits
    ensures { result ≡ behind_of value digit }
{
    let mut value = value;
    let places = digit.width();
    'places: for done in 0..places {
        value = value.shift_in(digit.bit(places - 1 - done));
    }
    value
}

/// A value with the digits of a base of 2, 8 or 16 behind it, each as so many bits; what is no digit says nothing.
#[tactic(auto, using(crate::proofs::DigitRows::digits_step, crate::proofs::DigitRows::digits_end))]
pub(crate) fn digits_behind(value: Bits, places: u32, letters: &[u8]) -> Bits
    requires { IsWidth places }
    ensures { result ≡ digits_behind places letters.now value }
{
    let mut value = value;
    'letters: for letter in letters {
        value = letter_behind(value, places, *letter);
    }
    value
}

/// A value with a letter behind it, where that is a digit.
fn letter_behind(value: Bits, places: u32, letter: u8) -> Bits
    requires { IsWidth places }
    ensures { result ≡ (if is_number_letter letter then behind_of value (digit_of places letter) else value) }
{
    if is_number_letter(letter) {
        behind(value, digit(places, letter))
    } else {
        value
    }
}
