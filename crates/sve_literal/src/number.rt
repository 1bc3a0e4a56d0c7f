ghost use Rattle.std.specs.Prelude.{◌≡◌, ◌≤◌};
ghost use Rattle.sve_value.specs.Vector.{IsWidth};
ghost use Rattle.sve_literal.specs.Numbers.{decimal_of, unbased_of, based_of, with_base, in_places, decimal_based, sized_of};

use crate::digits::{digits_behind, padding, small_number, wide_number};
use sve_value::{Bit, Bits};

/// Why a based number has no value by its size.
#[derive(Clone, Copy, PartialEq, Eq)]
pub enum SizeFault {
    /// Its size is 0.
    Zero,
    /// Its size is more than 128 bits.
    TooWide,
}

/// A decimal number by itself, in 32 signed bits, by its digits; none above 2,147,483,647 (IEEE 1800-2017, 5.7.1).
pub fn decimal(digits: &[u8]) -> Option<Bits>
    ensures { result ≡ decimal_of digits.now }
{
    let number = small_number(digits);
    if number > 2_147_483_647 {
        return None;
    }
    Some(Bits::number(32, true, u128::from(number)))
}

/// The bit that fills the context: of `'0`, `'1`, `'x` or `'z` (5.7.1).
pub fn unbased(text: &[u8]) -> Bit
    ensures { result ≡ unbased_of text.now }
{
    match text {
        [_, b'1', ..] => Bit::One,
        [_, b'x' | b'X', ..] => Bit::X,
        [_, b'z' | b'Z' | b'?', ..] => Bit::Z,
        _ => Bit::Zero,
    }
}

/// A based number of so many bits, 1 to 128, by its apostrophe, sign, base and digits: `'sh0f`. Digits that do not fit fall
/// out on the left (5.7.1). A number without a size has 32 bits.
pub fn based(width: u32, text: &[u8]) -> Bits
    requires { IsWidth width }
    ensures { result ≡ based_of width text.now }
{
    match text {
        [_, b's' | b'S', ..] => with_base(width, true, &text[2..]),
        [_, _, ..] => with_base(width, false, &text[1..]),
        _ => Bits::number(width, false, 0),
    }
}

/// A based number by its base and its digits.
fn with_base(width: u32, signed: bool, text: &[u8]) -> Bits
    requires { IsWidth width }
    ensures { result ≡ with_base width signed text.now }
{
    match text {
        [b'd' | b'D', ..] => decimal_based(width, signed, &text[1..]),
        [b'b' | b'B', ..] => in_places(width, signed, 1, &text[1..]),
        [b'o' | b'O', ..] => in_places(width, signed, 3, &text[1..]),
        [_, ..] => in_places(width, signed, 4, &text[1..]),
        _ => Bits::number(width, signed, 0),
    }
}

/// A number by its digits, each of which is so many bits.
fn in_places(width: u32, signed: bool, places: u32, digits: &[u8]) -> Bits
    requires width { IsWidth width }
    requires places { IsWidth places }
    ensures { result ≡ in_places width signed places digits.now }
{
    digits_behind(Bits::filled(width, signed, padding(digits)), places, digits)
}

/// A number of the base 10 by its digits, or by one x or z, which is each of its bits.
#[tactic(auto, using(crate::proofs::DigitRows::number_cut))]
fn decimal_based(width: u32, signed: bool, digits: &[u8]) -> Bits
    requires { IsWidth width }
    ensures { result ≡ decimal_based width signed digits.now }
{
    match padding(digits) {
        Bit::X => Bits::filled(width, signed, Bit::X),
        Bit::Z => Bits::filled(width, signed, Bit::Z),
        Bit::Zero => Bits::number(width, signed, wide_number(digits)),
        Bit::One => Bits::number(width, signed, wide_number(digits)),
    }
}

/// A based number with its size (5.7.1).
pub fn sized(size: &[u8], text: &[u8]) -> Result<Bits, SizeFault>
    ensures { result ≡ sized_of size.now text.now }
{
    let width = small_number(size);
    if width == 0 {
        return Err(SizeFault::Zero);
    }
    if width > 128 {
        return Err(SizeFault::TooWide);
    }
    Ok(based(width as u32, text))
}
