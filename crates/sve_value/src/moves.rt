ghost use Rattle.std.specs.Prelude.{◌≡◌, ℕ, ◌+◌, ◌-◌, ◌*◌, ◌<◌, ◌≤◌, ◌^◌, ◌++◌, pos, length, take, replicate, if◌then◌else◌};
ghost use Rattle.std.specs.Int.{bit_at};
ghost use Rattle.sve_value.specs.Vector.{IsWidth};
ghost use Rattle.sve_value.specs.Alike.{IsAlike};
ghost use Rattle.sve_value.specs.Numbers.{known_natural};
ghost use Rattle.sve_value.specs.Moves.{window, extension_bit, extend_of, outside_bit, select_of, concat_of, choose_of, left_shift_of, logical_right_shift_of, arithmetic_right_shift_of, right_shifted, shift_of};

use crate::bit::Bit;
use crate::bits::{Bits, mask, of_words, raised};
use crate::bitwise;
use crate::reductions::truth;

/// A word of `width` digits, with every digit above them the same.
fn padded(word: u128, width: u32, set: bool) -> u128
    requires width { IsWidth width }
    requires fits { word < 2 ^ width }
    ensures below { (i : ℕ) → i < width → bit_at result i ≡ bit_at word i }
    ensures above { (i : ℕ) → width ≤ i → i < 128 → bit_at result i ≡ (if set then 1 else 0) }
{
    if set { word | !mask(width) } else { word }
}

/// The bits from a place on, where every place outside holds one same bit.
fn window_above(a: Bits, low: u128, width: u32, signed: bool, outside: Bit) -> Bits
    requires { IsWidth width }
    ensures { result ≡ record { signed = signed; bits = window (pos low) width outside a.bits } }
{
    if low >= a.width as u128 {
        return Bits::filled(width, signed, outside);
    }
    let low = low as u32;
    let rest = a.width - low;
    let ones = padded(a.ones >> low, rest, outside.is_one_or_z());
    let unknowns = padded(a.unknowns >> low, rest, outside.is_unknown());
    of_words(width, signed, ones, unknowns)
}

/// The bits from as many places before the first one, where every place outside holds one same bit.
fn window_below(a: Bits, below: u128, width: u32, signed: bool, outside: Bit) -> Bits
    requires { IsWidth width }
    ensures { result ≡ record { signed = signed; bits = take width (replicate below outside ++ a.bits ++ replicate width outside) } }
{
    if below >= 128 {
        return Bits::filled(width, signed, outside);
    }
    let below = below as u32;
    let (one, unknown) = (outside.is_one_or_z(), outside.is_unknown());
    let ones = raised(padded(a.ones, a.width, one), below, one);
    let unknowns = raised(padded(a.unknowns, a.width, unknown), below, unknown);
    of_words(width, signed, ones, unknowns)
}

/// The bit that an extension repeats: the most significant one, or 0 where it is unsigned.
fn extension_bit(a: Bits, signed: bool) -> Bit
    ensures { result ≡ extension_bit signed a.bits }
{
    if signed { a.leftmost() } else { Bit::Zero }
}

impl Bits {
    /// The value extended to a width by the given sign, or cut on the left (10.7 and 11.8.2); it then has that sign.
    /// A signed extension repeats the most significant bit, x and z too. A width is 1 to 128.
    pub fn extend(self, width: u32, signed: bool) -> Bits
        requires { IsWidth width }
        ensures { result ≡ extend_of width signed self }
    {
        window_above(self, 0, width, signed, extension_bit(self, signed))
    }
}

/// The bit that a select finds outside of a vector.
fn outside_bit(two_state: bool) -> Bit
    ensures { result ≡ outside_bit two_state }
{
    if two_state { Bit::Zero } else { Bit::X }
}

/// The `width` bits from place `low` on, counted from 0 at the least significant bit (11.5.1), unsigned. Bits outside
/// are x, and 0 where the operand has two states. A width is 1 to 128.
pub fn select(a: Bits, low: i64, width: u32, two_state: bool) -> Bits
    requires { IsWidth width }
    ensures { result ≡ select_of a low width two_state }
{
    let outside = outside_bit(two_state);
    let distance = low.unsigned_abs() as u128;
    if low < 0 {
        return window_below(a, distance, width, false, outside);
    }
    window_above(a, distance, width, false, outside)
}

/// `{a, b}` (11.4.12): unsigned, with `b` on the right. The two widths add up to at most 128.
pub fn concat(a: Bits, b: Bits) -> Bits
    requires { length a.bits + length b.bits ≤ 128 }
    ensures { result ≡ concat_of a b }
{
    let by = b.width;
    of_words(
        a.width + by,
        false,
        a.ones << by | b.ones,
        a.unknowns << by | b.unknowns,
    )
}

/// `c ? a : b` (11.4.11): the arm that the truth of `c` chooses, and with an unknown one each bit in which both arms
/// are 0 or both are 1, and x elsewhere. The arms have one width and one sign.
pub fn choose(c: Bits, a: Bits, b: Bits) -> Bits
    requires { IsAlike a b }
    ensures { result ≡ choose_of c a b }
{
    match truth(c) {
        Some(true) => a,
        Some(false) => b,
        None => bitwise::merge(a, b),
    }
}

/// `<<` and `<<<` (11.4.10).
pub(crate) fn shift_left(a: Bits, b: Bits) -> Bits
    ensures { result ≡ left_shift_of a b }
{
    let (width, signed) = (a.width(), a.is_signed());
    match b.natural() {
        Some(by) => window_below(a, by, width, signed, Bit::Zero),
        None => Bits::filled(width, signed, Bit::X),
    }
}

/// A shift to the right that fills with the extension bit of the given sign.
fn shift_right(a: Bits, b: Bits, extends: bool) -> Bits
    ensures { result ≡ shift_of (right_shifted extends) a (known_natural b) }
{
    let (width, signed) = (a.width(), a.is_signed());
    let fill = extension_bit(a, extends);
    match b.natural() {
        Some(by) => window_above(a, by, width, signed, fill),
        None => Bits::filled(width, signed, Bit::X),
    }
}

/// `>>` (11.4.10).
pub(crate) fn logical_shift_right(a: Bits, b: Bits) -> Bits
    ensures { result ≡ logical_right_shift_of a b }
{
    shift_right(a, b, false)
}

/// `>>>` (11.4.10).
pub(crate) fn arithmetic_shift_right(a: Bits, b: Bits) -> Bits
    ensures { result ≡ arithmetic_right_shift_of a b }
{
    shift_right(a, b, a.is_signed())
}
