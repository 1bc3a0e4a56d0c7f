ghost use Rattle.std.specs.Prelude.{◌≡◌, ℕ, ◌+◌, ◌-◌, ◌*◌, ◌/◌, ◌%◌, ◌<◌, ◌≤◌, ◌^◌, Some, IfSome, IsTrue, ◌↔◌, length, slice_get, if◌then◌else◌};
ghost use Rattle.std.specs.Int.{bit_at};
ghost use Rattle.sve_value.specs.Vector.{IsWidth};
ghost use Rattle.sve_value.specs.Planes.{vector};
ghost use Rattle.sve_value.specs.Numbers.{known_natural, is_negative, number_of, leftmost};
ghost use Rattle.sve_value.specs.Moves.{filled_of, shift_in_of};

use crate::bit::Bit;
use std::marker::Model;

/// A value of 1 to 128 bits, signed or not (IEEE 1800-2017, 6.3 and 6.9).
///
/// A clause sees a `Bits` as the record of its sign and of the list of its bits, the least significant first.
/// The fields are there to be read; make a value by [`Bits::number`], [`Bits::filled`] and [`Bits::shift_in`].
#[derive(Clone, Copy)]
pub struct Bits {
    /// The number of bits, 1 to 128.
    pub width: u32,
    /// Whether the value is signed, in two's complement.
    pub signed: bool,
    /// A digit for each bit: 1 where the bit is 1 or z. None is set above the width.
    pub ones: u128,
    /// A digit for each bit: 1 where the bit is x or z. None is set above the width.
    pub unknowns: u128,
}

impl Model for Bits {
    ghost use Rattle.std.specs.Prelude.{◌≤◌, ◌<◌, ◌^◌, length};
    ghost use Rattle.sve_value.specs.Vector.{Vector};
    ghost use Rattle.sve_value.specs.Planes.{planes, ones_word, unknowns_word};
    ghost use Rattle.sve_value.specs.Back.{length-planes, ones_word-planes, unknowns_word-planes};

    ghost Value = { Vector };

    ghost view = { λ a. record { signed = a.signed; bits = planes a.width a.ones a.unknowns } };

    ghost invariant = { λ a. (1 ≤ a.width) × (a.width ≤ 128) × (a.ones < 2 ^ a.width) × (a.unknowns < 2 ^ a.width) };

    ghost inverse = { λ v. record { width = length v.bits; signed = v.signed; ones = ones_word v.bits; unknowns = unknowns_word v.bits } };

    ghost inverse_ok = { λ a fits same. record {
      width = length-planes a.width a.ones a.unknowns same;
      signed = a.signed;
      ones = ones_word-planes a.width a.ones a.unknowns fits.2 same;
      unknowns = unknowns_word-planes a.width a.ones a.unknowns fits.3 same;
    } };
}

/// The word whose lowest `width` digits are set.
pub(crate) fn mask(width: u32) -> u128
    requires { IsWidth width }
    ensures { result ≡ 2 ^ width - 1 }
{
    u128::MAX >> (128 - width)
}

/// The value that the lowest digits of two words stand for.
pub(crate) fn of_words(width: u32, signed: bool, ones: u128, unknowns: u128) -> Bits
    requires { IsWidth width }
    ensures { result ≡ vector width signed ones unknowns }
{
    let mask = mask(width);
    Bits {
        width,
        signed,
        ones: ones & mask,
        unknowns: unknowns & mask,
    }
}

/// The word all of whose digits are the same.
pub(crate) fn repeated(set: bool) -> u128
    ensures { (i : ℕ) → i < 128 → bit_at result i ≡ (if set then 1 else 0) }
{
    if set { u128::MAX } else { 0 }
}

/// The word moved to the left, with a digit of one kind in each place that this leaves.
pub(crate) fn raised(word: u128, by: u32, set: bool) -> u128
    requires { by < 128 }
    ensures below { (i : ℕ) → i < by → bit_at result i ≡ (if set then 1 else 0) }
    ensures above { (i : ℕ) → by ≤ i → i < 128 → bit_at result i ≡ bit_at word (i - by) }
{
    if set {
        word << by | ((1 << by) - 1)
    } else {
        word << by
    }
}

impl Bits {
    /// The lowest `width` digits of a number in base two. A width is 1 to 128.
    pub fn number(width: u32, signed: bool, number: u128) -> Bits
        requires { IsWidth width }
        ensures { result ≡ number_of width signed number }
    {
        of_words(width, signed, number, 0)
    }

    /// The value each of whose bits is `bit`. A width is 1 to 128.
    pub fn filled(width: u32, signed: bool, bit: Bit) -> Bits
        requires { IsWidth width }
        ensures { result ≡ filled_of width signed bit }
    {
        of_words(
            width,
            signed,
            repeated(bit.is_one_or_z()),
            repeated(bit.is_unknown()),
        )
    }

    /// The value with one more bit on the right, from which the leftmost bit has fallen out: so the digits of a
    /// literal are read from left to right into a value that is filled with what pads it (5.7.1).
    pub fn shift_in(self, bit: Bit) -> Bits
        ensures { result ≡ shift_in_of self bit }
    {
        let ones = raised(self.ones, 1, bit.is_one_or_z());
        let unknowns = raised(self.unknowns, 1, bit.is_unknown());
        of_words(self.width, self.signed, ones, unknowns)
    }

    /// Whether another value has the same sign, the same width and the same bits, x and z as such.
    pub fn is_same(self, other: Bits) -> bool
        ensures { IsTrue result ↔ (self ≡ other) }
    {
        (self.width == other.width)
            & (self.signed == other.signed)
            & (self.ones == other.ones)
            & (self.unknowns == other.unknowns)
    }

    /// The number of bits, 1 to 128.
    pub fn width(self) -> u32
        ensures width { result ≡ length self.bits }
        ensures range { IsWidth result }
    {
        self.width
    }

    /// Whether the value is signed.
    pub fn is_signed(self) -> bool
        ensures { result ≡ self.signed }
    {
        self.signed
    }

    /// The bit at a place, counted from 0 at the least significant bit.
    pub fn bit(self, place: u32) -> Bit
        requires { place < length self.bits }
        ensures { slice_get self.bits place ≡ Some result }
    {
        Bit::of_digits(self.ones >> place & 1, self.unknowns >> place & 1)
    }

    /// The most significant bit.
    pub fn leftmost(self) -> Bit
        ensures { result ≡ leftmost self.bits }
    {
        let top = self.width - 1;
        Bit::of_digits(self.ones >> top, self.unknowns >> top)
    }

    /// Whether the value is signed and its most significant bit is 1: below zero, where all bits are known.
    pub fn is_negative(self) -> bool
        ensures { result ≡ is_negative self }
    {
        self.is_signed() & (self.leftmost() == Bit::One)
    }

    /// The number that the bits stand for without regard to sign; none where a bit is x or z.
    pub fn natural(self) -> Option<u128>
        ensures natural { result ≡ known_natural self }
        ensures fits { IfSome result (λ n. n < 2 ^ length self.bits) }
    {
        if self.unknowns == 0 {
            Some(self.ones)
        } else {
            None
        }
    }
}
