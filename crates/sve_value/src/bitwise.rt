ghost use Rattle.std.specs.Prelude.{◌≡◌};
ghost use Rattle.sve_value.specs.Alike.{IsAlike};
ghost use Rattle.sve_value.specs.Bitwise.{and_bit, or_bit, xor_bit, xnor_bit, merge_bit, bitwise_of, bitwise_not_of};
ghost use Rattle.sve_value.specs.Relations.{case_bit, wildcard_bit};

use crate::bits::{Bits, of_words};

/// `~` (11.4.8).
pub(crate) fn not(a: Bits) -> Bits
    ensures { result ≡ bitwise_not_of a }
{
    of_words(a.width, a.signed, !(a.ones | a.unknowns), a.unknowns)
}

/// `&` (11.4.8).
pub(crate) fn and(a: Bits, b: Bits) -> Bits
    requires { IsAlike a b }
    ensures { result ≡ bitwise_of and_bit a b }
{
    let ones = a.ones & !a.unknowns & (b.ones & !b.unknowns);
    let unknowns = (a.ones | a.unknowns) & (b.ones | b.unknowns) & (a.unknowns | b.unknowns);
    of_words(a.width, a.signed, ones, unknowns)
}

/// `|` (11.4.8).
pub(crate) fn or(a: Bits, b: Bits) -> Bits
    requires { IsAlike a b }
    ensures { result ≡ bitwise_of or_bit a b }
{
    let ones = a.ones & !a.unknowns | b.ones & !b.unknowns;
    of_words(a.width, a.signed, ones, (a.unknowns | b.unknowns) & !ones)
}

/// `^` (11.4.8).
pub(crate) fn xor(a: Bits, b: Bits) -> Bits
    requires { IsAlike a b }
    ensures { result ≡ bitwise_of xor_bit a b }
{
    let unknowns = a.unknowns | b.unknowns;
    of_words(a.width, a.signed, (a.ones ^ b.ones) & !unknowns, unknowns)
}

/// `~^` and `^~` (11.4.8).
pub(crate) fn xnor(a: Bits, b: Bits) -> Bits
    requires { IsAlike a b }
    ensures { result ≡ bitwise_of xnor_bit a b }
{
    let unknowns = a.unknowns | b.unknowns;
    of_words(a.width, a.signed, !(a.ones ^ b.ones | unknowns), unknowns)
}

/// What `?:` makes of its arms under an unknown condition (11.4.11).
pub(crate) fn merge(a: Bits, b: Bits) -> Bits
    requires { IsAlike a b }
    ensures { result ≡ bitwise_of merge_bit a b }
{
    let unknowns = a.unknowns | b.unknowns | a.ones ^ b.ones;
    of_words(a.width, a.signed, a.ones & !unknowns, unknowns)
}

/// Which bits are the same, x and z as such (11.4.5).
pub(crate) fn same_bits(a: Bits, b: Bits) -> Bits
    requires { IsAlike a b }
    ensures { result ≡ bitwise_of case_bit a b }
{
    of_words(
        a.width,
        a.signed,
        !(a.ones ^ b.ones | a.unknowns ^ b.unknowns),
        0,
    )
}

/// Which bits agree with a pattern, whose x and z agree with any bit (11.4.6).
pub(crate) fn matching_bits(a: Bits, pattern: Bits) -> Bits
    requires { IsAlike a pattern }
    ensures { result ≡ bitwise_of wildcard_bit a pattern }
{
    let ones = pattern.unknowns | !(a.ones ^ pattern.ones | a.unknowns);
    of_words(a.width, a.signed, ones, a.unknowns & !pattern.unknowns)
}
