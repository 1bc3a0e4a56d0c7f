ghost use Rattle.std.specs.Prelude.{◌≡◌, ◌<◌, ◌%◌, ◌^◌, ◌==◌, ◌&&◌, true};
ghost use Rattle.std.specs.Option.{option_map};
ghost use Rattle.sve_value.specs.Alike.{IsAlike};
ghost use Rattle.sve_value.specs.Numbers.{with_sign, low_bits};
ghost use Rattle.sve_value.specs.Arithmetic.{sum, difference, product, quotient, remainder, power, arithmetic_of, plus_of, minus_of};

use crate::bit::Bit;
use crate::bits::Bits;
use crate::whole::{Whole, value_of, whole_of};

/// Unary `+` (11.4.3): all x where a bit is x or z.
pub(crate) fn plus(a: Bits) -> Bits
    ensures { result ≡ plus_of a }
{
    let (width, signed) = (a.width(), a.is_signed());
    match whole_of(a) {
        Some(m) => value_of(width, signed, m),
        None => Bits::filled(width, signed, Bit::X),
    }
}

/// Unary `-` (11.4.3).
pub(crate) fn minus(a: Bits) -> Bits
    ensures { result ≡ minus_of a }
{
    let (width, signed) = (a.width(), a.is_signed());
    match whole_of(a) {
        Some(m) => value_of(
            width,
            signed,
            Whole {
                negative: !m.negative,
                size: m.size,
            },
        ),
        None => Bits::filled(width, signed, Bit::X),
    }
}

/// `+` (11.4.3).
pub(crate) fn add(a: Bits, b: Bits) -> Bits
    requires { IsAlike a b }
    ensures { result ≡ arithmetic_of sum a b }
{
    let (width, signed) = (a.width(), a.is_signed());
    match (a.natural(), b.natural()) {
        (Some(m), Some(n)) => Bits::number(width, signed, m.wrapping_add(n)),
        _ => Bits::filled(width, signed, Bit::X),
    }
}

/// `-` (11.4.3).
pub(crate) fn subtract(a: Bits, b: Bits) -> Bits
    requires { IsAlike a b }
    ensures { result ≡ arithmetic_of difference a b }
{
    let (width, signed) = (a.width(), a.is_signed());
    match (a.natural(), b.natural()) {
        (Some(m), Some(n)) => Bits::number(width, signed, m.wrapping_sub(n)),
        _ => Bits::filled(width, signed, Bit::X),
    }
}

/// `*` (11.4.3).
pub(crate) fn multiply(a: Bits, b: Bits) -> Bits
    ensures { result ≡ arithmetic_of product a b }
{
    let (width, signed) = (a.width(), a.is_signed());
    match (whole_of(a), whole_of(b)) {
        (Some(m), Some(n)) => {
            let negative = m.negative ^ n.negative;
            value_of(
                width,
                signed,
                Whole {
                    negative,
                    size: m.size.wrapping_mul(n.size),
                },
            )
        }
        _ => Bits::filled(width, signed, Bit::X),
    }
}

/// `/` (11.4.3): toward zero, and all x by zero.
pub(crate) fn divide(a: Bits, b: Bits) -> Bits
    ensures { result ≡ arithmetic_of quotient a b }
{
    let (width, signed) = (a.width(), a.is_signed());
    match (whole_of(a), whole_of(b)) {
        (Some(m), Some(n)) if n.size != 0 => {
            let negative = m.negative ^ n.negative;
            value_of(
                width,
                signed,
                Whole {
                    negative,
                    size: m.size / n.size,
                },
            )
        }
        _ => Bits::filled(width, signed, Bit::X),
    }
}

/// `%` (11.4.3): with the sign of the left operand, and all x by zero.
pub(crate) fn modulus(a: Bits, b: Bits) -> Bits
    ensures { result ≡ arithmetic_of remainder a b }
{
    let (width, signed) = (a.width(), a.is_signed());
    match (whole_of(a), whole_of(b)) {
        (Some(m), Some(n)) if n.size != 0 => {
            value_of(
                width,
                signed,
                Whole {
                    negative: m.negative,
                    size: m.size % n.size,
                },
            )
        }
        _ => Bits::filled(width, signed, Bit::X),
    }
}

/// The lowest 128 digits of a power of a number, by squares.
#[tactic(auto, using(crate::proofs::Powers::power_of_zero, crate::proofs::Powers::power_even, crate::proofs::Powers::power_odd))]
fn power_of(base: u128, exponent: u128) -> u128
    ensures { result ≡ base ^ exponent % 2 ^ 128 }
{
    if exponent == 0 {
        return 1;
    }
    let half = power_of(base.wrapping_mul(base), exponent / 2);
    if exponent % 2 == 1 {
        half.wrapping_mul(base)
    } else {
        half
    }
}

/// A power of a whole number with an exponent that is not negative, cut to 128 digits.
fn power_up(base: Whole, exponent: u128) -> Whole
    ensures { with_sign result.negative result.size ≡ with_sign (base.negative && (exponent % 2 == 1)) (base.size ^ exponent % 2 ^ 128) }
{
    Whole {
        negative: base.negative & (exponent % 2 == 1),
        size: power_of(base.size, exponent),
    }
}

/// A power with an exponent below zero, by its size (Table 11-4); none for 0.
fn power_down(base: Whole, exponent: u128) -> Option<Whole>
    requires base { base.negative ≡ true → 0 < base.size }
    requires exponent { 0 < exponent }
    ensures { option_map (λ w. with_sign w.negative w.size) result ≡ power (with_sign base.negative base.size) (with_sign true exponent) }
{
    if base.size == 0 {
        return None;
    }
    if base.size == 1 {
        return Some(Whole {
            negative: base.negative & (exponent % 2 == 1),
            size: 1,
        });
    }
    Some(Whole {
        negative: false,
        size: 0,
    })
}

/// `**` (11.4.3), of the size and sign of the left operand; the right one counts by its own sign.
pub(crate) fn power(a: Bits, b: Bits) -> Bits
    ensures { result ≡ arithmetic_of power a b }
{
    let (width, signed) = (a.width(), a.is_signed());
    match (whole_of(a), whole_of(b)) {
        (Some(base), Some(exponent)) if exponent.negative => {
            match power_down(base, exponent.size) {
                Some(power) => value_of(width, signed, power),
                None => Bits::filled(width, signed, Bit::X),
            }
        }
        (Some(base), Some(exponent)) => value_of(width, signed, power_up(base, exponent.size)),
        _ => Bits::filled(width, signed, Bit::X),
    }
}
