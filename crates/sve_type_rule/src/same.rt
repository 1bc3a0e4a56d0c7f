ghost use Rattle.std.specs.Prelude.{◌≡◌, IfOk, length};
ghost use Rattle.sve_value.specs.Vector.{IsWidth};
ghost use Rattle.sve_type_rule.specs.Same.{same_vector, digit_of, digits_of};

use std::alloc::{AllocError, Global};
use sve_bytes::{BadName, Name, NoMemory};
use sve_value::{Bit, Bits};

/// Whether two values are one: the same size, the same sign, and the same bits, x and z as such (IEEE 1800-2017, 11.4.5).
pub(crate) fn same(a: Bits, b: Bits) -> bool
    ensures { result ≡ same_vector a b }
{
    a.is_same(b)
}

/// A digit for each state of a bit.
fn digit(bit: Bit) -> u8
    ensures { result ≡ digit_of bit }
{
    match bit {
        Bit::Zero => 0,
        Bit::One => 1,
        Bit::X => 2,
        Bit::Z => 3,
    }
}

/// The digits of a value, the least significant bit first.
fn digit_list(alloc: Global, value: Bits) -> Result<Vec<u8>, NoMemory>
    ensures digits { IfOk result (λ d. d.items ≡ digits_of value.bits) }
    ensures range { IfOk result (λ d. IsWidth (length d.items)) }
{
    let mut digits = Vec::new(alloc);
    'places: for place in 0..value.width() {
        digits.push(digit(value.bit(place)))?;
    }
    Ok(digits)
}

/// The digits of a value as a name, by which it is found among others of its size and sign.
pub(crate) fn digits(alloc: Global, value: Bits) -> Result<Name, NoMemory>
    ensures { IfOk result (λ n. n ≡ digits_of value.bits) }
{
    let digits = digit_list(alloc, value)?;
    match Name::of(alloc, digits.as_slice()) {
        Ok(name) => Ok(name),
        Err(BadName::NoMemory) => Err(AllocError),
        Err(BadName::Empty) => unreachable!(),
        Err(BadName::TooLong(_)) => unreachable!(),
    }
}
