ghost use Rattle.std.specs.Prelude.{◌≡◌, int_lt, int_le};
ghost use Rattle.sve_value.specs.Alike.{IsAlike};
ghost use Rattle.sve_value.specs.Bitwise.{xnor_bit, pairs};
ghost use Rattle.sve_value.specs.Numbers.{known_integer};
ghost use Rattle.sve_value.specs.Truths.{conjunction};
ghost use Rattle.sve_value.specs.Relations.{compared, case_bit, wildcard_bit};

use crate::bit::Bit;
use crate::bits::Bits;
use crate::bitwise;
use crate::reductions::conjunction;
use crate::whole::{is_less, whole_of};

/// Whether one value is less than another (11.4.4); unknown where a bit is x or z.
pub(crate) fn less(a: Bits, b: Bits) -> Option<bool>
    ensures { result ≡ compared int_lt (known_integer a) (known_integer b) }
{
    match (whole_of(a), whole_of(b)) {
        (Some(m), Some(n)) => Some(is_less(m, n)),
        _ => None,
    }
}

/// Whether one value is less than another or equal to it (11.4.4); unknown where a bit is x or z.
pub(crate) fn less_or_equal(a: Bits, b: Bits) -> Option<bool>
    ensures { result ≡ compared int_le (known_integer a) (known_integer b) }
{
    match less(b, a) {
        Some(greater) => Some(!greater),
        None => None,
    }
}

/// `==` (11.4.5): 0 where two known bits differ, else x where a bit is x or z, else 1.
pub(crate) fn equal(a: Bits, b: Bits) -> Bit
    requires { IsAlike a b }
    ensures { result ≡ conjunction (pairs xnor_bit a.bits b.bits) }
{
    conjunction(bitwise::xnor(a, b))
}

/// `===` (11.4.5): whether all bits are the same, x and z as such.
pub(crate) fn case_equal(a: Bits, b: Bits) -> Bit
    requires { IsAlike a b }
    ensures { result ≡ conjunction (pairs case_bit a.bits b.bits) }
{
    conjunction(bitwise::same_bits(a, b))
}

/// `==?` (11.4.6): as `==`, but an x or z on the right agrees with any bit.
pub(crate) fn wildcard_equal(a: Bits, pattern: Bits) -> Bit
    requires { IsAlike a pattern }
    ensures { result ≡ conjunction (pairs wildcard_bit a.bits pattern.bits) }
{
    conjunction(bitwise::matching_bits(a, pattern))
}
