ghost use Rattle.std.specs.Prelude.{◌≡◌, ◌+◌, ◌-◌, ◌<◌, ◌≤◌, ◌^◌, ◌%◌, true, Some, IfSome, int_lt, length};
ghost use Rattle.std.specs.Option.{option_map};
ghost use Rattle.sve_value.specs.Vector.{IsWidth};
ghost use Rattle.sve_value.specs.Numbers.{with_sign, known_integer, value_of, short_integer};

use crate::bits::{Bits, mask};

/// A whole number by its sign and its size.
#[derive(Clone, Copy)]
pub(crate) struct Whole {
    pub(crate) negative: bool,
    pub(crate) size: u128,
}

/// The whole number that a value stands for; none where a bit is x or z. Zero has no sign.
pub(crate) fn whole_of(a: Bits) -> Option<Whole>
    ensures whole { option_map (λ w. with_sign w.negative w.size) result ≡ known_integer a }
    ensures sign { IfSome result (λ w. w.negative ≡ true → 0 < w.size) }
{
    let natural = a.natural()?;
    if a.is_negative() {
        return Some(Whole {
            negative: true,
            size: mask(a.width()) - natural + 1,
        });
    }
    Some(Whole {
        negative: false,
        size: natural,
    })
}

/// The value of a whole number, cut to the width.
pub(crate) fn value_of(width: u32, signed: bool, whole: Whole) -> Bits
    requires { IsWidth width }
    ensures { result ≡ value_of width signed (Some (with_sign whole.negative whole.size)) }
{
    let number = if whole.negative {
        0u128.wrapping_sub(whole.size)
    } else {
        whole.size
    };
    Bits::number(width, signed, number)
}

/// Whether a whole number is less than another. Zero has no sign.
pub(crate) fn is_less(a: Whole, b: Whole) -> bool
    requires left { a.negative ≡ true → 0 < a.size }
    requires right { b.negative ≡ true → 0 < b.size }
    ensures { result ≡ int_lt (with_sign a.negative a.size) (with_sign b.negative b.size) }
{
    match (a.negative, b.negative) {
        (false, false) => a.size < b.size,
        (true, true) => b.size < a.size,
        (negative, _) => negative,
    }
}

impl Bits {
    /// The whole number that the value stands for, in two's complement where it is signed; none where a bit is x or z,
    /// and where the number is out of the range of an `i64`.
    pub fn integer(self) -> Option<i64>
        ensures { result ≡ short_integer (known_integer self) }
    {
        let whole = whole_of(self)?;
        if whole.size >= 1 << 63 {
            return if whole.negative & (whole.size == 1 << 63) {
                Some(i64::MIN)
            } else {
                None
            };
        }
        let size = whole.size as i64;
        Some(if whole.negative { -size } else { size })
    }
}
