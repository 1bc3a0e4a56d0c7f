ghost use Rattle.std.specs.Prelude.{◌≡◌, ℕ, ◌<◌, ◌≤◌, ◌^◌, IfSome, length};
ghost use Rattle.sve_value.specs.Numbers.{known_natural};
ghost use Rattle.sve_value.specs.Arithmetic.{clog2_of, powers_below, IsCeilingOfLog};

use crate::bit::Bit;
use crate::bits::Bits;

/// `$clog2` (20.8.1): the ceiling of the logarithm to the base two, and 0 for 0, in 32 signed bits. The operand counts
/// as unsigned; with an x or z bit in it the result is all x.
pub fn clog2(a: Bits) -> Bits
    ensures value { result ≡ clog2_of a }
    ensures least { IfSome (known_natural a) (λ n. IsCeilingOfLog n (powers_below n (length a.bits))) }
{
    let width = a.width();
    match a.natural() {
        Some(n) => Bits::number(32, true, ceiling_of_log(n, width) as u128),
        None => Bits::filled(32, true, Bit::X),
    }
}

/// The least power of two that is not below a number of at most `width` digits.
fn ceiling_of_log(n: u128, width: u32) -> u32
    requires width { width ≤ 128 }
    requires fits { n < 2 ^ width }
    ensures powers { result ≡ powers_below n width }
    ensures least { IsCeilingOfLog n result }
{
    if n <= 1 {
        0
    } else {
        128 - (n - 1).leading_zeros()
    }
}
