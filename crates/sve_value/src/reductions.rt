ghost use Rattle.std.specs.Prelude.{◌≡◌};
ghost use Rattle.sve_value.specs.Truths.{truth_of, truth_bit_of, one_bit, conjunction, disjunction, parity};

use crate::bit::{Bit, truth_bit};
use crate::bits::{Bits, of_words};
use crate::bitwise;

/// Whether a value is true: a 1 bit makes it so, all 0 bits make it false, and else it is unknown (11.4.7 and 12.4).
pub fn truth(a: Bits) -> Option<bool>
    ensures { result ≡ truth_of a }
{
    if a.ones & !a.unknowns != 0 {
        Some(true)
    } else if a.unknowns == 0 {
        Some(false)
    } else {
        None
    }
}

/// A value of one bit, unsigned.
#[tactic(auto, unfolding(crate::specs::Planes::planes))]
pub(crate) fn one_bit(bit: Bit) -> Bits
    ensures { result ≡ one_bit bit }
{
    match bit {
        Bit::Zero => of_words(1, false, 0, 0),
        Bit::One => of_words(1, false, 1, 0),
        Bit::X => of_words(1, false, 0, 1),
        Bit::Z => of_words(1, false, 1, 1),
    }
}

/// The truth of a value as a bit.
pub(crate) fn truth_bit_of(a: Bits) -> Bit
    ensures { result ≡ truth_bit_of a }
{
    truth_bit(truth(a))
}

/// The bits joined by `|` (11.4.9).
pub(crate) fn disjunction(a: Bits) -> Bit
    ensures { result ≡ disjunction a.bits }
{
    truth_bit_of(a)
}

/// The bits joined by `&` (11.4.9).
pub(crate) fn conjunction(a: Bits) -> Bit
    ensures { result ≡ conjunction a.bits }
{
    disjunction(bitwise::not(a)).not()
}

/// The bits joined by `^` (11.4.9).
pub(crate) fn parity(a: Bits) -> Bit
    ensures { result ≡ parity a.bits }
{
    if a.unknowns != 0 {
        return Bit::X;
    }
    if a.ones.count_ones() % 2 == 1 {
        Bit::One
    } else {
        Bit::Zero
    }
}
