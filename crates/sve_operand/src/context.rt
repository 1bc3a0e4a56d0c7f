ghost use Rattle.std.specs.Prelude.{◌≡◌, length};
ghost use Rattle.sve_value.specs.Vector.{IsWidth};
ghost use Rattle.sve_operand.specs.Pending.{meaning_of};
ghost use Rattle.sve_operand.specs.Meaning.{own_value, settled_meaning, spread_meaning};

use crate::evaluation;
use crate::operand::Operand;
use crate::pending::Pending;
use sve_value::{Bit, Bits};

impl Operand {
    /// The size by itself, 1 to 128 bits (IEEE 1800-2017, 11.6.1).
    pub fn width(&self) -> u32
        ensures width { result ≡ (meaning_of self.now).width }
        ensures range { IsWidth result }
    {
        self.width
    }

    /// Whether it is signed by itself (11.8.1).
    pub fn is_signed(&self) -> bool
        ensures { result ≡ (meaning_of self.now).signed }
    {
        self.signed
    }

    /// The value in a context of a size, 1 to 128 bits, and a sign (11.6.1 and 11.8.2). It takes no memory.
    pub fn value(&self, width: u32, signed: bool) -> Bits
        requires { IsWidth width }
        ensures value { result ≡ (meaning_of self.now).value width signed }
        ensures width { length result.bits ≡ width }
        ensures sign { result.signed ≡ signed }
    {
        evaluation::value(&self.pending, width, signed)
    }

    /// The value by itself: in the context of its own size and sign (11.6.1). It takes no memory.
    pub fn own_value(&self) -> Bits
        ensures value { result ≡ own_value (meaning_of self.now) }
        ensures width { length result.bits ≡ (meaning_of self.now).width }
        ensures sign { result.signed ≡ (meaning_of self.now).signed }
    {
        evaluation::value(&self.pending, self.width, self.signed)
    }
}

/// A value that stands by itself, as a number or a name does.
#[tactic(auto, unfolding(crate::specs::Pending::value_in))]
pub fn settled(value: Bits) -> Operand
    ensures { meaning_of result ≡ settled_meaning value }
{
    Operand {
        width: value.width(),
        signed: value.is_signed(),
        pending: Pending::Settled(value),
    }
}

/// A bit that fills its context: `'0`, `'1`, `'x` or `'z` (5.7.1).
#[tactic(auto, unfolding(crate::specs::Pending::value_in))]
pub fn spread(bit: Bit) -> Operand
    ensures { meaning_of result ≡ spread_meaning bit }
{
    Operand {
        width: 1,
        signed: false,
        pending: Pending::Spread(bit),
    }
}
