ghost use Rattle.std.specs.Prelude.{◌≡◌};
ghost use Rattle.sve_rule.specs.States.{two_state_of, states_of};

use sve_value::Bits;

/// What an assignment has to know of a type (IEEE 1800-2017, 10.7 and 6.11).
#[derive(Clone, Copy)]
pub struct Target {
    /// Its bits; 2^64 - 1 where there are as many or more.
    pub width: u64,
    /// Whether it is signed.
    pub signed: bool,
    /// Whether its bits are 0 and 1 alone.
    pub two_state: bool,
}

impl Target {
    /// A value as a variable of the type holds it: one of two states has 0 for x and z (6.3.1).
    pub(crate) fn states(self, value: Bits) -> Bits
        ensures { result ≡ states_of self.two_state value }
    {
        if self.two_state {
            two_state(value)
        } else {
            value
        }
    }
}

/// The value with 0 for each x and z.
pub(crate) fn two_state(value: Bits) -> Bits
    ensures { result ≡ two_state_of value }
{
    let known = value.ones ^ (value.ones & value.unknowns);
    Bits::number(value.width(), value.is_signed(), known)
}
