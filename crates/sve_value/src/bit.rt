ghost use Rattle.std.specs.Prelude.{◌≡◌, ◌==◌};
ghost use Rattle.sve_value.specs.Planes.{bit_of, ones_digit, unknowns_digit};
ghost use Rattle.sve_value.specs.Bitwise.{not_bit, and_bit, or_bit, xnor_bit};
ghost use Rattle.sve_value.specs.Truths.{truth_bit};

/// One of the four states of a bit (IEEE 1800-2017, 6.3.1).
#[derive(Clone, Copy, PartialEq, Eq)]
pub enum Bit {
    /// A logic zero, or a false condition.
    Zero,
    /// A logic one, or a true condition.
    One,
    /// An unknown logic value.
    X,
    /// A high-impedance state.
    Z,
}

/// The bit that stands for a truth, x for an unknown one.
pub(crate) fn truth_bit(truth: Option<bool>) -> Bit
    ensures { result ≡ truth_bit truth }
{
    match truth {
        Some(true) => Bit::One,
        Some(false) => Bit::Zero,
        None => Bit::X,
    }
}

impl Bit {
    /// The bit of a digit in each word of a value.
    pub(crate) fn of_digits(one: u128, unknown: u128) -> Bit
        ensures { result ≡ bit_of one unknown }
    {
        match (one, unknown) {
            (0, 0) => Bit::Zero,
            (_, 0) => Bit::One,
            (0, _) => Bit::X,
            _ => Bit::Z,
        }
    }

    /// Whether its digit among the ones is set.
    pub(crate) fn is_one_or_z(self) -> bool
        ensures { result ≡ (ones_digit self == 1) }
    {
        matches!(self, Bit::One | Bit::Z)
    }

    /// Whether its digit among the unknowns is set.
    pub(crate) fn is_unknown(self) -> bool
        ensures { result ≡ (unknowns_digit self == 1) }
    {
        matches!(self, Bit::X | Bit::Z)
    }

    /// `~` of one bit (11.4.8).
    pub(crate) fn not(self) -> Bit
        ensures { result ≡ not_bit self }
    {
        match self {
            Bit::Zero => Bit::One,
            Bit::One => Bit::Zero,
            _ => Bit::X,
        }
    }

    /// `&` of two bits (11.4.8).
    pub(crate) fn and(self, other: Bit) -> Bit
        ensures { result ≡ and_bit self other }
    {
        match (self, other) {
            (Bit::Zero, _) | (_, Bit::Zero) => Bit::Zero,
            (Bit::One, Bit::One) => Bit::One,
            _ => Bit::X,
        }
    }

    /// `|` of two bits (11.4.8).
    pub(crate) fn or(self, other: Bit) -> Bit
        ensures { result ≡ or_bit self other }
    {
        match (self, other) {
            (Bit::One, _) | (_, Bit::One) => Bit::One,
            (Bit::Zero, Bit::Zero) => Bit::Zero,
            _ => Bit::X,
        }
    }

    /// `~^` of two bits (11.4.8).
    pub(crate) fn xnor(self, other: Bit) -> Bit
        ensures { result ≡ xnor_bit self other }
    {
        match (self, other) {
            (Bit::Zero, Bit::Zero) | (Bit::One, Bit::One) => Bit::One,
            (Bit::Zero, Bit::One) | (Bit::One, Bit::Zero) => Bit::Zero,
            _ => Bit::X,
        }
    }
}
