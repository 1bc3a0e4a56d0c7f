use crate::sharing::Shift;
use sve_value::{Binary, Bit, Bits, Unary};

/// What is left to do once the size and the sign of the context are known.
#[cycle(pending)]
#[derive(Drop)]
pub(crate) enum Pending {
    /// A value that stands by itself is extended to the context (IEEE 1800-2017, 11.8.2).
    Settled(Bits),
    /// A bit fills the context: `'1` (5.7.1).
    Spread(Bit),
    /// An operator is applied to an operand in the same context.
    Unary {
        /// The operator.
        operator: Unary,
        /// Its operand.
        operand: Box<Pending>,
    },
    /// Operators are applied in turn, each to all that stands before it.
    Chain {
        /// What the first is applied to.
        first: Box<Pending>,
        /// The operators with their right operands, from left to right.
        links: Vec<Link>,
    },
    /// One of two arms in the same context is chosen (11.4.11).
    Choice {
        /// The condition, which stands by itself.
        condition: Bits,
        /// The arm for a true condition.
        chosen: Box<Pending>,
        /// The arm for a false condition.
        otherwise: Box<Pending>,
    },
}

/// An operator of a chain and its right operand.
#[cycle(pending)]
#[derive(Drop)]
pub(crate) enum Link {
    /// One whose right operand is in the context too.
    Shared {
        /// The operator.
        operator: Binary,
        /// The right operand.
        right: Pending,
    },
    /// One whose right operand stands by itself.
    Shifted {
        /// The operator.
        operator: Shift,
        /// The right operand.
        right: Bits,
    },
}
