ghost use Rattle.std.specs.Prelude.{◌≡◌};
ghost use Rattle.sve_value.specs.Operators.{binary_of};
ghost use Rattle.sve_operand.specs.Sharing.{sharing_of, shift_operator, logical_operator, takes_context};

use sve_value::{Binary, Bits, Unary};

/// How the operands of a binary operator take part in its context (IEEE 1800-2017, Table 11-21).
#[derive(Clone, Copy)]
pub(crate) enum Sharing {
    /// Both take the size and the sign of the context.
    Shared,
    /// Both take the larger of their sizes, and are signed where both are.
    Compared,
    /// The left one takes the size and the sign of the context, the right one stands by itself.
    Shifted(Shift),
    /// Each stands by itself.
    Separate(Logical),
}

/// An operator whose right operand stands by itself.
#[derive(Clone, Copy)]
pub(crate) enum Shift {
    /// `**`.
    Power,
    /// `<<`.
    LogicalLeft,
    /// `>>`.
    LogicalRight,
    /// `<<<`.
    ArithmeticLeft,
    /// `>>>`.
    ArithmeticRight,
}

/// An operator on the truths of its operands.
#[derive(Clone, Copy)]
pub(crate) enum Logical {
    /// `&&`.
    And,
    /// `||`.
    Or,
    /// `->`.
    Implication,
    /// `<->`.
    Equivalence,
}

impl Shift {
    /// What the operator makes of its operands.
    pub(crate) fn apply(self, a: Bits, b: Bits) -> Bits
        ensures { result ≡ binary_of (shift_operator self) a b }
    {
        match self {
            Shift::Power => sve_value::binary(Binary::Power, a, b),
            Shift::LogicalLeft => sve_value::binary(Binary::LogicalShiftLeft, a, b),
            Shift::LogicalRight => sve_value::binary(Binary::LogicalShiftRight, a, b),
            Shift::ArithmeticLeft => sve_value::binary(Binary::ArithmeticShiftLeft, a, b),
            Shift::ArithmeticRight => sve_value::binary(Binary::ArithmeticShiftRight, a, b),
        }
    }
}

impl Logical {
    /// What the operator makes of its operands.
    pub(crate) fn apply(self, a: Bits, b: Bits) -> Bits
        ensures { result ≡ binary_of (logical_operator self) a b }
    {
        match self {
            Logical::And => sve_value::binary(Binary::LogicalAnd, a, b),
            Logical::Or => sve_value::binary(Binary::LogicalOr, a, b),
            Logical::Implication => sve_value::binary(Binary::LogicalImplication, a, b),
            Logical::Equivalence => sve_value::binary(Binary::LogicalEquivalence, a, b),
        }
    }
}

/// Whether the operand of a unary operator takes the size and the sign of the context.
pub(crate) fn takes_context(operator: Unary) -> bool
    ensures { result ≡ takes_context operator }
{
    matches!(operator, Unary::Plus | Unary::Minus | Unary::BitwiseNot)
}

/// How the operands of a binary operator take part in its context.
pub(crate) fn shared_by(operator: Binary) -> Sharing
    ensures { result ≡ sharing_of operator }
{
    match operator {
        Binary::Add
        | Binary::Subtract
        | Binary::Multiply
        | Binary::Divide
        | Binary::Modulus
        | Binary::BitwiseAnd
        | Binary::BitwiseOr
        | Binary::BitwiseXor
        | Binary::BitwiseXnor => Sharing::Shared,
        Binary::LogicalEqual
        | Binary::LogicalNotEqual
        | Binary::CaseEqual
        | Binary::CaseNotEqual
        | Binary::WildcardEqual
        | Binary::WildcardNotEqual
        | Binary::Less
        | Binary::LessOrEqual
        | Binary::Greater
        | Binary::GreaterOrEqual => Sharing::Compared,
        Binary::Power => Sharing::Shifted(Shift::Power),
        Binary::LogicalShiftLeft => Sharing::Shifted(Shift::LogicalLeft),
        Binary::LogicalShiftRight => Sharing::Shifted(Shift::LogicalRight),
        Binary::ArithmeticShiftLeft => Sharing::Shifted(Shift::ArithmeticLeft),
        Binary::ArithmeticShiftRight => Sharing::Shifted(Shift::ArithmeticRight),
        Binary::LogicalAnd => Sharing::Separate(Logical::And),
        Binary::LogicalOr => Sharing::Separate(Logical::Or),
        Binary::LogicalImplication => Sharing::Separate(Logical::Implication),
        Binary::LogicalEquivalence => Sharing::Separate(Logical::Equivalence),
    }
}
