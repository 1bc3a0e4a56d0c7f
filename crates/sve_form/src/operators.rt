ghost use Rattle.std.specs.Prelude.{◌≡◌};
ghost use Rattle.sve_form.specs.Operators.{unary_named, binary_named, implication_named, is_signed};

use sve_tree::{BinaryOperator, ImplicationOperator, Sign, UnaryOperator};
use sve_value::{Binary, Unary};

/// The operator that a token before an operand says.
pub fn unary(operator: UnaryOperator) -> Unary
    ensures { result ≡ unary_named operator }
{
    match operator {
        UnaryOperator::Plus => Unary::Plus,
        UnaryOperator::Minus => Unary::Minus,
        UnaryOperator::LogicalNot => Unary::LogicalNot,
        UnaryOperator::Not => Unary::BitwiseNot,
        UnaryOperator::And => Unary::ReductionAnd,
        UnaryOperator::Nand => Unary::ReductionNand,
        UnaryOperator::Or => Unary::ReductionOr,
        UnaryOperator::Nor => Unary::ReductionNor,
        UnaryOperator::Xor => Unary::ReductionXor,
        UnaryOperator::TildeXnor => Unary::ReductionXnor,
        UnaryOperator::CaretXnor => Unary::ReductionXnor,
    }
}

/// The operator that a token between two operands says.
pub fn binary(operator: BinaryOperator) -> Binary
    ensures { result ≡ binary_named operator }
{
    match operator {
        BinaryOperator::Power => Binary::Power,
        BinaryOperator::Times => Binary::Multiply,
        BinaryOperator::Divide => Binary::Divide,
        BinaryOperator::Remainder => Binary::Modulus,
        BinaryOperator::Plus => Binary::Add,
        BinaryOperator::Minus => Binary::Subtract,
        BinaryOperator::LogicalShiftLeft => Binary::LogicalShiftLeft,
        BinaryOperator::LogicalShiftRight => Binary::LogicalShiftRight,
        BinaryOperator::ArithmeticShiftLeft => Binary::ArithmeticShiftLeft,
        BinaryOperator::ArithmeticShiftRight => Binary::ArithmeticShiftRight,
        BinaryOperator::Less => Binary::Less,
        BinaryOperator::LessEqual => Binary::LessOrEqual,
        BinaryOperator::Greater => Binary::Greater,
        BinaryOperator::GreaterEqual => Binary::GreaterOrEqual,
        BinaryOperator::Equal => Binary::LogicalEqual,
        BinaryOperator::NotEqual => Binary::LogicalNotEqual,
        BinaryOperator::CaseEqual => Binary::CaseEqual,
        BinaryOperator::CaseNotEqual => Binary::CaseNotEqual,
        BinaryOperator::WildcardEqual => Binary::WildcardEqual,
        BinaryOperator::WildcardNotEqual => Binary::WildcardNotEqual,
        BinaryOperator::And => Binary::BitwiseAnd,
        BinaryOperator::Xor => Binary::BitwiseXor,
        BinaryOperator::TildeXnor => Binary::BitwiseXnor,
        BinaryOperator::CaretXnor => Binary::BitwiseXnor,
        BinaryOperator::Or => Binary::BitwiseOr,
        BinaryOperator::LogicalAnd => Binary::LogicalAnd,
        BinaryOperator::LogicalOr => Binary::LogicalOr,
    }
}

/// The operator of an implication.
pub fn implication(operator: ImplicationOperator) -> Binary
    ensures { result ≡ implication_named operator }
{
    match operator {
        ImplicationOperator::Implies => Binary::LogicalImplication,
        ImplicationOperator::Equivalent => Binary::LogicalEquivalence,
    }
}

/// Whether a keyword says signed.
pub fn is_signed(sign: Sign) -> bool
    ensures { result ≡ is_signed sign }
{
    matches!(sign, Sign::Signed)
}
