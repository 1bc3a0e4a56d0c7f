ghost use Rattle.std.specs.Prelude.{◌≡◌};
ghost use Rattle.sve_value.specs.Operators.{unary_of, binary_of, Suits};

use crate::bit::truth_bit;
use crate::bits::Bits;
use crate::operators::{Binary, Unary};
use crate::reductions::{conjunction, disjunction, one_bit, parity, truth_bit_of};
use crate::{arithmetic, bitwise, moves, relations};

/// The value of a unary operator (11.4). Plus, minus and `~` keep the size and the sign of the operand; `!` and the
/// reductions give one unsigned bit.
pub fn unary(op: Unary, a: Bits) -> Bits
    ensures { result ≡ unary_of op a }
{
    match op {
        Unary::Plus => arithmetic::plus(a),
        Unary::Minus => arithmetic::minus(a),
        Unary::BitwiseNot => bitwise::not(a),
        Unary::LogicalNot => one_bit(truth_bit_of(a).not()),
        Unary::ReductionAnd => one_bit(conjunction(a)),
        Unary::ReductionNand => one_bit(conjunction(a).not()),
        Unary::ReductionOr => one_bit(disjunction(a)),
        Unary::ReductionNor => one_bit(disjunction(a).not()),
        Unary::ReductionXor => one_bit(parity(a)),
        Unary::ReductionXnor => one_bit(parity(a).not()),
    }
}

/// The value of a binary operator (11.4). Operands that share a size have one width and one sign, which arithmetic and
/// the bitwise operators keep. Powers and shifts have the size and the sign of the left operand, and the right one
/// stands by itself. Comparisons and the logical operators give one unsigned bit.
pub fn binary(op: Binary, a: Bits, b: Bits) -> Bits
    requires { Suits op a b }
    ensures { result ≡ binary_of op a b }
{
    match op {
        Binary::Add => arithmetic::add(a, b),
        Binary::Subtract => arithmetic::subtract(a, b),
        Binary::Multiply => arithmetic::multiply(a, b),
        Binary::Divide => arithmetic::divide(a, b),
        Binary::Modulus => arithmetic::modulus(a, b),
        Binary::Power => arithmetic::power(a, b),
        Binary::BitwiseAnd => bitwise::and(a, b),
        Binary::BitwiseOr => bitwise::or(a, b),
        Binary::BitwiseXor => bitwise::xor(a, b),
        Binary::BitwiseXnor => bitwise::xnor(a, b),
        Binary::LogicalEqual => one_bit(relations::equal(a, b)),
        Binary::LogicalNotEqual => one_bit(relations::equal(a, b).not()),
        Binary::CaseEqual => one_bit(relations::case_equal(a, b)),
        Binary::CaseNotEqual => one_bit(relations::case_equal(a, b).not()),
        Binary::WildcardEqual => one_bit(relations::wildcard_equal(a, b)),
        Binary::WildcardNotEqual => one_bit(relations::wildcard_equal(a, b).not()),
        Binary::Less => one_bit(truth_bit(relations::less(a, b))),
        Binary::LessOrEqual => one_bit(truth_bit(relations::less_or_equal(a, b))),
        Binary::Greater => one_bit(truth_bit(relations::less(b, a))),
        Binary::GreaterOrEqual => one_bit(truth_bit(relations::less_or_equal(b, a))),
        Binary::LogicalAnd => one_bit(truth_bit_of(a).and(truth_bit_of(b))),
        Binary::LogicalOr => one_bit(truth_bit_of(a).or(truth_bit_of(b))),
        Binary::LogicalImplication => one_bit(truth_bit_of(a).not().or(truth_bit_of(b))),
        Binary::LogicalEquivalence => one_bit(truth_bit_of(a).xnor(truth_bit_of(b))),
        Binary::LogicalShiftLeft | Binary::ArithmeticShiftLeft => moves::shift_left(a, b),
        Binary::LogicalShiftRight => moves::logical_shift_right(a, b),
        Binary::ArithmeticShiftRight => moves::arithmetic_shift_right(a, b),
    }
}
