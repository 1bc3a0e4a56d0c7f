//! Operators but those between two operands.

ghost use Rattle.std.specs.Prelude.{◌≡◌};
ghost use Rattle.sve_grammar.specs.Expressions.{unary_operator, implication_operator};
ghost use Rattle.sve_grammar.specs.Statements.{assignment_operator, increment_operator};
ghost use Rattle.sve_grammar.specs.Gives.{Finds};
ghost use Rattle.sve_tree.specs.Words.{unary_operator_tree, implication_operator_tree, assignment_operator_tree, step_operator_tree};

use sve_grammar::{is_kind, kind_here};
use sve_token::{Kind, Token};
use sve_tree::{AssignmentOperator, ImplicationOperator, StepOperator, UnaryOperator};

/// The operator before an operand that stands here (IEEE 1800-2017, 11.3).
pub fn unary_operator(tokens: &[Token], at: u32) -> Option<UnaryOperator>
    ensures { Finds tokens.now unary_operator unary_operator_tree at result }
{
    match kind_here(tokens, at) {
        Some(kind) => match kind {
            Kind::Plus => Some(UnaryOperator::Plus),
            Kind::Minus => Some(UnaryOperator::Minus),
            Kind::Bang => Some(UnaryOperator::LogicalNot),
            Kind::Tilde => Some(UnaryOperator::Not),
            Kind::Ampersand => Some(UnaryOperator::And),
            Kind::TildeAmpersand => Some(UnaryOperator::Nand),
            Kind::Pipe => Some(UnaryOperator::Or),
            Kind::TildePipe => Some(UnaryOperator::Nor),
            Kind::Caret => Some(UnaryOperator::Xor),
            Kind::TildeCaret => Some(UnaryOperator::TildeXnor),
            Kind::CaretTilde => Some(UnaryOperator::CaretXnor),
            _ => None,
        },
        None => None,
    }
}

/// The operator of implication that stands here (11.4.7).
#[tactic(auto, unfolding(sve_grammar::specs::Expressions::implication_operator, sve_grammar::specs::Reading::token))]
pub fn implication_operator(tokens: &[Token], at: u32) -> Option<ImplicationOperator>
    ensures { Finds tokens.now implication_operator implication_operator_tree at result }
{
    if is_kind(tokens, at, Kind::Arrow) {
        Some(ImplicationOperator::Implies)
    } else if is_kind(tokens, at, Kind::DoubleArrow) {
        Some(ImplicationOperator::Equivalent)
    } else {
        None
    }
}

/// The operator of an assignment that stands here (11.4.1 and 10.4).
pub fn assignment_operator(tokens: &[Token], at: u32) -> Option<AssignmentOperator>
    ensures { Finds tokens.now assignment_operator assignment_operator_tree at result }
{
    match kind_here(tokens, at) {
        Some(kind) => match kind {
            Kind::Assign => Some(AssignmentOperator::Assign),
            Kind::LessEqual => Some(AssignmentOperator::Nonblocking),
            Kind::PlusAssign => Some(AssignmentOperator::Plus),
            Kind::MinusAssign => Some(AssignmentOperator::Minus),
            Kind::StarAssign => Some(AssignmentOperator::Times),
            Kind::SlashAssign => Some(AssignmentOperator::Divide),
            Kind::PercentAssign => Some(AssignmentOperator::Remainder),
            Kind::AmpersandAssign => Some(AssignmentOperator::And),
            Kind::PipeAssign => Some(AssignmentOperator::Or),
            Kind::CaretAssign => Some(AssignmentOperator::Xor),
            Kind::LogicalShiftLeftAssign => Some(AssignmentOperator::LogicalShiftLeft),
            Kind::LogicalShiftRightAssign => Some(AssignmentOperator::LogicalShiftRight),
            Kind::ArithmeticShiftLeftAssign => Some(AssignmentOperator::ArithmeticShiftLeft),
            Kind::ArithmeticShiftRightAssign => Some(AssignmentOperator::ArithmeticShiftRight),
            _ => None,
        },
        None => None,
    }
}

/// The operator here that counts up or down by one (11.4.2).
#[tactic(auto, unfolding(sve_grammar::specs::Statements::increment_operator, sve_grammar::specs::Reading::token))]
pub fn step_operator(tokens: &[Token], at: u32) -> Option<StepOperator>
    ensures { Finds tokens.now increment_operator step_operator_tree at result }
{
    if is_kind(tokens, at, Kind::PlusPlus) {
        Some(StepOperator::Increment)
    } else if is_kind(tokens, at, Kind::MinusMinus) {
        Some(StepOperator::Decrement)
    } else {
        None
    }
}
