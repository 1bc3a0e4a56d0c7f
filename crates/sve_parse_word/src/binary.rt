//! Operators between two operands, level by level.

ghost use Rattle.std.specs.Prelude.{◌≡◌, ◌≤◌, IfSome};
ghost use Rattle.sve_grammar.specs.Expressions.{operators};
ghost use Rattle.sve_grammar.specs.Gives.{Finds};
ghost use Rattle.sve_tree.specs.Words.{binary_operator_tree};
ghost use Rattle.sve_tree.specs.Expressions.{level_of};

use sve_grammar::is_kind;
use sve_token::{Kind, Token};
use sve_tree::BinaryOperator;

/// The operator between two operands that stands here, if it is of this level: 1 to 11, the tightest as 1 (IEEE 1800-2017,
/// Table 11-2).
pub fn binary_operator(tokens: &[Token], at: u32, level: u32) -> Option<BinaryOperator>
    requires level { (1 ≤ level) × (level ≤ 11) }
    ensures found { Finds tokens.now (operators level) binary_operator_tree at result }
    ensures level { IfSome result (λ operator. level_of operator ≡ level) }
{
    match level {
        1 => power(tokens, at),
        2 => multiplicative(tokens, at),
        3 => additive(tokens, at),
        4 => shift(tokens, at),
        5 => relational(tokens, at),
        6 => equality(tokens, at),
        7 => bitwise_and(tokens, at),
        8 => exclusive_or(tokens, at),
        9 => bitwise_or(tokens, at),
        10 => logical_and(tokens, at),
        _ => logical_or(tokens, at),
    }
}

/// The power operator, if it stands here.
#[tactic(auto, unfolding(sve_grammar::specs::Expressions::operators, sve_grammar::specs::Reading::token))]
fn power(tokens: &[Token], at: u32) -> Option<BinaryOperator>
    ensures found { Finds tokens.now (operators 1) binary_operator_tree at result }
    ensures level { IfSome result (λ operator. level_of operator ≡ 1) }
{
    is_kind(tokens, at, Kind::StarStar).then_some(BinaryOperator::Power)
}

/// A multiplicative operator that stands here.
#[tactic(auto, unfolding(sve_grammar::specs::Expressions::operators, sve_grammar::specs::Reading::token))]
fn multiplicative(tokens: &[Token], at: u32) -> Option<BinaryOperator>
    ensures found { Finds tokens.now (operators 2) binary_operator_tree at result }
    ensures level { IfSome result (λ operator. level_of operator ≡ 2) }
{
    if is_kind(tokens, at, Kind::Star) {
        Some(BinaryOperator::Times)
    } else if is_kind(tokens, at, Kind::Slash) {
        Some(BinaryOperator::Divide)
    } else if is_kind(tokens, at, Kind::Percent) {
        Some(BinaryOperator::Remainder)
    } else {
        None
    }
}

/// An additive operator that stands here.
#[tactic(auto, unfolding(sve_grammar::specs::Expressions::operators, sve_grammar::specs::Reading::token))]
fn additive(tokens: &[Token], at: u32) -> Option<BinaryOperator>
    ensures found { Finds tokens.now (operators 3) binary_operator_tree at result }
    ensures level { IfSome result (λ operator. level_of operator ≡ 3) }
{
    if is_kind(tokens, at, Kind::Plus) {
        Some(BinaryOperator::Plus)
    } else if is_kind(tokens, at, Kind::Minus) {
        Some(BinaryOperator::Minus)
    } else {
        None
    }
}

/// A shift operator that stands here.
#[tactic(auto, unfolding(sve_grammar::specs::Expressions::operators, sve_grammar::specs::Reading::token))]
fn shift(tokens: &[Token], at: u32) -> Option<BinaryOperator>
    ensures found { Finds tokens.now (operators 4) binary_operator_tree at result }
    ensures level { IfSome result (λ operator. level_of operator ≡ 4) }
{
    if is_kind(tokens, at, Kind::LogicalShiftLeft) {
        Some(BinaryOperator::LogicalShiftLeft)
    } else if is_kind(tokens, at, Kind::LogicalShiftRight) {
        Some(BinaryOperator::LogicalShiftRight)
    } else if is_kind(tokens, at, Kind::ArithmeticShiftLeft) {
        Some(BinaryOperator::ArithmeticShiftLeft)
    } else if is_kind(tokens, at, Kind::ArithmeticShiftRight) {
        Some(BinaryOperator::ArithmeticShiftRight)
    } else {
        None
    }
}

/// A relational operator that stands here.
#[tactic(auto, unfolding(sve_grammar::specs::Expressions::operators, sve_grammar::specs::Reading::token))]
fn relational(tokens: &[Token], at: u32) -> Option<BinaryOperator>
    ensures found { Finds tokens.now (operators 5) binary_operator_tree at result }
    ensures level { IfSome result (λ operator. level_of operator ≡ 5) }
{
    if is_kind(tokens, at, Kind::Less) {
        Some(BinaryOperator::Less)
    } else if is_kind(tokens, at, Kind::LessEqual) {
        Some(BinaryOperator::LessEqual)
    } else if is_kind(tokens, at, Kind::Greater) {
        Some(BinaryOperator::Greater)
    } else if is_kind(tokens, at, Kind::GreaterEqual) {
        Some(BinaryOperator::GreaterEqual)
    } else {
        None
    }
}

/// An equality operator that stands here.
#[tactic(auto, unfolding(sve_grammar::specs::Expressions::operators, sve_grammar::specs::Reading::token))]
fn equality(tokens: &[Token], at: u32) -> Option<BinaryOperator>
    ensures found { Finds tokens.now (operators 6) binary_operator_tree at result }
    ensures level { IfSome result (λ operator. level_of operator ≡ 6) }
{
    if is_kind(tokens, at, Kind::LogicalEquality) {
        Some(BinaryOperator::Equal)
    } else if is_kind(tokens, at, Kind::LogicalInequality) {
        Some(BinaryOperator::NotEqual)
    } else if is_kind(tokens, at, Kind::CaseEquality) {
        Some(BinaryOperator::CaseEqual)
    } else if is_kind(tokens, at, Kind::CaseInequality) {
        Some(BinaryOperator::CaseNotEqual)
    } else if is_kind(tokens, at, Kind::WildcardEquality) {
        Some(BinaryOperator::WildcardEqual)
    } else if is_kind(tokens, at, Kind::WildcardInequality) {
        Some(BinaryOperator::WildcardNotEqual)
    } else {
        None
    }
}

/// The bitwise and, if it stands here.
#[tactic(auto, unfolding(sve_grammar::specs::Expressions::operators, sve_grammar::specs::Reading::token))]
fn bitwise_and(tokens: &[Token], at: u32) -> Option<BinaryOperator>
    ensures found { Finds tokens.now (operators 7) binary_operator_tree at result }
    ensures level { IfSome result (λ operator. level_of operator ≡ 7) }
{
    is_kind(tokens, at, Kind::Ampersand).then_some(BinaryOperator::And)
}

/// A bitwise exclusive or that stands here.
#[tactic(auto, unfolding(sve_grammar::specs::Expressions::operators, sve_grammar::specs::Reading::token))]
fn exclusive_or(tokens: &[Token], at: u32) -> Option<BinaryOperator>
    ensures found { Finds tokens.now (operators 8) binary_operator_tree at result }
    ensures level { IfSome result (λ operator. level_of operator ≡ 8) }
{
    if is_kind(tokens, at, Kind::Caret) {
        Some(BinaryOperator::Xor)
    } else if is_kind(tokens, at, Kind::TildeCaret) {
        Some(BinaryOperator::TildeXnor)
    } else if is_kind(tokens, at, Kind::CaretTilde) {
        Some(BinaryOperator::CaretXnor)
    } else {
        None
    }
}

/// The bitwise or, if it stands here.
#[tactic(auto, unfolding(sve_grammar::specs::Expressions::operators, sve_grammar::specs::Reading::token))]
fn bitwise_or(tokens: &[Token], at: u32) -> Option<BinaryOperator>
    ensures found { Finds tokens.now (operators 9) binary_operator_tree at result }
    ensures level { IfSome result (λ operator. level_of operator ≡ 9) }
{
    is_kind(tokens, at, Kind::Pipe).then_some(BinaryOperator::Or)
}

/// The logical and, if it stands here.
#[tactic(auto, unfolding(sve_grammar::specs::Expressions::operators, sve_grammar::specs::Reading::token))]
fn logical_and(tokens: &[Token], at: u32) -> Option<BinaryOperator>
    ensures found { Finds tokens.now (operators 10) binary_operator_tree at result }
    ensures level { IfSome result (λ operator. level_of operator ≡ 10) }
{
    is_kind(tokens, at, Kind::LogicalAnd).then_some(BinaryOperator::LogicalAnd)
}

/// The logical or, if it stands here.
#[tactic(auto, unfolding(sve_grammar::specs::Expressions::operators, sve_grammar::specs::Reading::token))]
fn logical_or(tokens: &[Token], at: u32) -> Option<BinaryOperator>
    ensures found { Finds tokens.now (operators 11) binary_operator_tree at result }
    ensures level { IfSome result (λ operator. level_of operator ≡ 11) }
{
    is_kind(tokens, at, Kind::LogicalOr).then_some(BinaryOperator::LogicalOr)
}
