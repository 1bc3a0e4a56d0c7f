//! What stands at a place, by its next token.

ghost use Rattle.std.specs.Prelude.{◌≡◌};
ghost use Rattle.sve_grammar.specs.Token.{kind_at};
ghost use Rattle.sve_grammar.specs.Rule.{starts};
ghost use Rattle.sve_grammar.specs.Expressions.{select, postfix, unary_operator};
ghost use Rattle.sve_grammar.specs.Gives.{Finds};
ghost use Rattle.sve_tree.specs.Words.{unary_operator_tree};
ghost use Rattle.sve_parse_expr.specs.Alternatives.{LeadsTo};

use sve_grammar::{is_kind, is_one_of, kind_here};
use sve_parse_word::{integer_keyword, sign, unary_operator};
use sve_token::{Kind, Token};
use sve_tree::UnaryOperator;

/// The forms of an operand without operators before it: the alternatives of primary (IEEE 1800-2017, A.8.4), in their order.
#[derive(Clone, Copy)]
pub(crate) enum Operand {
    /// A decimal number, alone or as a size.
    Decimal,
    /// A based number without a size.
    Based,
    /// A bit that fills its context.
    Unbased,
    /// A string literal.
    Text,
    /// An expression in parentheses.
    Parenthesized,
    /// An assignment pattern.
    Pattern,
    /// A concatenation or a replication.
    Concatenation,
    /// A cast to a sign.
    SignCast,
    /// An integer type, alone or before a cast.
    Type,
    /// A system function.
    System,
    /// A name and what is applied to it, or nothing that begins an operand.
    Name,
}

/// The unary operator that stands here in front of an operand.
#[tactic(auto, using(crate::proofs::Leads::no_prefix))]
pub(crate) fn prefix_operator(tokens: &[Token], at: u32) -> Option<UnaryOperator>
    ensures { Finds tokens.now unary_operator unary_operator_tree at result }
{
    // most operands are names
    match kind_here(tokens, at) {
        Some(Kind::Identifier) => None,
        _ => unary_operator(tokens, at),
    }
}

/// The form of the operand that begins here; `Name` where none does.
pub(crate) fn operand_here(tokens: &[Token], at: u32) -> Operand
    ensures { LeadsTo tokens.now at result }
{
    // most operands are names
    match kind_here(tokens, at) {
        Some(Kind::Identifier) => Operand::Name,
        _ => any_operand_here(tokens, at),
    }
}

/// The form of the operand that begins here, by the tests of the alternatives in their order.
fn any_operand_here(tokens: &[Token], at: u32) -> Operand
    ensures { LeadsTo tokens.now at result }
{
    let decimal = is_kind(tokens, at, Kind::Decimal);
    if decimal {
        return Operand::Decimal;
    }
    let based = is_kind(tokens, at, Kind::Based);
    if based {
        return Operand::Based;
    }
    let unbased = is_kind(tokens, at, Kind::Unbased);
    if unbased {
        return Operand::Unbased;
    }
    let text = is_kind(tokens, at, Kind::Text);
    if text {
        return Operand::Text;
    }
    let paren = is_kind(tokens, at, Kind::LeftParen);
    if paren {
        return Operand::Parenthesized;
    }
    let pattern = is_kind(tokens, at, Kind::ApostropheLeftBrace);
    if pattern {
        return Operand::Pattern;
    }
    let brace = is_kind(tokens, at, Kind::LeftBrace);
    if brace {
        return Operand::Concatenation;
    }
    let signed = sign(tokens, at).is_some();
    if signed {
        return Operand::SignCast;
    }
    let typed = integer_keyword(tokens, at).is_some();
    if typed {
        return Operand::Type;
    }
    let system = is_kind(tokens, at, Kind::SystemName);
    if system {
        return Operand::System;
    }
    Operand::Name
}

/// Whether a member or a range in brackets begins here.
pub(crate) fn begins_select(tokens: &[Token], at: u32) -> bool
    ensures { result ≡ starts select (kind_at tokens.now at) }
{
    is_one_of(tokens, at, &SELECT_FIRSTS)
}

/// Whether something that is applied to a name begins here.
pub(crate) fn begins_postfix(tokens: &[Token], at: u32) -> bool
    ensures { result ≡ starts postfix (kind_at tokens.now at) }
{
    is_one_of(tokens, at, &POSTFIX_FIRSTS)
}

const SELECT_FIRSTS: [Kind; 2] = [Kind::Dot, Kind::LeftBracket];

const POSTFIX_FIRSTS: [Kind; 5] = [
    Kind::Dot,
    Kind::LeftBracket,
    Kind::LeftParen,
    Kind::Apostrophe,
    Kind::ApostropheLeftBrace,
];
