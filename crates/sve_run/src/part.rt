//! Of what the grammar's table is made.

use crate::declarations::DeclarationSign;
use crate::expressions::ExpressionSign;
use crate::items::ItemSign;
use crate::statements::StatementSign;
use crate::types::TypeSign;
use sve_grammar::Symbol;
use sve_token::Kind;

/// The name of a rule, by the part of the grammar that it belongs to.
#[derive(Clone, Copy)]
pub enum Sign {
    /// Of expressions.
    Expression(ExpressionSign),
    /// Of data types and ports.
    Type(TypeSign),
    /// Of declarations and headers.
    Declaration(DeclarationSign),
    /// Of statements and functions.
    Statement(StatementSign),
    /// Of items and chunks.
    Item(ItemSign),
}

/// A part of the right side of a rule.
#[derive(Clone, Copy)]
pub enum Part {
    /// One token of this kind.
    Token(Kind),
    /// A symbol, whose rule is one deeper.
    Symbol(Symbol),
    /// What the rule of this name is.
    Rule(Sign),
    /// One part, and behind it the other.
    Then(&'static Part, &'static Part),
    /// One part, or else the other.
    Or(&'static Part, &'static Part),
    /// No token.
    Nothing,
    /// The part again and again, or not at all.
    Many(&'static Part),
}

/// One token.
macro_rules! tok {
    ($kind:ident) => {
        Part::Token(Kind::$kind)
    };
}

/// One keyword.
macro_rules! word {
    ($keyword:ident) => {
        Part::Token(Kind::Keyword(Keyword::$keyword))
    };
}

/// One of the seven symbols.
macro_rules! sym {
    ($symbol:ident) => {
        Part::Symbol(Symbol::$symbol)
    };
}

/// Parts one behind the other.
macro_rules! seq {
    ($first:expr) => { $first };
    ($first:expr, $($rest:expr),+) => { Part::Then(&$first, &seq!($($rest),+)) };
}

/// The first of these parts that fits.
macro_rules! first_of {
    ($first:expr) => { $first };
    ($first:expr, $($rest:expr),+) => { Part::Or(&$first, &first_of!($($rest),+)) };
}

/// The part, or no token.
macro_rules! opt {
    ($part:expr) => {
        Part::Or(&$part, &Part::Nothing)
    };
}

/// The part again and again, or not at all.
macro_rules! many {
    ($part:expr) => {
        Part::Many(&$part)
    };
}

/// A rule of expressions.
macro_rules! expression_rule {
    ($name:ident) => {
        Part::Rule(Sign::Expression(ExpressionSign::$name))
    };
}

/// A rule of data types and ports.
macro_rules! type_rule {
    ($name:ident) => {
        Part::Rule(Sign::Type(TypeSign::$name))
    };
}

/// A rule of declarations and headers.
macro_rules! declaration_rule {
    ($name:ident) => {
        Part::Rule(Sign::Declaration(DeclarationSign::$name))
    };
}

/// A rule of statements and functions.
macro_rules! statement_rule {
    ($name:ident) => {
        Part::Rule(Sign::Statement(StatementSign::$name))
    };
}

/// A rule of items and chunks.
macro_rules! item_rule {
    ($name:ident) => {
        Part::Rule(Sign::Item(ItemSign::$name))
    };
}

pub(crate) use declaration_rule;
pub(crate) use expression_rule;
pub(crate) use first_of;
pub(crate) use item_rule;
pub(crate) use many;
pub(crate) use opt;
pub(crate) use seq;
pub(crate) use statement_rule;
pub(crate) use sym;
pub(crate) use tok;
pub(crate) use type_rule;
pub(crate) use word;
