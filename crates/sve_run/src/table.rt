//! The table: the right side of each rule.

ghost use Rattle.std.specs.Prelude.{◌≡◌, true};
ghost use Rattle.sve_grammar.specs.Grammar.{rule};
ghost use Rattle.sve_run.specs.Meaning.{meaning, named, is_written};

use crate::declarations::declaration_part;
use crate::expressions::{ExpressionSign, expression_part};
use crate::items::{ItemSign, item_part};
use crate::part::{Part, Sign};
use crate::statements::{StatementSign, statement_part};
use crate::types::{TypeSign, type_part};
use sve_grammar::Symbol;

/// The right side of the rule of this name.
fn named_part(sign: Sign) -> Part
    ensures meaning { meaning result ≡ named sign }
    ensures written { is_written result ≡ true }
{
    match sign {
        Sign::Expression(sign) => expression_part(sign),
        Sign::Type(sign) => type_part(sign),
        Sign::Declaration(sign) => declaration_part(sign),
        Sign::Statement(sign) => statement_part(sign),
        Sign::Item(sign) => item_part(sign),
    }
}

/// The part itself, or the right side of the rule that it names.
pub fn written(part: Part) -> Part
    ensures meaning { meaning result ≡ meaning part }
    ensures written { is_written result ≡ true }
{
    match part {
        Part::Rule(sign) => named_part(sign),
        _ => part,
    }
}

/// The rule that stands for a symbol.
#[tactic(auto, unfolding(sve_grammar::specs::Grammar::rule))]
pub fn replacement(symbol: Symbol) -> Part
    ensures { meaning result ≡ rule symbol }
{
    match symbol {
        Symbol::Expression => Part::Rule(Sign::Expression(ExpressionSign::Expression)),
        Symbol::Conditional => Part::Rule(Sign::Expression(ExpressionSign::Conditional)),
        Symbol::Unary => Part::Rule(Sign::Expression(ExpressionSign::Unary)),
        Symbol::DataType => Part::Rule(Sign::Type(TypeSign::DataType)),
        Symbol::LeftSide => Part::Rule(Sign::Statement(StatementSign::LeftSide)),
        Symbol::Statement => Part::Rule(Sign::Statement(StatementSign::Statement)),
        Symbol::Item => Part::Rule(Sign::Item(ItemSign::Item)),
    }
}
