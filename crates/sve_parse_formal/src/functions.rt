//! The result and the formal arguments of a function (IEEE 1800-2017, 13.4, 13.5, A.2.6 and A.2.7).

ghost use Rattle.std.specs.Prelude.{◌≡◌, ◌<◌, ◌≤◌, ◌-◌, ◌^◌, length, Ok, IfOk};
ghost use Rattle.sve_token.specs.declared.keywords.Keyword.TheVariants.{KwVar};
ghost use Rattle.sve_parse_word.specs.Takes.{Takes};
ghost use Rattle.sve_grammar.specs.Token.{kind_at};
ghost use Rattle.sve_grammar.specs.Rule.{opt, word, starts};
ghost use Rattle.sve_grammar.specs.Reading.{leaf, at_depth, with_left};
ghost use Rattle.sve_grammar.specs.Gives.{Gives};
ghost use Rattle.sve_grammar.specs.Statements.{function_result, formal_direction, formal, more_formals, formal_row, formals};
ghost use Rattle.sve_tree.specs.Shape.{optional_tree, optional_row, row_rest, IsRow};
ghost use Rattle.sve_tree.specs.Statements.{function_result_tree, formal_direction_tree, formal_tree, formals_tree};

use std::alloc::Global;
use sve_grammar::{Stop, Symbol, accept, expect, is_kind, is_one_of, opens_here};
use sve_parse_type::type_name;
use sve_parse_word::direction;
use sve_token::{Keyword, Kind, Token};
use sve_tree::{Formal, FormalDirection, Formals, FunctionResult, Mark, Row};

/// The type of a function's result, where one is written, or `void`, with the function's name (IEEE 1800-2017, 13.4), and the place
/// behind them. It stops where the grammar's machine stops and where memory runs out, as every parser here does.
#[tactic(auto, using(crate::proofs::Ways::void_result, crate::proofs::Ways::typed_result))]
pub fn function_result(
    alloc: Global,
    tokens: &[Token],
    from: u32,
    depth: u32,
) -> Result<(FunctionResult, u32), Stop>
    requires few { length tokens.now < 2 ^ 32 }
    requires from { from ≤ length tokens.now }
    requires depth { depth ≤ 512 }
    ensures tree { Gives (λ x. (function_result_tree x.0, x.1)) result (at_depth tokens.now depth function_result from) }
    ensures end { IfOk result (λ x. (from < x.1) × (x.1 ≤ length tokens.now)) }
{
    if let Some(name) = accept(tokens, from, Kind::Keyword(Keyword::KwVoid)) {
        let end = expect(tokens, name, Kind::Identifier)?;
        return Ok((
            FunctionResult::Void {
                keyword: from,
                name,
            },
            end,
        ));
    }
    let (result, end) = type_name(alloc, tokens, from, depth)?;
    Ok((FunctionResult::Typed { result }, end))
}

/// The formal arguments of a function in their parentheses, where they are written (13.5), and the place behind them.
#[tactic(auto, using(sve_grammar::proofs::StartsOfStatements::formals_starts, sve_grammar::proofs::StartsOfStatements::formals_full))]
pub fn optional_formals(
    alloc: Global,
    tokens: &[Token],
    from: u32,
    depth: u32,
) -> Result<(Option<Formals>, u32), Stop>
    requires few { length tokens.now < 2 ^ 32 }
    requires from { from ≤ length tokens.now }
    requires depth { depth ≤ 512 }
    ensures tree { Gives (λ x. (optional_tree formals_tree x.0, x.1)) result (at_depth tokens.now depth (opt formals) from) }
    ensures end { IfOk result (λ x. (from ≤ x.1) × (x.1 ≤ length tokens.now)) }
{
    if is_kind(tokens, from, Kind::LeftParen) {
        let (formals, end) = formals(alloc, tokens, from, depth)?;
        return Ok((Some(formals), end));
    }
    Ok((None, from))
}

/// The formal arguments of a function in their parentheses, and the place behind them.
#[tactic(auto, unfolding(sve_grammar::specs::Statements::formals))]
fn formals(alloc: Global, tokens: &[Token], from: u32, depth: u32) -> Result<(Formals, u32), Stop>
    requires few { length tokens.now < 2 ^ 32 }
    requires from { from ≤ length tokens.now }
    requires depth { depth ≤ 512 }
    ensures tree { Gives (λ x. (formals_tree x.0, x.1)) result (at_depth tokens.now depth formals from) }
    ensures end { IfOk result (λ x. (from < x.1) × (x.1 ≤ length tokens.now)) }
{
    let at = expect(tokens, from, Kind::LeftParen)?;
    let (formals, closing) = optional_formal_row(alloc, tokens, at, depth)?;
    let end = expect(tokens, closing, Kind::RightParen)?;
    Ok((
        Formals {
            opening: from,
            formals,
            closing,
        },
        end,
    ))
}

/// The formal arguments between the parentheses, if there are any, and the place behind them.
#[tactic(auto, using(crate::proofs::Starts::formal_row_begins, sve_grammar::proofs::StartsOfStatements::formal_row_full, sve_tree::proofs::Shapes::listed_none))]
fn optional_formal_row(
    alloc: Global,
    tokens: &[Token],
    from: u32,
    depth: u32,
) -> Result<(Row<Formal>, u32), Stop>
    requires few { length tokens.now < 2 ^ 32 }
    requires from { from ≤ length tokens.now }
    requires depth { depth ≤ 512 }
    ensures tree { Gives (λ x. (optional_row formal_tree leaf x.0, x.1)) result (at_depth tokens.now depth (opt formal_row) from) }
    ensures end { IfOk result (λ x. (from ≤ x.1) × (x.1 ≤ length tokens.now)) }
{
    if begins_formal(tokens, from) {
        return formal_row(alloc, tokens, from, depth);
    }
    let none = Row {
        items: Vec::new(alloc),
        separators: Vec::new(alloc),
    };
    Ok((none, from))
}

/// Whether a formal argument begins here.
#[tactic(auto, using(crate::proofs::Starts::formal_begins))]
fn begins_formal(tokens: &[Token], at: u32) -> bool
    ensures { result ≡ starts formal (kind_at tokens.now at) }
{
    if is_one_of(tokens, at, &PASSING_FIRSTS) {
        return true;
    }
    opens_here(tokens, at, Symbol::DataType) || is_one_of(tokens, at, &NAME_FIRSTS)
}

/// The keywords that may stand in front of the type of a formal argument.
const PASSING_FIRSTS: [Kind; 5] = [
    Kind::Keyword(Keyword::KwInput),
    Kind::Keyword(Keyword::KwOutput),
    Kind::Keyword(Keyword::KwInout),
    Kind::Keyword(Keyword::KwRef),
    Kind::Keyword(Keyword::KwVar),
];

/// What a name with its type begins with, but for the keywords of types.
const NAME_FIRSTS: [Kind; 4] = [
    Kind::Keyword(Keyword::KwSigned),
    Kind::Keyword(Keyword::KwUnsigned),
    Kind::LeftBracket,
    Kind::Identifier,
];

/// Formal arguments, one or more, and the place behind them.
#[tactic(auto, using(sve_tree::proofs::Shapes::listed_is), unfolding(sve_grammar::specs::Statements::formal_row))]
fn formal_row(
    alloc: Global,
    tokens: &[Token],
    from: u32,
    depth: u32,
) -> Result<(Row<Formal>, u32), Stop>
    requires few { length tokens.now < 2 ^ 32 }
    requires from { from ≤ length tokens.now }
    requires depth { depth ≤ 512 }
    ensures tree { Gives (λ x. (optional_row formal_tree leaf x.0, x.1)) result (with_left (at_depth tokens.now depth formal_row from)) }
    ensures end { IfOk result (λ x. (from < x.1) × (x.1 ≤ length tokens.now)) }
{
    let (first, at) = formal(alloc, tokens, from, depth)?;
    more_formals(alloc, tokens, at, depth, first)
}

/// The further formal arguments behind the first, and the place behind them.
fn more_formals(
    alloc: Global,
    tokens: &[Token],
    from: u32,
    depth: u32,
    first: Formal,
) -> Result<(Row<Formal>, u32), Stop>
    requires few { length tokens.now < 2 ^ 32 }
    requires from { from ≤ length tokens.now }
    requires depth { depth ≤ 512 }
    ensures tree { Gives (λ x. (row_rest formal_tree leaf x.0, x.1)) result (at_depth tokens.now depth more_formals from) }
    ensures first { IfOk result (λ x. IsRow first x.0.items.items x.0.separators.items) }
    ensures end { IfOk result (λ x. (from ≤ x.1) × (x.1 ≤ length tokens.now)) }
{
    let mut items = Vec::new(alloc);
    items.push(first)?;
    let mut separators = Vec::new(alloc);
    let mut at = from;
    'turns: while let Some(next) = accept(tokens, at, Kind::Comma) {
        let (item, end) = formal(alloc, tokens, next, depth)?;
        separators.push(at)?;
        items.push(item)?;
        at = end;
    }
    Ok((Row { items, separators }, at))
}

/// A formal argument, and the place behind it.
#[tactic(auto, unfolding(sve_grammar::specs::Statements::formal))]
fn formal(alloc: Global, tokens: &[Token], from: u32, depth: u32) -> Result<(Formal, u32), Stop>
    requires few { length tokens.now < 2 ^ 32 }
    requires from { from ≤ length tokens.now }
    requires depth { depth ≤ 512 }
    ensures tree { Gives (λ x. (formal_tree x.0, x.1)) result (at_depth tokens.now depth formal from) }
    ensures end { IfOk result (λ x. (from < x.1) × (x.1 ≤ length tokens.now)) }
{
    let (direction, at) = optional_formal_direction(tokens, from);
    let (variable, at) = optional_variable(tokens, at, depth);
    let (parameter, end) = type_name(alloc, tokens, at, depth)?;
    Ok((
        Formal {
            direction,
            variable,
            parameter,
        },
        end,
    ))
}

/// How a formal argument is passed, where that is written, and the place behind it.
#[tactic(auto, using(sve_grammar::proofs::StartsOfTypes::direction_full), unfolding(sve_grammar::specs::Statements::formal_direction))]
fn optional_formal_direction(tokens: &[Token], from: u32) -> (Option<FormalDirection>, u32)
    requires few { length tokens.now < 2 ^ 32 }
    requires from { from ≤ length tokens.now }
    ensures tree { Takes tokens.now (opt formal_direction) (λ x. (optional_tree formal_direction_tree x.0, x.1)) from result }
    ensures end { (from ≤ result.1) × (result.1 ≤ length tokens.now) }
{
    if let Some(kind) = direction(tokens, from) {
        let direction = Mark { kind, token: from };
        return (Some(FormalDirection::Value { direction }), from + 1);
    }
    if let Some(end) = accept(tokens, from, Kind::Keyword(Keyword::KwRef)) {
        return (Some(FormalDirection::Reference { keyword: from }), end);
    }
    (None, from)
}

/// `var` where it is written, and the place behind it.
fn optional_variable(tokens: &[Token], from: u32, depth: u32) -> (Option<u32>, u32)
    requires few { length tokens.now < 2 ^ 32 }
    requires from { from ≤ length tokens.now }
    ensures tree { at_depth tokens.now depth (opt (word KwVar)) from ≡ Ok (optional_tree leaf result.0, result.1) }
    ensures end { (from ≤ result.1) × (result.1 ≤ length tokens.now) }
{
    match accept(tokens, from, Kind::Keyword(Keyword::KwVar)) {
        Some(end) => (Some(from), end),
        None => (None, from),
    }
}
