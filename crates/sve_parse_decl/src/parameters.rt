//! Declarations of parameters (IEEE 1800-2017, 6.20 and A.2.1.1).

ghost use Rattle.std.specs.Prelude.{◌≡◌, ◌<◌, ◌≤◌, ◌^◌, length, IfOk};
ghost use Rattle.sve_grammar.specs.Reading.{leaf, at_depth};
ghost use Rattle.sve_grammar.specs.Gives.{Gives};
ghost use Rattle.sve_grammar.specs.Rule.{◌∙◌};
ghost use Rattle.sve_grammar.specs.Types.{declared_name, initializer, parameter_keyword};
ghost use Rattle.sve_grammar.specs.Declarations.{more_parameters, parameter_declaration};
ghost use Rattle.sve_tree.specs.Shape.{row_rest, IsRow, mark_tree};
ghost use Rattle.sve_tree.specs.Words.{parameter_keyword_tree};
ghost use Rattle.sve_tree.specs.Declarations.{parameter_assignment_tree, parameters_tree, decl_tree};

use std::alloc::Global;
use sve_grammar::{Stop, accept, expect};
use sve_parse_type::{declared_name, initializer, type_name};
use sve_parse_word::parameter_keyword;
use sve_token::{Kind, Token};
use sve_tree::{Decl, Mark, ParameterAssignment, ParameterKeyword, Parameters, Row};

/// A declaration of parameters, and the place behind it. The tree is `Parameters`. It stops where the grammar's machine stops
/// and where memory runs out, as every parser here does.
pub fn param(alloc: Global, tokens: &[Token], from: u32, depth: u32) -> Result<(Decl, u32), Stop>
    requires few { length tokens.now < 2 ^ 32 }
    requires from { from ≤ length tokens.now }
    requires depth { depth ≤ 512 }
    ensures tree { Gives (λ x. (decl_tree x.0, x.1)) result (at_depth tokens.now depth parameter_declaration from) }
    ensures end { IfOk result (λ x. (from < x.1) × (x.1 ≤ length tokens.now)) }
{
    let (declaration, end) = parameter_declaration(alloc, tokens, from, depth)?;
    Ok((Decl::Parameters { declaration }, end))
}

/// A declaration of parameters by itself, and the place behind it.
#[tactic(auto, using(sve_tree::proofs::Shapes::first_is), unfolding(sve_grammar::specs::Declarations::parameter_declaration))]
pub fn parameter_declaration(
    alloc: Global,
    tokens: &[Token],
    from: u32,
    depth: u32,
) -> Result<(Parameters, u32), Stop>
    requires few { length tokens.now < 2 ^ 32 }
    requires from { from ≤ length tokens.now }
    requires depth { depth ≤ 512 }
    ensures tree { Gives (λ x. (parameters_tree x.0, x.1)) result (at_depth tokens.now depth parameter_declaration from) }
    ensures end { IfOk result (λ x. (from < x.1) × (x.1 ≤ length tokens.now)) }
{
    let (keyword, at) = keyword(tokens, from, depth)?;
    let (typed, at) = type_name(alloc, tokens, at, depth)?;
    let (value, at) = initializer(alloc, tokens, at, depth)?;
    let first = ParameterAssignment {
        declarator: typed.declarator,
        value,
    };
    let (assignments, semicolon) = more_parameters(alloc, tokens, at, depth, first)?;
    let end = expect(tokens, semicolon, Kind::Semicolon)?;
    Ok((
        Parameters {
            keyword,
            data_type: typed.data_type,
            assignments,
            semicolon,
        },
        end,
    ))
}

/// `parameter` or `localparam`, and the place behind it.
#[tactic(auto, using(crate::proofs::Stops::parameter_keyword_stops))]
fn keyword(tokens: &[Token], from: u32, depth: u32) -> Result<(Mark<ParameterKeyword>, u32), Stop>
    requires few { length tokens.now < 2 ^ 32 }
    requires from { from ≤ length tokens.now }
    requires depth { depth ≤ 512 }
    ensures tree { Gives (λ x. (mark_tree parameter_keyword_tree x.0, x.1)) result (at_depth tokens.now depth parameter_keyword from) }
    ensures end { IfOk result (λ x. (from < x.1) × (x.1 ≤ length tokens.now)) }
{
    if let Some(kind) = parameter_keyword(tokens, from) {
        return Ok((Mark { kind, token: from }, from + 1));
    }
    Err(Stop::At {
        index: from,
        deep: false,
    })
}

/// The further parameters of a declaration behind the first, and the place behind them.
fn more_parameters(
    alloc: Global,
    tokens: &[Token],
    from: u32,
    depth: u32,
    first: ParameterAssignment,
) -> Result<(Row<ParameterAssignment>, u32), Stop>
    requires few { length tokens.now < 2 ^ 32 }
    requires from { from ≤ length tokens.now }
    requires depth { depth ≤ 512 }
    ensures tree { Gives (λ x. (row_rest parameter_assignment_tree leaf x.0, x.1)) result (at_depth tokens.now depth more_parameters from) }
    ensures first { IfOk result (λ x. IsRow first x.0.items.items x.0.separators.items) }
    ensures end { IfOk result (λ x. (from ≤ x.1) × (x.1 ≤ length tokens.now)) }
{
    let mut items = Vec::new(alloc);
    items.push(first)?;
    let mut separators = Vec::new(alloc);
    let mut at = from;
    'turns: while let Some(next) = accept(tokens, at, Kind::Comma) {
        let (item, end) = assignment(alloc, tokens, next, depth)?;
        separators.push(at)?;
        items.push(item)?;
        at = end;
    }
    Ok((Row { items, separators }, at))
}

/// A parameter's name and its value, and the place behind them.
fn assignment(
    alloc: Global,
    tokens: &[Token],
    from: u32,
    depth: u32,
) -> Result<(ParameterAssignment, u32), Stop>
    requires few { length tokens.now < 2 ^ 32 }
    requires from { from ≤ length tokens.now }
    requires depth { depth ≤ 512 }
    ensures tree { Gives (λ x. (parameter_assignment_tree x.0, x.1)) result (at_depth tokens.now depth (declared_name ∙ initializer) from) }
    ensures end { IfOk result (λ x. (from < x.1) × (x.1 ≤ length tokens.now)) }
{
    let (declarator, at) = declared_name(alloc, tokens, from, depth)?;
    let (value, end) = initializer(alloc, tokens, at, depth)?;
    Ok((ParameterAssignment { declarator, value }, end))
}
