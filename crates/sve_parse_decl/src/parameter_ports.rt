//! The parameters of a header (IEEE 1800-2017, 23.2.1 and A.1.3).

ghost use Rattle.std.specs.Prelude.{◌≡◌, ◌<◌, ◌≤◌, ◌^◌, length, IfOk};
ghost use Rattle.sve_grammar.specs.Reading.{leaf, at_depth, with_left};
ghost use Rattle.sve_grammar.specs.Gives.{Gives};
ghost use Rattle.sve_grammar.specs.Rule.{opt};
ghost use Rattle.sve_grammar.specs.Types.{parameter_port, more_parameter_ports, parameter_port_row, parameter_ports};
ghost use Rattle.sve_tree.specs.Shape.{optional_tree, optional_row, row_rest, IsRow};
ghost use Rattle.sve_tree.specs.Declarations.{parameter_port_tree, parameter_ports_tree};

use crate::begins::begins_parameter_port;
use std::alloc::Global;
use sve_grammar::{Stop, accept, expect, is_kind};
use sve_parse_type::{optional_initializer, type_name};
use sve_parse_word::optional_parameter_keyword;
use sve_token::{Kind, Token};
use sve_tree::{ParameterPort, ParameterPorts, Row};

/// The parameters of a header in their parentheses, where they are written, and the place behind them.
#[tactic(auto, using(sve_grammar::proofs::StartsOfTypes::parameter_ports_starts, sve_grammar::proofs::StartsOfTypes::parameter_ports_full))]
pub(crate) fn optional_parameter_ports(
    alloc: Global,
    tokens: &[Token],
    from: u32,
    depth: u32,
) -> Result<(Option<ParameterPorts>, u32), Stop>
    requires few { length tokens.now < 2 ^ 32 }
    requires from { from ≤ length tokens.now }
    requires depth { depth ≤ 512 }
    ensures tree { Gives (λ x. (optional_tree parameter_ports_tree x.0, x.1)) result (at_depth tokens.now depth (opt parameter_ports) from) }
    ensures end { IfOk result (λ x. (from ≤ x.1) × (x.1 ≤ length tokens.now)) }
{
    if is_kind(tokens, from, Kind::Hash) {
        let (item, end) = parameter_ports(alloc, tokens, from, depth)?;
        return Ok((Some(item), end));
    }
    Ok((None, from))
}

/// The parameters of a header in their parentheses, and the place behind them.
#[tactic(auto, unfolding(sve_grammar::specs::Types::parameter_ports))]
fn parameter_ports(
    alloc: Global,
    tokens: &[Token],
    from: u32,
    depth: u32,
) -> Result<(ParameterPorts, u32), Stop>
    requires few { length tokens.now < 2 ^ 32 }
    requires from { from ≤ length tokens.now }
    requires depth { depth ≤ 512 }
    ensures tree { Gives (λ x. (parameter_ports_tree x.0, x.1)) result (at_depth tokens.now depth parameter_ports from) }
    ensures end { IfOk result (λ x. (from < x.1) × (x.1 ≤ length tokens.now)) }
{
    let opening = expect(tokens, from, Kind::Hash)?;
    let at = expect(tokens, opening, Kind::LeftParen)?;
    let (parameters, closing) = optional_row(alloc, tokens, at, depth)?;
    let end = expect(tokens, closing, Kind::RightParen)?;
    Ok((
        ParameterPorts {
            hash: from,
            opening,
            parameters,
            closing,
        },
        end,
    ))
}

/// The parameters between the parentheses, if there are any, and the place behind them.
#[tactic(auto, using(crate::proofs::Starts::parameter_port_row_begins, sve_grammar::proofs::StartsOfTypes::parameter_port_row_full, sve_tree::proofs::Shapes::listed_none))]
fn optional_row(
    alloc: Global,
    tokens: &[Token],
    from: u32,
    depth: u32,
) -> Result<(Row<ParameterPort>, u32), Stop>
    requires few { length tokens.now < 2 ^ 32 }
    requires from { from ≤ length tokens.now }
    requires depth { depth ≤ 512 }
    ensures tree { Gives (λ x. (optional_row parameter_port_tree leaf x.0, x.1)) result (at_depth tokens.now depth (opt parameter_port_row) from) }
    ensures end { IfOk result (λ x. (from ≤ x.1) × (x.1 ≤ length tokens.now)) }
{
    if begins_parameter_port(tokens, from) {
        return row(alloc, tokens, from, depth);
    }
    let none = Row {
        items: Vec::new(alloc),
        separators: Vec::new(alloc),
    };
    Ok((none, from))
}

/// Parameters, one or more, and the place behind them.
#[tactic(auto, using(sve_tree::proofs::Shapes::listed_is), unfolding(sve_grammar::specs::Types::parameter_port_row))]
fn row(
    alloc: Global,
    tokens: &[Token],
    from: u32,
    depth: u32,
) -> Result<(Row<ParameterPort>, u32), Stop>
    requires few { length tokens.now < 2 ^ 32 }
    requires from { from ≤ length tokens.now }
    requires depth { depth ≤ 512 }
    ensures tree { Gives (λ x. (optional_row parameter_port_tree leaf x.0, x.1)) result (with_left (at_depth tokens.now depth parameter_port_row from)) }
    ensures end { IfOk result (λ x. (from < x.1) × (x.1 ≤ length tokens.now)) }
{
    let (first, at) = parameter_port(alloc, tokens, from, depth)?;
    more_parameter_ports(alloc, tokens, at, depth, first)
}

/// A parameter of a header, and the place behind it.
#[tactic(auto, unfolding(sve_grammar::specs::Types::parameter_port))]
fn parameter_port(
    alloc: Global,
    tokens: &[Token],
    from: u32,
    depth: u32,
) -> Result<(ParameterPort, u32), Stop>
    requires few { length tokens.now < 2 ^ 32 }
    requires from { from ≤ length tokens.now }
    requires depth { depth ≤ 512 }
    ensures tree { Gives (λ x. (parameter_port_tree x.0, x.1)) result (at_depth tokens.now depth parameter_port from) }
    ensures end { IfOk result (λ x. (from < x.1) × (x.1 ≤ length tokens.now)) }
{
    let (keyword, at) = optional_parameter_keyword(tokens, from);
    let (parameter, at) = type_name(alloc, tokens, at, depth)?;
    let (value, end) = optional_initializer(alloc, tokens, at, depth)?;
    Ok((
        ParameterPort {
            keyword,
            parameter,
            value,
        },
        end,
    ))
}

/// The further parameters of a header behind the first, and the place behind them.
fn more_parameter_ports(
    alloc: Global,
    tokens: &[Token],
    from: u32,
    depth: u32,
    first: ParameterPort,
) -> Result<(Row<ParameterPort>, u32), Stop>
    requires few { length tokens.now < 2 ^ 32 }
    requires from { from ≤ length tokens.now }
    requires depth { depth ≤ 512 }
    ensures tree { Gives (λ x. (row_rest parameter_port_tree leaf x.0, x.1)) result (at_depth tokens.now depth more_parameter_ports from) }
    ensures first { IfOk result (λ x. IsRow first x.0.items.items x.0.separators.items) }
    ensures end { IfOk result (λ x. (from ≤ x.1) × (x.1 ≤ length tokens.now)) }
{
    let mut items = Vec::new(alloc);
    items.push(first)?;
    let mut separators = Vec::new(alloc);
    let mut at = from;
    'turns: while let Some(next) = accept(tokens, at, Kind::Comma) {
        let (item, end) = parameter_port(alloc, tokens, next, depth)?;
        separators.push(at)?;
        items.push(item)?;
        at = end;
    }
    Ok((Row { items, separators }, at))
}
