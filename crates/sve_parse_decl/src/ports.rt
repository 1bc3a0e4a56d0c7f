//! The ports of a header (IEEE 1800-2017, 23.2.2 and A.1.3).

ghost use Rattle.std.specs.Prelude.{◌≡◌, ◌<◌, ◌≤◌, ◌^◌, length, IfOk};
ghost use Rattle.sve_parse_word.specs.Takes.{Takes};
ghost use Rattle.sve_grammar.specs.Reading.{leaf, at_depth, with_left};
ghost use Rattle.sve_grammar.specs.Gives.{Gives};
ghost use Rattle.sve_grammar.specs.Rule.{opt};
ghost use Rattle.sve_grammar.specs.Types.{port_kind, port, more_ports, port_row, ports};
ghost use Rattle.sve_tree.specs.Shape.{optional_tree, optional_row, row_rest, IsRow};
ghost use Rattle.sve_tree.specs.Declarations.{port_kind_tree, port_tree, ports_tree};

use crate::begins::begins_port;
use crate::port_types::port_type;
use std::alloc::Global;
use sve_grammar::{Stop, accept, expect, is_kind};
use sve_parse_word::{net, optional_direction};
use sve_token::{Keyword, Kind, Token};
use sve_tree::{Mark, Port, PortKind, Ports, Row};

/// The ports of a header in their parentheses, where they are written, and the place behind them.
#[tactic(auto, using(sve_grammar::proofs::StartsOfTypes::ports_starts, sve_grammar::proofs::StartsOfTypes::ports_full))]
pub(crate) fn optional_ports(
    alloc: Global,
    tokens: &[Token],
    from: u32,
    depth: u32,
) -> Result<(Option<Ports>, u32), Stop>
    requires few { length tokens.now < 2 ^ 32 }
    requires from { from ≤ length tokens.now }
    requires depth { depth ≤ 512 }
    ensures tree { Gives (λ x. (optional_tree ports_tree x.0, x.1)) result (at_depth tokens.now depth (opt ports) from) }
    ensures end { IfOk result (λ x. (from ≤ x.1) × (x.1 ≤ length tokens.now)) }
{
    if is_kind(tokens, from, Kind::LeftParen) {
        let (item, end) = ports(alloc, tokens, from, depth)?;
        return Ok((Some(item), end));
    }
    Ok((None, from))
}

/// The ports of a header in their parentheses, and the place behind them.
#[tactic(auto, unfolding(sve_grammar::specs::Types::ports))]
fn ports(alloc: Global, tokens: &[Token], from: u32, depth: u32) -> Result<(Ports, u32), Stop>
    requires few { length tokens.now < 2 ^ 32 }
    requires from { from ≤ length tokens.now }
    requires depth { depth ≤ 512 }
    ensures tree { Gives (λ x. (ports_tree x.0, x.1)) result (at_depth tokens.now depth ports from) }
    ensures end { IfOk result (λ x. (from < x.1) × (x.1 ≤ length tokens.now)) }
{
    let at = expect(tokens, from, Kind::LeftParen)?;
    let (ports, closing) = optional_row(alloc, tokens, at, depth)?;
    let end = expect(tokens, closing, Kind::RightParen)?;
    Ok((
        Ports {
            opening: from,
            ports,
            closing,
        },
        end,
    ))
}

/// The ports between the parentheses, if there are any, and the place behind them.
#[tactic(auto, using(crate::proofs::Starts::port_row_begins, sve_grammar::proofs::StartsOfTypes::port_row_full, sve_tree::proofs::Shapes::listed_none))]
fn optional_row(
    alloc: Global,
    tokens: &[Token],
    from: u32,
    depth: u32,
) -> Result<(Row<Port>, u32), Stop>
    requires few { length tokens.now < 2 ^ 32 }
    requires from { from ≤ length tokens.now }
    requires depth { depth ≤ 512 }
    ensures tree { Gives (λ x. (optional_row port_tree leaf x.0, x.1)) result (at_depth tokens.now depth (opt port_row) from) }
    ensures end { IfOk result (λ x. (from ≤ x.1) × (x.1 ≤ length tokens.now)) }
{
    if begins_port(tokens, from) {
        return row(alloc, tokens, from, depth);
    }
    let none = Row {
        items: Vec::new(alloc),
        separators: Vec::new(alloc),
    };
    Ok((none, from))
}

/// Ports, one or more, and the place behind them.
#[tactic(auto, using(sve_tree::proofs::Shapes::listed_is), unfolding(sve_grammar::specs::Types::port_row))]
fn row(alloc: Global, tokens: &[Token], from: u32, depth: u32) -> Result<(Row<Port>, u32), Stop>
    requires few { length tokens.now < 2 ^ 32 }
    requires from { from ≤ length tokens.now }
    requires depth { depth ≤ 512 }
    ensures tree { Gives (λ x. (optional_row port_tree leaf x.0, x.1)) result (with_left (at_depth tokens.now depth port_row from)) }
    ensures end { IfOk result (λ x. (from < x.1) × (x.1 ≤ length tokens.now)) }
{
    let (first, at) = port(alloc, tokens, from, depth)?;
    more_ports(alloc, tokens, at, depth, first)
}

/// A port of a header, and the place behind it.
#[tactic(auto, unfolding(sve_grammar::specs::Types::port))]
fn port(alloc: Global, tokens: &[Token], from: u32, depth: u32) -> Result<(Port, u32), Stop>
    requires few { length tokens.now < 2 ^ 32 }
    requires from { from ≤ length tokens.now }
    requires depth { depth ≤ 512 }
    ensures tree { Gives (λ x. (port_tree x.0, x.1)) result (at_depth tokens.now depth port from) }
    ensures end { IfOk result (λ x. (from < x.1) × (x.1 ≤ length tokens.now)) }
{
    let (direction, at) = optional_direction(tokens, from);
    let (kind, at) = optional_kind(tokens, at);
    let (named, end) = port_type(alloc, tokens, at, depth)?;
    Ok((
        Port {
            direction,
            kind,
            port_type: named.port_type,
            declarator: named.declarator,
        },
        end,
    ))
}

/// `var` or a net type, where one is written, and the place behind it.
#[tactic(auto, using(sve_grammar::proofs::StartsOfTypes::net_type_full), unfolding(sve_grammar::specs::Types::port_kind))]
fn optional_kind(tokens: &[Token], from: u32) -> (Option<PortKind>, u32)
    requires few { length tokens.now < 2 ^ 32 }
    requires from { from ≤ length tokens.now }
    ensures tree { Takes tokens.now (opt port_kind) (λ x. (optional_tree port_kind_tree x.0, x.1)) from result }
    ensures end { (from ≤ result.1) × (result.1 ≤ length tokens.now) }
{
    if let Some(end) = accept(tokens, from, Kind::Keyword(Keyword::KwVar)) {
        return (Some(PortKind::Variable { keyword: from }), end);
    }
    if let Some(kind) = net(tokens, from) {
        let net = Mark { kind, token: from };
        return (Some(PortKind::Net { net }), from + 1);
    }
    (None, from)
}

/// The further ports of a header behind the first, and the place behind them.
fn more_ports(
    alloc: Global,
    tokens: &[Token],
    from: u32,
    depth: u32,
    first: Port,
) -> Result<(Row<Port>, u32), Stop>
    requires few { length tokens.now < 2 ^ 32 }
    requires from { from ≤ length tokens.now }
    requires depth { depth ≤ 512 }
    ensures tree { Gives (λ x. (row_rest port_tree leaf x.0, x.1)) result (at_depth tokens.now depth more_ports from) }
    ensures first { IfOk result (λ x. IsRow first x.0.items.items x.0.separators.items) }
    ensures end { IfOk result (λ x. (from ≤ x.1) × (x.1 ≤ length tokens.now)) }
{
    let mut items = Vec::new(alloc);
    items.push(first)?;
    let mut separators = Vec::new(alloc);
    let mut at = from;
    'turns: while let Some(next) = accept(tokens, at, Kind::Comma) {
        let (item, end) = port(alloc, tokens, next, depth)?;
        separators.push(at)?;
        items.push(item)?;
        at = end;
    }
    Ok((Row { items, separators }, at))
}
