//! The types of ports, and the names of ports behind them (IEEE 1800-2017, 23.2.2, 25.3 and A.1.3).

ghost use Rattle.std.specs.Prelude.{◌≡◌, ◌<◌, ◌≤◌, ◌+◌, ◌^◌, ◌&&◌, true, length, IfOk};
ghost use Rattle.sve_token.specs.declared.kind.Kind.TheVariants.{Identifier, Dot};
ghost use Rattle.sve_grammar.specs.Token.{kind_at, has_kind};
ghost use Rattle.sve_grammar.specs.Reading.{at_depth};
ghost use Rattle.sve_grammar.specs.Gives.{Gives};
ghost use Rattle.sve_grammar.specs.Types.{port_type};
ghost use Rattle.sve_tree.specs.Declarations.{port_type_tree};

use std::alloc::Global;
use sve_grammar::{Stop, accept, expect, is_kind};
use sve_parse_type::{declared_name, type_name};
use sve_token::{Kind, Token};
use sve_tree::{Declarator, PortType};

/// What the grammar reads as one: the type of a port, or its interface, and its name.
#[derive(Drop)]
pub(crate) struct NamedPort {
    /// The type or the interface.
    pub(crate) port_type: PortType,
    /// The name.
    pub(crate) declarator: Declarator,
}

/// A port's name with its type, as far as one is written, or with its interface, and the place behind it. Where an identifier
/// with its dimensions has no name behind it, it is the port's name.
#[tactic(auto, using(crate::proofs::PortTypes::port_typed, crate::proofs::PortTypes::port_stops))]
pub(crate) fn port_type(
    alloc: Global,
    tokens: &[Token],
    from: u32,
    depth: u32,
) -> Result<(NamedPort, u32), Stop>
    requires few { length tokens.now < 2 ^ 32 }
    requires from { from ≤ length tokens.now }
    requires depth { depth ≤ 512 }
    ensures tree { Gives (λ x. (port_type_tree x.0.port_type x.0.declarator, x.1)) result (at_depth tokens.now depth port_type from) }
    ensures end { IfOk result (λ x. (from < x.1) × (x.1 ≤ length tokens.now)) }
{
    if begins_interface(tokens, from) {
        return interface_port(alloc, tokens, from, depth);
    }
    let (typed, end) = type_name(alloc, tokens, from, depth)?;
    let named = NamedPort {
        port_type: PortType::Data {
            data_type: typed.data_type,
        },
        declarator: typed.declarator,
    };
    Ok((named, end))
}

/// Whether an interface and a modport of it stand here, and no type: a dot tells them.
fn begins_interface(tokens: &[Token], at: u32) -> bool
    requires few { length tokens.now < 2 ^ 32 }
    ensures { result ≡ (has_kind (kind_at tokens.now at) Identifier && has_kind (kind_at tokens.now (at + 1)) Dot) }
{
    match accept(tokens, at, Kind::Identifier) {
        Some(next) => is_kind(tokens, next, Kind::Dot),
        None => false,
    }
}

/// A port of a modport of an interface, and the place behind it.
#[tactic(auto, using(crate::proofs::PortTypes::interface_reads))]
fn interface_port(
    alloc: Global,
    tokens: &[Token],
    from: u32,
    depth: u32,
) -> Result<(NamedPort, u32), Stop>
    requires few { length tokens.now < 2 ^ 32 }
    requires from { from ≤ length tokens.now }
    requires depth { depth ≤ 512 }
    requires interface { (has_kind (kind_at tokens.now from) Identifier && has_kind (kind_at tokens.now (from + 1)) Dot) ≡ true }
    ensures tree { Gives (λ x. (port_type_tree x.0.port_type x.0.declarator, x.1)) result (at_depth tokens.now depth port_type from) }
    ensures end { IfOk result (λ x. (from < x.1) × (x.1 ≤ length tokens.now)) }
{
    let dot = expect(tokens, from, Kind::Identifier)?;
    let modport = expect(tokens, dot, Kind::Dot)?;
    let at = expect(tokens, modport, Kind::Identifier)?;
    let (declarator, end) = declared_name(alloc, tokens, at, depth)?;
    let named = NamedPort {
        port_type: PortType::Interface {
            interface: from,
            dot,
            modport,
        },
        declarator,
    };
    Ok((named, end))
}
