//! The headers of modules and interfaces (IEEE 1800-2017, 23.2, 25.3 and A.1.2).

ghost use Rattle.std.specs.Prelude.{◌≡◌, ◌<◌, ◌≤◌, ◌^◌, length, IfOk};
ghost use Rattle.sve_token.specs.declared.kind.Kind.TheVariants.{Semicolon};
ghost use Rattle.sve_grammar.specs.Reading.{leaf, at_depth};
ghost use Rattle.sve_grammar.specs.Gives.{Gives};
ghost use Rattle.sve_grammar.specs.Rule.{tok, ◌∙◌, opt};
ghost use Rattle.sve_grammar.specs.Types.{parameter_ports, ports};
ghost use Rattle.sve_grammar.specs.Declarations.{header};
ghost use Rattle.sve_tree.specs.Shape.{◌▸◌, optional_tree};
ghost use Rattle.sve_tree.specs.Declarations.{parameter_ports_tree, ports_tree, header_tree};

use crate::imports::imports;
use crate::parameter_ports::optional_parameter_ports;
use crate::ports::optional_ports;
use std::alloc::Global;
use sve_grammar::{Stop, expect};
use sve_parse_word::optional_lifetime;
use sve_token::{Kind, Token};
use sve_tree::{Header, ParameterPorts, Ports};

/// The header of a module or an interface, from behind its keyword to the semicolon, and the place behind it.
#[tactic(auto, unfolding(sve_grammar::specs::Declarations::header))]
pub fn header(alloc: Global, tokens: &[Token], from: u32, depth: u32) -> Result<(Header, u32), Stop>
    requires few { length tokens.now < 2 ^ 32 }
    requires from { from ≤ length tokens.now }
    requires depth { depth ≤ 512 }
    ensures tree { Gives (λ x. (header_tree x.0, x.1)) result (at_depth tokens.now depth header from) }
    ensures end { IfOk result (λ x. (from < x.1) × (x.1 ≤ length tokens.now)) }
{
    let (lifetime, name) = optional_lifetime(tokens, from);
    let at = expect(tokens, name, Kind::Identifier)?;
    let (imports, at) = imports(alloc, tokens, at, depth)?;
    let (ending, end) = header_end(alloc, tokens, at, depth)?;
    Ok((
        Header {
            lifetime,
            name,
            imports,
            parameters: ending.parameters,
            ports: ending.ports,
            semicolon: ending.semicolon,
        },
        end,
    ))
}

/// What a header has behind its imports.
#[derive(Drop)]
struct HeaderEnd {
    /// The parameters, where there is a list of them.
    parameters: Option<ParameterPorts>,
    /// The ports, where there is a list of them.
    ports: Option<Ports>,
    /// `;`.
    semicolon: u32,
}

/// The parameters, the ports and the semicolon of a header, and the place behind them.
fn header_end(
    alloc: Global,
    tokens: &[Token],
    from: u32,
    depth: u32,
) -> Result<(HeaderEnd, u32), Stop>
    requires few { length tokens.now < 2 ^ 32 }
    requires from { from ≤ length tokens.now }
    requires depth { depth ≤ 512 }
    ensures tree { Gives (λ x. (optional_tree parameter_ports_tree x.0.parameters ▸ optional_tree ports_tree x.0.ports ▸ leaf x.0.semicolon, x.1)) result (at_depth tokens.now depth (opt parameter_ports ∙ opt ports ∙ tok Semicolon) from) }
    ensures end { IfOk result (λ x. (from < x.1) × (x.1 ≤ length tokens.now)) }
{
    let (parameters, at) = optional_parameter_ports(alloc, tokens, from, depth)?;
    let (ports, semicolon) = optional_ports(alloc, tokens, at, depth)?;
    let end = expect(tokens, semicolon, Kind::Semicolon)?;
    Ok((
        HeaderEnd {
            parameters,
            ports,
            semicolon,
        },
        end,
    ))
}
