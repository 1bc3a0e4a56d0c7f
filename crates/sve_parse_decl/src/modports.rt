//! Modports (IEEE 1800-2017, 25.5 and A.2.9).

ghost use Rattle.std.specs.Prelude.{◌≡◌, ◌<◌, ◌≤◌, ◌^◌, length, IfOk};
ghost use Rattle.sve_grammar.specs.Reading.{leaf, at_depth};
ghost use Rattle.sve_grammar.specs.Gives.{Gives};
ghost use Rattle.sve_grammar.specs.Types.{direction};
ghost use Rattle.sve_grammar.specs.Declarations.{modport_port, more_modport_ports, modport_item};
ghost use Rattle.sve_tree.specs.Shape.{row_rest, IsRow, mark_tree};
ghost use Rattle.sve_tree.specs.Words.{dir_tree};
ghost use Rattle.sve_tree.specs.Declarations.{modport_member_tree, modport_tree, decl_tree};

use std::alloc::Global;
use sve_bytes::Dir;
use sve_grammar::{Stop, accept, expect};
use sve_parse_word::{direction, optional_direction};
use sve_token::{Kind, Token};
use sve_tree::{Decl, Mark, Modport, ModportMember, Row};

/// A modport with its members, as it stands after `modport`, and the place behind it. The tree is `Modport`.
pub fn modport(alloc: Global, tokens: &[Token], from: u32, depth: u32) -> Result<(Decl, u32), Stop>
    requires few { length tokens.now < 2 ^ 32 }
    requires from { from ≤ length tokens.now }
    requires depth { depth ≤ 512 }
    ensures tree { Gives (λ x. (decl_tree x.0, x.1)) result (at_depth tokens.now depth modport_item from) }
    ensures end { IfOk result (λ x. (from < x.1) × (x.1 ≤ length tokens.now)) }
{
    let (declaration, end) = modport_item(alloc, tokens, from, depth)?;
    Ok((Decl::Modport { declaration }, end))
}

/// A modport by itself, and the place behind it.
#[tactic(auto, using(sve_tree::proofs::Shapes::first_is), unfolding(sve_grammar::specs::Declarations::modport_item))]
pub fn modport_item(
    alloc: Global,
    tokens: &[Token],
    from: u32,
    depth: u32,
) -> Result<(Modport, u32), Stop>
    requires few { length tokens.now < 2 ^ 32 }
    requires from { from ≤ length tokens.now }
    requires depth { depth ≤ 512 }
    ensures tree { Gives (λ x. (modport_tree x.0, x.1)) result (at_depth tokens.now depth modport_item from) }
    ensures end { IfOk result (λ x. (from < x.1) × (x.1 ≤ length tokens.now)) }
{
    let opening = expect(tokens, from, Kind::Identifier)?;
    let at = expect(tokens, opening, Kind::LeftParen)?;
    let (direction, name) = first_direction(tokens, at, depth)?;
    let at = expect(tokens, name, Kind::Identifier)?;
    let first = ModportMember {
        direction: Some(direction),
        name,
    };
    let (members, closing) = more_members(alloc, tokens, at, depth, first)?;
    let end = expect(tokens, closing, Kind::RightParen)?;
    Ok((
        Modport {
            name: from,
            opening,
            members,
            closing,
        },
        end,
    ))
}

/// A direction, which has to be here, and the place behind it.
#[tactic(auto, using(crate::proofs::Stops::direction_stops))]
fn first_direction(tokens: &[Token], from: u32, depth: u32) -> Result<(Mark<Dir>, u32), Stop>
    requires few { length tokens.now < 2 ^ 32 }
    requires from { from ≤ length tokens.now }
    requires depth { depth ≤ 512 }
    ensures tree { Gives (λ x. (mark_tree dir_tree x.0, x.1)) result (at_depth tokens.now depth direction from) }
    ensures end { IfOk result (λ x. (from < x.1) × (x.1 ≤ length tokens.now)) }
{
    if let Some(kind) = direction(tokens, from) {
        return Ok((Mark { kind, token: from }, from + 1));
    }
    Err(Stop::At {
        index: from,
        deep: false,
    })
}

/// The further members of a modport behind the first, and the place behind them.
fn more_members(
    alloc: Global,
    tokens: &[Token],
    from: u32,
    depth: u32,
    first: ModportMember,
) -> Result<(Row<ModportMember>, u32), Stop>
    requires few { length tokens.now < 2 ^ 32 }
    requires from { from ≤ length tokens.now }
    requires depth { depth ≤ 512 }
    ensures tree { Gives (λ x. (row_rest modport_member_tree leaf x.0, x.1)) result (at_depth tokens.now depth more_modport_ports from) }
    ensures first { IfOk result (λ x. IsRow first x.0.items.items x.0.separators.items) }
    ensures end { IfOk result (λ x. (from ≤ x.1) × (x.1 ≤ length tokens.now)) }
{
    let mut items = Vec::new(alloc);
    items.push(first)?;
    let mut separators = Vec::new(alloc);
    let mut at = from;
    'turns: while let Some(next) = accept(tokens, at, Kind::Comma) {
        let (item, end) = member(tokens, next, depth)?;
        separators.push(at)?;
        items.push(item)?;
        at = end;
    }
    Ok((Row { items, separators }, at))
}

/// A member, perhaps behind a direction, and the place behind it.
#[tactic(auto, unfolding(sve_grammar::specs::Declarations::modport_port))]
fn member(tokens: &[Token], from: u32, depth: u32) -> Result<(ModportMember, u32), Stop>
    requires few { length tokens.now < 2 ^ 32 }
    requires from { from ≤ length tokens.now }
    requires depth { depth ≤ 512 }
    ensures tree { Gives (λ x. (modport_member_tree x.0, x.1)) result (at_depth tokens.now depth modport_port from) }
    ensures end { IfOk result (λ x. (from < x.1) × (x.1 ≤ length tokens.now)) }
{
    let (direction, name) = optional_direction(tokens, from);
    let end = expect(tokens, name, Kind::Identifier)?;
    Ok((ModportMember { direction, name }, end))
}
