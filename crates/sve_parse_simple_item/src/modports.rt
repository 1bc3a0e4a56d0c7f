//! Declarations of modports (IEEE 1800-2017, 25.5 and A.2.9).

ghost use Rattle.std.specs.Prelude.{◌<◌, ◌≤◌, ◌^◌, length, IfOk};
ghost use Rattle.sve_grammar.specs.Reading.{leaf, at_depth};
ghost use Rattle.sve_grammar.specs.Gives.{Gives};
ghost use Rattle.sve_grammar.specs.Items.{more_modport_items, modport_declaration};
ghost use Rattle.sve_tree.specs.Shape.{row_rest, IsRow};
ghost use Rattle.sve_tree.specs.Declarations.{modport_tree};
ghost use Rattle.sve_tree.specs.Items.{modport_declaration_tree};

use std::alloc::Global;
use sve_grammar::{Stop, accept, expect};
use sve_parse_decl::modport_item;
use sve_token::{Keyword, Kind, Token};
use sve_tree::{Modport, ModportDeclaration, Row};

/// Modports behind one `modport` (IEEE 1800-2017, 25.5 and A.2.9), and the place behind them.
#[tactic(auto, using(sve_tree::proofs::Shapes::first_is), unfolding(sve_grammar::specs::Items::modport_declaration))]
pub fn modport_declaration(
    alloc: Global,
    tokens: &[Token],
    from: u32,
    depth: u32,
) -> Result<(ModportDeclaration, u32), Stop>
    requires few { length tokens.now < 2 ^ 32 }
    requires from { from ≤ length tokens.now }
    requires depth { depth ≤ 512 }
    ensures tree { Gives (λ x. (modport_declaration_tree x.0, x.1)) result (at_depth tokens.now depth modport_declaration from) }
    ensures end { IfOk result (λ x. (from < x.1) × (x.1 ≤ length tokens.now)) }
{
    let at = expect(tokens, from, Kind::Keyword(Keyword::KwModport))?;
    let (first, at) = modport_item(alloc, tokens, at, depth)?;
    let (modports, semicolon) = more_modports(alloc, tokens, at, depth, first)?;
    let end = expect(tokens, semicolon, Kind::Semicolon)?;
    Ok((
        ModportDeclaration {
            keyword: from,
            modports,
            semicolon,
        },
        end,
    ))
}

/// The further modports behind the first, and the place behind them.
fn more_modports(
    alloc: Global,
    tokens: &[Token],
    from: u32,
    depth: u32,
    first: Modport,
) -> Result<(Row<Modport>, u32), Stop>
    requires few { length tokens.now < 2 ^ 32 }
    requires from { from ≤ length tokens.now }
    requires depth { depth ≤ 512 }
    ensures tree { Gives (λ x. (row_rest modport_tree leaf x.0, x.1)) result (at_depth tokens.now depth more_modport_items from) }
    ensures first { IfOk result (λ x. IsRow first x.0.items.items x.0.separators.items) }
    ensures end { IfOk result (λ x. (from ≤ x.1) × (x.1 ≤ length tokens.now)) }
{
    let mut items = Vec::new(alloc);
    items.push(first)?;
    let mut separators = Vec::new(alloc);
    let mut at = from;
    'turns: while let Some(next) = accept(tokens, at, Kind::Comma) {
        let (item, end) = modport_item(alloc, tokens, next, depth)?;
        separators.push(at)?;
        items.push(item)?;
        at = end;
    }
    Ok((Row { items, separators }, at))
}
