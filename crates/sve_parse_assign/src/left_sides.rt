//! What assignments write to (IEEE 1800-2017, A.8.5).

ghost use Rattle.std.specs.Prelude.{◌≡◌, ◌<◌, ◌≤◌, ◌^◌, length, IfOk};
ghost use Rattle.sve_grammar.specs.Rule.{sym};
ghost use Rattle.sve_grammar.specs.Reading.{leaf, at_depth};
ghost use Rattle.sve_grammar.specs.Gives.{Gives};
ghost use Rattle.sve_grammar.specs.Statements.{left_concatenation, more_left_sides};
ghost use Rattle.sve_tree.specs.Shape.{row_first, row_rest};
ghost use Rattle.sve_tree.specs.Statements.{left_side_tree, left_concatenation_tree};

use std::alloc::Global;
use sve_grammar::{Stop, Symbol, accept, enter, expect};
use sve_parse_expr::selects;
use sve_token::{Kind, Token};
use sve_tree::{LeftConcatenation, LeftSide, Row};

/// What is assigned to, and the place behind it: a name with its selects, or several left sides in braces (IEEE 1800-2017, A.8.5).
/// It stops where the grammar's machine stops and where memory runs out, as every parser here does.
#[cycle(left_side)]
#[tactic(auto, using(crate::proofs::Ways::named_side, crate::proofs::Ways::braced_side, sve_tree::proofs::LeftSideTrees::name_left_side, sve_tree::proofs::LeftSideTrees::concatenation_left_side), unfolding(sve_grammar::specs::Grammar::rule))]
pub fn left_side(
    alloc: Global,
    tokens: &[Token],
    from: u32,
    depth: u32,
) -> Result<(LeftSide, u32), Stop>
    requires few { length tokens.now < 2 ^ 32 }
    requires from { from ≤ length tokens.now }
    requires depth { depth ≤ 512 }
    ensures tree { Gives (λ x. (left_side_tree x.0, x.1)) result (at_depth tokens.now depth (sym Symbol.LeftSide) from) }
    ensures end { IfOk result (λ x. (from < x.1) × (x.1 ≤ length tokens.now)) }
{
    let depth = enter(tokens, from, depth, Symbol::LeftSide)?;
    if let Some(at) = accept(tokens, from, Kind::Identifier) {
        let (selects, end) = selects(alloc, tokens, at, depth)?;
        return Ok((
            LeftSide::Name {
                name: from,
                selects,
            },
            end,
        ));
    }
    let (concatenation, end) = left_concatenation(alloc, tokens, from, depth)?;
    Ok((LeftSide::Concatenation { concatenation }, end))
}

/// Left sides in braces, one at least (10.10), and the place behind them.
#[cycle(left_side)]
#[tactic(auto, unfolding(sve_grammar::specs::Statements::left_concatenation))]
pub fn left_concatenation(
    alloc: Global,
    tokens: &[Token],
    from: u32,
    depth: u32,
) -> Result<(LeftConcatenation, u32), Stop>
    requires few { length tokens.now < 2 ^ 32 }
    requires from { from ≤ length tokens.now }
    requires depth { depth ≤ 512 }
    ensures tree { Gives (λ x. (left_concatenation_tree x.0, x.1)) result (at_depth tokens.now depth left_concatenation from) }
    ensures end { IfOk result (λ x. (from < x.1) × (x.1 ≤ length tokens.now)) }
{
    let at = expect(tokens, from, Kind::LeftBrace)?;
    let (first, at) = left_side(alloc, tokens, at, depth)?;
    let (sides, closing) = more_left_sides(alloc, tokens, at, depth, first)?;
    let end = expect(tokens, closing, Kind::RightBrace)?;
    Ok((
        LeftConcatenation {
            opening: from,
            sides,
            closing,
        },
        end,
    ))
}

/// The further left sides behind the first, and the place behind them.
#[cycle(left_side)]
fn more_left_sides(
    alloc: Global,
    tokens: &[Token],
    from: u32,
    depth: u32,
    first: LeftSide,
) -> Result<(Row<LeftSide>, u32), Stop>
    requires few { length tokens.now < 2 ^ 32 }
    requires from { from ≤ length tokens.now }
    requires depth { depth ≤ 512 }
    ensures tree { Gives (λ x. (row_rest left_side_tree leaf x.0, x.1)) result (at_depth tokens.now depth more_left_sides from) }
    ensures first { IfOk result (λ x. row_first left_side_tree x.0 ≡ left_side_tree first) }
    ensures end { IfOk result (λ x. (from ≤ x.1) × (x.1 ≤ length tokens.now)) }
{
    let mut items = Vec::new(alloc);
    items.push(first)?;
    let mut separators = Vec::new(alloc);
    let mut at = from;
    'turns: while let Some(next) = accept(tokens, at, Kind::Comma) {
        let (item, end) = left_side(alloc, tokens, next, depth)?;
        separators.push(at)?;
        items.push(item)?;
        at = end;
    }
    Ok((Row { items, separators }, at))
}
