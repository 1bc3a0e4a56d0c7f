//! Continuous assignments (IEEE 1800-2017, 10.3.2 and A.6.1).

ghost use Rattle.std.specs.Prelude.{◌<◌, ◌≤◌, ◌^◌, length, IfOk};
ghost use Rattle.sve_grammar.specs.Reading.{leaf, at_depth};
ghost use Rattle.sve_grammar.specs.Gives.{Gives};
ghost use Rattle.sve_grammar.specs.Items.{net_assignment, more_net_assignments, continuous_assign};
ghost use Rattle.sve_tree.specs.Shape.{row_rest, IsRow};
ghost use Rattle.sve_tree.specs.Items.{net_assignment_tree, continuous_assign_tree};

use std::alloc::Global;
use sve_grammar::{Stop, accept, expect};
use sve_parse_assign::left_side;
use sve_parse_expr::boxed_expr;
use sve_token::{Keyword, Kind, Token};
use sve_tree::{ContinuousAssign, NetAssignment, Row};

/// Continuous assignments behind one `assign` (IEEE 1800-2017, 10.3.2 and A.6.1), and the place behind them.
#[tactic(auto, using(sve_tree::proofs::Shapes::first_is), unfolding(sve_grammar::specs::Items::continuous_assign))]
pub fn continuous_assign(
    alloc: Global,
    tokens: &[Token],
    from: u32,
    depth: u32,
) -> Result<(ContinuousAssign, u32), Stop>
    requires few { length tokens.now < 2 ^ 32 }
    requires from { from ≤ length tokens.now }
    requires depth { depth ≤ 512 }
    ensures tree { Gives (λ x. (continuous_assign_tree x.0, x.1)) result (at_depth tokens.now depth continuous_assign from) }
    ensures end { IfOk result (λ x. (from < x.1) × (x.1 ≤ length tokens.now)) }
{
    let at = expect(tokens, from, Kind::Keyword(Keyword::KwAssign))?;
    let (first, at) = net_assignment(alloc, tokens, at, depth)?;
    let (assignments, semicolon) = more_net_assignments(alloc, tokens, at, depth, first)?;
    let end = expect(tokens, semicolon, Kind::Semicolon)?;
    Ok((
        ContinuousAssign {
            keyword: from,
            assignments,
            semicolon,
        },
        end,
    ))
}

/// The further assignments behind the first, and the place behind them.
fn more_net_assignments(
    alloc: Global,
    tokens: &[Token],
    from: u32,
    depth: u32,
    first: NetAssignment,
) -> Result<(Row<NetAssignment>, u32), Stop>
    requires few { length tokens.now < 2 ^ 32 }
    requires from { from ≤ length tokens.now }
    requires depth { depth ≤ 512 }
    ensures tree { Gives (λ x. (row_rest net_assignment_tree leaf x.0, x.1)) result (at_depth tokens.now depth more_net_assignments from) }
    ensures first { IfOk result (λ x. IsRow first x.0.items.items x.0.separators.items) }
    ensures end { IfOk result (λ x. (from ≤ x.1) × (x.1 ≤ length tokens.now)) }
{
    let mut items = Vec::new(alloc);
    items.push(first)?;
    let mut separators = Vec::new(alloc);
    let mut at = from;
    'turns: while let Some(next) = accept(tokens, at, Kind::Comma) {
        let (item, end) = net_assignment(alloc, tokens, next, depth)?;
        separators.push(at)?;
        items.push(item)?;
        at = end;
    }
    Ok((Row { items, separators }, at))
}

/// What is assigned to, `=` and the value, and the place behind them.
#[tactic(auto, unfolding(sve_grammar::specs::Items::net_assignment))]
fn net_assignment(
    alloc: Global,
    tokens: &[Token],
    from: u32,
    depth: u32,
) -> Result<(NetAssignment, u32), Stop>
    requires few { length tokens.now < 2 ^ 32 }
    requires from { from ≤ length tokens.now }
    requires depth { depth ≤ 512 }
    ensures tree { Gives (λ x. (net_assignment_tree x.0, x.1)) result (at_depth tokens.now depth net_assignment from) }
    ensures end { IfOk result (λ x. (from < x.1) × (x.1 ≤ length tokens.now)) }
{
    let (left, equals) = left_side(alloc, tokens, from, depth)?;
    let at = expect(tokens, equals, Kind::Assign)?;
    let (value, end) = boxed_expr(alloc, tokens, at, depth)?;
    Ok((
        NetAssignment {
            left,
            equals,
            value,
        },
        end,
    ))
}
