//! Case statements (IEEE 1800-2017, 12.5 and A.6.7).

ghost use Rattle.std.specs.Prelude.{◌≡◌, ◌<◌, ◌≤◌, ◌^◌, length, IfOk};
ghost use Rattle.sve_grammar.specs.Reading.{at_depth};
ghost use Rattle.sve_grammar.specs.Gives.{Gives};
ghost use Rattle.sve_grammar.specs.Statements.{case_item, case_items, case_statement};
ghost use Rattle.sve_tree.specs.Shape.{first_tree, others_tree};
ghost use Rattle.sve_tree.specs.Statements.{case_item_tree, case_statement_tree};

use crate::statements::boxed_stmt;
use std::alloc::Global;
use sve_grammar::{Stop, accept, expect};
use sve_parse_expr::{expr, more_expressions, parenthesized};
use sve_parse_part::{begins_case_item, case_mark, optional_token};
use sve_token::{Keyword, Kind, Token};
use sve_tree::{CaseItem, CaseStatement};

/// A case statement, and the place behind it.
#[cycle(statement)]
#[tactic(auto, unfolding(sve_grammar::specs::Statements::case_statement))]
pub(crate) fn case_statement(
    alloc: Global,
    tokens: &[Token],
    from: u32,
    depth: u32,
) -> Result<(Box<CaseStatement>, u32), Stop>
    requires few { length tokens.now < 2 ^ 32 }
    requires from { from ≤ length tokens.now }
    requires depth { depth ≤ 512 }
    ensures tree { Gives (λ x. (case_statement_tree x.0.value, x.1)) result (at_depth tokens.now depth case_statement from) }
    ensures end { IfOk result (λ x. (from < x.1) × (x.1 ≤ length tokens.now)) }
{
    let (keyword, at) = case_mark(tokens, from, depth)?;
    let (selector, at) = parenthesized(alloc, tokens, at, depth)?;
    let (first, at) = case_item(alloc, tokens, at, depth)?;
    let (items, end) = more_case_items(alloc, tokens, at, depth, first)?;
    let last = expect(tokens, end, Kind::Keyword(Keyword::KwEndcase))?;
    let statement = CaseStatement {
        keyword,
        selector,
        items,
        end,
    };
    let statement = Box::new(alloc, statement)?;
    Ok((statement, last))
}

/// The further items of a case statement behind the first, and the place behind them. A `default` may stand among them.
#[cycle(statement)]
fn more_case_items(
    alloc: Global,
    tokens: &[Token],
    from: u32,
    depth: u32,
    first: CaseItem,
) -> Result<(Vec<CaseItem>, u32), Stop>
    requires few { length tokens.now < 2 ^ 32 }
    requires from { from ≤ length tokens.now }
    requires depth { depth ≤ 512 }
    ensures tree { Gives (λ x. (others_tree case_item_tree x.0.items, x.1)) result (at_depth tokens.now depth case_items from) }
    ensures first { IfOk result (λ x. first_tree case_item_tree x.0.items ≡ case_item_tree first) }
    ensures end { IfOk result (λ x. (from ≤ x.1) × (x.1 ≤ length tokens.now)) }
{
    let mut items = Vec::new(alloc);
    items.push(first)?;
    let mut at = from;
    'turns: while begins_case_item(tokens, at) {
        let (item, end) = case_item(alloc, tokens, at, depth)?;
        items.push(item)?;
        at = end;
    }
    Ok((items, at))
}

/// An item of a case statement: `default` or labels, and a statement; and the place behind it.
#[cycle(statement)]
#[tactic(auto, using(sve_tree::proofs::StatementTrees::default_case_item, sve_tree::proofs::StatementTrees::labels_case_item, crate::proofs::Ways::case_item_default, crate::proofs::Ways::case_item_labels))]
fn case_item(
    alloc: Global,
    tokens: &[Token],
    from: u32,
    depth: u32,
) -> Result<(CaseItem, u32), Stop>
    requires few { length tokens.now < 2 ^ 32 }
    requires from { from ≤ length tokens.now }
    requires depth { depth ≤ 512 }
    ensures tree { Gives (λ x. (case_item_tree x.0, x.1)) result (at_depth tokens.now depth case_item from) }
    ensures end { IfOk result (λ x. (from < x.1) × (x.1 ≤ length tokens.now)) }
{
    if let Some(at) = accept(tokens, from, Kind::Keyword(Keyword::KwDefault)) {
        let (colon, at) = optional_token(tokens, at, depth, Kind::Colon);
        let (statement, end) = boxed_stmt(alloc, tokens, at, depth)?;
        return Ok((
            CaseItem::Default {
                keyword: from,
                colon,
                statement,
            },
            end,
        ));
    }
    let (first, at) = expr(alloc, tokens, from, depth)?;
    let (labels, colon) = more_expressions(alloc, tokens, at, depth, first)?;
    let at = expect(tokens, colon, Kind::Colon)?;
    let (statement, end) = boxed_stmt(alloc, tokens, at, depth)?;
    Ok((
        CaseItem::Labels {
            labels,
            colon,
            statement,
        },
        end,
    ))
}
