//! Loops (IEEE 1800-2017, 12.7 and A.6.8).

ghost use Rattle.std.specs.Prelude.{◌<◌, ◌≤◌, ◌^◌, length, IfOk};
ghost use Rattle.sve_grammar.specs.Reading.{at_depth};
ghost use Rattle.sve_grammar.specs.Gives.{Gives};
ghost use Rattle.sve_grammar.specs.Statements.{for_statement, foreach_statement, loop_statement, do_statement};
ghost use Rattle.sve_tree.specs.Statements.{stmt_tree};
ghost use Rattle.sve_parse_expr.specs.Alternatives.{alternative};

use crate::statements::boxed_stmt;
use std::alloc::Global;
use sve_grammar::{Stop, expect};
use sve_parse_expr::parenthesized;
use sve_parse_part::{do_end, for_head, foreach_head, loop_mark};
use sve_token::{Keyword, Kind, Token};
use sve_tree::{DoStatement, ForStatement, ForeachStatement, LoopStatement, Stmt};

/// A `for` loop (12.7.1), and the place behind it.
#[cycle(statement)]
#[tactic(auto, using(sve_tree::proofs::StatementTrees::for_stmt))]
pub(crate) fn for_statement(
    alloc: Global,
    tokens: &[Token],
    from: u32,
    depth: u32,
) -> Result<(Stmt, u32), Stop>
    requires few { length tokens.now < 2 ^ 32 }
    requires from { from ≤ length tokens.now }
    requires depth { depth ≤ 512 }
    ensures tree { Gives (λ x. (stmt_tree x.0, x.1)) result (alternative 3 (at_depth tokens.now depth for_statement from)) }
    ensures end { IfOk result (λ x. (from < x.1) × (x.1 ≤ length tokens.now)) }
{
    let (head, at) = for_head(alloc, tokens, from, depth)?;
    let (body, end) = boxed_stmt(alloc, tokens, at, depth)?;
    let statement = ForStatement {
        keyword: from,
        opening: head.opening,
        initialization: head.initialization,
        first_semicolon: head.first_semicolon,
        condition: head.condition,
        second_semicolon: head.second_semicolon,
        steps: head.steps,
        closing: head.closing,
        body,
    };
    let statement = Box::new(alloc, statement)?;
    Ok((Stmt::For { statement }, end))
}

/// A `foreach` loop (12.7.3), and the place behind it.
#[cycle(statement)]
#[tactic(auto, using(sve_tree::proofs::StatementTrees::foreach_stmt))]
pub(crate) fn foreach_statement(
    alloc: Global,
    tokens: &[Token],
    from: u32,
    depth: u32,
) -> Result<(Stmt, u32), Stop>
    requires few { length tokens.now < 2 ^ 32 }
    requires from { from ≤ length tokens.now }
    requires depth { depth ≤ 512 }
    ensures tree { Gives (λ x. (stmt_tree x.0, x.1)) result (alternative 4 (at_depth tokens.now depth foreach_statement from)) }
    ensures end { IfOk result (λ x. (from < x.1) × (x.1 ≤ length tokens.now)) }
{
    let (head, at) = foreach_head(alloc, tokens, from, depth)?;
    let (body, end) = boxed_stmt(alloc, tokens, at, depth)?;
    let statement = ForeachStatement {
        keyword: from,
        opening: head.opening,
        array: head.array,
        opening_bracket: head.opening_bracket,
        names: head.names,
        closing_bracket: head.closing_bracket,
        closing: head.closing,
        body,
    };
    let statement = Box::new(alloc, statement)?;
    Ok((Stmt::Foreach { statement }, end))
}

/// A `while` or a `repeat` loop (12.7.2 and 12.7.4), and the place behind it.
#[cycle(statement)]
#[tactic(auto, using(sve_tree::proofs::StatementTrees::loop_stmt), unfolding(sve_grammar::specs::Statements::loop_statement))]
pub(crate) fn loop_statement(
    alloc: Global,
    tokens: &[Token],
    from: u32,
    depth: u32,
) -> Result<(Stmt, u32), Stop>
    requires few { length tokens.now < 2 ^ 32 }
    requires from { from ≤ length tokens.now }
    requires depth { depth ≤ 512 }
    ensures tree { Gives (λ x. (stmt_tree x.0, x.1)) result (alternative 5 (at_depth tokens.now depth loop_statement from)) }
    ensures end { IfOk result (λ x. (from < x.1) × (x.1 ≤ length tokens.now)) }
{
    let (keyword, at) = loop_mark(tokens, from, depth)?;
    let (condition, at) = parenthesized(alloc, tokens, at, depth)?;
    let (body, end) = boxed_stmt(alloc, tokens, at, depth)?;
    let statement = LoopStatement {
        keyword,
        condition,
        body,
    };
    let statement = Box::new(alloc, statement)?;
    Ok((Stmt::Loop { statement }, end))
}

/// A `do` loop (12.7.5), and the place behind it.
#[cycle(statement)]
#[tactic(auto, using(sve_tree::proofs::StatementTrees::do_stmt), unfolding(sve_grammar::specs::Statements::do_statement))]
pub(crate) fn do_statement(
    alloc: Global,
    tokens: &[Token],
    from: u32,
    depth: u32,
) -> Result<(Stmt, u32), Stop>
    requires few { length tokens.now < 2 ^ 32 }
    requires from { from ≤ length tokens.now }
    requires depth { depth ≤ 512 }
    ensures tree { Gives (λ x. (stmt_tree x.0, x.1)) result (alternative 6 (at_depth tokens.now depth do_statement from)) }
    ensures end { IfOk result (λ x. (from < x.1) × (x.1 ≤ length tokens.now)) }
{
    let at = expect(tokens, from, Kind::Keyword(Keyword::KwDo))?;
    let (body, at) = boxed_stmt(alloc, tokens, at, depth)?;
    let (last, end) = do_end(alloc, tokens, at, depth)?;
    let statement = DoStatement {
        keyword: from,
        body,
        while_keyword: last.keyword,
        condition: last.condition,
        semicolon: last.semicolon,
    };
    let statement = Box::new(alloc, statement)?;
    Ok((Stmt::Do { statement }, end))
}
