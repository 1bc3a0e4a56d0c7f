//! Statements that hold no statement (IEEE 1800-2017, A.6.2, A.6.5, A.6.9 and A.8.3).

ghost use Rattle.std.specs.Prelude.{◌<◌, ◌≤◌, ◌^◌, length, IfOk};
ghost use Rattle.sve_grammar.specs.Rule.{sym, opt};
ghost use Rattle.sve_grammar.specs.Reading.{at_depth};
ghost use Rattle.sve_grammar.specs.Gives.{Gives};
ghost use Rattle.sve_grammar.specs.Expressions.{argument_list};
ghost use Rattle.sve_grammar.specs.Statements.{return_statement, system_task, void_call, increment_statement, concatenation_assignment, name_statement};
ghost use Rattle.sve_tree.specs.Shape.{optional_tree};
ghost use Rattle.sve_tree.specs.Expressions.{expression_tree, argument_list_tree};
ghost use Rattle.sve_tree.specs.Statements.{return_statement_tree, system_task_tree, void_call_tree, step_statement_tree, concatenation_assignment_tree, name_statement_tree};

use std::alloc::Global;
use sve_grammar::{Stop, Symbol, expect, is_kind, opens_here};
use sve_parse_assign::{assignment_mark, left_concatenation, statement_tail, step_mark};
use sve_parse_expr::{argument_list, boxed_expr, cast, selects};
use sve_parse_word::scoped_name;
use sve_token::{Keyword, Kind, Token};
use sve_tree::{
    ArgumentList, ConcatenationAssignment, Expr, NameStatement, ReturnStatement, StepStatement,
    SystemTask, VoidCall,
};

/// `return` and its value, where one is written (IEEE 1800-2017, 12.8), and the place behind it. It stops where the grammar's machine
/// stops and where memory runs out, as every parser here does.
#[tactic(auto, unfolding(sve_grammar::specs::Statements::return_statement))]
pub fn return_statement(
    alloc: Global,
    tokens: &[Token],
    from: u32,
    depth: u32,
) -> Result<(ReturnStatement, u32), Stop>
    requires few { length tokens.now < 2 ^ 32 }
    requires from { from ≤ length tokens.now }
    requires depth { depth ≤ 512 }
    ensures tree { Gives (λ x. (return_statement_tree x.0, x.1)) result (at_depth tokens.now depth return_statement from) }
    ensures end { IfOk result (λ x. (from < x.1) × (x.1 ≤ length tokens.now)) }
{
    let at = expect(tokens, from, Kind::Keyword(Keyword::KwReturn))?;
    let (value, semicolon) = optional_expr(alloc, tokens, at, depth)?;
    let end = expect(tokens, semicolon, Kind::Semicolon)?;
    Ok((
        ReturnStatement {
            keyword: from,
            value,
            semicolon,
        },
        end,
    ))
}

/// An expression where one is written, as behind `return` (12.8) or between the semicolons of a `for` (12.7.1), and the place behind
/// it.
pub fn optional_expr(
    alloc: Global,
    tokens: &[Token],
    from: u32,
    depth: u32,
) -> Result<(Option<Box<Expr>>, u32), Stop>
    requires few { length tokens.now < 2 ^ 32 }
    requires from { from ≤ length tokens.now }
    requires depth { depth ≤ 512 }
    ensures tree { Gives (λ x. (optional_tree expression_tree x.0, x.1)) result (at_depth tokens.now depth (opt (sym Symbol.Expression)) from) }
    ensures end { IfOk result (λ x. (from ≤ x.1) × (x.1 ≤ length tokens.now)) }
{
    if opens_here(tokens, from, Symbol::Expression) {
        let (value, end) = boxed_expr(alloc, tokens, from, depth)?;
        return Ok((Some(value), end));
    }
    Ok((None, from))
}

/// A system task or function as a statement or an item (clauses 20 and 21), and the place behind it.
#[tactic(auto, unfolding(sve_grammar::specs::Statements::system_task))]
pub fn system_task(
    alloc: Global,
    tokens: &[Token],
    from: u32,
    depth: u32,
) -> Result<(SystemTask, u32), Stop>
    requires few { length tokens.now < 2 ^ 32 }
    requires from { from ≤ length tokens.now }
    requires depth { depth ≤ 512 }
    ensures tree { Gives (λ x. (system_task_tree x.0, x.1)) result (at_depth tokens.now depth system_task from) }
    ensures end { IfOk result (λ x. (from < x.1) × (x.1 ≤ length tokens.now)) }
{
    let at = expect(tokens, from, Kind::SystemName)?;
    let (arguments, semicolon) = optional_arguments(alloc, tokens, at, depth)?;
    let end = expect(tokens, semicolon, Kind::Semicolon)?;
    Ok((
        SystemTask {
            name: from,
            arguments,
            semicolon,
        },
        end,
    ))
}

/// Arguments in parentheses where they are written, and the place behind them.
#[tactic(auto, using(sve_grammar::proofs::StartsOfExpressions::argument_list_starts, sve_grammar::proofs::StartsOfExpressions::argument_list_full))]
fn optional_arguments(
    alloc: Global,
    tokens: &[Token],
    from: u32,
    depth: u32,
) -> Result<(Option<ArgumentList>, u32), Stop>
    requires few { length tokens.now < 2 ^ 32 }
    requires from { from ≤ length tokens.now }
    requires depth { depth ≤ 512 }
    ensures tree { Gives (λ x. (optional_tree argument_list_tree x.0, x.1)) result (at_depth tokens.now depth (opt argument_list) from) }
    ensures end { IfOk result (λ x. (from ≤ x.1) × (x.1 ≤ length tokens.now)) }
{
    if is_kind(tokens, from, Kind::LeftParen) {
        let (arguments, end) = argument_list(alloc, tokens, from, depth)?;
        return Ok((Some(arguments), end));
    }
    Ok((None, from))
}

/// A call whose result is dropped (13.4.1), and the place behind it.
#[tactic(auto, unfolding(sve_grammar::specs::Statements::void_call))]
pub fn void_call(
    alloc: Global,
    tokens: &[Token],
    from: u32,
    depth: u32,
) -> Result<(VoidCall, u32), Stop>
    requires few { length tokens.now < 2 ^ 32 }
    requires from { from ≤ length tokens.now }
    requires depth { depth ≤ 512 }
    ensures tree { Gives (λ x. (void_call_tree x.0, x.1)) result (at_depth tokens.now depth void_call from) }
    ensures end { IfOk result (λ x. (from < x.1) × (x.1 ≤ length tokens.now)) }
{
    let at = expect(tokens, from, Kind::Keyword(Keyword::KwVoid))?;
    let (cast, semicolon) = cast(alloc, tokens, at, depth)?;
    let end = expect(tokens, semicolon, Kind::Semicolon)?;
    Ok((
        VoidCall {
            keyword: from,
            cast,
            semicolon,
        },
        end,
    ))
}

/// An increment or a decrement with its operator in front (11.4.2), and the place behind it.
#[tactic(auto, unfolding(sve_grammar::specs::Statements::increment_statement))]
pub fn increment_statement(
    alloc: Global,
    tokens: &[Token],
    from: u32,
    depth: u32,
) -> Result<(StepStatement, u32), Stop>
    requires few { length tokens.now < 2 ^ 32 }
    requires from { from ≤ length tokens.now }
    requires depth { depth ≤ 512 }
    ensures tree { Gives (λ x. (step_statement_tree x.0, x.1)) result (at_depth tokens.now depth increment_statement from) }
    ensures end { IfOk result (λ x. (from < x.1) × (x.1 ≤ length tokens.now)) }
{
    let (operator, name) = step_mark(tokens, from, depth)?;
    let at = expect(tokens, name, Kind::Identifier)?;
    let (selects, semicolon) = selects(alloc, tokens, at, depth)?;
    let end = expect(tokens, semicolon, Kind::Semicolon)?;
    Ok((
        StepStatement {
            operator,
            name,
            selects,
            semicolon,
        },
        end,
    ))
}

/// An assignment to left sides in braces (10.4), and the place behind it.
#[tactic(auto, unfolding(sve_grammar::specs::Statements::concatenation_assignment))]
pub fn concatenation_assignment(
    alloc: Global,
    tokens: &[Token],
    from: u32,
    depth: u32,
) -> Result<(ConcatenationAssignment, u32), Stop>
    requires few { length tokens.now < 2 ^ 32 }
    requires from { from ≤ length tokens.now }
    requires depth { depth ≤ 512 }
    ensures tree { Gives (λ x. (concatenation_assignment_tree x.0, x.1)) result (at_depth tokens.now depth concatenation_assignment from) }
    ensures end { IfOk result (λ x. (from < x.1) × (x.1 ≤ length tokens.now)) }
{
    let (left, at) = left_concatenation(alloc, tokens, from, depth)?;
    let (operator, at) = assignment_mark(tokens, at, depth)?;
    let (value, semicolon) = boxed_expr(alloc, tokens, at, depth)?;
    let end = expect(tokens, semicolon, Kind::Semicolon)?;
    Ok((
        ConcatenationAssignment {
            left,
            operator,
            value,
            semicolon,
        },
        end,
    ))
}

/// A statement that begins with a name (A.6.2 and A.6.9), and the place behind it: an assignment, an increment, a decrement or a
/// call.
#[tactic(auto, unfolding(sve_grammar::specs::Statements::name_statement))]
pub fn name_statement(
    alloc: Global,
    tokens: &[Token],
    from: u32,
    depth: u32,
) -> Result<(NameStatement, u32), Stop>
    requires few { length tokens.now < 2 ^ 32 }
    requires from { from ≤ length tokens.now }
    requires depth { depth ≤ 512 }
    ensures tree { Gives (λ x. (name_statement_tree x.0, x.1)) result (at_depth tokens.now depth name_statement from) }
    ensures end { IfOk result (λ x. (from < x.1) × (x.1 ≤ length tokens.now)) }
{
    let (name, at) = scoped_name(tokens, from, depth)?;
    let (selects, at) = selects(alloc, tokens, at, depth)?;
    let (tail, semicolon) = statement_tail(alloc, tokens, at, depth)?;
    let end = expect(tokens, semicolon, Kind::Semicolon)?;
    Ok((
        NameStatement {
            name,
            selects,
            tail,
            semicolon,
        },
        end,
    ))
}
