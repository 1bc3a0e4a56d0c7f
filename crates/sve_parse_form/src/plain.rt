//! Statements that hold no statement, by their forms (IEEE 1800-2017, A.6.4).

ghost use Rattle.std.specs.Prelude.{◌<◌, ◌≤◌, ◌^◌, length, IfOk};
ghost use Rattle.sve_token.specs.declared.kind.Kind.TheVariants.{Semicolon};
ghost use Rattle.sve_token.specs.declared.keywords.Keyword.TheVariants.{KwBreak, KwContinue};
ghost use Rattle.sve_grammar.specs.Rule.{tok, word, ◌∙◌};
ghost use Rattle.sve_grammar.specs.Reading.{at_depth};
ghost use Rattle.sve_grammar.specs.Gives.{Gives};
ghost use Rattle.sve_grammar.specs.Statements.{statement, return_statement, system_task, void_call, increment_statement, concatenation_assignment, name_statement};
ghost use Rattle.sve_tree.specs.Statements.{stmt_tree};
ghost use Rattle.sve_parse_expr.specs.Alternatives.{alternative, last_alternative};
ghost use Rattle.sve_parse_form.specs.Forms.{LeadsTo};

use crate::forms::{Form, Plain};
use std::alloc::Global;
use sve_grammar::{Stop, expect};
use sve_parse_simple_stmt::{
    concatenation_assignment, increment_statement, name_statement, return_statement, system_task,
    void_call,
};
use sve_token::{Keyword, Kind, Token};
use sve_tree::Stmt;

/// A statement that holds no statement, of the form that begins here, and the place behind it. Statements nest, so what these need
/// of the stack is taken by a function of its own.
#[inline(never)]
pub fn plain_statement(
    alloc: Global,
    tokens: &[Token],
    from: u32,
    depth: u32,
    form: Plain,
) -> Result<(Stmt, u32), Stop>
    requires few { length tokens.now < 2 ^ 32 }
    requires from { from ≤ length tokens.now }
    requires depth { depth ≤ 512 }
    requires form { LeadsTo tokens.now from (Form.Plain form) }
    ensures tree { Gives (λ x. (stmt_tree x.0, x.1)) result (at_depth tokens.now depth statement from) }
    ensures end { IfOk result (λ x. (from < x.1) × (x.1 ≤ length tokens.now)) }
{
    match form {
        Plain::Empty => empty_stmt(tokens, from, depth),
        Plain::Return => return_stmt(alloc, tokens, from, depth),
        Plain::Break => break_stmt(tokens, from, depth),
        Plain::Continue => continue_stmt(tokens, from, depth),
        Plain::SystemTask => system_task_stmt(alloc, tokens, from, depth),
        Plain::VoidCall => void_call_stmt(alloc, tokens, from, depth),
        Plain::Step => step_stmt(alloc, tokens, from, depth),
        Plain::Concatenation => concatenation_stmt(alloc, tokens, from, depth),
        Plain::Name => name_stmt(alloc, tokens, from, depth),
    }
}

/// A statement that is only `;`, and the place behind it.
#[tactic(auto, using(sve_tree::proofs::StatementTrees::empty_stmt))]
fn empty_stmt(tokens: &[Token], from: u32, depth: u32) -> Result<(Stmt, u32), Stop>
    requires few { length tokens.now < 2 ^ 32 }
    requires from { from ≤ length tokens.now }
    requires depth { depth ≤ 512 }
    ensures tree { Gives (λ x. (stmt_tree x.0, x.1)) result (alternative 0 (at_depth tokens.now depth (tok Semicolon) from)) }
    ensures end { IfOk result (λ x. (from < x.1) × (x.1 ≤ length tokens.now)) }
{
    let end = expect(tokens, from, Kind::Semicolon)?;
    Ok((Stmt::Empty { semicolon: from }, end))
}

/// `return` (12.8), and the place behind it.
#[tactic(auto, using(sve_tree::proofs::StatementTrees::return_stmt))]
fn return_stmt(alloc: Global, tokens: &[Token], from: u32, depth: u32) -> Result<(Stmt, u32), Stop>
    requires few { length tokens.now < 2 ^ 32 }
    requires from { from ≤ length tokens.now }
    requires depth { depth ≤ 512 }
    ensures tree { Gives (λ x. (stmt_tree x.0, x.1)) result (alternative 7 (at_depth tokens.now depth return_statement from)) }
    ensures end { IfOk result (λ x. (from < x.1) × (x.1 ≤ length tokens.now)) }
{
    let (statement, end) = return_statement(alloc, tokens, from, depth)?;
    let statement = Box::new(alloc, statement)?;
    Ok((Stmt::Return { statement }, end))
}

/// `break` (12.8), and the place behind it.
#[tactic(auto, using(sve_tree::proofs::StatementTrees::break_stmt))]
fn break_stmt(tokens: &[Token], from: u32, depth: u32) -> Result<(Stmt, u32), Stop>
    requires few { length tokens.now < 2 ^ 32 }
    requires from { from ≤ length tokens.now }
    requires depth { depth ≤ 512 }
    ensures tree { Gives (λ x. (stmt_tree x.0, x.1)) result (alternative 8 (at_depth tokens.now depth (word KwBreak ∙ tok Semicolon) from)) }
    ensures end { IfOk result (λ x. (from < x.1) × (x.1 ≤ length tokens.now)) }
{
    let semicolon = expect(tokens, from, Kind::Keyword(Keyword::KwBreak))?;
    let end = expect(tokens, semicolon, Kind::Semicolon)?;
    Ok((
        Stmt::Break {
            keyword: from,
            semicolon,
        },
        end,
    ))
}

/// `continue` (12.8), and the place behind it.
#[tactic(auto, using(sve_tree::proofs::StatementTrees::continue_stmt))]
fn continue_stmt(tokens: &[Token], from: u32, depth: u32) -> Result<(Stmt, u32), Stop>
    requires few { length tokens.now < 2 ^ 32 }
    requires from { from ≤ length tokens.now }
    requires depth { depth ≤ 512 }
    ensures tree { Gives (λ x. (stmt_tree x.0, x.1)) result (alternative 9 (at_depth tokens.now depth (word KwContinue ∙ tok Semicolon) from)) }
    ensures end { IfOk result (λ x. (from < x.1) × (x.1 ≤ length tokens.now)) }
{
    let semicolon = expect(tokens, from, Kind::Keyword(Keyword::KwContinue))?;
    let end = expect(tokens, semicolon, Kind::Semicolon)?;
    Ok((
        Stmt::Continue {
            keyword: from,
            semicolon,
        },
        end,
    ))
}

/// A system task or function (clauses 20 and 21), and the place behind it.
#[tactic(auto, using(sve_tree::proofs::StatementTrees::system_task_stmt))]
fn system_task_stmt(
    alloc: Global,
    tokens: &[Token],
    from: u32,
    depth: u32,
) -> Result<(Stmt, u32), Stop>
    requires few { length tokens.now < 2 ^ 32 }
    requires from { from ≤ length tokens.now }
    requires depth { depth ≤ 512 }
    ensures tree { Gives (λ x. (stmt_tree x.0, x.1)) result (alternative 10 (at_depth tokens.now depth system_task from)) }
    ensures end { IfOk result (λ x. (from < x.1) × (x.1 ≤ length tokens.now)) }
{
    let (task, end) = system_task(alloc, tokens, from, depth)?;
    let task = Box::new(alloc, task)?;
    Ok((Stmt::SystemTask { task }, end))
}

/// A call whose result is dropped (13.4.1), and the place behind it.
#[tactic(auto, using(sve_tree::proofs::StatementTrees::void_call_stmt))]
fn void_call_stmt(
    alloc: Global,
    tokens: &[Token],
    from: u32,
    depth: u32,
) -> Result<(Stmt, u32), Stop>
    requires few { length tokens.now < 2 ^ 32 }
    requires from { from ≤ length tokens.now }
    requires depth { depth ≤ 512 }
    ensures tree { Gives (λ x. (stmt_tree x.0, x.1)) result (alternative 11 (at_depth tokens.now depth void_call from)) }
    ensures end { IfOk result (λ x. (from < x.1) × (x.1 ≤ length tokens.now)) }
{
    let (call, end) = void_call(alloc, tokens, from, depth)?;
    let call = Box::new(alloc, call)?;
    Ok((Stmt::VoidCall { call }, end))
}

/// An increment or a decrement with its operator in front (11.4.2), and the place behind it.
#[tactic(auto, using(sve_tree::proofs::StatementTrees::step_stmt))]
fn step_stmt(alloc: Global, tokens: &[Token], from: u32, depth: u32) -> Result<(Stmt, u32), Stop>
    requires few { length tokens.now < 2 ^ 32 }
    requires from { from ≤ length tokens.now }
    requires depth { depth ≤ 512 }
    ensures tree { Gives (λ x. (stmt_tree x.0, x.1)) result (alternative 12 (at_depth tokens.now depth increment_statement from)) }
    ensures end { IfOk result (λ x. (from < x.1) × (x.1 ≤ length tokens.now)) }
{
    let (statement, end) = increment_statement(alloc, tokens, from, depth)?;
    let statement = Box::new(alloc, statement)?;
    Ok((Stmt::Step { statement }, end))
}

/// An assignment to left sides in braces (10.4), and the place behind it.
#[tactic(auto, using(sve_tree::proofs::StatementTrees::concatenation_stmt))]
fn concatenation_stmt(
    alloc: Global,
    tokens: &[Token],
    from: u32,
    depth: u32,
) -> Result<(Stmt, u32), Stop>
    requires few { length tokens.now < 2 ^ 32 }
    requires from { from ≤ length tokens.now }
    requires depth { depth ≤ 512 }
    ensures tree { Gives (λ x. (stmt_tree x.0, x.1)) result (alternative 13 (at_depth tokens.now depth concatenation_assignment from)) }
    ensures end { IfOk result (λ x. (from < x.1) × (x.1 ≤ length tokens.now)) }
{
    let (assignment, end) = concatenation_assignment(alloc, tokens, from, depth)?;
    let assignment = Box::new(alloc, assignment)?;
    Ok((Stmt::Concatenation { assignment }, end))
}

/// A statement that begins with a name: an assignment, an increment or a call; and the place behind it.
#[tactic(auto, using(sve_tree::proofs::StatementTrees::name_stmt))]
fn name_stmt(alloc: Global, tokens: &[Token], from: u32, depth: u32) -> Result<(Stmt, u32), Stop>
    requires few { length tokens.now < 2 ^ 32 }
    requires from { from ≤ length tokens.now }
    requires depth { depth ≤ 512 }
    ensures tree { Gives (λ x. (stmt_tree x.0, x.1)) result (last_alternative 14 (at_depth tokens.now depth name_statement from)) }
    ensures end { IfOk result (λ x. (from < x.1) × (x.1 ≤ length tokens.now)) }
{
    let (statement, end) = name_statement(alloc, tokens, from, depth)?;
    let statement = Box::new(alloc, statement)?;
    Ok((Stmt::Name { statement }, end))
}
