//! Statements and blocks (IEEE 1800-2017, clause 12, 9.3.1 and A.6). The functions call one another, so what statements need that
//! hold no statement is taken by functions of their own.

ghost use Rattle.std.specs.Prelude.{◌<◌, ◌≤◌, ◌^◌, length, IfOk};
ghost use Rattle.sve_grammar.specs.Rule.{sym, ◌∙◌, opt};
ghost use Rattle.sve_grammar.specs.Reading.{at_depth};
ghost use Rattle.sve_grammar.specs.Gives.{Gives};
ghost use Rattle.sve_grammar.specs.Statements.{block_item, block_items, block, uniqueness, choice, if_statement, else_branch};
ghost use Rattle.sve_tree.specs.Shape.{optional_tree, repeated_tree};
ghost use Rattle.sve_tree.specs.Statements.{stmt_tree, block_item_tree, if_statement_tree, else_branch_tree};
ghost use Rattle.sve_parse_expr.specs.Alternatives.{alternative};
ghost use Rattle.sve_parse_form.specs.Forms.{ItemLeads};

use crate::cases::case_statement;
use crate::loops::{do_statement, for_statement, foreach_statement, loop_statement};
use std::alloc::Global;
use sve_grammar::{Stop, Symbol, accept, enter, expect, is_kind};
use sve_parse_expr::parenthesized;
use sve_parse_form::{Form, ItemForm, declared_item, item_here, plain_statement, statement_here};
use sve_parse_part::{end_label, optional_uniqueness};
use sve_parse_word::optional_label;
use sve_token::{Keyword, Kind, Token};
use sve_tree::{Block, BlockItem, ElseBranch, IfStatement, Stmt};

/// A statement (A.6.4), and the place behind it. It stops where the grammar's machine stops and where memory runs out, as
/// every parser here does.
#[cycle(statement)]
#[tactic(auto, unfolding(sve_grammar::specs::Grammar::rule))]
pub fn stmt(alloc: Global, tokens: &[Token], from: u32, depth: u32) -> Result<(Stmt, u32), Stop>
    requires few { length tokens.now < 2 ^ 32 }
    requires from { from ≤ length tokens.now }
    requires depth { depth ≤ 512 }
    ensures tree { Gives (λ x. (stmt_tree x.0, x.1)) result (at_depth tokens.now depth (sym Symbol.Statement) from) }
    ensures end { IfOk result (λ x. (from < x.1) × (x.1 ≤ length tokens.now)) }
{
    let depth = enter(tokens, from, depth, Symbol::Statement)?;
    match statement_here(tokens, from) {
        Form::Block => block(alloc, tokens, from, depth),
        Form::Choice => choice(alloc, tokens, from, depth),
        Form::For => for_statement(alloc, tokens, from, depth),
        Form::Foreach => foreach_statement(alloc, tokens, from, depth),
        Form::Loop => loop_statement(alloc, tokens, from, depth),
        Form::Do => do_statement(alloc, tokens, from, depth),
        Form::Plain(form) => plain_statement(alloc, tokens, from, depth, form),
    }
}

/// A statement in a box, as other statements and procedures hold it, and the place behind it.
#[cycle(statement)]
#[inline(never)]
pub fn boxed_stmt(
    alloc: Global,
    tokens: &[Token],
    from: u32,
    depth: u32,
) -> Result<(Box<Stmt>, u32), Stop>
    requires few { length tokens.now < 2 ^ 32 }
    requires from { from ≤ length tokens.now }
    requires depth { depth ≤ 512 }
    ensures tree { Gives (λ x. (stmt_tree x.0.value, x.1)) result (at_depth tokens.now depth (sym Symbol.Statement) from) }
    ensures end { IfOk result (λ x. (from < x.1) × (x.1 ≤ length tokens.now)) }
{
    let (statement, end) = stmt(alloc, tokens, from, depth)?;
    let statement = Box::new(alloc, statement)?;
    Ok((statement, end))
}

/// A block (9.3.1), and the place behind it.
#[cycle(statement)]
#[tactic(auto, using(sve_tree::proofs::StatementTrees::block_stmt), unfolding(sve_grammar::specs::Statements::block))]
fn block(alloc: Global, tokens: &[Token], from: u32, depth: u32) -> Result<(Stmt, u32), Stop>
    requires few { length tokens.now < 2 ^ 32 }
    requires from { from ≤ length tokens.now }
    requires depth { depth ≤ 512 }
    ensures tree { Gives (λ x. (stmt_tree x.0, x.1)) result (alternative 1 (at_depth tokens.now depth block from)) }
    ensures end { IfOk result (λ x. (from < x.1) × (x.1 ≤ length tokens.now)) }
{
    let at = expect(tokens, from, Kind::Keyword(Keyword::KwBegin))?;
    let (label, at) = optional_label(tokens, at, depth)?;
    let (items, end) = block_items(alloc, tokens, at, depth)?;
    let (end_label, last) = end_label(tokens, end, depth, Keyword::KwEnd)?;
    let block = Block {
        begin: from,
        label,
        items,
        end,
        end_label,
    };
    let block = Box::new(alloc, block)?;
    Ok((Stmt::Block { block }, last))
}

/// The items of a block or of a function, none or more (A.2.8), and the place behind them.
#[cycle(statement)]
pub(crate) fn block_items(
    alloc: Global,
    tokens: &[Token],
    from: u32,
    depth: u32,
) -> Result<(Vec<BlockItem>, u32), Stop>
    requires few { length tokens.now < 2 ^ 32 }
    requires from { from ≤ length tokens.now }
    requires depth { depth ≤ 512 }
    ensures tree { Gives (λ x. (repeated_tree block_item_tree x.0.items, x.1)) result (at_depth tokens.now depth block_items from) }
    ensures end { IfOk result (λ x. (from ≤ x.1) × (x.1 ≤ length tokens.now)) }
{
    let mut items = Vec::new(alloc);
    let mut at = from;
    'turns: while let Some(form) = item_here(tokens, at) {
        let (item, end) = block_item(alloc, tokens, at, depth, form)?;
        items.push(item)?;
        at = end;
    }
    Ok((items, at))
}

/// An item of a block of the form that begins here, and the place behind it.
#[cycle(statement)]
#[tactic(auto, using(sve_tree::proofs::StatementTrees::statement_block_item))]
fn block_item(
    alloc: Global,
    tokens: &[Token],
    from: u32,
    depth: u32,
    form: ItemForm,
) -> Result<(BlockItem, u32), Stop>
    requires few { length tokens.now < 2 ^ 32 }
    requires from { from ≤ length tokens.now }
    requires depth { depth ≤ 512 }
    requires form { ItemLeads tokens.now from form }
    ensures tree { Gives (λ x. (block_item_tree x.0, x.1)) result (at_depth tokens.now depth block_item from) }
    ensures end { IfOk result (λ x. (from < x.1) × (x.1 ≤ length tokens.now)) }
{
    match form {
        ItemForm::Declared(form) => declared_item(alloc, tokens, from, depth, form),
        ItemForm::Statement => {
            let (statement, end) = stmt(alloc, tokens, from, depth)?;
            Ok((BlockItem::Statement { statement }, end))
        }
    }
}

/// `if` or `case`, perhaps behind `unique`, `unique0` or `priority` (12.4.2 and 12.5.3), and the place behind it.
#[cycle(statement)]
#[tactic(auto, using(sve_tree::proofs::StatementTrees::if_stmt, sve_tree::proofs::StatementTrees::case_stmt, crate::proofs::Ways::choice_if, crate::proofs::Ways::choice_case))]
fn choice(alloc: Global, tokens: &[Token], from: u32, depth: u32) -> Result<(Stmt, u32), Stop>
    requires few { length tokens.now < 2 ^ 32 }
    requires from { from ≤ length tokens.now }
    requires depth { depth ≤ 512 }
    ensures tree { Gives (λ x. (stmt_tree x.0, x.1)) result (alternative 2 (at_depth tokens.now depth (opt uniqueness ∙ choice) from)) }
    ensures end { IfOk result (λ x. (from < x.1) × (x.1 ≤ length tokens.now)) }
{
    let (uniqueness, at) = optional_uniqueness(tokens, from);
    if is_kind(tokens, at, Kind::Keyword(Keyword::KwIf)) {
        let (statement, end) = if_statement(alloc, tokens, at, depth)?;
        return Ok((
            Stmt::If {
                uniqueness,
                statement,
            },
            end,
        ));
    }
    let (statement, end) = case_statement(alloc, tokens, at, depth)?;
    Ok((
        Stmt::Case {
            uniqueness,
            statement,
        },
        end,
    ))
}

/// `if`, its statement, and `else` (12.4), and the place behind it. An `else` belongs to the `if` before it that is nearest.
#[cycle(statement)]
#[tactic(auto, using(sve_tree::proofs::StatementTrees::if_statement_made), unfolding(sve_grammar::specs::Statements::if_statement))]
fn if_statement(
    alloc: Global,
    tokens: &[Token],
    from: u32,
    depth: u32,
) -> Result<(Box<IfStatement>, u32), Stop>
    requires few { length tokens.now < 2 ^ 32 }
    requires from { from ≤ length tokens.now }
    requires depth { depth ≤ 512 }
    ensures tree { Gives (λ x. (if_statement_tree x.0.value, x.1)) result (at_depth tokens.now depth if_statement from) }
    ensures end { IfOk result (λ x. (from < x.1) × (x.1 ≤ length tokens.now)) }
{
    let at = expect(tokens, from, Kind::Keyword(Keyword::KwIf))?;
    let (condition, at) = parenthesized(alloc, tokens, at, depth)?;
    let (chosen, at) = boxed_stmt(alloc, tokens, at, depth)?;
    let (otherwise, end) = optional_else(alloc, tokens, at, depth)?;
    let statement = IfStatement {
        keyword: from,
        condition,
        chosen,
        otherwise,
    };
    let statement = Box::new(alloc, statement)?;
    Ok((statement, end))
}

/// `else` and its statement, where they stand here (12.4), and the place behind them.
#[cycle(statement)]
#[tactic(auto, unfolding(sve_grammar::specs::Statements::else_branch))]
fn optional_else(
    alloc: Global,
    tokens: &[Token],
    from: u32,
    depth: u32,
) -> Result<(Option<ElseBranch>, u32), Stop>
    requires few { length tokens.now < 2 ^ 32 }
    requires from { from ≤ length tokens.now }
    requires depth { depth ≤ 512 }
    ensures tree { Gives (λ x. (optional_tree else_branch_tree x.0, x.1)) result (at_depth tokens.now depth (opt else_branch) from) }
    ensures end { IfOk result (λ x. (from ≤ x.1) × (x.1 ≤ length tokens.now)) }
{
    let Some(at) = accept(tokens, from, Kind::Keyword(Keyword::KwElse)) else {
        return Ok((None, from));
    };
    let (statement, end) = boxed_stmt(alloc, tokens, at, depth)?;
    let branch = ElseBranch {
        keyword: from,
        statement,
    };
    Ok((Some(branch), end))
}
