//! Procedures (IEEE 1800-2017, 9.2 and A.6.2).

ghost use Rattle.std.specs.Prelude.{◌<◌, ◌≤◌, ◌^◌, length, IfOk};
ghost use Rattle.sve_grammar.specs.Reading.{at_depth};
ghost use Rattle.sve_grammar.specs.Gives.{Gives};
ghost use Rattle.sve_grammar.specs.Items.{clocked_keyword, clocked_procedure, plain_keyword, plain_procedure};
ghost use Rattle.sve_tree.specs.Shape.{mark_tree};
ghost use Rattle.sve_tree.specs.Words.{clocked_keyword_tree, plain_keyword_tree};
ghost use Rattle.sve_tree.specs.Items.{clocked_procedure_tree, plain_procedure_tree};

use crate::events::event_control;
use std::alloc::Global;
use sve_grammar::{Stop, expect};
use sve_parse_stmt::boxed_stmt;
use sve_parse_word::{clocked_keyword, plain_keyword};
use sve_token::{Kind, Token};
use sve_tree::{ClockedKeyword, ClockedProcedure, Mark, PlainKeyword, PlainProcedure};

/// A procedure that begins with an event control: `always` or `always_ff`, what is waited for, and a statement
/// (IEEE 1800-2017, 9.2.2 and A.6.2); and the place behind it.
#[tactic(auto, unfolding(sve_grammar::specs::Items::clocked_procedure))]
pub fn clocked_procedure(
    alloc: Global,
    tokens: &[Token],
    from: u32,
    depth: u32,
) -> Result<(ClockedProcedure, u32), Stop>
    requires few { length tokens.now < 2 ^ 32 }
    requires from { from ≤ length tokens.now }
    requires depth { depth ≤ 512 }
    ensures tree { Gives (λ x. (clocked_procedure_tree x.0, x.1)) result (at_depth tokens.now depth clocked_procedure from) }
    ensures end { IfOk result (λ x. (from < x.1) × (x.1 ≤ length tokens.now)) }
{
    let (keyword, at) = clocked_mark(tokens, from, depth)?;
    let control_at = expect(tokens, at, Kind::At)?;
    let (control, statement_at) = event_control(alloc, tokens, control_at, depth)?;
    let (statement, end) = boxed_stmt(alloc, tokens, statement_at, depth)?;
    Ok((
        ClockedProcedure {
            keyword,
            at,
            control,
            statement,
        },
        end,
    ))
}

/// A procedure without an event control: `always_comb`, `always_latch` or `initial`, and a statement (9.2 and A.6.2); and the
/// place behind it.
#[tactic(auto, unfolding(sve_grammar::specs::Items::plain_procedure))]
pub fn plain_procedure(
    alloc: Global,
    tokens: &[Token],
    from: u32,
    depth: u32,
) -> Result<(PlainProcedure, u32), Stop>
    requires few { length tokens.now < 2 ^ 32 }
    requires from { from ≤ length tokens.now }
    requires depth { depth ≤ 512 }
    ensures tree { Gives (λ x. (plain_procedure_tree x.0, x.1)) result (at_depth tokens.now depth plain_procedure from) }
    ensures end { IfOk result (λ x. (from < x.1) × (x.1 ≤ length tokens.now)) }
{
    let (keyword, at) = plain_mark(tokens, from, depth)?;
    let (statement, end) = boxed_stmt(alloc, tokens, at, depth)?;
    Ok((PlainProcedure { keyword, statement }, end))
}

/// `always` or `always_ff`, and the place behind it.
#[tactic(auto, using(crate::proofs::Stops::clocked_keyword_stops))]
fn clocked_mark(
    tokens: &[Token],
    from: u32,
    depth: u32,
) -> Result<(Mark<ClockedKeyword>, u32), Stop>
    requires few { length tokens.now < 2 ^ 32 }
    requires from { from ≤ length tokens.now }
    requires depth { depth ≤ 512 }
    ensures tree { Gives (λ x. (mark_tree clocked_keyword_tree x.0, x.1)) result (at_depth tokens.now depth clocked_keyword from) }
    ensures end { IfOk result (λ x. (from < x.1) × (x.1 ≤ length tokens.now)) }
{
    if let Some(kind) = clocked_keyword(tokens, from) {
        return Ok((Mark { kind, token: from }, from + 1));
    }
    Err(Stop::At {
        index: from,
        deep: false,
    })
}

/// `always_comb`, `always_latch` or `initial`, and the place behind it.
#[tactic(auto, using(crate::proofs::Stops::plain_keyword_stops))]
fn plain_mark(tokens: &[Token], from: u32, depth: u32) -> Result<(Mark<PlainKeyword>, u32), Stop>
    requires few { length tokens.now < 2 ^ 32 }
    requires from { from ≤ length tokens.now }
    requires depth { depth ≤ 512 }
    ensures tree { Gives (λ x. (mark_tree plain_keyword_tree x.0, x.1)) result (at_depth tokens.now depth plain_keyword from) }
    ensures end { IfOk result (λ x. (from < x.1) × (x.1 ≤ length tokens.now)) }
{
    if let Some(kind) = plain_keyword(tokens, from) {
        return Ok((Mark { kind, token: from }, from + 1));
    }
    Err(Stop::At {
        index: from,
        deep: false,
    })
}
