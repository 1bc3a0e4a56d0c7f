//! How a name is changed: by a value, by one, or by a call (IEEE 1800-2017, 10.4, 11.4.1 and 11.4.2).

ghost use Rattle.std.specs.Prelude.{◌<◌, ◌≤◌, ◌+◌, ◌^◌, length, IfOk};
ghost use Rattle.sve_grammar.specs.Reading.{at_depth};
ghost use Rattle.sve_grammar.specs.Gives.{Gives};
ghost use Rattle.sve_grammar.specs.Statements.{assignment_operator, increment_operator, assignment_or_increment, statement_tail};
ghost use Rattle.sve_tree.specs.Shape.{mark_tree};
ghost use Rattle.sve_tree.specs.Words.{assignment_operator_tree, step_operator_tree};
ghost use Rattle.sve_tree.specs.Statements.{change_tree, statement_tail_tree};

use std::alloc::Global;
use sve_grammar::{Stop, is_kind};
use sve_parse_expr::{argument_list, boxed_expr};
use sve_parse_word::{assignment_operator, step_operator};
use sve_token::{Kind, Token};
use sve_tree::{AssignmentOperator, Change, Mark, StatementTail, StepOperator};

/// How the name before `from` is changed, and the place behind it: an operator with the value that is assigned (IEEE 1800-2017, 10.4
/// and 11.4.1), or an operator that adds one or takes one off (11.4.2). It stops where the grammar's machine stops and where memory
/// runs out, as every parser here does.
#[tactic(auto, using(sve_grammar::proofs::StartsOfStatements::assignment_operator_full, sve_grammar::proofs::StartsOfStatements::increment_operator_full), unfolding(sve_grammar::specs::Statements::assignment_or_increment))]
pub fn change(alloc: Global, tokens: &[Token], from: u32, depth: u32) -> Result<(Change, u32), Stop>
    requires few { length tokens.now < 2 ^ 32 }
    requires from { from ≤ length tokens.now }
    requires depth { depth ≤ 512 }
    ensures tree { Gives (λ x. (change_tree x.0, x.1)) result (at_depth tokens.now depth assignment_or_increment from) }
    ensures end { IfOk result (λ x. (from < x.1) × (x.1 ≤ length tokens.now)) }
{
    if let Some(kind) = assignment_operator(tokens, from) {
        let (value, end) = boxed_expr(alloc, tokens, from + 1, depth)?;
        let operator = Mark { kind, token: from };
        return Ok((Change::Assign { operator, value }, end));
    }
    if let Some(kind) = step_operator(tokens, from) {
        let operator = Mark { kind, token: from };
        return Ok((Change::Step { operator }, from + 1));
    }
    Err(Stop::At {
        index: from,
        deep: false,
    })
}

/// What a statement does with the name before `from` (A.6.2 and A.6.9), and the place behind it: an assignment, an increment or a
/// call.
#[tactic(auto, using(sve_grammar::proofs::StartsOfStatements::assignment_operator_full, sve_grammar::proofs::StartsOfStatements::increment_operator_full, sve_grammar::proofs::StartsOfExpressions::argument_list_starts, sve_grammar::proofs::StartsOfExpressions::argument_list_full), unfolding(sve_grammar::specs::Statements::statement_tail))]
pub fn statement_tail(
    alloc: Global,
    tokens: &[Token],
    from: u32,
    depth: u32,
) -> Result<(StatementTail, u32), Stop>
    requires few { length tokens.now < 2 ^ 32 }
    requires from { from ≤ length tokens.now }
    requires depth { depth ≤ 512 }
    ensures tree { Gives (λ x. (statement_tail_tree x.0, x.1)) result (at_depth tokens.now depth statement_tail from) }
    ensures end { IfOk result (λ x. (from < x.1) × (x.1 ≤ length tokens.now)) }
{
    if let Some(kind) = assignment_operator(tokens, from) {
        let (value, end) = boxed_expr(alloc, tokens, from + 1, depth)?;
        let operator = Mark { kind, token: from };
        return Ok((StatementTail::Assign { operator, value }, end));
    }
    if let Some(kind) = step_operator(tokens, from) {
        let operator = Mark { kind, token: from };
        return Ok((StatementTail::Step { operator }, from + 1));
    }
    if is_kind(tokens, from, Kind::LeftParen) {
        let (arguments, end) = argument_list(alloc, tokens, from, depth)?;
        return Ok((StatementTail::Call { arguments }, end));
    }
    Err(Stop::At {
        index: from,
        deep: false,
    })
}

/// The operator of an assignment (10.4 and 11.4.1), and the place behind it.
#[tactic(auto, using(crate::proofs::Stops::assignment_operator_stops))]
pub fn assignment_mark(
    tokens: &[Token],
    from: u32,
    depth: u32,
) -> Result<(Mark<AssignmentOperator>, u32), Stop>
    requires few { length tokens.now < 2 ^ 32 }
    requires from { from ≤ length tokens.now }
    requires depth { depth ≤ 512 }
    ensures tree { Gives (λ x. (mark_tree assignment_operator_tree x.0, x.1)) result (at_depth tokens.now depth assignment_operator from) }
    ensures end { IfOk result (λ x. (from < x.1) × (x.1 ≤ length tokens.now)) }
{
    if let Some(kind) = assignment_operator(tokens, from) {
        return Ok((Mark { kind, token: from }, from + 1));
    }
    Err(Stop::At {
        index: from,
        deep: false,
    })
}

/// The operator that adds one or takes one off (11.4.2), and the place behind it.
#[tactic(auto, using(crate::proofs::Stops::increment_operator_stops))]
pub fn step_mark(tokens: &[Token], from: u32, depth: u32) -> Result<(Mark<StepOperator>, u32), Stop>
    requires few { length tokens.now < 2 ^ 32 }
    requires from { from ≤ length tokens.now }
    requires depth { depth ≤ 512 }
    ensures tree { Gives (λ x. (mark_tree step_operator_tree x.0, x.1)) result (at_depth tokens.now depth increment_operator from) }
    ensures end { IfOk result (λ x. (from < x.1) × (x.1 ≤ length tokens.now)) }
{
    if let Some(kind) = step_operator(tokens, from) {
        return Ok((Mark { kind, token: from }, from + 1));
    }
    Err(Stop::At {
        index: from,
        deep: false,
    })
}
