//! Expressions by their operators, from the loosest to the tightest (IEEE 1800-2017, 11.3.2 and A.8.3).

ghost use Rattle.std.specs.Prelude.{◌≡◌, ◌<◌, ◌≤◌, ◌-◌, ◌^◌, true, length, Ok, IfOk};
ghost use Rattle.sve_grammar.specs.Rule.{sym, many};
ghost use Rattle.sve_grammar.specs.Expressions.{operations, operation, membership, value_range, more_value_ranges};
ghost use Rattle.sve_grammar.specs.Reading.{leaf, at_depth, both, with_right};
ghost use Rattle.sve_grammar.specs.Gives.{Gives};
ghost use Rattle.sve_tree.specs.Shape.{row_first, row_rest};
ghost use Rattle.sve_tree.specs.Expressions.{tree_at, expression_tree, height, operation_tree, operation_level, value_range_tree};
ghost use Rattle.sve_parse_expr.specs.Levels.{goes_on};

use crate::begins::prefix_operator;
use crate::boxes::boxed;
use crate::levels::{begins_operation, looser_level};
use crate::operands::primary;
use std::alloc::Global;
use sve_grammar::{Stop, Symbol, accept, enter, expect};
use sve_parse_word::{binary_operator, implication_operator};
use sve_token::{Keyword, Kind, Token};
use sve_tree::{Expr, Mark, Operation, Row, ValueRange};

/// An expression, and the number of the token behind it (A.8.3). It stops where the machine of the grammar stops: at the first
/// token that no expression goes on with, or `deep` where what begins there would be deeper than 512.
#[cycle(expression)]
#[tactic(auto, using(sve_tree::proofs::ExpressionTrees::expression_up, sve_tree::proofs::ExpressionTrees::implication_expr, sve_grammar::proofs::StartsOfExpressions::implication_operator_full), unfolding(sve_grammar::specs::Grammar::rule, sve_grammar::specs::Expressions::expression))]
pub fn boxed_expr(
    alloc: Global,
    tokens: &[Token],
    from: u32,
    depth: u32,
) -> Result<(Box<Expr>, u32), Stop>
    requires few { length tokens.now < 2 ^ 32 }
    requires from { from ≤ length tokens.now }
    requires depth { depth ≤ 512 }
    ensures tree { Gives (λ x. (expression_tree x.0, x.1)) result (at_depth tokens.now depth (sym Symbol.Expression) from) }
    ensures end { IfOk result (λ x. (from < x.1) × (x.1 ≤ length tokens.now)) }
{
    let depth = enter(tokens, from, depth, Symbol::Expression)?;
    let (left, at) = conditional(alloc, tokens, from, depth)?;
    let Some(kind) = implication_operator(tokens, at) else {
        return Ok((left, at));
    };
    let (right, end) = boxed_expr(alloc, tokens, at + 1, depth)?;
    let operator = Mark { kind, token: at };
    let value = boxed(
        alloc,
        Expr::Implication {
            left,
            operator,
            right,
        },
    )?;
    Ok((value, end))
}

/// An expression out of its box, as rows hold it.
#[cycle(expression)]
pub fn expr(alloc: Global, tokens: &[Token], from: u32, depth: u32) -> Result<(Expr, u32), Stop>
    requires few { length tokens.now < 2 ^ 32 }
    requires from { from ≤ length tokens.now }
    requires depth { depth ≤ 512 }
    ensures tree { Gives (λ x. (tree_at 13 x.0, x.1)) result (at_depth tokens.now depth (sym Symbol.Expression) from) }
    ensures end { IfOk result (λ x. (from < x.1) × (x.1 ≤ length tokens.now)) }
{
    let (value, end) = boxed_expr(alloc, tokens, from, depth)?;
    Ok((Box::into_inner(value), end))
}

/// Operations, or a choice by a condition (A.8.3). What stands behind `:` is a choice again, so choices group from the right (11.4.11).
#[cycle(expression)]
#[tactic(auto, using(sve_tree::proofs::ExpressionTrees::conditional_up, sve_tree::proofs::ExpressionTrees::conditional_expr), unfolding(sve_grammar::specs::Grammar::rule, sve_grammar::specs::Expressions::conditional))]
fn conditional(
    alloc: Global,
    tokens: &[Token],
    from: u32,
    depth: u32,
) -> Result<(Box<Expr>, u32), Stop>
    requires few { length tokens.now < 2 ^ 32 }
    requires from { from ≤ length tokens.now }
    requires depth { depth ≤ 512 }
    ensures tree { Gives (λ x. (tree_at 12 x.0.value, x.1)) result (at_depth tokens.now depth (sym Symbol.Conditional) from) }
    ensures end { IfOk result (λ x. (from < x.1) × (x.1 ≤ length tokens.now)) }
    ensures height { IfOk result (λ x. height x.0.value ≤ 12) }
{
    let depth = enter(tokens, from, depth, Symbol::Conditional)?;
    let (condition, at) = operations(alloc, tokens, from, depth, 11)?;
    let Some(next) = accept(tokens, at, Kind::Question) else {
        return Ok((condition, at));
    };
    let (chosen, colon) = boxed_expr(alloc, tokens, next, depth)?;
    let next = expect(tokens, colon, Kind::Colon)?;
    let (otherwise, end) = conditional(alloc, tokens, next, depth)?;
    let value = boxed(
        alloc,
        Expr::Conditional {
            condition,
            question: at,
            chosen,
            colon,
            otherwise,
        },
    )?;
    Ok((value, end))
}

/// Operands with operators between them, of this level and the tighter ones (Table 11-2; the tightest level is 1). At level 0 it is
/// one operand with its unary operators. Levels at which nothing goes on are passed over.
#[cycle(expression)]
fn operations(
    alloc: Global,
    tokens: &[Token],
    from: u32,
    depth: u32,
    level: u32,
) -> Result<(Box<Expr>, u32), Stop>
    requires few { length tokens.now < 2 ^ 32 }
    requires from { from ≤ length tokens.now }
    requires depth { depth ≤ 512 }
    requires level { level ≤ 11 }
    ensures tree { Gives (λ x. (tree_at level x.0.value, x.1)) result (at_depth tokens.now depth (operations level) from) }
    ensures end { IfOk result (λ x. (from < x.1) × (x.1 ≤ length tokens.now)) }
    ensures height { IfOk result (λ x. height x.0.value ≤ level) }
{
    let (mut left, mut at) = unary(alloc, tokens, from, depth)?;
    let mut done = 0;
    'levels: while let Some(next) = looser_level(tokens, at, done, level) {
        let (longer, end) = chain(alloc, tokens, at, depth, next, left)?;
        left = longer;
        at = end;
        done = next;
    }
    Ok((left, at))
}

/// The operations of this level behind their first operand, which ends in front of `from`, where one of them begins: one chain of
/// them all, grouped from the left.
#[cycle(expression)]
fn chain(
    alloc: Global,
    tokens: &[Token],
    from: u32,
    depth: u32,
    level: u32,
    first: Box<Expr>,
) -> Result<(Box<Expr>, u32), Stop>
    requires few { length tokens.now < 2 ^ 32 }
    requires from { from ≤ length tokens.now }
    requires depth { depth ≤ 512 }
    requires level { (0 < level) × (level ≤ 11) }
    requires begins { goes_on tokens.now from level ≡ true }
    ensures tree { Gives (λ x. (tree_at level x.0.value, x.1)) result (both (Ok (tree_at (level - 1) first.value, from)) (λ i. at_depth tokens.now depth (many (operation level (operations (level - 1)))) i)) }
    ensures end { IfOk result (λ x. (from < x.1) × (x.1 ≤ length tokens.now)) }
    ensures height { IfOk result (λ x. height x.0.value ≤ level) }
{
    let mut items = Vec::new(alloc);
    let mut at = from;
    'turns: while begins_operation(tokens, at, level) {
        let (item, end) = operation(alloc, tokens, at, depth, level)?;
        items.push(item)?;
        at = end;
    }
    let value = boxed(
        alloc,
        Expr::Operations {
            first,
            operations: items,
        },
    )?;
    Ok((value, at))
}

/// An operator of this level and its right operand, or a membership on the level of the comparisons by order. One of them begins here.
#[cycle(expression)]
fn operation(
    alloc: Global,
    tokens: &[Token],
    from: u32,
    depth: u32,
    level: u32,
) -> Result<(Operation, u32), Stop>
    requires few { length tokens.now < 2 ^ 32 }
    requires from { from ≤ length tokens.now }
    requires depth { depth ≤ 512 }
    requires level { (0 < level) × (level ≤ 11) }
    requires begins { goes_on tokens.now from level ≡ true }
    ensures tree { Gives (λ x. (operation_tree x.0, x.1)) result (at_depth tokens.now depth (operation level (operations (level - 1))) from) }
    ensures end { IfOk result (λ x. (from < x.1) × (x.1 ≤ length tokens.now)) }
    ensures level { IfOk result (λ x. operation_level x.0 ≡ level) }
{
    if let Some(kind) = binary_operator(tokens, from, level) {
        let (right, end) = operations(alloc, tokens, from + 1, depth, level - 1)?;
        let operator = Mark { kind, token: from };
        let right = Box::into_inner(right);
        return Ok((Operation::Binary { operator, right }, end));
    }
    membership(alloc, tokens, from, depth)
}

/// `inside` and the values and ranges in braces behind it (11.4.13).
#[cycle(expression)]
#[tactic(auto, using(sve_tree::proofs::ExpressionTrees::inside_operation), unfolding(sve_grammar::specs::Expressions::membership))]
fn membership(
    alloc: Global,
    tokens: &[Token],
    from: u32,
    depth: u32,
) -> Result<(Operation, u32), Stop>
    requires few { length tokens.now < 2 ^ 32 }
    requires from { from ≤ length tokens.now }
    requires depth { depth ≤ 512 }
    ensures tree { Gives (λ x. (operation_tree x.0, x.1)) result (with_right (at_depth tokens.now depth membership from)) }
    ensures end { IfOk result (λ x. (from < x.1) × (x.1 ≤ length tokens.now)) }
    ensures level { IfOk result (λ x. operation_level x.0 ≡ 5) }
{
    let opening = expect(tokens, from, Kind::Keyword(Keyword::KwInside))?;
    let at = expect(tokens, opening, Kind::LeftBrace)?;
    let (first, at) = value_range(alloc, tokens, at, depth)?;
    let (ranges, closing) = more_value_ranges(alloc, tokens, at, depth, first)?;
    let end = expect(tokens, closing, Kind::RightBrace)?;
    Ok((
        Operation::Inside {
            keyword: from,
            opening,
            ranges,
            closing,
        },
        end,
    ))
}

/// A value, or all values between two bounds in brackets: value_range (A.8.3).
#[cycle(expression)]
#[tactic(auto, using(sve_tree::proofs::ExpressionTrees::between_value_range, sve_tree::proofs::ExpressionTrees::value_value_range, crate::proofs::Ways::value_range_bracket, crate::proofs::Ways::value_range_value))]
fn value_range(
    alloc: Global,
    tokens: &[Token],
    from: u32,
    depth: u32,
) -> Result<(ValueRange, u32), Stop>
    requires few { length tokens.now < 2 ^ 32 }
    requires from { from ≤ length tokens.now }
    requires depth { depth ≤ 512 }
    ensures tree { Gives (λ x. (value_range_tree x.0, x.1)) result (at_depth tokens.now depth value_range from) }
    ensures end { IfOk result (λ x. (from < x.1) × (x.1 ≤ length tokens.now)) }
{
    if let Some(next) = accept(tokens, from, Kind::LeftBracket) {
        let (low, colon) = boxed_expr(alloc, tokens, next, depth)?;
        let next = expect(tokens, colon, Kind::Colon)?;
        let (high, closing) = boxed_expr(alloc, tokens, next, depth)?;
        let end = expect(tokens, closing, Kind::RightBracket)?;
        return Ok((
            ValueRange::Between {
                opening: from,
                low,
                colon,
                high,
                closing,
            },
            end,
        ));
    }
    let (value, end) = boxed_expr(alloc, tokens, from, depth)?;
    Ok((ValueRange::Value { value }, end))
}

/// The row of values and ranges whose first stands in front of `from`: what follows it, each behind a comma.
#[cycle(expression)]
#[tactic(auto, unfolding(sve_grammar::specs::Expressions::more_value_ranges))]
fn more_value_ranges(
    alloc: Global,
    tokens: &[Token],
    from: u32,
    depth: u32,
    first: ValueRange,
) -> Result<(Row<ValueRange>, u32), Stop>
    requires few { length tokens.now < 2 ^ 32 }
    requires from { from ≤ length tokens.now }
    requires depth { depth ≤ 512 }
    ensures tree { Gives (λ x. (row_rest value_range_tree leaf x.0, x.1)) result (at_depth tokens.now depth more_value_ranges from) }
    ensures first { IfOk result (λ x. row_first value_range_tree x.0 ≡ value_range_tree first) }
    ensures end { IfOk result (λ x. (from ≤ x.1) × (x.1 ≤ length tokens.now)) }
{
    let mut items = Vec::new(alloc);
    let mut separators = Vec::new(alloc);
    let mut at = from;
    items.push(first)?;
    'turns: while let Some(next) = accept(tokens, at, Kind::Comma) {
        let (range, end) = value_range(alloc, tokens, next, depth)?;
        separators.push(at)?;
        items.push(range)?;
        at = end;
    }
    Ok((Row { items, separators }, at))
}

/// An operand with its unary operators (A.8.3): they bind tighter than every binary operator, so `-a ** b` is `(-a) ** b`.
#[cycle(expression)]
#[tactic(auto, using(sve_tree::proofs::ExpressionTrees::unary_expr, crate::proofs::Ways::unary_before, crate::proofs::Ways::unary_plain), unfolding(sve_grammar::specs::Grammar::rule))]
fn unary(alloc: Global, tokens: &[Token], from: u32, depth: u32) -> Result<(Box<Expr>, u32), Stop>
    requires few { length tokens.now < 2 ^ 32 }
    requires from { from ≤ length tokens.now }
    requires depth { depth ≤ 512 }
    ensures tree { Gives (λ x. (tree_at 0 x.0.value, x.1)) result (at_depth tokens.now depth (sym Symbol.Unary) from) }
    ensures end { IfOk result (λ x. (from < x.1) × (x.1 ≤ length tokens.now)) }
    ensures height { IfOk result (λ x. height x.0.value ≡ 0) }
{
    let depth = enter(tokens, from, depth, Symbol::Unary)?;
    if let Some(kind) = prefix_operator(tokens, from) {
        let (operand, end) = unary(alloc, tokens, from + 1, depth)?;
        let operator = Mark { kind, token: from };
        let value = boxed(alloc, Expr::Unary { operator, operand })?;
        return Ok((value, end));
    }
    let (value, end) = primary(alloc, tokens, from, depth)?;
    let value = boxed(alloc, value)?;
    Ok((value, end))
}
