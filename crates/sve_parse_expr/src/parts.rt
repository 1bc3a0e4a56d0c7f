//! Dimensions, selects, and what is applied to a name (IEEE 1800-2017, A.2.5, A.8.3 and A.8.4).

ghost use Rattle.std.specs.Prelude.{◌<◌, ◌≤◌, ◌^◌, length, IfOk};
ghost use Rattle.sve_grammar.specs.Expressions.{dimension, dimensions, range, bracket_select, bracket_selects, select, selects, postfix, postfixes};
ghost use Rattle.sve_grammar.specs.Reading.{at_depth};
ghost use Rattle.sve_grammar.specs.Gives.{Gives};
ghost use Rattle.sve_tree.specs.Shape.{repeated_tree};
ghost use Rattle.sve_tree.specs.Expressions.{dimension_tree, range_tree, range_select_tree, select_tree, postfix_tree};

use crate::begins::{begins_postfix, begins_select};
use crate::lists::{argument_list, pattern};
use crate::operands::cast;
use crate::operators::boxed_expr;
use std::alloc::Global;
use sve_grammar::{Stop, accept, expect, is_kind};
use sve_token::{Kind, Token};
use sve_tree::{Dimension, Postfix, Range, RangeSelect, Select};

/// A dimension: a size or two bounds in brackets (A.2.5).
#[cycle(expression)]
#[tactic(auto, using(sve_tree::proofs::ExpressionTrees::range_dimension, sve_tree::proofs::ExpressionTrees::size_dimension), unfolding(sve_grammar::specs::Expressions::dimension))]
pub fn dimension(
    alloc: Global,
    tokens: &[Token],
    from: u32,
    depth: u32,
) -> Result<(Dimension, u32), Stop>
    requires few { length tokens.now < 2 ^ 32 }
    requires from { from ≤ length tokens.now }
    requires depth { depth ≤ 512 }
    ensures tree { Gives (λ x. (dimension_tree x.0, x.1)) result (at_depth tokens.now depth dimension from) }
    ensures end { IfOk result (λ x. (from < x.1) × (x.1 ≤ length tokens.now)) }
{
    let next = expect(tokens, from, Kind::LeftBracket)?;
    let (first, at) = boxed_expr(alloc, tokens, next, depth)?;
    if let Some(next) = accept(tokens, at, Kind::Colon) {
        let (right, closing) = boxed_expr(alloc, tokens, next, depth)?;
        let end = expect(tokens, closing, Kind::RightBracket)?;
        return Ok((
            Dimension::Range {
                opening: from,
                left: first,
                colon: at,
                right,
                closing,
            },
            end,
        ));
    }
    let end = expect(tokens, at, Kind::RightBracket)?;
    Ok((
        Dimension::Size {
            opening: from,
            size: first,
            closing: at,
        },
        end,
    ))
}

/// Dimensions, one behind the other, or none.
#[cycle(expression)]
#[tactic(auto, unfolding(sve_grammar::specs::Expressions::dimensions))]
pub fn dimensions(
    alloc: Global,
    tokens: &[Token],
    from: u32,
    depth: u32,
) -> Result<(Vec<Dimension>, u32), Stop>
    requires few { length tokens.now < 2 ^ 32 }
    requires from { from ≤ length tokens.now }
    requires depth { depth ≤ 512 }
    ensures tree { Gives (λ x. (repeated_tree dimension_tree x.0.items, x.1)) result (at_depth tokens.now depth dimensions from) }
    ensures end { IfOk result (λ x. (from ≤ x.1) × (x.1 ≤ length tokens.now)) }
{
    let mut items = Vec::new(alloc);
    let mut at = from;
    'turns: while is_kind(tokens, at, Kind::LeftBracket) {
        let (item, end) = dimension(alloc, tokens, at, depth)?;
        items.push(item)?;
        at = end;
    }
    Ok((items, at))
}

/// One place, those from one to another, or so many upward or downward: part_select_range (A.8.3).
#[cycle(expression)]
#[tactic(auto, using(sve_tree::proofs::ExpressionTrees::between_range, sve_tree::proofs::ExpressionTrees::upward_range, sve_tree::proofs::ExpressionTrees::downward_range, sve_tree::proofs::ExpressionTrees::index_range), unfolding(sve_grammar::specs::Expressions::range, sve_grammar::specs::Expressions::range_end))]
pub fn range(alloc: Global, tokens: &[Token], from: u32, depth: u32) -> Result<(Range, u32), Stop>
    requires few { length tokens.now < 2 ^ 32 }
    requires from { from ≤ length tokens.now }
    requires depth { depth ≤ 512 }
    ensures tree { Gives (λ x. (range_tree x.0, x.1)) result (at_depth tokens.now depth range from) }
    ensures end { IfOk result (λ x. (from < x.1) × (x.1 ≤ length tokens.now)) }
{
    let (first, at) = boxed_expr(alloc, tokens, from, depth)?;
    if let Some(next) = accept(tokens, at, Kind::Colon) {
        let (right, end) = boxed_expr(alloc, tokens, next, depth)?;
        return Ok((
            Range::Between {
                left: first,
                colon: at,
                right,
            },
            end,
        ));
    }
    if let Some(next) = accept(tokens, at, Kind::PlusColon) {
        let (width, end) = boxed_expr(alloc, tokens, next, depth)?;
        return Ok((
            Range::Upward {
                from: first,
                at,
                width,
            },
            end,
        ));
    }
    if let Some(next) = accept(tokens, at, Kind::MinusColon) {
        let (width, end) = boxed_expr(alloc, tokens, next, depth)?;
        return Ok((
            Range::Downward {
                from: first,
                at,
                width,
            },
            end,
        ));
    }
    Ok((Range::Index { index: first }, at))
}

/// A range in brackets.
#[cycle(expression)]
#[tactic(auto, unfolding(sve_grammar::specs::Expressions::bracket_select))]
pub fn bracket_select(
    alloc: Global,
    tokens: &[Token],
    from: u32,
    depth: u32,
) -> Result<(RangeSelect, u32), Stop>
    requires few { length tokens.now < 2 ^ 32 }
    requires from { from ≤ length tokens.now }
    requires depth { depth ≤ 512 }
    ensures tree { Gives (λ x. (range_select_tree x.0, x.1)) result (at_depth tokens.now depth bracket_select from) }
    ensures end { IfOk result (λ x. (from < x.1) × (x.1 ≤ length tokens.now)) }
{
    let next = expect(tokens, from, Kind::LeftBracket)?;
    let (range, closing) = range(alloc, tokens, next, depth)?;
    let end = expect(tokens, closing, Kind::RightBracket)?;
    Ok((
        RangeSelect {
            opening: from,
            range,
            closing,
        },
        end,
    ))
}

/// Ranges in brackets, one behind the other, or none.
#[cycle(expression)]
#[tactic(auto, unfolding(sve_grammar::specs::Expressions::bracket_selects))]
pub(crate) fn bracket_selects(
    alloc: Global,
    tokens: &[Token],
    from: u32,
    depth: u32,
) -> Result<(Vec<RangeSelect>, u32), Stop>
    requires few { length tokens.now < 2 ^ 32 }
    requires from { from ≤ length tokens.now }
    requires depth { depth ≤ 512 }
    ensures tree { Gives (λ x. (repeated_tree range_select_tree x.0.items, x.1)) result (at_depth tokens.now depth bracket_selects from) }
    ensures end { IfOk result (λ x. (from ≤ x.1) × (x.1 ≤ length tokens.now)) }
{
    let mut items = Vec::new(alloc);
    let mut at = from;
    'turns: while is_kind(tokens, at, Kind::LeftBracket) {
        let (item, end) = bracket_select(alloc, tokens, at, depth)?;
        items.push(item)?;
        at = end;
    }
    Ok((items, at))
}

/// A member, or a range in brackets: a part of select (A.8.4).
#[cycle(expression)]
#[tactic(auto, using(sve_tree::proofs::ExpressionTrees::member_select, sve_tree::proofs::ExpressionTrees::range_select, crate::proofs::Ways::select_member, crate::proofs::Ways::select_bracket))]
pub fn select(alloc: Global, tokens: &[Token], from: u32, depth: u32) -> Result<(Select, u32), Stop>
    requires few { length tokens.now < 2 ^ 32 }
    requires from { from ≤ length tokens.now }
    requires depth { depth ≤ 512 }
    ensures tree { Gives (λ x. (select_tree x.0, x.1)) result (at_depth tokens.now depth select from) }
    ensures end { IfOk result (λ x. (from < x.1) × (x.1 ≤ length tokens.now)) }
{
    if let Some(name) = accept(tokens, from, Kind::Dot) {
        let end = expect(tokens, name, Kind::Identifier)?;
        return Ok((Select::Member { dot: from, name }, end));
    }
    let (select, end) = bracket_select(alloc, tokens, from, depth)?;
    Ok((Select::Range { select }, end))
}

/// Members and ranges in brackets, one behind the other, or none: select (A.8.4).
#[cycle(expression)]
#[tactic(auto, unfolding(sve_grammar::specs::Expressions::selects))]
pub fn selects(
    alloc: Global,
    tokens: &[Token],
    from: u32,
    depth: u32,
) -> Result<(Vec<Select>, u32), Stop>
    requires few { length tokens.now < 2 ^ 32 }
    requires from { from ≤ length tokens.now }
    requires depth { depth ≤ 512 }
    ensures tree { Gives (λ x. (repeated_tree select_tree x.0.items, x.1)) result (at_depth tokens.now depth selects from) }
    ensures end { IfOk result (λ x. (from ≤ x.1) × (x.1 ≤ length tokens.now)) }
{
    let mut items = Vec::new(alloc);
    let mut at = from;
    'turns: while begins_select(tokens, at) {
        let (item, end) = select(alloc, tokens, at, depth)?;
        items.push(item)?;
        at = end;
    }
    Ok((items, at))
}

/// What is applied to a name: a member or a range, the arguments of a call, a cast to the type, or a pattern of the type (A.8.4).
#[cycle(expression)]
#[tactic(auto, using(sve_tree::proofs::ExpressionTrees::select_postfix, sve_tree::proofs::ExpressionTrees::call_postfix, sve_tree::proofs::ExpressionTrees::cast_postfix, sve_tree::proofs::ExpressionTrees::pattern_postfix, crate::proofs::Ways::postfix_select, crate::proofs::Ways::postfix_call, crate::proofs::Ways::postfix_cast, crate::proofs::Ways::postfix_pattern))]
fn postfix(alloc: Global, tokens: &[Token], from: u32, depth: u32) -> Result<(Postfix, u32), Stop>
    requires few { length tokens.now < 2 ^ 32 }
    requires from { from ≤ length tokens.now }
    requires depth { depth ≤ 512 }
    ensures tree { Gives (λ x. (postfix_tree x.0, x.1)) result (at_depth tokens.now depth postfix from) }
    ensures end { IfOk result (λ x. (from < x.1) × (x.1 ≤ length tokens.now)) }
{
    if begins_select(tokens, from) {
        let (select, end) = select(alloc, tokens, from, depth)?;
        return Ok((Postfix::Select { select }, end));
    }
    if is_kind(tokens, from, Kind::LeftParen) {
        let (arguments, end) = argument_list(alloc, tokens, from, depth)?;
        return Ok((Postfix::Call { arguments }, end));
    }
    if is_kind(tokens, from, Kind::Apostrophe) {
        let (cast, end) = cast(alloc, tokens, from, depth)?;
        return Ok((Postfix::Cast { cast }, end));
    }
    let (pattern, end) = pattern(alloc, tokens, from, depth)?;
    Ok((Postfix::Pattern { pattern }, end))
}

/// What is applied to a name, one behind the other, or nothing.
#[cycle(expression)]
#[tactic(auto, unfolding(sve_grammar::specs::Expressions::postfixes))]
pub(crate) fn postfixes(
    alloc: Global,
    tokens: &[Token],
    from: u32,
    depth: u32,
) -> Result<(Vec<Postfix>, u32), Stop>
    requires few { length tokens.now < 2 ^ 32 }
    requires from { from ≤ length tokens.now }
    requires depth { depth ≤ 512 }
    ensures tree { Gives (λ x. (repeated_tree postfix_tree x.0.items, x.1)) result (at_depth tokens.now depth postfixes from) }
    ensures end { IfOk result (λ x. (from ≤ x.1) × (x.1 ≤ length tokens.now)) }
{
    let mut items = Vec::new(alloc);
    let mut at = from;
    'turns: while begins_postfix(tokens, at) {
        let (item, end) = postfix(alloc, tokens, at, depth)?;
        items.push(item)?;
        at = end;
    }
    Ok((items, at))
}
